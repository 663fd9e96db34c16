// The passes: their numbers as settings and params, 7 where there is no room for twelve words or no label box, else the pass, its outcome as twelve
// words and the box that it leaves.
ghost use Rattle.std.specs.Prelude.{◌≡◌, []};
ghost use Rattle.sheet.specs.Corners.{corner_lists};
ghost use Rattle.arguments.specs.declared.Pass.{Pass};
ghost use Rattle.grid_words.specs.Words.{answered};
ghost use Rattle.grid_export.specs.Passes.{settings_of, grow_params, fill_params, local_params, pass_left, pass_exported};

use arguments::{FillParams, GrowParams, LocalExtensionParams, Pass, Settings};
use grid_words::around::{BOX_PLACES, box_told, enter_box};
use predict::{Grid, Vector};
use refusal::Refusal;
use roles::Role;
use sizes::OUTCOME_WORDS;

// Cell size, axes and band.
// Stays: the C interface passes each number and lends each buffer by itself (a).
fn settings_of(
    cell_size: f32,
    axis_i_x: f32,
    axis_i_y: f32,
    axis_j_x: f32,
    axis_j_y: f32,
    edge_length_tol: f32,
) -> Settings
    ensures { result ≡ settings_of cell_size axis_i_x axis_i_y axis_j_x axis_j_y edge_length_tol }
{
    Settings {
        grid: Grid {
            axis_i: Vector {
                x: axis_i_x,
                y: axis_i_y,
            },
            axis_j: Vector {
                x: axis_j_x,
                y: axis_j_y,
            },
            cell_size,
        },
        edge_length_tol,
    }
}

// A pass, with the label box that five numbers stand for, and with room for twelve words: its outcome is put in these, and the box that it leaves is
// entered over the five.
// Stays: the lists are lent on to `call_pass`, which lends each by itself (d).
#[tactic(auto, unfolding(crate::specs::Passes::pass_exported, crate::specs::Passes::lent_short))]
fn pass_or_short(
    xs: &[f32],
    ys: &[f32],
    pitches: &[f32],
    shades: &[u8],
    sheet: &mut [u16],
    around: &mut [i32],
    queue: &mut [u16],
    attached: &mut [u16],
    settings: Settings,
    pass: Pass,
    out: &mut [u32],
) -> Result<(), Refusal>
    ensures { pass_left (answered result) sheet.new around.new queue.new attached.new out.new
        ≡ pass_exported (corner_lists xs.now ys.now pitches.now) shades.now settings pass
        sheet.old around.old queue.old attached.old out.old }
{
    if around.len() < BOX_PLACES || out.len() < OUTCOME_WORDS {
        return Err(Refusal::BufferTooShort);
    }
    let handed = box_told(around);
    let (stats, left) = pass_call::call_pass(
        xs, ys, pitches, shades, sheet, handed, queue, attached, settings, pass,
    )?;
    report_words::put::put_outcome(out, 0, Role::default(), Ok(stats));
    enter_box(around, left);
    Ok(())
}

// Grow. `around` has the five numbers of the sheet's label box and takes those of the one that is left; `out` takes the twelve words of its outcome.
// Stays: the C interface passes each number and lends each buffer by itself (a).
#[unsafe(no_mangle)]
pub extern "C" fn projective_grid_extend_from_labelled(
    xs: &[f32],
    ys: &[f32],
    pitches: &[f32],
    shades: &[u8],
    sheet: &mut [u16],
    around: &mut [i32],
    queue: &mut [u16],
    attached: &mut [u16],
    cell_size: f32,
    axis_i_x: f32,
    axis_i_y: f32,
    axis_j_x: f32,
    axis_j_y: f32,
    edge_length_tol: f32,
    attach_search_rel: f32,
    attach_ambiguity_factor: f32,
    boundary_search_factor: f32,
    out: &mut [u32],
) -> u32
    ensures { pass_left result sheet.new around.new queue.new attached.new out.new
        ≡ pass_exported (corner_lists xs.now ys.now pitches.now) shades.now
        (settings_of cell_size axis_i_x axis_i_y axis_j_x axis_j_y edge_length_tol)
        (Pass.Grow (grow_params attach_search_rel attach_ambiguity_factor boundary_search_factor))
        sheet.old around.old queue.old attached.old out.old }
{
    let settings = settings_of(
        cell_size,
        axis_i_x,
        axis_i_y,
        axis_j_x,
        axis_j_y,
        edge_length_tol,
    );
    let params = GrowParams {
        attach_search_rel,
        attach_ambiguity_factor,
        boundary_search_factor,
    };
    let outcome = pass_or_short(
        xs,
        ys,
        pitches,
        shades,
        sheet,
        around,
        queue,
        attached,
        settings,
        Pass::Grow(params),
        out,
    );
    grid_words::words::answered(outcome)
}

// Fill, as grow, but it is lent no queue.
// Stays: the C interface passes each number and lends each buffer by itself (a).
#[unsafe(no_mangle)]
pub extern "C" fn projective_grid_fill_grid_holes(
    xs: &[f32],
    ys: &[f32],
    pitches: &[f32],
    shades: &[u8],
    sheet: &mut [u16],
    around: &mut [i32],
    attached: &mut [u16],
    cell_size: f32,
    axis_i_x: f32,
    axis_i_y: f32,
    axis_j_x: f32,
    axis_j_y: f32,
    edge_length_tol: f32,
    attach_search_rel: f32,
    attach_ambiguity_factor: f32,
    max_iters: u32,
    out: &mut [u32],
) -> u32
    ensures { pass_left result sheet.new around.new [] attached.new out.new
        ≡ pass_exported (corner_lists xs.now ys.now pitches.now) shades.now
        (settings_of cell_size axis_i_x axis_i_y axis_j_x axis_j_y edge_length_tol)
        (Pass.Fill (fill_params attach_search_rel attach_ambiguity_factor max_iters))
        sheet.old around.old [] attached.old out.old }
{
    let mut none = [0u16; 0];
    let settings = settings_of(
        cell_size,
        axis_i_x,
        axis_i_y,
        axis_j_x,
        axis_j_y,
        edge_length_tol,
    );
    let params = FillParams {
        attach_search_rel,
        attach_ambiguity_factor,
        max_iters,
    };
    let outcome = pass_or_short(
        xs,
        ys,
        pitches,
        shades,
        sheet,
        around,
        &mut none,
        attached,
        settings,
        Pass::Fill(params),
        out,
    );
    grid_words::words::answered(outcome)
}

// Local, as grow, but it is lent no queue.
// Stays: the C interface passes each number and lends each buffer by itself (a).
#[unsafe(no_mangle)]
pub extern "C" fn projective_grid_extend_via_local_homography(
    xs: &[f32],
    ys: &[f32],
    pitches: &[f32],
    shades: &[u8],
    sheet: &mut [u16],
    around: &mut [i32],
    attached: &mut [u16],
    cell_size: f32,
    axis_i_x: f32,
    axis_i_y: f32,
    axis_j_x: f32,
    axis_j_y: f32,
    edge_length_tol: f32,
    search_rel: f32,
    ambiguity_factor: f32,
    max_iters: u32,
    max_residual_rel: f32,
    extend_depth: u32,
    out: &mut [u32],
) -> u32
    ensures { pass_left result sheet.new around.new [] attached.new out.new
        ≡ pass_exported (corner_lists xs.now ys.now pitches.now) shades.now
        (settings_of cell_size axis_i_x axis_i_y axis_j_x axis_j_y edge_length_tol)
        (Pass.Local (local_params search_rel ambiguity_factor max_iters max_residual_rel extend_depth))
        sheet.old around.old [] attached.old out.old }
{
    let mut none = [0u16; 0];
    let settings = settings_of(
        cell_size,
        axis_i_x,
        axis_i_y,
        axis_j_x,
        axis_j_y,
        edge_length_tol,
    );
    let params = LocalExtensionParams {
        search_rel,
        ambiguity_factor,
        max_iters,
        max_residual_rel,
        extend_depth,
    };
    let outcome = pass_or_short(
        xs,
        ys,
        pitches,
        shades,
        sheet,
        around,
        &mut none,
        attached,
        settings,
        Pass::Local(params),
        out,
    );
    grid_words::words::answered(outcome)
}
