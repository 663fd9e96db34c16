// Fill (01, "Sheet"; port of shared/fill.rs): rounds over the unlabelled cells of the label box and one strip along each whole
// side, by i then j, each tried at its prediction. If any shade stands, a cell takes only corners of its kind (02, 1/14).

#![tactic(auto)]

ghost use Rattle.std.specs.Prelude.{◌≡◌, ◌≤◌, ◌&&◌, length, Ok};
ghost use Rattle.sheet.specs.Corners.{Given, corner_lists};
ghost use Rattle.labels.specs.Labelled.{label_count};
ghost use Rattle.labels.specs.Box.{box_of};
ghost use Rattle.labels.specs.Used.{OneCell, Tied};
ghost use Rattle.arguments.specs.Shades.{corners_of};
ghost use Rattle.arguments.specs.Asked.{lists_of};
ghost use Rattle.arguments.specs.Accepted.{Accepted};
ghost use Rattle.passes.specs.Outcome.{done};
ghost use Rattle.passes.specs.Fill.{near_i, near_j, box_and_strips, fill_search, fill_limit, fill_after};
ghost use Rattle.passes.specs.Step.{fill_step, fill_out, fill_leaves, lent_of, rooms};
ghost use Rattle.passes.specs.Said.{fill_values, fill_said, outcome_due};

use arguments::{FillParams, LentCorners, Pass, Settings};
use candidates::HeldCorners;
use extension_common::{ChoiceRule, Search, Trial, TryCellResult};
use labels::{Bounds, KeptBox};
use passes::FillStats;
use refusal::Refusal;
use sheet::{Cell, CornerArrays, CornerCount};
use sizes::CORNERS;

// Whether a cell lies in the box, or at most so many lines past it by i and by j.
fn is_near(b: Bounds, past_i: u32, past_j: u32, c: Cell) -> bool
    ensures { result ≡ (near_i past_i b c && near_j past_j b c) }
{
    region::is_near_i(b, past_i, c) && region::is_near_j(b, past_j, c)
}

// Whether a cell is one that a round walks, if it is unlabelled: it lies in the label box or in the strip along a whole side.
#[tactic(auto, unfolding(passes::specs::Fill::box_and_strips))]
fn is_fill_cell(around: Option<Bounds>, c: Cell) -> bool
    ensures { result ≡ box_and_strips around c }
{
    around.is_some_and(|b| is_near(b, 0, 1, c) || is_near(b, 1, 0, c))
}

// How many rounds there may be: none where no cell is labelled, else the limit, where 0 acts as 1.
#[tactic(auto, unfolding(passes::specs::Fill::fill_limit))]
fn round_limit(labels: usize, max_iters: u32) -> usize
    ensures { result ≡ fill_limit labels max_iters }
{
    if labels == 0 {
        0
    } else {
        max_iters.max(1) as usize
    }
}

// The settings of a call, and the numbers of the pass.
// Stays: each pass has its own numbers; a generic struct of `passes` would share two fields and turn these methods into functions (d).
#[derive(Clone, Copy)]
struct FillSetup {
    settings: Settings,
    params: FillParams,
}

impl FillSetup {
    // How a cell is searched: search times cell size as the radius, and fill's rule of choice.
    #[tactic(auto, unfolding(passes::specs::Fill::fill_search))]
    fn search(self) -> Search
        ensures { result ≡ fill_search self.settings self.params }
    {
        Search {
            search_r: self.params.attach_search_rel * self.settings.grid.cell_size,
            ambiguity_factor: self.params.attach_ambiguity_factor,
            rule: ChoiceRule::WithFloor,
        }
    }
}

// A pass: the corners, and how they are searched; the lent sheet, and its label box; the lent list, the first `made` places of which are the
// cells that are new; and which corners are used.
#[derive(Drop)]
struct Filling<'a> {
    corners: &'a CornerArrays,
    setup: FillSetup,
    sheet: &'a mut [u16],
    around: Option<Bounds>,
    attached: &'a mut [u16],
    used: [bool; CORNERS],
    made: usize,
    ghost given: { Given corners.now.count.number sheet.now },
    ghost one_cell: { OneCell sheet.now },
    ghost around_is: { around ≡ box_of sheet.now },
    ghost tied: { Tied sheet.now used },
    ghost list_long: { corners.now.count.number ≤ length attached.now },
    ghost room: { made ≤ label_count sheet.now },
}

impl<'a> Filling<'a> {
    ghost use Rattle.std.specs.Prelude.{◌<◌};
    ghost use Rattle.sizes.specs.Sizes.{place_count};
    ghost use Rattle.sheet.specs.Cells.{OnSheet};
    ghost use Rattle.passes.specs.Fill.{fill_visit, fill_round, fill_from};
    ghost use Rattle.fill.specs.Filling.{held, state_of, found_at, Left, Trying, Taking, Wrote, looked_at, stats_of, start_of, RoundsLeft};

    // What is found at a cell: it is tried at its prediction; one with no labelled neighbour has no candidate.
    fn try_cell(&self, c: Cell) -> TryCellResult
        requires { OnSheet c }
        ensures { result ≡ found_at (held self.now) self.now.setup.settings self.now.setup.params self.now.sheet.now c }
    {
        let setup = self.setup;
        let trial = Trial {
            held: HeldCorners {
                corners: self.corners,
                used: &self.used,
            },
            sheet: self.sheet,
            c,
            search: setup.search(),
            tol: passes::tolerances_of(setup.settings),
        };
        trial.try_predicted(setup.settings.grid)
    }

    // Attaches a corner to a cell: the sheet, the next place of the attached list and the corner's entry are written, and the kept box is widened.
    fn attach_corner(&mut self, c: Cell, k: usize)
        requires { Taking self.old c k }
        ensures { Wrote self.old self.new c k }
    {
        self.attached[self.made] = sheet::place_of(c) as u16;
        sheet::attach(self.sheet, c, k);
        self.around = labels::widen(self.around, c);
        self.used[k] = true;
        self.made += 1;
    }

    // Tries an unlabelled cell: where a corner is found, it is attached, else nothing is written.
    fn try_fill_cell(&mut self, c: Cell)
        requires { Trying self.old c }
        ensures { Left self.old self.new (fill_visit (held self.old) self.old.setup.settings self.old.setup.params c (state_of self.old)) }
    {
        if let Ok(k) = self.try_cell(c) {
            self.attach_corner(c, k);
        }
    }

    // Looks at a place: its cell is tried if it lies in the region about `around` and is unlabelled.
    fn fill_place(&mut self, around: Option<Bounds>, place: usize)
        requires { place < place_count }
        ensures { Left self.old self.new
            (looked_at (held self.old) self.old.setup.settings self.old.setup.params around place (state_of self.old)) }
    {
        let c = sheet::cell_of(place);
        if is_fill_cell(around, c) && !labels::is_labelled(self.sheet[place]) {
            self.try_fill_cell(c);
        }
    }

    // One round: all cells that are unlabelled of the region about the label box of the round's start, by i then j.
    fn fill_round(&mut self)
        ensures { Left self.old self.new
            (fill_round (held self.old) self.old.setup.settings self.old.setup.params (state_of self.old)) }
    {
        let around = self.around;
        let window = region::window_of(around, 1);
        for place in window.places() {
            self.fill_place(around, place);
        }
    }

    // Round after round, until one attaches nothing or the limit is reached. Answers how many rounds were walked.
    fn fill_rounds(&mut self, limit: usize) -> usize
        ensures { RoundsLeft self.old self.new result
            (fill_from (held self.old) self.old.setup.settings self.old.setup.params limit (start_of self.old)) }
    {
        // Stays: a round that attaches nothing ends it; one function for this and local's takes two closures over what they write, with a clause each (d).
        for walked in 0..limit {
            let before = self.made;
            self.fill_round();
            if self.made == before {
                return walked + 1;
            }
        }
        limit
    }

    // What is said of a pass that walked so many rounds: how many cells are new, the rounds, and the rim.
    fn stats(&self, rounds: usize) -> FillStats
        ensures { result ≡ stats_of self.now rounds }
    {
        FillStats {
            added: self.made,
            iterations: rounds,
            rim: labels::rim_reached(self.sheet, 1),
        }
    }
}

// The pass itself, on arguments that are not refused: all rounds, what the answer says of them, and the label box that they leave.
fn fill_accepted(
    corners: LentCorners,
    sheet: &mut [u16],
    around: KeptBox,
    attached: &mut [u16],
    settings: Settings,
    params: FillParams,
) -> (FillStats, KeptBox)
    requires { Accepted (lent_of (lists_of corners) corners.shades.now sheet.old around (rooms 0 (length attached.old)))
        settings (Pass.Fill params) }
    ensures { fill_out (Ok result) sheet.new attached.new
        ≡ fill_leaves (done (fill_after (corners_of (lists_of corners.entry) corners.entry.shades.now)
        settings params sheet.old)) sheet.old attached.old }
{
    let limit = round_limit(labels::label_count(sheet), params.max_iters);
    let used = labels::mark_used(sheet);
    // No corner, as `sheet::NO_CORNERS` has it. By that name, or with the NaNs in the struct, the arrays are built beside `held` and copied, which
    // takes 24 or 12 KB more of stack.
    let mut held = CornerArrays {
        xs: [0.0; CORNERS],
        ys: [0.0; CORNERS],
        pitches: [0.0; CORNERS],
        shades: None,
        count: CornerCount { number: 0 },
    };
    held.xs.fill(f32::NAN);
    held.ys.fill(f32::NAN);
    held.pitches.fill(f32::NAN);
    corners.hold(&mut held);
    let mut filling = Filling {
        corners: &held,
        setup: FillSetup { settings, params },
        sheet,
        around: around.around(),
        attached,
        used,
        made: 0,
    };
    let rounds = filling.fill_rounds(limit);
    (filling.stats(rounds), KeptBox::of(filling.around))
}

// Fills the sheet: each round walks, by i then j, the unlabelled cells of the label box and one strip along each whole side, and attaches a
// corner of the cell's kind where one is found; a round that attaches nothing is the last. The attached list holds the new cells' places in
// order at its front, its rest untouched; no mark changes. The answer has the number of new cells, the number of rounds, and the rim, and beside
// them the label box of the sheet as it is left. A refused call changes nothing and answers why. `said` is the same answer in 01's number or
// values.
// Stays: the public calls of the passes lend slice by slice, as 01 has it and as the C interface does (a).
pub fn fill_grid_holes(
    xs: &[f32],
    ys: &[f32],
    pitches: &[f32],
    shades: &[u8],
    sheet: &mut [u16],
    around: KeptBox,
    attached: &mut [u16],
    settings: Settings,
    params: FillParams,
) -> Result<(FillStats, KeptBox), Refusal>
    ensures attached_after { fill_out result sheet.new attached.new
        ≡ fill_leaves (fill_step (corner_lists xs.now ys.now pitches.now) shades.now sheet.old
        around settings params (rooms 0 (length attached.old))) sheet.old attached.old }
    ensures said { fill_said result ≡ outcome_due fill_values (fill_step (corner_lists xs.now ys.now pitches.now)
        shades.now sheet.old around settings params (rooms 0 (length attached.old))) }
{
    let corners = LentCorners {
        xs,
        ys,
        pitches,
        shades,
    };
    arguments::check_arguments(
        corners,
        sheet,
        around,
        0,
        attached.len(),
        settings,
        Pass::Fill(params),
    )?;
    Ok(fill_accepted(corners, sheet, around, attached, settings, params))
}
