// Local (01, "Sheet" and "Fit"; port of shared/extension/local.rs): rounds over the unlabelled cells of the label box, of strips of the depth
// on labelled rows and columns, and of four corner blocks, by i then j. Each is tried where the fit on its four nearest labels maps it to (crate
// local_cell). What was worked out of a cell is remembered until a new label may change it (crate remembered).

#![tactic(auto)]

ghost use Rattle.std.specs.Prelude.{◌≡◌, ◌<◌, ◌≤◌, length, Ok};
ghost use Rattle.sizes.specs.Sizes.{place_count};
ghost use Rattle.sheet.specs.Corners.{corner_lists};
ghost use Rattle.arguments.specs.Shades.{corners_of};
ghost use Rattle.arguments.specs.Asked.{lists_of};
ghost use Rattle.passes.specs.Outcome.{done};
ghost use Rattle.passes.specs.Local.{depth_of, local_round, local_from, unmatched_if, local_after};
ghost use Rattle.passes.specs.Step.{local_step, local_out, local_leaves, lent_of, rooms};
ghost use Rattle.passes.specs.Said.{local_values, local_said, outcome_due};
ghost use Rattle.arguments.specs.Accepted.{Accepted};
ghost use Rattle.labels.specs.Labelled.{labelled_places};
ghost use Rattle.labels.specs.Rim.{rim};
ghost use Rattle.local_cell.specs.Extending.{state_of};
ghost use Rattle.local_cell.specs.Work.{held, state_in, SamePass, Left, RecallsIn};
ghost use Rattle.local.specs.Rounds.{RoundOf, tried_at, RoundAsked, start_in, RoundsAsked, RoundsLeft, stats_of};

use arguments::{LentCorners, LocalExtensionParams, Pass, Settings};
use labels::KeptBox;
use local_cell::{LocalProgress, LocalSetup, LocalWork};
use passes::LocalStats;
use refusal::Refusal;
use region::{Region, Window};
use remembered::Memory;
use sheet::{CornerArrays, CornerCount};
use sizes::CORNERS;
use supports::Labelled;

// What a round walks: what tells its cells, the depth, and the window within which all its cells lie.
#[derive(Clone, Copy)]
struct Round {
    region: Region,
    depth: u32,
    window: Window,
}

// Depth 0 acts as 1.
#[tactic(auto, unfolding(passes::specs::Local::depth_of))]
fn depth_of(params: LocalExtensionParams) -> u32
    ensures { result ≡ depth_of params }
{
    params.extend_depth.max(1)
}

impl Round {
    // Whether the round tries the cell of a place: it lies in the region and is unlabelled.
    fn is_tried(&self, work: &LocalWork, place: usize) -> bool
        requires { place < place_count }
        ensures { result ≡ tried_at self.now.depth self.now.region work.now.sheet.now place }
    {
        self.region.is_local_cell(place, self.depth) && !labels::is_labelled(work.sheet[place])
    }
}

// What a round walks that starts with the sheet of now: by the box of now, while the kept one widens.
fn round_of(work: &LocalWork) -> Round
    ensures { RoundOf work.now.sheet.now work.now.setup.params result }
{
    let labelled = work.labelled.as_slice();
    let around = work.around;
    let depth = depth_of(work.setup.params);
    Round {
        region: Region {
            around,
            rows: region::rows_of(labelled),
            columns: region::columns_of(labelled),
        },
        depth,
        window: region::window_of(around, depth),
    }
}

// One round: all unlabelled cells of the region of now, by i then j.
fn local_round(work: &mut LocalWork)
    requires asked { RoundAsked work.old }
    requires recalls { RecallsIn work.old }
    ensures same { SamePass work.old work.new }
    ensures recalls { RecallsIn work.new }
    ensures left { Left work.old work.new (local_round (held work.old) work.old.setup.settings work.old.setup.params (state_in work.old)) }
{
    let round = round_of(work);
    for place in round.window.places() {
        if round.is_tried(work, place) {
            work.try_local_cell(sheet::cell_of(place));
        }
    }
}

// Round after round, until one attaches nothing or the limit is reached; a limit of 0 does none. Answers how many rounds there were.
fn local_rounds(work: &mut LocalWork) -> usize
    requires asked { RoundsAsked work.old }
    requires recalls { RecallsIn work.old }
    ensures same { SamePass work.old work.new }
    ensures recalls { RecallsIn work.new }
    ensures left { RoundsLeft work.old work.new result (local_from (held work.old) work.old.setup.settings work.old.setup.params
        work.old.setup.params.max_iters (start_in work.old)) }
{
    let limit = work.setup.params.max_iters as usize;
    // Stays: a round that attaches nothing ends it; one function for this and fill's takes two closures over what they write, with a clause each (d).
    for rounds in 0..limit {
        let before = work.progress.counts.attached;
        local_round(work);
        if work.progress.counts.attached == before {
            return rounds + 1;
        }
    }
    limit
}

// Whether the labels of now reach the rim.
fn rim_of(work: &LocalWork, depth: u32) -> bool
    requires { depth ≤ 64 }
    ensures { result ≡ rim depth work.now.sheet.now }
{
    labels::rim_reached(work.sheet, depth)
}

// How many corners were passed over, if any shade stands.
#[tactic(auto, unfolding(passes::specs::Local::unmatched_if))]
fn unmatched_of(shaded: bool, unmatched: usize) -> Option<usize>
    ensures { result ≡ unmatched_if shaded unmatched }
{
    shaded.then_some(unmatched)
}

// What the answer says of the rounds and of the rim, and of the corners passed over.
fn stats_of(progress: LocalProgress, rounds: usize, rim: bool, shaded: bool) -> LocalStats
    ensures { result ≡ stats_of progress rounds rim shaded }
{
    LocalStats {
        counts: progress.counts,
        iterations: rounds,
        residual: progress.residual,
        rim,
        unmatched: unmatched_of(shaded, progress.unmatched),
    }
}

// The pass itself, on arguments that are not refused: all rounds if there are four labels, else none, what the answer says of them, and the box
// of the labels that are left.
fn local_accepted(
    corners: LentCorners,
    sheet: &mut [u16],
    around: KeptBox,
    attached: &mut [u16],
    settings: Settings,
    params: LocalExtensionParams,
) -> (LocalStats, KeptBox)
    requires { Accepted (lent_of (lists_of corners) corners.shades.now sheet.old around (rooms 0 (length attached.old)))
        settings (Pass.Local params) }
    ensures { local_out (Ok result) sheet.new attached.new
        ≡ local_leaves (done (local_after (corners_of (lists_of corners.entry) corners.entry.shades.now)
        settings params sheet.old)) sheet.old attached.old }
{
    let depth = depth_of(params);
    let shaded = corners.any_shade();
    let mut labelled = Labelled::new();
    labelled.gather(sheet);
    let labels = labelled.count;
    let progress = LocalProgress::default();
    if labels < 4 {
        let stats = stats_of(progress, 0, labels::rim_reached(sheet, depth), shaded);
        let left = KeptBox::of(around.around());
        return (stats, left);
    }
    let mut memory = Memory::new();
    // No corner, as `sheet::NO_CORNERS` has it. By that name, or with the NaNs in the struct, the arrays are built beside `held` and copied, which
    // takes 24 or 12 KB more of stack.
    let mut held = CornerArrays {
        xs: [0.0; CORNERS],
        ys: [0.0; CORNERS],
        pitches: [0.0; CORNERS],
        shades: None,
        count: CornerCount { number: 0 },
    };
    held.xs.fill(f32::NAN);
    held.ys.fill(f32::NAN);
    held.pitches.fill(f32::NAN);
    corners.hold(&mut held);
    let setup = LocalSetup {
        corners: &held,
        settings,
        params,
    };
    let used = labels::mark_used(sheet);
    let mut work = LocalWork {
        setup,
        sheet,
        attached,
        used,
        labelled: &mut labelled,
        around: around.around(),
        memory: &mut memory,
        progress,
    };
    let rounds = local_rounds(&mut work);
    let stats = stats_of(work.progress, rounds, rim_of(&work, depth), shaded);
    (stats, KeptBox::of(work.around))
}

// Extends the labels by local fits: each round walks, by i then j, the unlabelled cells of the label box, of strips of the depth on labelled rows
// and columns, and of the four corner blocks. A cell is tried where the fit on its four nearest labels maps it to, if there is one and none of its
// residuals is above the gate; a corner of its kind that is found is attached, and both marks of its cell are cleared. A round that attaches nothing
// is the last, and under four labels there is none. The attached list holds the new cells' places in order at its front, its rest untouched; no other mark
// changes. The answer has the four counts, the number of rounds, the largest residual recorded, the rim, and, if any shade stands, how many
// corners were passed over for their kind; behind them stands the label box of the sheet that is left. The box that is handed is the sheet's, else
// the call is refused. A refused call changes nothing and answers why. `said` is the same answer in 01's number or values.
// Stays: the public calls of the passes lend slice by slice, as 01 has it and as the C interface does (a).
pub fn extend_via_local_homography(
    xs: &[f32],
    ys: &[f32],
    pitches: &[f32],
    shades: &[u8],
    sheet: &mut [u16],
    around: KeptBox,
    attached: &mut [u16],
    settings: Settings,
    params: LocalExtensionParams,
) -> Result<(LocalStats, KeptBox), Refusal>
    ensures attached_after { local_out result sheet.new attached.new
        ≡ local_leaves (local_step (corner_lists xs.now ys.now pitches.now) shades.now sheet.old around
        settings params (rooms 0 (length attached.old))) sheet.old attached.old }
    ensures said { local_said result ≡ outcome_due local_values (local_step
        (corner_lists xs.now ys.now pitches.now) shades.now
        sheet.old around settings params (rooms 0 (length attached.old))) }
{
    let corners = LentCorners {
        xs,
        ys,
        pitches,
        shades,
    };
    arguments::check_arguments(
        corners,
        sheet,
        around,
        0,
        attached.len(),
        settings,
        Pass::Local(params),
    )?;
    Ok(local_accepted(corners, sheet, around, attached, settings, params))
}
