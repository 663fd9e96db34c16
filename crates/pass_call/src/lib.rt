// The one place that runs a pass: the public call of the pass that is asked for, and what it answers.

#![tactic(auto)]

ghost use Rattle.std.specs.Prelude.{◌≡◌, length};
ghost use Rattle.sheet.specs.Corners.{corner_lists};
ghost use Rattle.passes.specs.Run.{other, step};
ghost use Rattle.pass_call.specs.Call.{pass_out, pass_leaves, call_of, SmallAnswer};

use arguments::{Pass, Settings};
use labels::KeptBox;
use passes::PassStats;
use refusal::Refusal;

// Runs a pass: its answer, the label box beside it, and every lent buffer, are those of the step that it is. Fill and local leave the queue as it
// was. `small`: what it says is small enough for the words of an outcome.
// Stays: the lists are lent on to the passes, whose public calls lend each by itself (d).
pub fn call_pass(
    xs: &[f32],
    ys: &[f32],
    pitches: &[f32],
    shades: &[u8],
    sheet: &mut [u16],
    around: KeptBox,
    queue: &mut [u16],
    attached: &mut [u16],
    settings: Settings,
    pass: Pass,
) -> Result<(PassStats, KeptBox), Refusal>
    ensures attached_after { pass_out result sheet.new queue.new attached.new
        ≡ pass_leaves (step (corner_lists xs.now ys.now pitches.now) sheet.old
        (call_of settings shades.now (other around) (length queue.old) (length attached.old) pass))
        sheet.old queue.old attached.old }
    ensures small { SmallAnswer result }
{
    match pass {
        Pass::Grow(p) => grow_extend::extend_from_labelled(
            xs, ys, pitches, shades, sheet, around, queue, attached, settings, p,
        )
        .map(|(stats, around)| (PassStats::Grow(stats), around)),
        Pass::Fill(p) => fill::fill_grid_holes(
            xs, ys, pitches, shades, sheet, around, attached, settings, p,
        )
        .map(|(stats, around)| (PassStats::Fill(stats), around)),
        Pass::Local(p) => local::extend_via_local_homography(
            xs, ys, pitches, shades, sheet, around, attached, settings, p,
        )
        .map(|(stats, around)| (PassStats::Local(stats), around)),
    }
}
