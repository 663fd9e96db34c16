// The reader: 7 where there is no room for what a head says, else the frame is read, and what its head says is entered.
ghost use Rattle.std.specs.Prelude.{◌≡◌, ◌≤◌, length, IfErr};
ghost use Rattle.frame.specs.Reading.{buffers};
ghost use Rattle.grid_words.specs.Frames.{settings_entered, frame_answered, frame_left, frame_exported};

use super::around::BOX_PLACES;
use arguments::Settings;
use frame::FrameRefusal;
use refusal::Refusal;

// Enters cell size, axes and band as six floats.
fn enter_settings(floats: &mut [f32], settings: Settings)
    requires { 6 ≤ length floats.old }
    ensures { floats.new ≡ settings_entered settings floats.old }
{
    let grid = settings.grid;
    floats[..6].copy_from_slice(&[
        grid.cell_size,
        grid.axis_i.x,
        grid.axis_i.y,
        grid.axis_j.x,
        grid.axis_j.y,
        settings.edge_length_tol,
    ]);
}

// Reads a frame, with room for five numbers, six floats and two words that say what its head says.
// Stays: each buffer is lent by itself, as the C interface lends it (a).
#[tactic(auto, unfolding(crate::specs::Frames::frame_exported, crate::specs::Frames::head_short))]
pub fn read_or_short(
    text: &[u8],
    xs: &mut [f32],
    ys: &mut [f32],
    pitches: &mut [f32],
    shades: &mut [u8],
    sheet: &mut [u16],
    around: &mut [i32],
    passes: &mut [u32],
    settings: &mut [f32],
    out: &mut [u32],
) -> Result<(), FrameRefusal>
    ensures left { frame_left (frame_answered result) xs.new ys.new pitches.new shades.new sheet.new
        around.new passes.new settings.new out.new ≡ frame_exported text.now
        (buffers xs.old ys.old pitches.old shades.old sheet.old passes.old)
        around.old settings.old out.old }
    ensures line { IfErr result (λ e. e.line ≤ 10000000) }
{
    if around.len() < BOX_PLACES || settings.len() < 6 || out.len() < 2 {
        return Err(FrameRefusal::from(Refusal::BufferTooShort));
    }
    let head = frame::read_frame(text, xs, ys, pitches, shades, sheet, passes)?;
    super::around::enter_box(around, head.around);
    enter_settings(settings, head.settings);
    super::words::enter(out, 0, head.corners);
    super::words::enter(out, 1, head.passes);
    Ok(())
}

// The answer as a number: 0, or the number of a refusal and 16 times its line.
pub fn answered(outcome: Result<(), FrameRefusal>) -> u32
    requires { IfErr outcome (λ e. e.line ≤ 10000000) }
    ensures { result ≡ frame_answered outcome }
{
    match outcome {
        Ok(()) => 0,
        Err(refused) => super::words::number_of(refused.refusal) + 16 * (refused.line as u32),
    }
}
