// The reader. What it says is entered into lent floats and words (crate `grid_words`).
ghost use Rattle.std.specs.Prelude.{◌≡◌};
ghost use Rattle.frame.specs.Reading.{buffers};
ghost use Rattle.grid_words.specs.Frames.{frame_left, frame_exported};

// Reads a frame. `shades` takes a byte for each corner, `around` the five numbers of the label box, `settings` cell size, axes and band, `out` the
// numbers of corners and passes. A refusal's answer is its number plus 16 times the line, so that a refused call changes no buffer.
// Stays: the C interface passes each number and lends each buffer by itself (a).
#[unsafe(no_mangle)]
pub extern "C" fn projective_grid_read_frame(
    text: &[u8],
    xs: &mut [f32],
    ys: &mut [f32],
    pitches: &mut [f32],
    shades: &mut [u8],
    sheet: &mut [u16],
    around: &mut [i32],
    passes: &mut [u32],
    settings: &mut [f32],
    out: &mut [u32],
) -> u32
    ensures { frame_left result xs.new ys.new pitches.new shades.new sheet.new around.new passes.new
        settings.new out.new ≡ frame_exported text.now
        (buffers xs.old ys.old pitches.old shades.old sheet.old passes.old)
        around.old settings.old out.old }
{
    let outcome = grid_words::frame_calls::read_or_short(
        text, xs, ys, pitches, shades, sheet, around, passes, settings, out,
    );
    grid_words::frame_calls::answered(outcome)
}
