// The result's text. Its length and next line are entered into lent words (crate `grid_words`).
ghost use Rattle.std.specs.Prelude.{◌≡◌};
ghost use Rattle.report.specs.WriteResult.{text_lent};
ghost use Rattle.grid_words.specs.Texts.{text_left, text_exported, piece_exported};

// Writes the whole text of a result to the front of `text`. `out` takes its length.
// Stays: the C interface passes each number and lends each buffer by itself (a).
#[unsafe(no_mangle)]
pub extern "C" fn projective_grid_write_result(
    corners: usize,
    passes: usize,
    words: &[u32],
    sheet: &[u16],
    text: &mut [u8],
    out: &mut [u32],
) -> u32
    ensures { text_left result text.new out.new ≡ text_exported (text_lent corners passes words.now sheet.now) text.old out.old }
{
    let outcome = grid_words::text_calls::text_or_short(corners, passes, words, sheet, text, out);
    grid_words::words::answered(outcome)
}

// Writes a piece of it: whole lines from line `from` on, as long as 128 bytes are left before each. `out` takes its length and the next line.
// Stays: the C interface passes each number and lends each buffer by itself (a).
#[unsafe(no_mangle)]
pub extern "C" fn projective_grid_write_result_piece(
    corners: usize,
    passes: usize,
    words: &[u32],
    sheet: &[u16],
    from: usize,
    text: &mut [u8],
    out: &mut [u32],
) -> u32
    ensures { text_left result text.new out.new ≡ piece_exported (text_lent corners passes words.now sheet.now) from text.old out.old }
{
    let outcome = grid_words::text_calls::piece_or_short(
        corners, passes, words, sheet, from, text, out,
    );
    grid_words::words::answered(outcome)
}
