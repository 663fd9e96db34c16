// The result's text: 7 where there is no room for the words, else the text or a piece of it is written, and its length and next line are entered.
ghost use Rattle.std.specs.Prelude.{◌≡◌};
ghost use Rattle.report.specs.WriteResult.{text_lent};
ghost use Rattle.grid_words.specs.Words.{answered};
ghost use Rattle.grid_words.specs.Texts.{text_left, text_exported, piece_exported};

use refusal::Refusal;
use report::PieceEnd;

// Writes the whole text, with room for one word.
// Stays: each buffer is lent by itself, as the C interface lends it (a).
#[tactic(auto, unfolding(crate::specs::Texts::text_exported))]
pub fn text_or_short(
    corners: usize,
    passes: usize,
    words: &[u32],
    sheet: &[u16],
    text: &mut [u8],
    out: &mut [u32],
) -> Result<(), Refusal>
    ensures { text_left (answered result) text.new out.new
        ≡ text_exported (text_lent corners passes words.now sheet.now) text.old out.old }
{
    if out.is_empty() {
        return Err(Refusal::BufferTooShort);
    }
    let bytes = report::write_result(corners, passes, words, sheet, text)?;
    super::words::enter(out, 0, bytes);
    Ok(())
}

// Writes a piece, with room for two words.
// Stays: each buffer is lent by itself, as the C interface lends it (a).
#[tactic(auto, unfolding(crate::specs::Texts::piece_exported))]
pub fn piece_or_short(
    corners: usize,
    passes: usize,
    words: &[u32],
    sheet: &[u16],
    from: usize,
    text: &mut [u8],
    out: &mut [u32],
) -> Result<(), Refusal>
    ensures { text_left (answered result) text.new out.new
        ≡ piece_exported (text_lent corners passes words.now sheet.now) from text.old out.old }
{
    if out.len() < 2 {
        return Err(Refusal::BufferTooShort);
    }
    let PieceEnd { at, next } = report::write_result_piece(
        corners, passes, words, sheet, from, text,
    )?;
    super::words::enter(out, 0, at);
    super::words::enter(out, 1, next);
    Ok(())
}
