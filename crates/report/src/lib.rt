// The text of a result (01, "Frame and result"), whole or piece by piece, as library calls.

#![tactic(auto)]

mod checks; // checks.rt: refusals 7, 2, 3, 5 and 6
mod lines; // lines.rt: the lines by their numbers

ghost use Rattle.std.specs.Prelude.{◌≡◌};
ghost use Rattle.report.specs.WriteResult.{text_lent, text_out, writes_text, piece_out, writes_piece};
ghost use Rattle.report.specs.Said.{text_said, text_due, piece_said, piece_due};

use checks::Lent;
pub use lines::PieceEnd;
use refusal::Refusal;

// Writes the whole text of a result to the front of a buffer, and leaves the rest of it as it was: how many bytes were written, or why nothing was. It is lent the outcomes of the passes as words,
// twelve for each, and the sheet, and told how many passes and corners there are. `said` is the same answer in 01's number or values.
// Stays: each is lent by itself, as the C interface lends it (a).
pub fn write_result(
    corners: usize,
    passes: usize,
    words: &[u32],
    sheet: &[u16],
    out: &mut [u8],
) -> Result<usize, Refusal>
    ensures out_after { text_out result out.new ≡ writes_text (text_lent corners passes words.now sheet.now) out.old }
    ensures said { text_said result ≡ text_due (text_lent corners passes words.now sheet.now) out.old }
{
    let lent = Lent {
        corners,
        passes,
        words,
        sheet,
    };
    lent.check_text(out.len())?;
    Ok(lent.source().write_all(out))
}

// Writes a piece of it: whole lines from a line on, as long as 128 bytes are left before each; how far it goes, or why nothing was written. `said` is the same answer in 01's number or values.
// Stays: each is lent by itself, as the C interface lends it (a).
pub fn write_result_piece(
    corners: usize,
    passes: usize,
    words: &[u32],
    sheet: &[u16],
    from: usize,
    out: &mut [u8],
) -> Result<PieceEnd, Refusal>
    ensures out_after { piece_out result out.new ≡ writes_piece (text_lent corners passes words.now sheet.now) from out.old }
    ensures said { piece_said result ≡ piece_due (text_lent corners passes words.now sheet.now) from out.old }
{
    let lent = Lent {
        corners,
        passes,
        words,
        sheet,
    };
    lent.check_piece(from, out.len())?;
    Ok(lent.source().write_some(from, out))
}
