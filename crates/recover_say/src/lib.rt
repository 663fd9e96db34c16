// The answer to a text, worked out by the crate `frame_answer` and written piece by piece, to standard output or another writer.
// Proved of each piece: `frame_answer::Answer::piece` puts it at the front of the buffer, and `put_piece` is lent exactly its text (`PieceText`). Proved
// of `answer`: how many pieces were written, from the first on, and that they are all of the answer where the next line is past the last
// (`Told`, `Prints`), and that it says so exactly then (`SaidAs`); and of a writer whose bytes are known, that it took a front part of the answer, and all of it in that case (`WroteAnswer`).
// Not proved is that standard output takes the bytes that its `write` says it took: no contract can say what happens outside the program. It is
// tested (`compare/faults.py`).

#![tactic(auto)]

ghost use Rattle.std.specs.Prelude.{◌≡◌, length, is_ok};
ghost use Rattle.recover_say.specs.Said.{held_from, PieceText, SaidAs, said_of, Told, ToldOf, WroteText, WroteOf, WroteAnswer};

use frame_answer::Answer;
use sizes::{ALL_OUTCOME_WORDS, ALL_PASS_WORDS, CORNERS, PLACES};
use std::io;
use std::io::{ErrorKind, Write};

// ---- the text

// A frame has at most 65,536 bytes: one more shows that there are too many.
pub fn text_buffer() -> [u8; 65537]
    ensures { 65537 ≡ length result }
{
    [0; 65537]
}

// ---- the answer

// How far an answer was said: how many pieces were written, the line after them, and how many lines the answer has. All was said where the
// line after them is not below the number of lines.
#[derive(Clone, Copy)]
pub struct Said {
    pub pieces: usize,
    pub next: usize,
    pub lines: usize,
}

// A piece could not be written: how far the answer was said before it.
#[derive(Clone, Copy)]
pub struct CutOff {
    pub said: Said,
}

// Writes all of the text; or stops at the first write that takes nothing or fails.
fn write_text<W: Write>(out: &mut W, text: &[u8]) -> io::Result<()>
    ensures { WroteText (W.contents out.old) (W.contents out.new) text.now (is_ok result) }
{
    let mut rest = text;
    // Stays: std's `write_all` says nothing of what a failed write took, and tries an interrupted one again; so each write's step is its own (d).
    while !rest.is_empty() {
        let n = out.write(rest)?;
        if n == 0 {
            return Err(ErrorKind::WriteZero.into());
        }
        rest = &rest[n..];
    }
    Ok(())
}

// Writes a piece of an answer: its number is how many were written before it.
// Stays: the answer is lent for the contract alone, which tells by it which piece the text is; no argument is left to make a ghost value of (d).
fn put_piece<W: Write>(out: &mut W, answer: Answer, pieces: usize, text: &[u8]) -> io::Result<()>
    requires { PieceText answer.recovered answer.words.now answer.sheet.now pieces text.now }
    ensures { WroteText (W.contents out.old) (W.contents out.new) text.now (is_ok result) }
{
    write_text(out, text)
}

// Writes the answer, piece by piece, until one cannot be written.
fn say<W: Write>(out: &mut W, answer: Answer) -> Result<Said, CutOff>
    ensures told { SaidAs (ToldOf answer.entry.recovered answer.entry.words.now answer.entry.sheet.now) result }
    ensures wrote { WroteOf (W.contents out.old) (W.contents out.new)
        (held_from answer.entry.recovered answer.entry.words.now answer.entry.sheet.now) (said_of result) }
{
    let mut buffer = [0u8; 4096];
    let lines = frame_answer::answer_lines(answer.recovered);
    let mut said = Said {
        pieces: 0,
        next: 0,
        lines,
    };
    // Stays: a piece has as many lines as there is room for, so that the step is not 1 (d).
    while said.next < lines {
        let piece = answer.piece(said.next, &mut buffer);
        let text = &buffer[..piece.at];
        put_piece(out, answer, said.pieces, text).map_err(|_| CutOff { said })?;
        said = Said {
            pieces: said.pieces + 1,
            next: piece.next,
            lines,
        };
    }
    Ok(said)
}

// Reads a frame from its text, runs its passes and writes the answer; tells how far.
pub fn answer<W: Write>(out: &mut W, text: &[u8]) -> Result<Said, CutOff>
    ensures told { SaidAs (Told text.now) result }
    ensures wrote { WroteAnswer (W.contents out.old) (W.contents out.new) text.now (said_of result) }
{
    let mut sheet = [0u16; PLACES];
    let mut words = [0u32; ALL_OUTCOME_WORDS];
    let recovered = frame_answer::recover_frame(
        text,
        &mut [0.0; CORNERS],
        &mut [0.0; CORNERS],
        &mut [0.0; CORNERS],
        &mut [0; CORNERS],
        &mut sheet,
        &mut [0; ALL_PASS_WORDS],
        &mut [0; 4 * CORNERS],
        &mut [0; CORNERS],
        &mut words,
    );
    let found = Answer {
        recovered,
        words: &words,
        sheet: &sheet,
    };
    say(out, found)
}
