// Answers a list of texts, each as the frame program answers its input, one answer after the other. For the gate: many stored frames in
// one run (EXPECTED.md).
//
// Before each text stands a line of eight hexadecimal digits in lower case, its length in bytes, at most 65,537. It ends where the input
// ends; where a length or a text is not as said, or a read fails, it says so on standard error and ends.

#![tactic(auto)]

ghost use Rattle.std.specs.Prelude.{◌≤◌};

use std::fmt;
use std::io::{Read, Write};

// Why no text can follow.
#[derive(Clone, Copy)]
enum Fault {
    NotRead,
    LengthEnds,
    NoLineFeed,
    NoDigits,
    TooLong,
    TextEnds,
    // a read failed within a text, which then ends too early: both are said
    TextNotRead,
    NotWritten,
}

impl fmt::Display for Fault {
    fn fmt<W: fmt::Write>(&self, f: &mut fmt::Formatter<W>) -> fmt::Result {
        f.write_str(match self {
            Fault::NotRead => "standard input cannot be read",
            Fault::LengthEnds => "a length line ends too early",
            Fault::NoLineFeed => "a length is not eight digits and a line feed",
            Fault::NoDigits => "a length is not eight digits",
            Fault::TooLong => "a length is above 65537",
            Fault::TextEnds => "a text ends too early",
            Fault::TextNotRead => {
                "standard input cannot be read\nrecover_vectors: a text ends too early"
            }
            Fault::NotWritten => "standard output cannot be written",
        })
    }
}

// Reads a text of n bytes and answers it.
fn answer_text<R: Read, W: Write>(source: &mut R, out: &mut W, n: usize) -> Result<(), Fault>
    requires { n ≤ 65537 }
{
    let mut buffer = recover_say::text_buffer();
    let text = &mut buffer[..n];
    let got = recover_read::read_input(source, text).map_err(|_| Fault::TextNotRead)?;
    if got != n {
        return Err(Fault::TextEnds);
    }
    recover_say::answer(out, text).map_err(|_| Fault::NotWritten)?;
    Ok(())
}

// Answers the next text. Whether there was one: not at the end of the input.
fn answer_next<R: Read, W: Write>(source: &mut R, out: &mut W) -> Result<bool, Fault> {
    let mut line = [0u8; 9];
    match recover_read::read_input(source, &mut line).map_err(|_| Fault::NotRead)? {
        9 => {}
        0 => return Ok(false),
        _ => return Err(Fault::LengthEnds),
    }
    if line[8] != b'\n' {
        return Err(Fault::NoLineFeed);
    }
    let n = binary32::hex::read_bits(&line).ok_or(Fault::NoDigits)? as usize;
    if 65537 < n {
        return Err(Fault::TooLong);
    }
    answer_text(source, out, n)?;
    Ok(true)
}

// Answers text after text, up to the end of the input.
// A proved loop has to end, and nothing says that the input does: so the loop has a last turn, which no run reaches.
fn run<R: Read, W: Write>(source: &mut R, out: &mut W) -> Result<(), Fault> {
    // Stays: a loop with no end needs a handle that the project is not allowed (a).
    for _ in 0..u64::MAX {
        if !answer_next(source, out)? {
            break;
        }
    }
    Ok(())
}

fn main(rt: HostRuntime) {
    if let Err(fault) = run(&mut rt.stdin(), &mut rt.stdout()) {
        let _ = eprintln!(rt; "recover_vectors: {fault}");
    }
}
