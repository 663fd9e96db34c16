// The frame program (01, "Frame and result"): reads a frame from standard input and prints its result, or `(refused number line)` alone.
// What it reads is told by the crate `recover_read`; what it prints is worked out and written by the crate `recover_say`.

#![tactic(auto)]

ghost use Rattle.std.specs.Prelude.{◌≡◌};
ghost use Rattle.recover.specs.Program.{Ran, Answered};
ghost use Rattle.recover.specs.declared.Fault.TheVariants.{Input, Output};

use recover_read::ReadFailed;
use recover_say::{CutOff, Said};
use std::fmt;
use std::io::{Read, Write};

// Why not all of the answer was said: the input could not be read, and nothing was said; or the answer was cut off.
#[derive(Clone, Copy)]
enum Fault {
    Input,
    Output(CutOff),
}

impl From<ReadFailed> for Fault {
    ghost from_gives = { λ failed e. e ≡ Input };

    fn from(_failed: ReadFailed) -> Fault {
        Fault::Input
    }
}

impl From<CutOff> for Fault {
    ghost from_gives = { λ cut e. e ≡ Output cut };

    fn from(cut: CutOff) -> Fault {
        Fault::Output(cut)
    }
}

impl fmt::Display for Fault {
    fn fmt<W: fmt::Write>(&self, f: &mut fmt::Formatter<W>) -> fmt::Result {
        f.write_str(match self {
            Fault::Input => "standard input cannot be read",
            Fault::Output(_) => "standard output cannot be written",
        })
    }
}

// Reads an input and answers it.
fn run<R: Read, W: Write>(source: &mut R, out: &mut W) -> Result<Said, Fault>
    ensures ran { Ran result }
    ensures answered { Answered (R.remaining source.old) (R.remaining source.new)
        (W.contents out.old) (W.contents out.new) result }
{
    let mut buffer = recover_say::text_buffer();
    let n = recover_read::read_input(source, &mut buffer)?;
    let said = recover_say::answer(out, &buffer[..n])?;
    Ok(said)
}

// Says on standard error what went wrong. Where that cannot be written either, nothing is left to do.
fn main(rt: HostRuntime) {
    if let Err(fault) = run(&mut rt.stdin(), &mut rt.stdout()) {
        let _ = eprintln!(rt; "recover: {fault}");
    }
}
