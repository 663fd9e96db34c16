// Reads an input into a buffer, until it ends, the buffer is full or a read fails. A failed read is told from the end.
// Which bytes standard input gives, and that it answers an error where it failed, no contract can say: `read_rest` asks the reader,
// `std::io::Read::read`. Proved is what is made of its answers; and of a reader whose bytes are known, that they are what was read.

#![tactic(auto)]

ghost use Rattle.std.specs.Prelude.{◌≡◌, ◌-◌, ◌^◌, ◌<◌, length};
ghost use Rattle.std.specs.IoError.{error_kind};
ghost use Rattle.std.specs.declared.io.ErrorKind.TheVariants.{Other};
ghost use Rattle.recover_read.specs.Reading.{interrupts, none_by, got_of, FitsIn, Took, read_on, ReadInto, TookAll};

use std::io;
use std::io::{ErrorKind, Read};
use std::ops::ControlFlow;

// ---- one read

// Why a read gave no answer: a signal interrupted it before any byte came, or it failed.
#[derive(Clone, Copy, Debug, PartialEq, Eq)]
pub enum NoAnswer {
    Interrupted,
    Failed,
}

// What a read's error means.
#[tactic(auto, unfolding(crate::specs::Reading::none_by))]
fn no_answer(error: io::Error) -> NoAnswer
    ensures { result ≡ none_by (interrupts (error_kind error)) }
{
    if matches!(error.kind(), ErrorKind::Interrupted) {
        NoAnswer::Interrupted
    } else {
        NoAnswer::Failed
    }
}

// What a read's answer means: so many bytes, and 0 at the end of the input.
#[tactic(auto, unfolding(crate::specs::Reading::got_of))]
fn meaning(answer: io::Result<usize>) -> Result<usize, NoAnswer>
    ensures { result ≡ got_of answer }
{
    answer.map_err(no_answer)
}

// One read into the unfilled rest of the buffer.
#[tactic(auto, unfolding(crate::specs::Reading::got_of))]
fn read_rest<R: Read>(input: &mut R, rest: &mut [u8]) -> Result<usize, NoAnswer>
    requires { 0 < length rest.old }
    ensures fits { FitsIn 0 (length rest.new) result }
    ensures took { Took (R.remaining input.old) (R.remaining input.new) rest.new result }
{
    let answer = input.read(rest);
    meaning(answer)
}

// ---- all reads

// A read failed, or one interruption more came than a reading waits out.
#[derive(Clone, Copy, Debug, PartialEq, Eq)]
pub struct ReadFailed;

impl From<ReadFailed> for io::Error {
    ghost from_gives = { λ failed e. error_kind e ≡ Other };

    fn from(_failed: ReadFailed) -> io::Error {
        io::Error::other("standard input cannot be read")
    }
}

// Where a reading stands after one read more: so many bytes are there, and so many interruptions may still come; or it is over.
#[tactic(auto, unfolding(crate::specs::Reading::read_on))]
fn read_on(
    at: usize,
    tries: usize,
    got: Result<usize, NoAnswer>,
) -> ControlFlow<Result<usize, ReadFailed>, (usize, usize)>
    requires { FitsIn at (2 ^ 64 - 1) got }
    ensures { result ≡ read_on at tries got }
{
    match got {
        Ok(0) => ControlFlow::Break(Ok(at)),
        Ok(n) => ControlFlow::Continue((at + n, tries)),
        Err(NoAnswer::Interrupted) if tries > 0 => ControlFlow::Continue((at, tries - 1)),
        Err(_) => ControlFlow::Break(Err(ReadFailed)),
    }
}

// Reads until the input ends, the buffer is full or a read fails: so many bytes of the input stand at the front of the buffer, and it ended there or
// filled the buffer. An interrupted read is tried again, at most 1,000 times in all.
pub fn read_input<R: Read>(input: &mut R, buffer: &mut [u8]) -> Result<usize, ReadFailed>
    ensures read { ReadInto buffer.new result }
    ensures took { TookAll (R.remaining input.old) (R.remaining input.new) buffer.new result }
{
    let mut at = 0usize;
    let mut tries = 1000usize;
    // Stays: a read gives as many bytes as it will, so that the step is not 1 (d).
    while at < buffer.len() {
        match read_on(at, tries, read_rest(input, &mut buffer[at..])) {
            ControlFlow::Break(answer) => return answer,
            ControlFlow::Continue(so) => (at, tries) = so,
        }
    }
    Ok(at)
}
