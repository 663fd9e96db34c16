// An answer as a number, and a number entered as a word.
ghost use Rattle.std.specs.Prelude.{◌≡◌, ◌<◌, length, set};
ghost use Rattle.refusal.specs.Refusal.{number_of};
ghost use Rattle.grid_words.specs.Words.{answered};
ghost use Rattle.grid_words.specs.Frames.{Word};

use refusal::Refusal;

// A refusal as an answer: its number.
// Stays: the C interface tells a refusal by its number (a).
pub fn number_of(refusal: Refusal) -> u32
    ensures { result ≡ number_of refusal }
{
    u32::from(refusal::number(refusal))
}

// The answer as a number: 0, or the number of a refusal.
pub fn answered(outcome: Result<(), Refusal>) -> u32
    ensures { result ≡ answered outcome }
{
    match outcome {
        Ok(()) => 0,
        Err(refusal) => number_of(refusal),
    }
}

// Enters a number at a place of a buffer of words.
pub fn enter(out: &mut [u32], at: usize, n: usize)
    requires at_in_bounds { at < length out.old }
    requires word { Word n }
    ensures { out.new ≡ set out.old at n }
{
    out[at] = n as u32;
}
