// Outcomes put at their places.
ghost use Rattle.std.specs.Prelude.{◌≡◌};
ghost use Rattle.passes.specs.declared.PassStats.{PassStats};
ghost use Rattle.sheet.specs.Words.{bit_of};
ghost use Rattle.report_words.specs.Outcomes.{outcome_words};
ghost use Rattle.report_words.specs.Asked.{HasOutcome, flag_of, bits_of, shade_flag, unmatched_word, put};
ghost use Rattle.report_words.specs.Asked.{CountsFit, FillFits, UnmatchedFits, LocalFits, AnswerFits, with_answer};

use passes::{FillStats, GrowStats, LocalStats, PassStats};
use refusal::Refusal;
use roles::Role;
use sizes::OUTCOME_WORDS;
use std::num::f32_to_bits_with_nan;

// Yes or no as a word.
fn bit(b: bool) -> u32
    ensures { result ≡ bit_of b }
{
    u32::from(b)
}

// The bits of a residual, and 0 where there is none.
fn residual_bits(x: Option<f32>) -> u32
    ensures { result ≡ bits_of x }
{
    x.map_or(0, |x| f32_to_bits_with_nan(x))
}

// How many corners were passed over, and 0 where no shade stands.
fn unmatched_word(u: Option<usize>) -> u32
    requires { UnmatchedFits u }
    ensures { result ≡ unmatched_word u }
{
    u.unwrap_or(0) as u32
}

// Puts twelve words at the place of outcome k.
fn put_words(words: &mut [u32], k: usize, outcome: [u32; OUTCOME_WORDS])
    requires { HasOutcome words.old k }
    ensures { words.new ≡ put words.old k outcome }
{
    let first = OUTCOME_WORDS * k;
    words[first..first + OUTCOME_WORDS].copy_from_slice(&outcome);
}

// The twelve words of an outcome of grow.
// Stays: kind, flags and counts are words, as the C interface lends them (a).
#[tactic(auto, unfolding(crate::specs::Outcomes::outcome_words))]
fn grow_words(role: Role, s: GrowStats) -> [u32; OUTCOME_WORDS]
    requires { CountsFit s.counts }
    ensures { result ≡ outcome_words role (PassStats.Grow s) }
{
    let c = s.counts;
    [
        0u32,
        c.attached as u32,
        c.rejected_no_candidate as u32,
        c.rejected_ambiguous as u32,
        c.rejected_edge as u32,
        0,
        0,
        0,
        bit(s.rim),
        0,
        0,
        roles::number(role),
    ]
}

// The twelve words of an outcome of fill.
// Stays: kind, flags and counts are words, as the C interface lends them (a).
#[tactic(auto, unfolding(crate::specs::Outcomes::outcome_words))]
fn fill_words(role: Role, s: FillStats) -> [u32; OUTCOME_WORDS]
    requires { FillFits s }
    ensures { result ≡ outcome_words role (PassStats.Fill s) }
{
    [
        1u32,
        s.added as u32,
        0,
        0,
        0,
        s.iterations as u32,
        0,
        0,
        bit(s.rim),
        0,
        0,
        roles::number(role),
    ]
}

// The twelve words of an outcome of local.
// Stays: kind, flags and counts are words, as the C interface lends them (a).
#[tactic(auto, unfolding(crate::specs::Outcomes::outcome_words))]
fn local_words(role: Role, s: LocalStats) -> [u32; OUTCOME_WORDS]
    requires { LocalFits s }
    ensures { result ≡ outcome_words role (PassStats.Local s) }
{
    let c = s.counts;
    [
        2u32,
        c.attached as u32,
        c.rejected_no_candidate as u32,
        c.rejected_ambiguous as u32,
        c.rejected_edge as u32,
        s.iterations as u32,
        bit(s.residual.is_some()),
        residual_bits(s.residual),
        bit(s.rim),
        bit(s.unmatched.is_some()),
        unmatched_word(s.unmatched),
        roles::number(role),
    ]
}

// Puts the outcome that a pass answers to a role at place k; the other words stay. A refused call has no outcome, and all words stay.
pub fn put_outcome(words: &mut [u32], k: usize, role: Role, answer: Result<PassStats, Refusal>)
    requires has_outcome { HasOutcome words.old k }
    requires answer_fits { AnswerFits answer }
    ensures { words.new ≡ with_answer words.old k role answer }
{
    match answer {
        Ok(PassStats::Grow(s)) => put_words(words, k, grow_words(role, s)),
        Ok(PassStats::Fill(s)) => put_words(words, k, fill_words(role, s)),
        Ok(PassStats::Local(s)) => put_words(words, k, local_words(role, s)),
        Err(_) => {}
    }
}
