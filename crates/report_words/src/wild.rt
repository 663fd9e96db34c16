// Whether an outcome's words are not those that an outcome has.
ghost use Rattle.std.specs.Prelude.{◌≡◌};
ghost use Rattle.report_words.specs.Outcomes.{wild_counts, wild_residual, wild_unmatched, wild_outcome};

use super::read::Outcome;
use binary32::ranges::is_finite;
use std::num::f32_from_bits_with_nan;

impl Outcome<'_> {
    // Whether a count is above 64 rounds of 16,384 cells.
    #[tactic(auto, unfolding(crate::specs::Outcomes::wild_counts))]
    fn wild_counts(&self) -> bool
        ensures { result ≡ wild_counts self.now.words.now self.now.k }
    {
        (1..5).any(|m| 1048576 < self.word_at(m))
    }

    // Whether the residual's flag is neither 0 nor 1, or a residual is not finite.
    // Stays: the flag is a word of the C interface (a).
    #[tactic(auto, unfolding(crate::specs::Outcomes::wild_residual))]
    fn wild_residual(&self) -> bool
        ensures { result ≡ wild_residual self.now.words.now self.now.k }
    {
        match self.word_at(6) {
            0 => false,
            1 => !is_finite(f32_from_bits_with_nan(self.word_at(7))),
            _ => true,
        }
    }

    // Whether the word for shades is neither 0 nor 1, or 1 for a pass that is no local; or unmatched is above 64 rounds of 16,384 cells of 1,024 corners,
    // or not 0 where no shade stands.
    // Stays: the flag and the kind are words of the C interface (a).
    #[tactic(auto, unfolding(crate::specs::Outcomes::wild_unmatched))]
    fn wild_unmatched(&self) -> bool
        ensures { result ≡ wild_unmatched self.now.words.now self.now.k }
    {
        match self.word_at(9) {
            0 => self.word_at(10) != 0,
            1 => self.word_at(0) != 2 || 1073741824 < self.word_at(10),
            _ => true,
        }
    }

    // Whether the words are not those that an outcome has.
    // Stays: kind and flags are words of the C interface, and this tells which of them no outcome has (a).
    #[tactic(auto, unfolding(crate::specs::Outcomes::wild_outcome))]
    pub fn wild_outcome(&self) -> bool
        ensures { result ≡ wild_outcome self.now.words.now self.now.k }
    {
        2 < self.word_at(0)
            || self.wild_counts()
            || 64 < self.word_at(5)
            || self.wild_residual()
            || 1 < self.word_at(8)
            || self.wild_unmatched()
            || 2 < self.word_at(11)
    }
}
