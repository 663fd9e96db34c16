// An outcome whose line is as long, whatever its words are: a number that no line can hold becomes the largest that one can, which has as many digits,
// and a residual becomes 0.
ghost use Rattle.report_line.specs.Like.{Like, CountsLike, ResidualLike, UnmatchedLike, GrowLike, FillLike, LocalLike, StatsLike};
ghost use Rattle.report_words.specs.Outcomes.{residual_at, stats_at};
ghost use Rattle.report_words.specs.Asked.{FitsWord, CountsFit, UnmatchedFits, grow_at, fill_at, local_at};

use super::read::Outcome;
use passes::{Counts, FillStats, GrowStats, LocalStats, PassStats};

// A number that a line can hold, of as many digits.
fn like(n: usize) -> usize
    requires { FitsWord n }
    ensures { Like n result }
{
    n.min(4293967295)
}

// Four counts that a line can hold.
fn counts_like(c: Counts) -> Counts
    requires { CountsFit c }
    ensures { CountsLike c result }
{
    Counts {
        attached: like(c.attached),
        rejected_no_candidate: like(c.rejected_no_candidate),
        rejected_ambiguous: like(c.rejected_ambiguous),
        rejected_edge: like(c.rejected_edge),
    }
}

// How many corners were passed over, as a line can hold it.
fn unmatched_like(unmatched: Option<usize>) -> Option<usize>
    requires { UnmatchedFits unmatched }
    ensures { UnmatchedLike unmatched result }
{
    unmatched.map(like)
}

impl Outcome<'_> {
    // The residual of an outcome of local.
    fn residual_like(&self) -> Option<f32>
        ensures { ResidualLike (residual_at self.now.words.now self.now.k) result }
    {
        self.yes_at(6).then_some(0.0)
    }

    // An outcome of grow.
    pub fn grow_like(&self) -> GrowStats
        ensures { GrowLike (grow_at self.now.words.now self.now.k) result }
    {
        let s = self.grow_at();
        GrowStats {
            counts: counts_like(s.counts),
            ..s
        }
    }

    // An outcome of fill.
    pub fn fill_like(&self) -> FillStats
        ensures { FillLike (fill_at self.now.words.now self.now.k) result }
    {
        let s = self.fill_at();
        FillStats {
            added: like(s.added),
            iterations: like(s.iterations),
            ..s
        }
    }

    // An outcome of local.
    pub fn local_like(&self) -> LocalStats
        ensures { LocalLike (local_at self.now.words.now self.now.k) result }
    {
        LocalStats {
            counts: counts_like(self.counts_at()),
            iterations: like(self.count_at(5)),
            residual: self.residual_like(),
            rim: self.yes_at(8),
            unmatched: unmatched_like(self.unmatched_at()),
        }
    }

    // What an outcome says, by its kind.
    // Stays: the kind is a word of the C interface (a).
    #[tactic(auto, unfolding(crate::specs::Outcomes::stats_at))]
    pub fn stats_like(&self) -> PassStats
        ensures { StatsLike (stats_at self.now.words.now self.now.k) result }
    {
        match self.word_at(0) {
            0 => PassStats::Grow(self.grow_like()),
            1 => PassStats::Fill(self.fill_like()),
            _ => PassStats::Local(self.local_like()),
        }
    }
}
