// Outcomes read from their words.
ghost use Rattle.std.specs.Prelude.{◌≡◌, ◌+◌, ◌*◌, ◌<◌, length};
ghost use Rattle.sizes.specs.Sizes.{outcome_size};
ghost use Rattle.role_counts.specs.RoleCounts.{counts_of};
ghost use Rattle.report_words.specs.Outcomes.{word_at, counts_at, yes_at, residual_at, unmatched_at, role_at, stats_at};
ghost use Rattle.report_words.specs.Asked.{HasOutcome, Tame, FitsWord, CountsFit, FillFits, SumsFit, UnmatchedFits, grow_at, fill_at, local_at};

use passes::{Counts, FillStats, GrowStats, LocalStats, PassStats};
use role_counts::RoleCounts;
use roles::Role;
use sizes::OUTCOME_WORDS;

// Word m of outcome k, whether or not the outcome's other words are there.
pub fn word_at(words: &[u32], k: usize, m: usize) -> u32
    requires { outcome_size * k + m < length words.now }
    ensures { result ≡ word_at words.now k m }
{
    words[OUTCOME_WORDS * k + m]
}

// Whether word m of outcome k says yes.
pub fn yes_at(words: &[u32], k: usize, m: usize) -> bool
    requires { outcome_size * k + m < length words.now }
    ensures { result ≡ yes_at words.now k m }
{
    word_at(words, k, m) != 0
}

// Outcome k among the words of outcomes, whose twelve are there.
// Stays: the words are those of the C interface: the kind is a number, and a flag stands beside its value (a).
#[derive(Clone, Copy)]
pub struct Outcome<'a> {
    pub words: &'a [u32],
    pub k: usize,
    pub ghost there: { HasOutcome words.now k },
}

impl Outcome<'_> {
    // Word m.
    pub fn word_at(&self, m: usize) -> u32
        requires { m < outcome_size }
        ensures { result ≡ word_at self.now.words.now self.now.k m }
    {
        word_at(self.words, self.k, m)
    }

    // Word m as a count.
    pub fn count_at(&self, m: usize) -> usize
        requires { m < outcome_size }
        ensures value { result ≡ word_at self.now.words.now self.now.k m }
        ensures fits { FitsWord result }
    {
        self.word_at(m) as usize
    }

    // Whether word m says yes.
    pub fn yes_at(&self, m: usize) -> bool
        requires { m < outcome_size }
        ensures { result ≡ yes_at self.now.words.now self.now.k m }
    {
        yes_at(self.words, self.k, m)
    }

    // The four counts.
    pub fn counts_at(&self) -> Counts
        ensures value { result ≡ counts_at self.now.words.now self.now.k }
        ensures fits { CountsFit result }
    {
        Counts {
            attached: self.count_at(1),
            rejected_no_candidate: self.count_at(2),
            rejected_ambiguous: self.count_at(3),
            rejected_edge: self.count_at(4),
        }
    }

    // An outcome of grow.
    pub fn grow_at(&self) -> GrowStats
        ensures value { result ≡ grow_at self.now.words.now self.now.k }
        ensures fits { CountsFit result.counts }
    {
        GrowStats {
            counts: self.counts_at(),
            rim: self.yes_at(8),
        }
    }

    // An outcome of fill.
    pub fn fill_at(&self) -> FillStats
        ensures value { result ≡ fill_at self.now.words.now self.now.k }
        ensures fits { FillFits result }
    {
        FillStats {
            added: self.count_at(1),
            iterations: self.count_at(5),
            rim: self.yes_at(8),
        }
    }

    // The residual of an outcome of local that passes the check.
    // Stays: outcomes that may be wild are read too; a second struct round `Outcome` for these three methods is no plainer (d).
    fn residual_at(&self) -> Option<f32>
        requires { Tame self.now.words.now self.now.k }
        ensures { result ≡ residual_at self.now.words.now self.now.k }
    {
        let word = self.word_at(7);
        self.yes_at(6).then(|| f32::from_bits(word))
    }

    // How many corners were passed over, in an outcome of local.
    pub fn unmatched_at(&self) -> Option<usize>
        ensures value { result ≡ unmatched_at self.now.words.now self.now.k }
        ensures fits { UnmatchedFits result }
    {
        self.yes_at(9).then_some(self.count_at(10))
    }

    // An outcome of local that passes the check.
    pub fn local_at(&self) -> LocalStats
        requires { Tame self.now.words.now self.now.k }
        ensures { result ≡ local_at self.now.words.now self.now.k }
    {
        LocalStats {
            counts: self.counts_at(),
            iterations: self.count_at(5),
            residual: self.residual_at(),
            rim: self.yes_at(8),
            unmatched: self.unmatched_at(),
        }
    }

    // What an outcome that passes the check says, by its kind.
    // Stays: the kind is a word of the C interface (a).
    #[tactic(auto, unfolding(crate::specs::Outcomes::stats_at))]
    pub fn stats_at(&self) -> PassStats
        requires { Tame self.now.words.now self.now.k }
        ensures { result ≡ stats_at self.now.words.now self.now.k }
    {
        match self.word_at(0) {
            0 => PassStats::Grow(self.grow_at()),
            1 => PassStats::Fill(self.fill_at()),
            _ => PassStats::Local(self.local_at()),
        }
    }

    // Who ran its pass.
    pub fn role_at(&self) -> Role
        ensures { result ≡ role_at self.now.words.now self.now.k }
    {
        roles::numbered(self.word_at(11))
    }

    // What its pass adds to the counts of a role, whatever its other words are.
    // Stays: the kind is a word of the C interface (a).
    #[tactic(auto, unfolding(crate::specs::Outcomes::stats_at))]
    pub fn role_counts_at(&self) -> RoleCounts
        ensures value { result ≡ counts_of (stats_at self.now.words.now self.now.k) }
        ensures fits { SumsFit result }
    {
        match self.word_at(0) {
            1 => RoleCounts::attached_alone(self.count_at(1)),
            _ => RoleCounts::four_of(self.counts_at()),
        }
    }
}
