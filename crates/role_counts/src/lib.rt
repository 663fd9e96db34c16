// Counts for each role (document 02, 7/14): the counts of a pass, and sums of them.

#![tactic(auto)]

ghost use Rattle.std.specs.Prelude.{◌≡◌};
ghost use Rattle.role_counts.specs.RoleCounts.{four_of, attached_alone, plus, Summable};

use passes::Counts;

// Attached, no candidate, ambiguous and edge, of a pass or summed over passes: 128 bits hold the sums of any number of passes that can be lent.
#[derive(Clone, Copy, Default)]
pub struct RoleCounts {
    pub attached: u128,
    pub no_candidate: u128,
    pub ambiguous: u128,
    pub edge: u128,
}

impl RoleCounts {
    // The counts of grow, and of local.
    pub fn four_of(counts: Counts) -> RoleCounts
        ensures { result ≡ four_of counts }
    {
        RoleCounts {
            attached: counts.attached as u128,
            no_candidate: counts.rejected_no_candidate as u128,
            ambiguous: counts.rejected_ambiguous as u128,
            edge: counts.rejected_edge as u128,
        }
    }

    // The counts of a fill, which adds to attached alone.
    pub fn attached_alone(added: usize) -> RoleCounts
        ensures { result ≡ attached_alone added }
    {
        RoleCounts {
            attached: added as u128,
            ..RoleCounts::default()
        }
    }

    // Both added, count by count.
    pub fn plus(self, more: RoleCounts) -> RoleCounts
        requires these { Summable self }
        requires more { Summable more }
        ensures { result ≡ plus self more }
    {
        RoleCounts {
            attached: self.attached + more.attached,
            no_candidate: self.no_candidate + more.no_candidate,
            ambiguous: self.ambiguous + more.ambiguous,
            edge: self.edge + more.edge,
        }
    }
}
