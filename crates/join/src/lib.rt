// Joining two patches (change request 3/14): what the join of two sets of labels says. The rule, the join as a function and the laws between
// them are in specs/ and proofs/.

#![tactic(auto)]

ghost use Rattle.std.specs.Prelude.{◌≡◌};
ghost use Rattle.join.specs.Refused.{refusal_of};

use refusal::Refusal;
use sheet::Offset;

// Why two sets of labels are not joined.
#[derive(Clone, Copy)]
pub enum Unjoinable {
    // 8: no corner is in both sets
    Apart,
    // 9: no shift gives every shared corner one cell and every cell one corner
    Clash,
    // 4: that shift takes a label off the sheet
    Off,
}

impl From<Unjoinable> for Refusal {
    // The refusal of two sets that are not joined.
    ghost from_gives = { λ unjoinable refusal. refusal ≡ refusal_of unjoinable };

    fn from(unjoinable: Unjoinable) -> Refusal {
        match unjoinable {
            Unjoinable::Apart => Refusal::NoSharedCorner,
            Unjoinable::Clash => Refusal::PatchesClash,
            Unjoinable::Off => Refusal::OffSheet,
        }
    }
}

// What the test of two sets of labels says: the shift that joins them, or why they are not joined.
pub type Verdict = Result<Offset, Unjoinable>;
