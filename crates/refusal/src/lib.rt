// The reasons for which a frame or a library call may be refused: the seven of document 01, the table of refusals, and those of document 02, 3/14 and 6/14.

#![tactic(auto)]

ghost use Rattle.std.specs.Prelude.{◌≡◌};
ghost use Rattle.refusal.specs.Refusal.{number_of};

// Each case has its number beside it, and the word of 01 or 02; 02 has none for 8 and 9.
#[derive(Clone, Copy, Debug, PartialEq, Eq)]
pub enum Refusal {
    // bent: a line is missing, out of order or ill-formed
    Malformed = 1,
    // overfull: a limit on bytes, corners or passes is passed
    OverLimit = 2,
    // wild: a number is non-finite or out of range
    OutOfRange = 3,
    // off sheet: a label's cell lies outside
    OffSheet = 4,
    // stranger: a label's corner is not given
    UnknownCorner = 5,
    // doubled: a cell or a corner is labelled twice
    Duplicate = 6,
    // short: a lent buffer is too short (library only)
    BufferTooShort = 7,
    // no corner is in both sets of labels
    NoSharedCorner = 8,
    // no shift gives every shared corner one cell and every cell one corner
    PatchesClash = 9,
    // not yours: the role may not run the pass
    NotPermitted = 10,
}

impl From<Refusal> for u8 {
    // The number of a refusal, as 01's table and 02 have it.
    ghost from_gives = { λ refusal n. n ≡ number_of refusal };

    fn from(refusal: Refusal) -> u8 {
        refusal as u8
    }
}

// The number of a refusal.
pub fn number(refusal: Refusal) -> u8
    ensures { result ≡ number_of refusal }
{
    u8::from(refusal)
}
