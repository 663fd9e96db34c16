// Which floats are numbers of a frame or of a call (01, "Ranges, by value (-0 is 0)"). A float that is not finite lies in no range.
ghost use Rattle.std.specs.Prelude.{◌≡◌};
ghost use Rattle.binary32.specs.Ranges.{is_finite, ends_of, in_range};

// What a float of a frame or of a call stands for.
#[derive(Clone, Copy, Debug, PartialEq, Eq)]
pub enum Quantity {
    // a corner's x or y
    Position,
    Pitch,
    CellSize,
    // a part of the axis of i or of j
    AxisPart,
    Band,
    // search, boundary or residual
    Multiple,
    Factor,
}

// The two ends of a range, which belong to it.
#[derive(Clone, Copy, Debug, PartialEq)]
pub struct Ends {
    pub low: f32,
    pub high: f32,
}

// Whether x is neither an infinity nor a NaN.
#[tactic(auto, using(crate::proofs::Finite::finite_said))]
pub fn is_finite(x: f32) -> bool
    ensures { result ≡ is_finite x }
{
    x.is_finite()
}

// The ends of a quantity's range.
pub fn ends_of(q: Quantity) -> Ends
    ensures { result ≡ ends_of q }
{
    match q {
        Quantity::Position => Ends {
            low: -16384.0,
            high: 16384.0,
        },
        Quantity::Pitch => Ends {
            low: 0.0,
            high: 16384.0,
        },
        Quantity::CellSize => Ends {
            low: 0.0009765625,
            high: 16384.0,
        },
        Quantity::AxisPart => Ends {
            low: -4.0,
            high: 4.0,
        },
        Quantity::Band => Ends {
            low: 0.0,
            high: 4.0,
        },
        Quantity::Multiple => Ends {
            low: 0.0,
            high: 16.0,
        },
        Quantity::Factor => Ends {
            low: 0.0,
            high: 1000.0,
        },
    }
}

// Whether x lies in the range of a quantity, ends included, by value.
#[tactic(auto, using(crate::proofs::Between::contained))]
pub fn in_range(q: Quantity, x: f32) -> bool
    ensures { result ≡ in_range q x }
{
    let e = ends_of(q);
    (e.low..=e.high).contains(&x)
}
