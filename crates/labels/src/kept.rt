// The label box as it is kept beside a sheet (02, 5/14).

ghost use Rattle.std.specs.Prelude.{◌≡◌};
ghost use Rattle.labels.specs.Kept.{around_of, kept_of, same_box};

use crate::Bounds;

// The lowest and highest labelled i and j, and a mark for an empty box, whose numbers then count for nothing.
#[derive(Clone, Copy)]
pub struct KeptBox {
    pub empty: bool,
    pub bounds: Bounds,
}

impl KeptBox {
    // A box as it is kept. The numbers of an empty one are 0.
    #[tactic(auto, unfolding(crate::specs::Kept::kept_of))]
    pub fn of(around: Option<Bounds>) -> Self
        ensures { result ≡ kept_of around }
    {
        match around {
            None => KeptBox {
                empty: true,
                bounds: Bounds::default(),
            },
            Some(bounds) => KeptBox {
                empty: false,
                bounds,
            },
        }
    }

    // The box that is kept: none where the mark says so, whatever the numbers.
    #[tactic(auto, unfolding(crate::specs::Kept::around_of))]
    pub fn around(self) -> Option<Bounds>
        ensures { result ≡ around_of self }
    {
        (!self.empty).then_some(self.bounds)
    }

    // Whether it is this box.
    #[tactic(auto, unfolding(crate::specs::Kept::same_box))]
    pub fn is(self, around: Option<Bounds>) -> bool
        ensures { result ≡ same_box (around_of self) around }
    {
        match (self.around(), around) {
            (None, None) => true,
            (Some(a), Some(b)) => a.is(b),
            (None, Some(_)) | (Some(_), None) => false,
        }
    }
}
