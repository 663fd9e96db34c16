// A walk over the places of a window.

ghost use Rattle.std.specs.Prelude.{◌≤◌};
ghost use Rattle.sizes.specs.Sizes.{place_count};
ghost use Rattle.region.specs.Windowed.{WindowFits};

use crate::Window;

// The places of the sheet that may lie in a window, rising: all others are passed over.
#[derive(Clone, Copy)]
pub struct Inside {
    window: Window,
    from: usize,
    ghost fits: { WindowFits window × (from ≤ place_count) },
}

impl Window {
    ghost use Rattle.region.specs.Walk.{Starts};

    // The places that may lie in the window, from the first one on.
    pub fn places(self) -> Inside
        requires { WindowFits self }
        ensures { Starts self result }
    {
        Inside {
            window: self,
            from: 0,
        }
    }
}

impl Iterator for Inside {
    ghost use Rattle.std.specs.Prelude.{◌-◌};
    ghost use Rattle.std.specs.Iterator.{at_most};
    ghost use Rattle.region.specs.Walk.{Goes};

    type Item = usize;

    ghost next_gives = { Goes };

    ghost remaining = { λ walk. at_most (place_count - walk.from) };

    // Always inlined: where it is called, its answer goes through memory.
    #[inline(always)]
    fn next(&mut self) -> Option<usize> {
        let place = crate::next_inside(self.window, self.from)?;
        self.from = place + 1;
        Some(place)
    }
}
