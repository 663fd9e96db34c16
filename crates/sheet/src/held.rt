// The corners as the passes hold them.

ghost use Rattle.std.specs.Prelude.{◌≤◌};
ghost use Rattle.sizes.specs.Sizes.{corner_limit};

use crate::{Corner, Position};
use sizes::CORNERS;

// How many corners there are: at most 1,024.
#[derive(Clone, Copy)]
pub struct CornerCount {
    pub number: usize,
    pub ghost few: { number ≤ corner_limit },
}

// The corners as the passes hold them: how many there are, and their xs, ys and pitches, with room for 1,024 of each. Where some shade stands each
// corner has a byte, 0 for no shade and 1 and 2 for the two kinds; where none does there are no bytes.
// Stays: with xs and ys in rows a scan of 1,024 corners takes 2,395 instructions, over an array of corners 5,083 (measured in Rust, by LLVM) (b).
#[derive(Drop)]
pub struct CornerArrays {
    pub xs: [f32; CORNERS],
    pub ys: [f32; CORNERS],
    pub pitches: [f32; CORNERS],
    pub shades: Option<[u8; CORNERS]>,
    pub count: CornerCount,
}

// No corner: each has a NaN in its three places, and no shade stands.
pub const NO_CORNERS: CornerArrays = CornerArrays {
    xs: [f32::NAN; CORNERS],
    ys: [f32::NAN; CORNERS],
    pitches: [f32::NAN; CORNERS],
    shades: None,
    count: CornerCount { number: 0 },
};

impl CornerArrays {
    ghost use Rattle.std.specs.Prelude.{◌≡◌, ◌<◌};
    ghost use Rattle.sheet.specs.Shades.{any_in, shades_in, takes_kind};
    ghost use Rattle.sheet.specs.Corners.{corner_in};

    // Where the corner of a number lies.
    #[tactic(auto, unfolding(crate::specs::Corners::corner_in))]
    pub fn position_of(&self, k: usize) -> Position
        requires { k < corner_limit }
        ensures { result ≡ (corner_in self.now k).position }
    {
        Position {
            x: self.xs[k],
            y: self.ys[k],
        }
    }

    // The corner of a number.
    #[tactic(auto, unfolding(crate::specs::Corners::corner_in))]
    pub fn corner_at(&self, k: usize) -> Corner
        requires { k < corner_limit }
        ensures { result ≡ corner_in self.now k }
    {
        Corner {
            position: self.position_of(k),
            pitch: self.pitches[k],
        }
    }

    // Whether any shade stands.
    pub fn is_shaded(&self) -> bool
        ensures { result ≡ any_in self.now }
    {
        self.shades.is_some()
    }

    // Whether a cell of a kind takes a corner: any corner if no shade stands, else those of its kind.
    // Stays: a kind is 02's number, as in `kind_at` (a).
    #[tactic(auto, unfolding(crate::specs::Shades::takes_kind, crate::specs::Shades::is_kind, crate::specs::Shades::shade_held, crate::specs::Shades::shade_of))]
    pub fn is_taken(&self, kind: usize, k: usize) -> bool
        requires { k < corner_limit }
        ensures { result ≡ takes_kind (shades_in self.now) kind k }
    {
        match &self.shades {
            None => true,
            Some(shades) => match shades[k] {
                0 => false,
                shade => usize::from(shade - 1) == kind,
            },
        }
    }
}
