// The label box as it is lent from another language: five numbers, a mark (1 where the box is empty, 0 where it is not), low i, high i, low j and
// high j.
ghost use Rattle.std.specs.Prelude.{◌≡◌, ◌≤◌, length};
ghost use Rattle.grid_words.specs.Around.{box_size, box_told, box_entered};

use labels::{Bounds, KeptBox};

// Places of the box.
pub const BOX_PLACES: usize = 5;

// A box that differs from every sheet's: its low i is above its high i.
const NO_SHEETS: KeptBox = KeptBox {
    empty: false,
    bounds: Bounds {
        low_i: 1,
        high_i: 0,
        low_j: 0,
        high_j: 0,
    },
};

// The box that five numbers stand for; with a mark other than 0 or 1 one that differs from every sheet's.
#[tactic(auto, unfolding(crate::specs::Around::box_told))]
pub fn box_told(around: &[i32]) -> KeptBox
    requires { box_size ≤ length around.now }
    ensures { result ≡ box_told around.now }
{
    let bounds = Bounds {
        low_i: around[1],
        high_i: around[2],
        low_j: around[3],
        high_j: around[4],
    };
    match around[0] {
        0 => KeptBox {
            empty: false,
            bounds,
        },
        1 => KeptBox {
            empty: true,
            bounds,
        },
        _ => NO_SHEETS,
    }
}

// Enters a box at the front.
pub fn enter_box(around: &mut [i32], kept: KeptBox)
    requires { box_size ≤ length around.old }
    ensures { around.new ≡ box_entered kept around.old }
{
    let bounds = kept.bounds;
    around[..BOX_PLACES].copy_from_slice(&[
        i32::from(kept.empty),
        bounds.low_i,
        bounds.high_i,
        bounds.low_j,
        bounds.high_j,
    ]);
}
