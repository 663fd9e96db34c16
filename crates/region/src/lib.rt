// Which cells a round of fill or of local has (01, "Sheet"): whether a cell lies inside the label box, or at most some lines past it, by i and by
// j; and for local the rows and columns that have a label, and a place told by these and by the box.

#![tactic(auto)]

ghost use Rattle.std.specs.Prelude.{◌≡◌, not, ◌&&◌, ℕ, ◌/◌, ◌%◌, ◌<◌, ◌≤◌, pos, ◌+ℤ◌, ◌-ℤ◌, All};
ghost use Rattle.sizes.specs.Sizes.{place_count};
ghost use Rattle.passes.specs.Fill.{from_to, near_i, near_j};
ghost use Rattle.region.specs.Region.{Lines};
ghost use Rattle.region.specs.Windowed.{BoxOn, WindowFits, Windowed, IsNextIn};

mod walk;

use labels::Bounds;
use sheet::Cell;
pub use walk::Inside;

// Whether a number lies from one end to the other, or at most `past` beyond them. 64 bits hold each end moved so far.
fn is_near(low: i32, high: i32, past: u32, z: i32) -> bool
    ensures { result ≡ from_to (low -ℤ pos past) (high +ℤ pos past) z }
{
    let n = i64::from(past);
    (i64::from(low) - n..=i64::from(high) + n).contains(&i64::from(z))
}

// Whether a cell lies inside the bounds by i, or at most `past` lines beyond them.
pub fn is_near_i(b: Bounds, past: u32, c: Cell) -> bool
    ensures { result ≡ near_i past b c }
{
    is_near(b.low_i, b.high_i, past, c.i)
}

// Whether a cell lies inside the bounds by j, or at most `past` lines beyond them.
// Stays: the definitions `near_i` and `near_j` are two as well (d).
pub fn is_near_j(b: Bounds, past: u32, c: Cell) -> bool
    ensures { result ≡ near_j past b c }
{
    is_near(b.low_j, b.high_j, past, c.j)
}

// The lines that some places have.
// Stays: the places are lent as a slice; as `Labelled` of `supports` this crate would name that one for these two calls alone (d).
fn lines_of<F: Fn(usize) -> usize>(places: &[u16], line: F) -> [bool; 128]
    requires callable { F.IsAlwaysCallable line }
    requires below { (p r : ℕ) → p < place_count → F.post line p r → r < 128 }
    requires on_sheet { All (λ p. p < place_count) places.now }
    ensures { (f : ℕ → ℕ) → ((p r : ℕ) → p < place_count → F.post line p r → r ≡ f p) → Lines f places.now result }
{
    let mut lines = [false; 128];
    for place in places {
        lines[line(usize::from(*place))] = true;
    }
    lines
}

// The rows of some places.
// Stays: as `lines_of` (d).
pub fn rows_of(places: &[u16]) -> [bool; 128]
    requires { All (λ p. p < place_count) places.now }
    ensures { Lines (λ p. p % 128) places.now result }
{
    lines_of(places, |place| place % 128)
}

// The columns of some places.
// Stays: as `lines_of` (d).
pub fn columns_of(places: &[u16]) -> [bool; 128]
    requires { All (λ p. p < place_count) places.now }
    ensures { Lines (λ p. p / 128) places.now result }
{
    lines_of(places, |place| place / 128)
}

// What the cells of a round are told by: the label box, and which rows and which columns have a label.
#[derive(Clone, Copy)]
pub struct Region {
    pub around: Option<Bounds>,
    pub rows: [bool; 128],
    pub columns: [bool; 128],
}

impl Region {
    ghost use Rattle.region.specs.Region.{region_at};

    // Whether a place's cell is one of a round, if it is unlabelled: it lies in the box, in a strip of the depth on a row or a column that has a
    // label, or in a corner block.
    #[tactic(auto, unfolding(crate::specs::Region::region_around))]
    pub fn is_local_cell(&self, place: usize, depth: u32) -> bool
        requires { place < place_count }
        ensures { result ≡ region_at depth self.now place }
    {
        let c = sheet::cell_of(place);
        match self.around {
            None => false,
            Some(b) => {
                let in_i = is_near_i(b, 0, c);
                let in_j = is_near_j(b, 0, c);
                let past_i = !in_i && is_near_i(b, depth, c);
                let past_j = !in_j && is_near_j(b, depth, c);
                in_i && in_j
                    || past_i && (past_j || self.rows[place % 128])
                    || past_j && self.columns[place / 128]
            }
        }
    }
}

// The lines of the sheet within which a round walks, as numbers from 0 to 127: from the start up to the end, which is not one of them.
#[derive(Clone, Copy, Default)]
pub struct Window {
    pub start_i: usize,
    pub end_i: usize,
    pub start_j: usize,
    pub end_j: usize,
}

// The window about a box: all its lines, and so many past them, as far as the sheet goes. About an empty box there is none.
pub fn window_of(around: Option<Bounds>, past: u32) -> Window
    requires { BoxOn around }
    ensures { Windowed past around result }
{
    let Some(b) = around else {
        return Window::default();
    };
    let low = sheet::place_of(Cell {
        i: b.low_i,
        j: b.low_j,
    });
    let high = sheet::place_of(Cell {
        i: b.high_i,
        j: b.high_j,
    });
    let n = past as usize;
    Window {
        start_i: (low / 128).saturating_sub(n),
        end_i: (high / 128 + n + 1).min(128),
        start_j: (low % 128).saturating_sub(n),
        end_j: (high % 128 + n + 1).min(128),
    }
}

// The next place from one on that may lie in the window, if there is one: a walk over the sheet passes over all others.
pub fn next_inside(w: Window, from: usize) -> Option<usize>
    requires { WindowFits w × (from ≤ place_count) }
    ensures { IsNextIn w from result }
{
    let i = from / 128;
    let j = from % 128;
    if w.end_i <= i {
        return None;
    }
    if i < w.start_i {
        return Some(w.start_i * 128 + w.start_j);
    }
    if j < w.start_j {
        return Some(i * 128 + w.start_j);
    }
    if j < w.end_j {
        return Some(from);
    }
    if w.end_i <= i + 1 {
        return None;
    }
    Some((i + 1) * 128 + w.start_j)
}
