// All the labels of a sheet at once: how many there are, the box around them, whether they reach the rim, and which corners
// are used. Only the sheet's first 16,384 places are looked at.

#![tactic(auto)]

ghost use Rattle.std.specs.Prelude.{◌≡◌, ◌≤◌, ◌<◌, length};
ghost use Rattle.sizes.specs.Sizes.{place_count};
ghost use Rattle.sheet.specs.Words.{label_of};
ghost use Rattle.labels.specs.Labelled.{is_labelled, labelled_cell, label_count};
ghost use Rattle.labels.specs.Box.{widened, box_of, bounds_of, bounds_joined};
ghost use Rattle.labels.specs.Kept.{same_bounds};
ghost use Rattle.labels.specs.Rim.{outermost, on_rim, rim, RimAsked};
ghost use Rattle.labels.specs.Used.{noted, Tied};

mod kept;

pub use kept::KeptBox;
use sheet::{Cell, Written};
use sizes::CORNERS;

// Whether a word names a corner.
#[tactic(auto, unfolding(crate::specs::Labelled::is_labelled, crate::specs::Labelled::names_corner))]
pub fn is_labelled(word: u16) -> bool
    ensures { result ≡ is_labelled word }
{
    sheet::label_of(word).is_some()
}

// How many cells are labelled.
// Stays: a sheet is a lent slice, which may be longer than its places (01, the C interface), so that each function asks it (a).
pub fn label_count(sheet: &[u16]) -> usize
    requires { place_count ≤ length sheet.now }
    ensures { result ≡ label_count sheet.now }
{
    Written::new(sheet)
        .filter(|(_, word)| is_labelled(*word))
        .count()
}

// The cell of a place whose word names a corner.
fn labelled_cell(place_and_word: (usize, u16)) -> Option<Cell>
    requires { place_and_word.0 < place_count }
    ensures { result ≡ labelled_cell place_and_word }
{
    let (place, word) = place_and_word;
    is_labelled(word).then(|| sheet::cell_of(place))
}

// The lowest and highest labelled i and j.
#[derive(Clone, Copy, Default)]
pub struct Bounds {
    pub low_i: i32,
    pub high_i: i32,
    pub low_j: i32,
    pub high_j: i32,
}

impl Bounds {
    // The bounds of one cell.
    fn of(c: Cell) -> Self
        ensures { result ≡ bounds_of c }
    {
        Bounds {
            low_i: c.i,
            high_i: c.i,
            low_j: c.j,
            high_j: c.j,
        }
    }

    // Whether all four numbers are these.
    fn is(self, other: Bounds) -> bool
        ensures { result ≡ same_bounds self other }
    {
        self.low_i == other.low_i
            && self.high_i == other.high_i
            && self.low_j == other.low_j
            && self.high_j == other.high_j
    }

    // The bounds of what is in one of two bounds.
    fn join(self, other: Bounds) -> Self
        ensures { result ≡ bounds_joined self other }
    {
        Bounds {
            low_i: self.low_i.min(other.low_i),
            high_i: self.high_i.max(other.high_i),
            low_j: self.low_j.min(other.low_j),
            high_j: self.high_j.max(other.high_j),
        }
    }
}

// The box with one cell more in it.
#[tactic(auto, unfolding(crate::specs::Box::widened))]
pub fn widen(around: Option<Bounds>, c: Cell) -> Option<Bounds>
    ensures { result ≡ widened around c }
{
    match around {
        None => Some(Bounds::of(c)),
        Some(b) => Some(b.join(Bounds::of(c))),
    }
}

// The label box of a sheet: the lowest and highest labelled i and j, or empty.
// Stays: as `label_count` (a).
#[tactic(auto, using(sheet::proofs::Blank::rest_below))]
pub fn label_box(sheet: &[u16]) -> Option<Bounds>
    requires { place_count ≤ length sheet.now }
    ensures { result ≡ box_of sheet.now }
{
    Written::new(sheet)
        .filter_map(labelled_cell)
        .map(Bounds::of)
        .reduce(Bounds::join)
}

// Whether i or j lies in the outermost `depth` lines on either side.
fn is_outermost(line: i32, depth: u32) -> bool
    requires { depth ≤ 64 }
    ensures { result ≡ outermost depth line }
{
    !(depth as i32 - 64..=63 - depth as i32).contains(&line)
}

// Whether a cell lies in the outermost `depth` rings of the sheet.
#[tactic(auto, unfolding(crate::specs::Rim::on_rim))]
pub fn on_rim(c: Cell, depth: u32) -> bool
    requires { depth ≤ 64 }
    ensures { result ≡ on_rim depth c }
{
    is_outermost(c.i, depth) || is_outermost(c.j, depth)
}

// The rim: whether a labelled cell lies in the outermost `depth` rings of the sheet.
pub fn rim_reached(sheet: &[u16], depth: u32) -> bool
    requires { RimAsked sheet.now depth }
    ensures { result ≡ rim depth sheet.now }
{
    Written::new(sheet)
        .filter_map(labelled_cell)
        .any(|c| on_rim(c, depth))
}

// The corner that a word names is marked as used; all other entries stay. A corner of 1,024 or more has no entry.
#[tactic(auto, unfolding(crate::specs::Used::noted))]
fn note_used(used: &mut [bool; CORNERS], word: u16)
    ensures { used.new ≡ noted used.old (label_of word) }
{
    if let Some(k) = sheet::label_of(word)
        && k < CORNERS
    {
        used[k] = true;
    }
}

// Which corners the sheet has: entry k says whether the corner k is at one of its places.
// Stays: as `label_count` (a).
pub fn mark_used(sheet: &[u16]) -> [bool; CORNERS]
    requires { place_count ≤ length sheet.now }
    ensures { Tied sheet.now result }
{
    let mut used = [false; CORNERS];
    for (_, word) in Written::new(sheet) {
        note_used(&mut used, word);
    }
    used
}
