// The sheet of 01: cells and their places, what a place holds, and the corners as they are seen through it.

#![tactic(auto)]

ghost use Rattle.std.specs.Prelude.{◌≡◌, ◌+◌, ◌<◌, ◌≤◌, length, set};
ghost use Rattle.binary32.specs.Sqrt.{sqrt_or_nan};
ghost use Rattle.sizes.specs.Sizes.{place_count, corner_limit};
ghost use Rattle.sheet.specs.Cells.{on_sheet, OnSheet, place_of, cell_of, moved, difference_of, magnitude_of, Within, NearSheet};
ghost use Rattle.sheet.specs.Words.{label_of, hole_of, ambiguous_of, with_label, with_hole, with_ambiguous, without_marks, label_at, attached, hole_marked, ambiguous_marked, marks_cleared, SheetCell, word_at};
ghost use Rattle.sheet.specs.Shades.{kind_at};
ghost use Rattle.sheet.specs.Corners.{finite_position, squared_distance, Given};
ghost use Rattle.sheet.specs.Blank.{all_blank, BlankRun, BlankPlaces, IsNextWritten};

mod held;
mod walk;

pub use held::{CornerArrays, CornerCount, NO_CORNERS};
use sizes::PLACES;
pub use walk::Written;

// A cell of the checkerboard, by its two numbers. On the sheet both are from -64 to 63.
#[derive(Clone, Copy)]
pub struct Cell {
    pub i: i32,
    pub j: i32,
}

// The difference of two cells.
#[derive(Clone, Copy)]
pub struct Offset {
    pub di: i32,
    pub dj: i32,
}

// Whether a cell is on the sheet.
#[tactic(auto, unfolding(crate::specs::Cells::on_sheet))]
pub fn on_sheet(c: Cell) -> bool
    ensures { result ≡ on_sheet c }
{
    (-64..=63).contains(&c.i) && (-64..=63).contains(&c.j)
}

// The place of a cell that is on the sheet.
// Stays: a cell is 01's plain struct by value, and may lie off the sheet; that it is on the sheet each caller proves at the call (d).
#[tactic(auto, using(crate::proofs::Laws::line_i, crate::proofs::Laws::line_j), unfolding(crate::specs::Cells::place_of))]
pub fn place_of(c: Cell) -> usize
    requires { OnSheet c }
    ensures { result ≡ place_of c }
{
    (c.i + 64) as usize * 128 + (c.j + 64) as usize
}

// The cell of a place below 16,384.
#[tactic(auto, unfolding(crate::specs::Cells::cell_of))]
pub fn cell_of(place: usize) -> Cell
    requires { place < place_count }
    ensures { result ≡ cell_of place }
{
    Cell {
        i: (place / 128) as i32 - 64,
        j: (place % 128) as i32 - 64,
    }
}

// The cell at an offset from a cell on the sheet; it may be off the sheet.
#[tactic(auto, using(crate::proofs::Laws::line_i, crate::proofs::Laws::line_j))]
pub fn neighbour(c: Cell, o: Offset) -> Cell
    requires { OnSheet c × Within 128 o }
    ensures { result ≡ moved c o }
{
    Cell {
        i: c.i + o.di,
        j: c.j + o.dj,
    }
}

// The offset at which `a` lies from `b`.
pub fn difference(a: Cell, b: Cell) -> Offset
    requires { NearSheet a × NearSheet b }
    ensures { result ≡ difference_of a b }
{
    Offset {
        di: a.i - b.i,
        dj: a.j - b.j,
    }
}

// |di| + |dj|.
pub fn magnitude(o: Offset) -> u32
    requires { Within 1000 o }
    ensures { result ≡ magnitude_of o }
{
    o.di.unsigned_abs() + o.dj.unsigned_abs()
}

// The label of a word.
#[tactic(auto, unfolding(crate::specs::Words::label_of, crate::specs::Words::label_of_number))]
pub fn label_of(word: u16) -> Option<usize>
    ensures { result ≡ label_of word }
{
    match word % 16384 {
        0 => None,
        number => Some(usize::from(number - 1)),
    }
}

// Whether a word has the hole mark.
#[tactic(auto, unfolding(crate::specs::Words::hole_of))]
pub fn is_hole(word: u16) -> bool
    ensures { result ≡ hole_of word }
{
    word / 16384 % 2 == 1
}

// Whether a word has the ambiguous mark.
#[tactic(auto, unfolding(crate::specs::Words::ambiguous_of))]
pub fn is_ambiguous(word: u16) -> bool
    ensures { result ≡ ambiguous_of word }
{
    word / 32768 == 1
}

// The word with a corner, both marks kept.
#[tactic(auto, using(crate::proofs::Words::label_sum))]
pub fn with_label(word: u16, corner: usize) -> u16
    requires { corner < 16383 }
    ensures { result ≡ with_label word corner }
{
    word / 16384 * 16384 + (corner as u16) + 1
}

// The word with the hole mark, the rest kept.
#[tactic(auto, using(crate::proofs::Words::hole_sum))]
pub fn with_hole(word: u16) -> u16
    ensures { result ≡ with_hole word }
{
    word / 32768 * 32768 + 16384 + word % 16384
}

// The word with the ambiguous mark, the rest kept.
#[tactic(auto, using(crate::proofs::Words::ambiguous_sum))]
pub fn with_ambiguous(word: u16) -> u16
    ensures { result ≡ with_ambiguous word }
{
    32768 + word % 32768
}

// The word with neither mark, the label kept.
#[tactic(auto, using(crate::proofs::Words::plain_sum))]
pub fn without_marks(word: u16) -> u16
    ensures { result ≡ without_marks word }
{
    word % 16384
}

// The label of a cell; none off the sheet.
// Stays: the sheet is a lent slice, which may be longer than its places (01, the C interface), so that each function asks it of what it is lent (a).
#[tactic(auto, using(crate::proofs::Laws::place_in), unfolding(crate::specs::Words::label_at))]
pub fn label_at(sheet: &[u16], c: Cell) -> Option<usize>
    requires { place_count ≤ length sheet.now }
    ensures { result ≡ label_at sheet.now c }
{
    if on_sheet(c) {
        label_of(sheet[place_of(c)])
    } else {
        None
    }
}

// Changes the word of a cell by a function; all other places stay.
#[tactic(auto, using(crate::proofs::Laws::place_in))]
fn change<F: FnOnce(u16) -> u16>(sheet: &mut [u16], c: Cell, f: F)
    requires { SheetCell sheet.old c × F.IsAlwaysCallable f }
    ensures { (w : _) × F.post f (word_at sheet.old c) w × (sheet.new ≡ set sheet.old (place_of c) w) }
{
    let place = place_of(c);
    sheet[place] = f(sheet[place]);
}

// Attaches a corner to a cell; its marks stay, and so do all other places.
// Stays: the sheet is a lent slice, which may be longer than its 16,384 places, and the cell a plain struct (01), so that both are asked at each call (a).
#[tactic(auto, unfolding(crate::specs::Words::attached))]
pub fn attach(sheet: &mut [u16], c: Cell, corner: usize)
    requires { SheetCell sheet.old c × (corner < 16383) }
    ensures { sheet.new ≡ attached sheet.old c corner }
{
    change(sheet, c, |word| with_label(word, corner));
}

// Marks a cell as a hole; all else stays.
#[tactic(auto, unfolding(crate::specs::Words::hole_marked))]
pub fn mark_hole(sheet: &mut [u16], c: Cell)
    requires { SheetCell sheet.old c }
    ensures { sheet.new ≡ hole_marked sheet.old c }
{
    change(sheet, c, with_hole);
}

// Marks a cell as ambiguous; all else stays.
#[tactic(auto, unfolding(crate::specs::Words::ambiguous_marked))]
pub fn mark_ambiguous(sheet: &mut [u16], c: Cell)
    requires { SheetCell sheet.old c }
    ensures { sheet.new ≡ ambiguous_marked sheet.old c }
{
    change(sheet, c, with_ambiguous);
}

// Clears both marks of a cell; all else stays.
#[tactic(auto, unfolding(crate::specs::Words::marks_cleared))]
pub fn clear_marks(sheet: &mut [u16], c: Cell)
    requires { SheetCell sheet.old c }
    ensures { sheet.new ≡ marks_cleared sheet.old c }
{
    change(sheet, c, without_marks);
}

// A corner's position in the picture.
#[derive(Clone, Copy)]
pub struct Position {
    pub x: f32,
    pub y: f32,
}

impl Position {
    // Whether both numbers are finite.
    pub fn is_finite(self) -> bool
        ensures { result ≡ finite_position self }
    {
        binary32::ranges::is_finite(self.x) && binary32::ranges::is_finite(self.y)
    }

    // The squared distance from another position, each operation rounded.
    #[tactic(auto, unfolding(crate::specs::Corners::squared_distance))]
    pub fn squared_distance(self, from: Position) -> f32
        ensures { result ≡ squared_distance self from }
    {
        let dx = self.x - from.x;
        let dy = self.y - from.y;
        dx * dx + dy * dy
    }

    // The distance from another position: the rounded root of the squared distance.
    pub fn distance(self, from: Position) -> f32
        ensures { result ≡ sqrt_or_nan (squared_distance self from) }
    {
        binary32::root::sqrt_or_nan(self.squared_distance(from))
    }
}

// A corner: its position, and its pitch, 01's word for the board's spacing around it in the picture.
#[derive(Clone, Copy)]
pub struct Corner {
    pub position: Position,
    pub pitch: f32,
}

// The kind that a cell takes: the parity of i + j, by the remainder that has no sign.
// Stays: 02 has the kinds as the numbers 0 and 1 (1/14), as the bytes of the shades and the definition `kind_at : Cell → ℕ` have them (a).
#[tactic(auto, using(crate::proofs::Laws::line_i, crate::proofs::Laws::line_j), unfolding(crate::specs::Shades::kind_at))]
pub fn kind_at(c: Cell) -> usize
    requires { OnSheet c }
    ensures { result ≡ kind_at c }
{
    (c.i + c.j).rem_euclid(2) as usize
}

// The corners as they are seen through a sheet, which names none from 1,024 on.
#[derive(Clone, Copy)]
pub struct Seeing<'a> {
    pub corners: &'a CornerArrays,
    pub sheet: &'a [u16],
    ghost given: { Given corner_limit sheet.now },
}

impl<'a> Seeing<'a> {
    ghost use Rattle.sheet.specs.Seeing.{seen_in};

    // What is seen at a cell: the corner of its label, or nothing where it has none or is off the sheet.
    #[tactic(auto, unfolding(crate::specs::Corners::seen_of, crate::specs::Corners::seen_through))]
    pub fn at(self, c: Cell) -> Option<Corner>
        ensures { result ≡ seen_in self.entry c }
    {
        let k = label_at(self.sheet, c)?;
        Some(self.corners.corner_at(k))
    }
}

// Whether places hold nothing. It looks at all of them in any case, so that the compiler can take several words at once.
fn all_blank(places: &[u16]) -> bool
    ensures { result ≡ all_blank places.now 0 (length places.now) }
{
    places.iter().fold(0, |joined, word| joined | word) == 0
}

// How many places hold nothing, up to the first that holds something.
fn blank_run(places: &[u16]) -> usize
    ensures { BlankRun places.now 0 (length places.now) result }
{
    places.iter().take_while(|word| **word == 0).count()
}

// Some places from one on that hold nothing, all of its row of 128 places, if the place itself holds nothing. From the row's start on the
// whole row is tried first, and then 16 places at once.
pub fn blank_places(sheet: &[u16], at: usize) -> usize
    requires { (at < place_count) × (place_count ≤ length sheet.now) }
    ensures { BlankPlaces sheet.now at result }
{
    if at % 128 == 0 && all_blank(&sheet[at..at + 128]) {
        128
    } else if at % 16 == 0 && all_blank(&sheet[at..at + 16]) {
        16
    } else {
        blank_run(&sheet[at..at + 16 - at % 16])
    }
}

// The next place from one on that holds something, if there is one: most places hold nothing, and are passed over here row by row.
pub fn next_written(sheet: &[u16], from: usize) -> Option<usize>
    requires { (from ≤ place_count) × (place_count ≤ length sheet.now) }
    ensures { IsNextWritten sheet.now from result }
{
    let mut place = from;
    // Stays: the step is a run of places that hold nothing, and how many they are is found at each (d).
    while place < PLACES {
        if sheet[place] != 0 {
            return Some(place);
        }
        place += blank_places(sheet, place);
    }
    None
}
