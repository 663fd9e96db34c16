// The supports of a cell for local (01, "Sheet" and "Fit"; port of `nearest_labelled_by_grid` of shared/extension/local.rs and of the fit on
// the supports there): the labelled places, the four nearest to a cell, the fit on these with its residuals, and the largest residual recorded.

#![tactic(auto)]

ghost use Rattle.std.specs.Prelude.{◌≡◌, cond, ℕ, Bool, ◌+◌, ◌/◌, ◌<◌, ◌≤◌, ltb, leb, take};
ghost use Rattle.std.specs.Float.{binary32};
ghost use Rattle.std.specs.Float.Ieee.{of_bits, lt};
ghost use Rattle.sizes.specs.Sizes.{place_count, corner_limit};
ghost use Rattle.sheet.specs.Cells.{OnSheet, place_of, cell_of};
ghost use Rattle.sheet.specs.Seeing.{seen_in};
ghost use Rattle.passes.specs.Local.{cell_point, pictured_at, residual_of, local_fit, worst, recorded, recorded_all};
ghost use Rattle.binary32.specs.Ranges.{all_finite};
ghost use Rattle.supports.specs.Nearest.{Gatherable, Gathered, support_at, SplitsAt, InOrder, Kept, MoreKept, EarlierKept, places_of, nearest_among, Along, Nearby, Keeping};
ghost use Rattle.supports.specs.Fitted.{support_fit_of, points_fit, Pictured};

use sheet::{Cell, Position, Seeing, Written};
use sizes::CORNERS;

// A labelled place, and how far its cell lies from the cell whose supports are looked for: |di| + |dj|.
// Stays: the definitions make a support of any number (`support_at`); with the fact in it they would carry a proof beside each place (d).
#[derive(Clone, Copy)]
pub struct Support {
    pub place: usize,
    pub reach: u32,
}

// What stands for a support that is not found yet: farther than any cell of the sheet from any other.
// Stays: an Option orders None before all others; with a reach of 1,000 a support that is not found stands behind all by itself (d).
const NOT_FOUND: Support = Support {
    place: 0,
    reach: 1000,
};

// The labelled places of a sheet in rising order, so many at the front of an array.
// Stays: an array and a number, not a Vec, since the library has fixed memory (a).
#[derive(Drop)]
pub struct Labelled {
    pub places: [u16; CORNERS],
    pub count: usize,
    ghost few: { count ≤ corner_limit },
}

impl Labelled {
    // None.
    pub fn new() -> Labelled
        ensures { result.count ≡ 0 }
    {
        Labelled {
            places: [0; CORNERS],
            count: 0,
        }
    }

    // Lists the labelled places of a sheet in rising order at the front of the array, whose rest stays.
    pub fn gather(&mut self, sheet: &[u16])
        requires { Gatherable sheet.now }
        ensures { Gathered sheet.now self.old.places self.new.places self.new.count }
    {
        let mut count = 0usize;
        // Stays: how many there are is kept and read behind the loop; by `enumerate` it would be counted beside it (d).
        for (place, _) in Written::new(sheet).filter(|(_, word)| labels::is_labelled(*word)) {
            self.places[count] = place as u16;
            count += 1;
        }
        self.count = count;
    }

    // The places as a slice.
    pub fn as_slice(&self) -> &[u16]
        ensures { result.now ≡ take self.now.count self.now.places }
    {
        &self.places[..self.count]
    }
}

// A cell of the sheet as a point.
// Stays: a cell is 01's plain struct by value; that it is on the sheet is proved where the supports are looked for (d).
pub fn cell_point(c: Cell) -> Position
    requires { OnSheet c }
    ensures { result ≡ cell_point c }
{
    Position {
        x: c.i as f32,
        y: c.j as f32,
    }
}

// A place of the sheet.
#[derive(Clone, Copy)]
struct Place {
    place: usize,
    ghost on: { place < place_count },
}

impl Place {
    // It, with its reach from a cell.
    // Stays: as `cell_point` (d).
    fn support_of(self, c: Cell) -> Support
        requires { OnSheet c }
        ensures { result ≡ support_at c self.place }
    {
        let o = sheet::difference(sheet::cell_of(self.place), c);
        Support {
            place: self.place,
            reach: sheet::magnitude(o),
        }
    }

    // Whether it lies so many lines before a line that it is farther than a reach.
    fn far_before(self, row: usize, reach: u32) -> bool
        ensures { result ≡ ltb (self.place / 128 + reach) row }
    {
        self.place / 128 + (reach as usize) < row
    }

    // Whether it lies so many lines behind a line that it is as far as a reach or farther.
    fn far_behind(self, row: usize, reach: u32) -> bool
        requires { row < 128 }
        ensures { result ≡ leb (row + reach) (self.place / 128) }
    {
        row + (reach as usize) <= self.place / 128
    }

    // The point of its cell.
    fn point(self) -> Position
        ensures { result ≡ cell_point (cell_of self.place) }
    {
        cell_point(sheet::cell_of(self.place))
    }

    // The pictured corner of its cell; one that has none is nowhere.
    fn pictured(self, seeing: Seeing) -> Position
        ensures { result ≡ pictured_at (seen_in seeing.entry) self.place }
    {
        match seeing.at(sheet::cell_of(self.place)) {
            None => Position {
                x: f32::NAN,
                y: f32::NAN,
            },
            Some(corner) => corner.position,
        }
    }
}

// One more support among four, the nearest first: it goes before the first whose reach passes the test, and the farthest of five is dropped.
// Stays: as a struct's fact, that four are in order would be proved at each answer of `keep`, whose test is known only where it is called (d).
fn keep<F: Fn(u32) -> bool>(s: [Support; 4], new: Support, is_behind: F) -> [Support; 4]
    requires callable { F.IsAlwaysCallable is_behind }
    requires in_order { InOrder s }
    ensures { (behind : ℕ → Bool) → ((r : ℕ) (b : Bool) → F.post is_behind r b → b ≡ behind r) → SplitsAt new.reach behind
        → Kept behind s new result }
{
    let [a, b, c, d] = s;
    if !is_behind(d.reach) {
        s
    } else if is_behind(a.reach) {
        [new, a, b, c]
    } else if is_behind(b.reach) {
        [a, new, b, c]
    } else if is_behind(c.reach) {
        [a, b, new, c]
    } else {
        [a, b, c, new]
    }
}

// One more support, whose place is after all others': of equal reach the earlier place stays ahead.
// Stays: as `keep` (d).
fn keep_support(s: [Support; 4], new: Support) -> [Support; 4]
    requires { InOrder s }
    ensures { MoreKept s new result }
{
    keep(s, new, |reach| new.reach < reach)
}

// One more support, whose place is before all others': of equal reach it goes ahead.
// Stays: as `keep` (d).
fn keep_earlier(s: [Support; 4], new: Support) -> [Support; 4]
    requires { InOrder s }
    ensures { EarlierKept s new result }
{
    keep(s, new, |reach| new.reach <= reach)
}

// The line of a cell: i + 64.
fn row_of(c: Cell) -> usize
    requires { OnSheet c }
    ensures { result ≡ place_of c / 128 }
{
    sheet::place_of(c) / 128
}

// The four nearest of some places, from the last back to the first that is not too far.
fn keep_before(places: &[u16], c: Cell) -> [Support; 4]
    requires { Along places.now c }
    ensures { Keeping c result places.now }
{
    let row = row_of(c);
    let mut kept = [NOT_FOUND; 4];
    for place in places.iter().rev() {
        let place = usize::from(*place);
        let at = Place { place };
        if at.far_before(row, kept[3].reach) {
            break;
        }
        kept = keep_earlier(kept, at.support_of(c));
    }
    kept
}

// The four nearest to a cell among at least four places, given in rising order: by |di| + |dj|, then i, then j. Each has its own reach. They are
// looked for both ways from where the cell's line begins. Wherever that is, the nearest are the same.
// Stays: `keep_before` walks back and by other tests; one function for both would take an iterator and two closures, with a clause each (d).
pub fn nearest_labelled_by_grid(places: &[u16], c: Cell) -> [Support; 4]
    requires { Nearby places.now c }
    ensures { result ≡ nearest_among c places.now }
{
    let row = row_of(c);
    let start = places.partition_point(|place| usize::from(*place) / 128 < row);
    let (before, behind) = places.split_at(start);
    let mut kept = keep_before(before, c);
    for place in behind {
        let place = usize::from(*place);
        let at = Place { place };
        if at.far_behind(row, kept[3].reach) {
            break;
        }
        kept = keep_support(kept, at.support_of(c));
    }
    kept
}

// A fit on four supports, with the residual of each, all finite.
#[derive(Clone, Copy)]
pub struct SupportFit {
    pub h: [f32; 9],
    pub residuals: [f32; 4],
}

// How far a fit maps a cell from its pictured corner.
fn residual_of(h: [f32; 9], cell: Position, corner: Position) -> f32
    ensures { result ≡ residual_of h cell corner }
{
    homography::apply(h, cell).distance(corner)
}

// Whether all residuals are finite.
// Stays: `elimination::values_finite` is by another definition, of N entries by their number; this one is of a list (d).
fn all_finite(residuals: &[f32]) -> bool
    ensures { result ≡ all_finite residuals.now }
{
    residuals.iter().all(|r| binary32::ranges::is_finite(*r))
}

// The fit that takes four cells to their pictured corners, with its residuals. There is none where a residual is not finite.
fn fit_points(cells: [Position; 4], corners: [Position; 4]) -> Option<SupportFit>
    ensures { result ≡ support_fit_of (points_fit cells corners) }
{
    let h = homography::homography_from_4pt(cells, corners)?;
    let residuals = std::array::from_fn(
        |i|
            requires { i < 4 }
        { residual_of(h, cells[i], corners[i]) },
    );
    all_finite(&residuals).then_some(SupportFit { h, residuals })
}

// The fit on the supports: what takes their cells to the pictured corners, with the residual of each. There is none where the points have no
// fit or a residual is not finite.
pub fn local_fit(seeing: Seeing, s: [Support; 4]) -> Option<SupportFit>
    requires { Pictured s }
    ensures { result ≡ support_fit_of (local_fit (seen_in seeing.entry) (places_of s)) }
{
    let cells = s.map(
        |k|
            requires { k.place < place_count }
        { Place { place: k.place }.point() },
    );
    let corners = s.map(
        |k|
            requires { k.place < place_count }
        { Place { place: k.place }.pictured(seeing) },
    );
    fit_points(cells, corners)
}

// The larger of two numbers.
// Stays: std's `max` gives the other number where one is NaN, and either of two zeros; here the first stays unless it is less (d).
fn larger(m: f32, r: f32) -> f32
    ensures { result ≡ cond (lt m r) r m }
{
    if m < r { r } else { m }
}

// The largest of four residuals, from 0 on.
pub fn worst_of(residuals: [f32; 4]) -> f32
    ensures { result ≡ worst (of_bits binary32 0) residuals }
{
    residuals.iter().fold(0.0, |m, r| larger(m, *r))
}

// One residual more is recorded.
#[tactic(auto, unfolding(passes::specs::Local::recorded))]
fn record_residual(largest: Option<f32>, r: f32) -> Option<f32>
    ensures { result ≡ recorded largest r }
{
    Some(largest.map_or(r, |m| larger(m, r)))
}

// Four residuals are recorded.
pub fn record_residuals(largest: Option<f32>, residuals: [f32; 4]) -> Option<f32>
    ensures { result ≡ recorded_all largest residuals }
{
    residuals
        .iter()
        .fold(largest, |l, r| record_residual(l, *r))
}
