// The prediction of 01: the neighbours of a cell, the step at each, the weighted sums over them, and whether the cell is
// extrapolated.

#![tactic(auto)]

ghost use Rattle.std.specs.Prelude.{◌≡◌, ℕ, ◌≤◌, length};
ghost use Rattle.sizes.specs.Sizes.{place_count};
ghost use Rattle.sheet.specs.Cells.{OnSheet, Within, moved};
ghost use Rattle.sheet.specs.Words.{SheetCell};
ghost use Rattle.sheet.specs.Corners.{seen_of};
ghost use Rattle.sheet.specs.Seeing.{seen_in};
ghost use Rattle.predict.specs.Predict.{forward_of, backward_of, one_sided, both_sided, step_between, step_at, vector_of, axis_of, weighed, prediction_of, on_side, has_neighbour, extrapolating, is_seen, labelled_on};

use sheet::{Cell, Corner, Offset, Position, Seeing};

// A labelled cell beside another, and its corner's position.
#[derive(Clone, Copy)]
pub struct Neighbour {
    pub at: Cell,
    pub position: Position,
}

// The two directions of the grid.
#[derive(Clone, Copy)]
pub enum Direction {
    I,
    J,
}

// A step at a cell: its own pair, or axis times cell size.
// Stays: the specification describes the step as an enum of these two cases (a).
#[derive(Clone, Copy)]
pub enum LocalStep {
    Own(f32, f32),
    Axis,
}

// A vector in the picture.
#[derive(Clone, Copy, Default)]
pub struct Vector {
    pub x: f32,
    pub y: f32,
}

// The axes of i and j, and the cell size.
#[derive(Clone, Copy, Default)]
pub struct Grid {
    pub axis_i: Vector,
    pub axis_j: Vector,
    pub cell_size: f32,
}

// The running weighted sums.
#[derive(Clone, Copy, Default)]
pub struct Sums {
    pub x: f32,
    pub y: f32,
    pub w: f32,
}

// A side of a cell: -i, +i, -j, +j, or any.
#[derive(Clone, Copy)]
pub enum Side {
    MinusI,
    PlusI,
    MinusJ,
    PlusJ,
    Any,
}

// The cells of the 3 by 3 square, j outer and i inner, both rising, centre left out.
const SQUARE: [Offset; 8] = [
    Offset { di: -1, dj: -1 },
    Offset { di: 0, dj: -1 },
    Offset { di: 1, dj: -1 },
    Offset { di: -1, dj: 0 },
    Offset { di: 1, dj: 0 },
    Offset { di: -1, dj: 1 },
    Offset { di: 0, dj: 1 },
    Offset { di: 1, dj: 1 },
];

// The offset of the cell forward along i or j.
fn forward(d: Direction) -> Offset
    ensures { result ≡ forward_of d }
{
    match d {
        Direction::I => Offset { di: 1, dj: 0 },
        Direction::J => Offset { di: 0, dj: 1 },
    }
}

// The offset of the cell backward along i or j.
// Stays: two rows of a table; with a sign as a parameter each caller would still name its side, and the definitions are two as well (d).
fn backward(d: Direction) -> Offset
    ensures { result ≡ backward_of d }
{
    match d {
        Direction::I => Offset { di: -1, dj: 0 },
        Direction::J => Offset { di: 0, dj: -1 },
    }
}

// The difference of two positions.
fn one_sided(f: Position, b: Position) -> LocalStep
    ensures { result ≡ one_sided f b }
{
    LocalStep::Own(f.x - b.x, f.y - b.y)
}

// Half the difference of two positions.
fn both_sided(f: Position, b: Position) -> LocalStep
    ensures { result ≡ both_sided f b }
{
    LocalStep::Own((f.x - b.x) * 0.5, (f.y - b.y) * 0.5)
}

// The step at a position by what is seen forward and backward of it.
fn step_between(here: Position, f: Option<Corner>, b: Option<Corner>) -> LocalStep
    ensures { result ≡ step_between here f b }
{
    match (f, b) {
        (Some(f), Some(b)) => both_sided(f.position, b.position),
        (Some(f), None) => one_sided(f.position, here),
        (None, Some(b)) => one_sided(here, b.position),
        (None, None) => LocalStep::Axis,
    }
}

// The step at a neighbour along i or j: half the difference of both sides' positions, or the one-sided difference, or else the
// axis. (The Rust looks the neighbour's own position up again; here the neighbour has it.)
// Stays: the definitions make the record of a cell and a position of any cell, so that no ghost field can hold that it is on the sheet (d).
pub fn local_step_at(seeing: Seeing, n: Neighbour, d: Direction) -> LocalStep
    requires { OnSheet n.at }
    ensures { result ≡ step_at (seen_in seeing.entry) n d }
{
    let f = seeing.at(sheet::neighbour(n.at, forward(d)));
    let b = seeing.at(sheet::neighbour(n.at, backward(d)));
    step_between(n.position, f, b)
}

// A step as a vector: its own pair, or axis times cell size.
fn vector_of(axis: Vector, cell_size: f32, step: LocalStep) -> Vector
    ensures { result ≡ vector_of axis cell_size step }
{
    match step {
        LocalStep::Own(x, y) => Vector { x, y },
        LocalStep::Axis => Vector {
            x: axis.x * cell_size,
            y: axis.y * cell_size,
        },
    }
}

// The axis of i, or of j.
fn axis_of(grid: Grid, d: Direction) -> Vector
    ensures { result ≡ axis_of grid d }
{
    match d {
        Direction::I => grid.axis_i,
        Direction::J => grid.axis_j,
    }
}

// The sums with one neighbour more, by the offset from it to the cell, its position and its steps along i and j. The Rust's
// weight of 1 where `d2` is 0 is left out: the centre of the square is no neighbour, so `d2` is never 0.
fn weigh(sums: Sums, o: Offset, p: Position, i_step: Vector, j_step: Vector) -> Sums
    requires { Within 1000 o }
    ensures { result ≡ weighed sums o p i_step j_step }
{
    let di = o.di as f32;
    let dj = o.dj as f32;
    let d2 = di * di + dj * dj;
    let w = 1.0 / d2;
    let off_x = i_step.x * di + j_step.x * dj;
    let off_y = i_step.y * di + j_step.y * dj;
    Sums {
        x: sums.x + w * (p.x + off_x),
        y: sums.y + w * (p.y + off_y),
        w: sums.w + w,
    }
}

// A cell that is predicted, and what it is predicted from: the corners that are seen, the axes and the cell size.
#[derive(Clone, Copy)]
struct Predicting<'a> {
    seeing: Seeing<'a>,
    grid: Grid,
    c: Cell,
    ghost on: { OnSheet c },
}

impl<'a> Predicting<'a> {
    ghost use Rattle.predict.specs.Predict.{step_vector, with_neighbour, with_cell, sums_of};

    // The step at a neighbour along i or j, as a vector.
    fn step_vector(&self, n: Neighbour, d: Direction) -> Vector
        requires { OnSheet n.at }
        ensures { result ≡ step_vector (seen_in self.now.seeing) self.now.grid n d }
    {
        let step = local_step_at(self.seeing, n, d);
        vector_of(axis_of(self.grid, d), self.grid.cell_size, step)
    }

    // A neighbour's part in the sums for a cell.
    fn add_neighbour(&self, sums: Sums, n: Neighbour) -> Sums
        requires { OnSheet n.at }
        ensures { result ≡ with_neighbour (seen_in self.now.seeing) self.now.grid self.now.c sums n }
    {
        let i_step = self.step_vector(n, Direction::I);
        let j_step = self.step_vector(n, Direction::J);
        weigh(
            sums,
            sheet::difference(self.c, n.at),
            n.position,
            i_step,
            j_step,
        )
    }

    // The sums with the cell at an offset, if it is labelled.
    fn add_if_labelled(&self, sums: Sums, o: Offset) -> Sums
        requires { Within 128 o }
        ensures { result ≡ with_cell (seen_in self.now.seeing) self.now.grid self.now.c sums (moved self.now.c o) }
    {
        let at = sheet::neighbour(self.c, o);
        match self.seeing.at(at) {
            None => sums,
            Some(corner) => {
                let position = corner.position;
                self.add_neighbour(sums, Neighbour { at, position })
            }
        }
    }

    // The sums over all neighbours, in their order.
    fn sum_neighbours(&self) -> Sums
        ensures { result ≡ sums_of (seen_in self.now.seeing) self.now.grid self.now.c }
    {
        SQUARE
            .iter()
            .fold(Sums::default(), |sums, o| self.add_if_labelled(sums, *o))
    }
}

// Whether a cell is labelled, that is, whether a corner is seen at it, whatever the corners are.
fn is_labelled(sheet: &[u16], c: Cell) -> bool
    requires { place_count ≤ length sheet.now }
    ensures { (corner : ℕ → Corner) → result ≡ is_seen (seen_of corner sheet.now c) }
{
    sheet::label_at(sheet, c).is_some()
}

// Whether a cell lies on a side of another.
fn is_on_side(side: Side, c: Cell, at: Cell) -> bool
    ensures { result ≡ on_side side c at }
{
    match side {
        Side::MinusI => at.i < c.i,
        Side::PlusI => at.i > c.i,
        Side::MinusJ => at.j < c.j,
        Side::PlusJ => at.j > c.j,
        Side::Any => true,
    }
}

// Whether the cell at an offset is labelled and on a side.
fn is_neighbour_on(sheet: &[u16], c: Cell, side: Side, o: Offset) -> bool
    requires { SheetCell sheet.now c × Within 128 o }
    ensures { (corner : ℕ → Corner) → result ≡ labelled_on (seen_of corner sheet.now) c side (moved c o) }
{
    let at = sheet::neighbour(c, o);
    is_labelled(sheet, at) && is_on_side(side, c, at)
}

// Whether a cell has a neighbour on a side, whatever the corners are: the labels settle it.
pub fn has_neighbour(sheet: &[u16], c: Cell, side: Side) -> bool
    requires { SheetCell sheet.now c }
    ensures { (corner : ℕ → Corner) → result ≡ has_neighbour (seen_of corner sheet.now) c side }
{
    SQUARE.iter().any(|o| is_neighbour_on(sheet, c, side, *o))
}

// The prediction for a cell: none where it has no neighbour, else the weighted mean over its neighbours.
pub fn predict_from_neighbours(seeing: Seeing, c: Cell, grid: Grid) -> Option<Position>
    requires { OnSheet c }
    ensures { result ≡ prediction_of (seen_in seeing.entry) grid c }
{
    if !has_neighbour(seeing.sheet, c, Side::Any) {
        return None;
    }
    let predicting = Predicting { seeing, grid, c };
    let sums = predicting.sum_neighbours();
    Some(Position {
        x: sums.x / sums.w,
        y: sums.y / sums.w,
    })
}

// Whether a cell is extrapolated: not all of the sides -i, +i, -j, +j have a neighbour. The labels settle it.
pub fn is_extrapolating(sheet: &[u16], c: Cell) -> bool
    requires { SheetCell sheet.now c }
    ensures { (corner : ℕ → Corner) → result ≡ extrapolating (seen_of corner sheet.now) c }
{
    !(has_neighbour(sheet, c, Side::MinusI)
        && has_neighbour(sheet, c, Side::PlusI)
        && has_neighbour(sheet, c, Side::MinusJ)
        && has_neighbour(sheet, c, Side::PlusJ))
}
