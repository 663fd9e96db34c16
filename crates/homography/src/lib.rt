// The fit of 01, made in place of the Rust's `homography_from_4pt`: the matrix that takes four cells to their pictured corners, and
// how a point maps by it. A matrix is nine entries, row by row. Normalising, solving, undoing, scaling and mapping stand apart.

#![tactic(auto)]

ghost use Rattle.std.specs.Prelude.{◌≡◌, ◌/◌, ◌&&◌, ◌<◌, get_or};
ghost use Rattle.std.specs.Float.{nan};
ghost use Rattle.binary32.specs.Ranges.{is_finite};
ghost use Rattle.homography.specs.Normalize.{point, mean, of_four, scale_of, row_sum, forward, map_row, moved, finite_points, normalized_of};
ghost use Rattle.homography.specs.Equations.{equation, equations};
ghost use Rattle.homography.specs.Undo.{backward, crossed, multiplied, answers_and_one, undone};
ghost use Rattle.homography.specs.Fit.{quotients, scaled_of, homography_of, applied};

use sheet::Position;

// What points are normalised by: their centre, and the scale of their distances from it.
#[derive(Clone, Copy)]
pub struct Normalization {
    pub scale: f32,
    pub cx: f32,
    pub cy: f32,
}

// Four normalised points, and what they are normalised by.
#[derive(Clone, Copy)]
pub struct Normalized {
    pub points: [Position; 4],
    pub by: Normalization,
}

// The mean of four numbers, summed in their order.
fn mean4(numbers: [f32; 4]) -> f32
    ensures { result ≡ of_four mean (λ i. get_or numbers i nan) }
{
    numbers.iter().fold(0.0, |sum, x| sum + *x) / 4.0
}

// The root of two by the mean distance, and 1 where that is at most 10^-12.
fn hartley_scale(mean_dist: f32) -> f32
    ensures { result ≡ scale_of mean_dist }
{
    if mean_dist > 1e-12 {
        1.4142135 / mean_dist
    } else {
        1.0
    }
}

// A row's sum, left to right.
fn row_sum(a: f32, b: f32, c: f32, x: f32, y: f32, z: f32) -> f32
    ensures { result ≡ row_sum a b c x y z }
{
    a * x + b * y + c * z
}

// The sum of row r of a matrix, for a point with a 1 below it.
fn map_row(h: [f32; 9], r: usize, p: Position) -> f32
    requires { r < 3 }
    ensures { result ≡ map_row h r p }
{
    row_sum(h[3 * r], h[3 * r + 1], h[3 * r + 2], p.x, p.y, 1.0)
}

// The matrix with rows (s 0 -s*cx), (0 s -s*cy), (0 0 1).
fn forward(n: Normalization) -> [f32; 9]
    ensures { result ≡ forward n }
{
    let s = n.scale;
    [s, 0.0, -s * n.cx, 0.0, s, -s * n.cy, 0.0, 0.0, 1.0]
}

// The first two row sums of a matrix and a point.
fn moved(t: [f32; 9], p: Position) -> Position
    ensures { result ≡ moved t p }
{
    Position {
        x: map_row(t, 0, p),
        y: map_row(t, 1, p),
    }
}

// Whether all four points are finite.
fn points_finite(points: [Position; 4]) -> bool
    ensures { result ≡ finite_points points }
{
    points.iter().all(|p| p.is_finite())
}

// Whether the values of all steps of a normalisation are finite. A non-finite one leaves the mean distance or a point non-finite.
fn steps_finite(mean_dist: f32, points: [Position; 4]) -> bool
    ensures { result ≡ (is_finite mean_dist && finite_points points) }
{
    binary32::ranges::is_finite(mean_dist) && points_finite(points)
}

// Four points normalised by their centre and their mean distance from it, in the order of the Rust's function of this name. `Err` holds
// those that do not count, since the value of a step is not finite.
pub fn normalize_points4(pts: [Position; 4]) -> Result<Normalized, Normalized>
    ensures { result ≡ normalized_of pts }
{
    let cx = mean4(pts.map(|p| p.x));
    let cy = mean4(pts.map(|p| p.y));
    let centre = Position { x: cx, y: cy };
    let mean_dist = mean4(pts.map(|p| p.distance(centre)));
    let scale = hartley_scale(mean_dist);
    let by = Normalization { scale, cx, cy };
    let t = forward(by);
    let points = pts.map(|p| moved(t, p));
    let normalized = Normalized { points, by };
    if steps_finite(mean_dist, points) {
        Ok(normalized)
    } else {
        Err(normalized)
    }
}

// One of the eight equations: the first of two of a point p that goes to q where i is even, else the second.
fn equation_of(i: usize, cells: [Position; 4], corners: [Position; 4]) -> [f32; 9]
    requires { i < 8 }
    ensures { result ≡ equation i (point cells (i / 2)) (point corners (i / 2)) }
{
    let p = cells[i / 2];
    let q = corners[i / 2];
    let u = q.x;
    let v = q.y;
    if i % 2 == 0 {
        [p.x, p.y, 1.0, 0.0, 0.0, 0.0, -u * p.x, -u * p.y, u]
    } else {
        [0.0, 0.0, 0.0, p.x, p.y, 1.0, -v * p.x, -v * p.y, v]
    }
}

// The eight equations of four points that go to four others.
pub fn equations(cells: [Position; 4], corners: [Position; 4]) -> [[f32; 9]; 8]
    ensures { result ≡ equations cells corners }
{
    std::array::from_fn(
        |i|
            requires { i < 8 }
            ensures { result ≡ equation i (point cells (i / 2)) (point corners (i / 2)) }
        { equation_of(i, cells, corners) },
    )
}

// The matrix with rows (1/s 0 cx), (0 1/s cy), (0 0 1).
fn backward(n: Normalization) -> [f32; 9]
    ensures { result ≡ backward n }
{
    let r = 1.0 / n.scale;
    [r, 0.0, n.cx, 0.0, r, n.cy, 0.0, 0.0, 1.0]
}

// Entry n of the product of two matrices.
fn product_at(a: [f32; 9], b: [f32; 9], n: usize) -> f32
    requires { n < 9 }
    ensures { result ≡ crossed row_sum a b n }
{
    let i = 3 * (n / 3);
    let j = n % 3;
    row_sum(a[i], a[i + 1], a[i + 2], b[j], b[3 + j], b[6 + j])
}

// The product of two matrices.
fn multiply(a: [f32; 9], b: [f32; 9]) -> [f32; 9]
    ensures { result ≡ multiplied a b }
{
    std::array::from_fn(
        |n|
            requires { n < 9 }
        { product_at(a, b, n) },
    )
}

// The eight answers and a 1.
fn with_one(x: [f32; 8]) -> [f32; 9]
    ensures { result ≡ answers_and_one x }
{
    let mut h = [1.0f32; 9];
    h[..8].copy_from_slice(&x);
    h
}

// The matrix of eight answers, with the normalisation of the cells (s) and of the corners (t) undone.
pub fn undo(x: [f32; 8], s: Normalization, t: Normalization) -> [f32; 9]
    ensures { result ≡ undone x s t }
{
    let h = multiply(backward(t), with_one(x));
    multiply(h, forward(s))
}

// All nine entries divided by the last.
fn divided(h: [f32; 9]) -> [f32; 9]
    ensures { result ≡ quotients h }
{
    let last = h[8];
    h.map(|x| x / last)
}

// The fit that a matrix gives when all its entries are divided by the last: none where that one is small, or a quotient is not finite.
pub fn scaled(h: [f32; 9]) -> Option<[f32; 9]>
    ensures { result ≡ scaled_of h }
{
    if elimination::magnitude(h[8]) < 1e-12 {
        return None;
    }
    let q = divided(h);
    elimination::values_finite(&q).then_some(q)
}

// The fit that takes four cells to their pictured corners, its nine entries row by row. There is none where a pivot is zero, where the last
// entry is small, or where the value of any step is not finite.
pub fn homography_from_4pt(cells: [Position; 4], corners: [Position; 4]) -> Option<[f32; 9]>
    ensures { result ≡ homography_of cells corners }
{
    let s = normalize_points4(cells).ok()?;
    let t = normalize_points4(corners).ok()?;
    let x = elimination::solve(equations(s.points, t.points)).ok()?;
    scaled(undo(x, s.by, t.by))
}

// Where a point maps: row sums left to right, the first two divided by the third.
pub fn apply(h: [f32; 9], p: Position) -> Position
    ensures { result ≡ applied h p }
{
    let w = map_row(h, 2, p);
    Position {
        x: map_row(h, 0, p) / w,
        y: map_row(h, 1, p) / w,
    }
}
