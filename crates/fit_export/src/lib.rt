// The fit of the crate `homography` for a program in another language, over lent slices of numbers. The Rust that this repository is
// compared with calls it (compare/rust).

#![tactic(auto)]

ghost use Rattle.std.specs.Prelude.{◌≡◌, ◌≤◌, length};
ghost use Rattle.fit_export.specs.FitCall.{left, points_of, too_short, entered, exported};

use sheet::Position;

// Whether one of four slices with these lengths has fewer than four, or there are fewer than nine places.
#[tactic(auto, unfolding(crate::specs::FitCall::too_short))]
fn too_short(a: usize, b: usize, c: usize, d: usize, places: usize) -> bool
    ensures { result ≡ too_short a b c d places }
{
    a < 4 || b < 4 || c < 4 || d < 4 || places < 9
}

// The first four points of a list of x and a list of y.
fn points_of(xs: &[f32], ys: &[f32]) -> [Position; 4]
    requires { (4 ≤ length xs.now) × (4 ≤ length ys.now) }
    ensures { result ≡ points_of xs.now ys.now }
{
    std::array::from_fn(|i| Position { x: xs[i], y: ys[i] })
}

// Writes nine entries to the front of a buffer, and leaves the rest of it as it was.
#[tactic(auto, unfolding(crate::specs::FitCall::entered))]
fn enter(h: [f32; 9], out: &mut [f32])
    requires { 9 ≤ length out.old }
    ensures { out.new ≡ entered h out.old }
{
    out[..9].copy_from_slice(&h);
}

// The fit that takes four cells to their pictured corners, each given by the first four x and the first four y. Where there is one the answer
// is 1, and the first nine places of `out` hold its entries row by row; else, and where a slice is too short, the answer is 0. All other places of
// `out` stay as they were.
// Stays: the C interface has five lists of numbers (a).
#[unsafe(no_mangle)]
pub extern "C" fn homography_from_4pt_fit(
    cells_x: &[f32],
    cells_y: &[f32],
    corners_x: &[f32],
    corners_y: &[f32],
    out: &mut [f32],
) -> u32
    ensures { left result out.new ≡ exported cells_x.now cells_y.now corners_x.now corners_y.now out.old }
{
    if too_short(
        cells_x.len(),
        cells_y.len(),
        corners_x.len(),
        corners_y.len(),
        out.len(),
    ) {
        return 0;
    }
    let cells = points_of(cells_x, cells_y);
    let corners = points_of(corners_x, corners_y);
    let Some(h) = homography::homography_from_4pt(cells, corners) else {
        return 0;
    };
    enter(h, out);
    1
}
