// Eight equations in eight unknowns, solved as 01, "Fit", has it: each column takes the largest pivot at or below the diagonal, the
// rows below it are cleared, and back substitution runs from the last row to the first. A row holds eight coefficients and, in column
// 8, the right side. Every operation is total, so the work is done in any case, and whether its answers count is found out at the end.

#![tactic(auto)]

ghost use Rattle.std.specs.Prelude.{◌≡◌, cond, not, ◌&&◌, ◌-◌, ◌<◌, get_or};
ghost use Rattle.std.specs.Float.{nan};
ghost use Rattle.std.specs.Float.Ieee.{lt, eq};
ghost use Rattle.binary32.specs.Numbers.{nought};
ghost use Rattle.binary32.specs.Ranges.{is_finite};
ghost use Rattle.elimination.specs.Tables.{every};
ghost use Rattle.elimination.specs.Rounded.{magnitude};
ghost use Rattle.elimination.specs.Solve.{entry, largest, pivoted, gained, cleared, eliminated, right_sides, carried, answered, nonzero_diagonal, finite_matrix, finite_answers, solved};

// A value without its sign: what is below zero is negated.
// Stays: it is promised as the definition has it, which leaves -0 as it is, and `abs` does not (d).
pub fn magnitude(x: f32) -> f32
    ensures { result ≡ magnitude x }
{
    if x < 0.0 { -x } else { x }
}

// Row i in place of row b, where its entry y has a larger magnitude than x.
fn larger(b: usize, x: f32, i: usize, y: f32) -> usize
    ensures { result ≡ cond (lt (magnitude x) (magnitude y)) i b }
{
    if magnitude(x) < magnitude(y) { i } else { b }
}

// The row at or below the diagonal with the largest magnitude in column k, the first of equals.
fn pivot(m: &[[f32; 9]; 8], k: usize) -> usize
    requires { k < 8 }
    ensures { (result ≡ largest m.now k (7 - k)) × (result < 8) }
{
    let mut b = k;
    // Stays: a `fold` would have to show of its own that row b is one of the eight, by clauses on its closure that are longer than the loop (d).
    for i in k + 1..8usize {
        b = larger(b, m[b][k], i, m[i][k]);
    }
    b
}

// The row gains w times the negated pivot row, in the columns right of k.
fn gain(r: &mut [f32; 9], p: &[f32; 9], w: f32, k: usize)
    requires { k < 8 }
    ensures { r.new ≡ gained r.old p.now w k }
{
    // Stays: two rows go together from k + 1 on; a proof knows no element of what is written through `zip`, and by `enumerate` one index is still counted (d).
    for j in k + 1..9usize {
        r[j] = r[j] + w * (-p[j]);
    }
}

// Each row below row k gains.
fn clear(m: &mut [[f32; 9]; 8], k: usize)
    requires { k < 8 }
    ensures { m.new ≡ cleared m.old k }
{
    let p = m[k];
    let w = 1.0 / p[k];
    for row in m[k + 1..].iter_mut() {
        let x = row[k] * w;
        gain(row, &p, x, k);
    }
}

// Column k: its pivot's row comes to the diagonal, and the rows below are cleared.
fn column(m: &mut [[f32; 9]; 8], k: usize)
    requires { k < 8 }
    ensures { m.new ≡ cleared (pivoted m.old k) k }
{
    let b = pivot(m, k);
    // Stays: by the slice's `swap` a fit takes 3,000 to 3,052 instructions and not 2,884 to 2,889 (b).
    (m[k], m[b]) = (m[b], m[k]);
    clear(m, k);
}

// All eight columns, one after the other.
// Stays: they are written out so that the compiler has each with its number; as a loop a fit takes 4,340 instructions and not 2,890 (b).
fn eliminate(m: &mut [[f32; 9]; 8])
    ensures { m.new ≡ eliminated 8 m.old }
{
    column(m, 0);
    column(m, 1);
    column(m, 2);
    column(m, 3);
    column(m, 4);
    column(m, 5);
    column(m, 6);
    column(m, 7);
}

// The right sides.
fn right_sides(m: &[[f32; 9]; 8]) -> [f32; 8]
    ensures { result ≡ right_sides m.now }
{
    m.map(
        |r|
            ensures { result ≡ get_or r 8 nan }
        { r[8] },
    )
}

// The right sides after answer k, which stands in its own row.
fn carry(m: &[[f32; 9]; 8], b: &mut [f32; 8], k: usize)
    requires { k < 8 }
    ensures { b.new ≡ carried m.now b.old k }
{
    let x = b[k] / m[k][k];
    for (i, y) in b[..k].iter_mut().enumerate() {
        *y = *y + (-x) * m[i][k];
    }
    b[k] = x;
}

// From the last answer to the first.
fn substitute(m: &[[f32; 9]; 8]) -> [f32; 8]
    ensures { result ≡ answered 8 m.now }
{
    let mut b = right_sides(m);
    // Stays: each answer is carried into the rows above it by its number; a chain would only be this `for` as a `for_each` (d).
    for k in (0..8usize).rev() {
        carry(m, &mut b, k);
    }
    b
}

// Whether each of n values is finite: the entries of a row, or the answers.
pub fn values_finite<const N: usize>(xs: &[f32; N]) -> bool
    ensures { result ≡ every N (λ j. is_finite (get_or xs.now j nan)) }
{
    xs.iter().all(|x| binary32::ranges::is_finite(*x))
}

// Whether each row's entries are.
fn all_finite(m: &[[f32; 9]; 8]) -> bool
    ensures { result ≡ finite_matrix m.now }
{
    m.iter().all(|r| values_finite(r))
}

// Whether no entry on the diagonal is zero.
fn diagonal_nonzero(m: &[[f32; 9]; 8]) -> bool
    ensures { result ≡ nonzero_diagonal m.now }
{
    (0..8usize).all(
        |k|
            requires { k < 8 }
            ensures { result ≡ not (eq (entry m.entry.now k k) nought) }
        { m[k][k] != 0.0 },
    )
}

// Whether the answers b count, m being what elimination left. A non-finite value of an earlier step leaves one in m or in b.
fn counts(m: &[[f32; 9]; 8], b: &[f32; 8]) -> bool
    ensures { result ≡ (nonzero_diagonal m.now && (finite_matrix m.now && finite_answers b.now)) }
{
    diagonal_nonzero(m) && all_finite(m) && values_finite(b)
}

// The answers of eight equations, which count where no pivot is zero and no value, given or of a step, is non-finite. `Err` holds those
// that do not count.
pub fn solve(a: [[f32; 9]; 8]) -> Result<[f32; 8], [f32; 8]>
    ensures { result ≡ solved a }
{
    let mut m = a;
    eliminate(&mut m);
    let x = substitute(&m);
    if counts(&m, &x) { Ok(x) } else { Err(x) }
}
