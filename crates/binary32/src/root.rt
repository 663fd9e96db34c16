// The square root of a binary32 float, worked out in whole numbers and rounded to nearest even.
ghost use Rattle.std.specs.Prelude.{◌≡◌, ◌+◌, ◌-◌, ◌*◌, ◌^◌, ◌≤◌, ◌<◌};
ghost use Rattle.binary32.specs.Sqrt.{Answers, RootOf, rooted, sqrt_or_nan};
ghost use Rattle.binary32.specs.Said.{root_said, root_due};
ghost use Rattle.binary32.specs.Steps.{Normalized, Near, Asked, Enclosed, FromTable, WholeRoot};

use refusal::Refusal;

// A significand of 24 digits, and the exponent of two that it counts.
#[derive(Clone, Copy)]
struct Parts {
    m: u32,
    e: u32,
}

// Two whole numbers that enclose the root of n: low is at most the root, and high is above it.
#[derive(Clone, Copy)]
struct Guess {
    n: u64,
    low: u64,
    high: u64,
    ghost enclosed: { Enclosed n low high },
}

// The first guess at the whole root of n: the table's. All that comes after it uses only that it encloses the root, so the answers do not depend on it. With
// k = n / 2^38 and t the table's entry k, which is the whole part of the root of 1,024 k, the root lies from t 2^14 up and below (t + 2) 2^14:
//
//     (t 2^14)^2 = t^2 2^28 <= 1,024 k 2^28 = k 2^38 <= n
//     n < (k + 1) 2^38 = 1,024 (k + 1) 2^28 < (t + 2)^2 2^28 = ((t + 2) 2^14)^2
//
// for (t + 1)^2 is above 1,024 k, and (t + 2)^2 is 2 t + 3 more than that, which is above 1,024: k is 256 at least, and so t is 512 at least. Where t is
// 1,023 the upper end is 2^24 in place of 2^24 + 2^14, since no root that is asked reaches 2^24.
fn first_guess(n: u64) -> Guess
    requires { Asked n }
    ensures of { result.n ≡ n }
    ensures listed { FromTable n result.low result.high }
{
    let t = u64::from(root_table::whole_root((n / 0x40_0000_0000) as usize));
    Guess {
        n,
        low: t * 0x4000,
        high: ((t + 2) * 0x4000).min(0x100_0000),
    }
}

impl Guess {
    // The guess s and s + 1 if these enclose the root, else this guess.
    fn tested(self, s: u64) -> Guess
        requires { s < 2 ^ 28 }
        ensures { result.n ≡ self.n }
    {
        let n = self.n;
        if !(s * s..(s + 1) * (s + 1)).contains(&n) {
            return self;
        }
        Guess {
            n,
            low: s,
            high: s + 1,
        }
    }

    // The guess made narrower. Two of Newton's steps from the middle of the table's guess lead to the whole root, or for 41 of the 2^24 numbers that are
    // asked to the next above it (tools/root_all counts them). What they lead to is tested, so that nothing has to be proved of where that is.
    fn narrowed(self) -> Guess
        ensures { result.n ≡ self.n }
    {
        let n = self.n;
        let middle = (self.low + self.high) / 2;
        let once = (middle + n / middle) / 2;
        let twice = (once + n / once) / 2;
        self.tested(twice)
    }

    // The largest s with s * s <= n, by halving what lies between the two numbers.
    fn refine(self) -> u64
        ensures { WholeRoot self.n result }
    {
        let n = self.n;
        let mut lo = self.low;
        let mut hi = self.high;
        // Stays: what lies between is halved, and no index is counted, so that there is nothing for a `for` to go over (d).
        while lo + 1 < hi {
            let mid = (lo + hi) / 2;
            if mid * mid <= n {
                lo = mid;
            } else {
                hi = mid;
            }
        }
        lo
    }
}

// The root of n to the nearest whole number. There is no tie: n would lie a quarter above a whole number.
fn nearest_root(n: u64) -> u32
    requires { (2 ^ 46 ≤ n) × (n ≤ 2 ^ 48 - 2 ^ 24) }
    ensures { Near n result }
{
    let s = first_guess(n).narrowed().refine();
    if n - s * s <= s {
        s as u32
    } else {
        s as u32 + 1
    }
}

// The number of a positive finite pattern, in units of 2 ^ -298, as m * 2 ^ e.
fn split(b: u32) -> Parts
    requires { (0 < b) × (b < 0x7f80_0000) }
    ensures { Normalized b result.m result.e }
{
    let field = b / 0x80_0000;
    let digits = b % 0x80_0000;
    if field == 0 {
        let k = digits.leading_zeros() - 8;
        Parts {
            m: digits << k,
            e: 149 - k,
        }
    } else {
        Parts {
            m: 0x80_0000 + digits,
            e: field + 148,
        }
    }
}

// The pattern of the root of a positive finite pattern.
fn root_bits(b: u32) -> u32
    requires { (0 < b) × (b < 0x7f80_0000) }
    ensures { RootOf b result }
{
    let p = split(b);
    let m = u64::from(p.m);
    let e = p.e;
    let g = (e - 23) / 2;
    if e % 2 == 0 {
        g * 0x80_0000 + nearest_root(m * 0x100_0000)
    } else {
        g * 0x80_0000 + nearest_root(m * 0x80_0000)
    }
}

// The square root of any non-negative finite float, rounded to nearest even; either zero gives itself; any other float is
// refused with number 3. The promise is made three times: as the relation that is read beside 01, as the computable `rooted`, and as the number or value
// that the answer says.
#[tactic(auto, using(crate::proofs::Answered::at_nan, crate::proofs::Rooting::nan_rooted, crate::proofs::Rooting::nan_said))]
pub fn sqrt(x: f32) -> Result<f32, Refusal>
    ensures rounded { Answers x result }
    ensures computed { result ≡ rooted x }
    ensures said { root_said result ≡ root_due x }
{
    if x.is_nan() {
        return Err(Refusal::OutOfRange);
    }
    match f32::to_bits(x) {
        0 | 0x8000_0000 => Ok(x),
        0x7f80_0000.. => Err(Refusal::OutOfRange),
        b => Ok(f32::from_bits(root_bits(b))),
    }
}

// The root for formulas: where `sqrt` refuses, a NaN.
pub fn sqrt_or_nan(x: f32) -> f32
    ensures { result ≡ sqrt_or_nan x }
{
    sqrt(x).unwrap_or(f32::NAN)
}
