// A line read by its form, and its numbers held as words: a float as its bits, an integer as OFFSET more than it is.
ghost use Rattle.std.specs.Prelude.{◌≡◌, true, ◌+◌, ◌-◌, ◌*◌, ◌≤◌, min, drop};
ghost use Rattle.binary32.specs.Hex.{read_bits};
ghost use Rattle.line_form.specs.Integers.{offset, is_digit, digits_after, read_positive, read_integer};
ghost use Rattle.line_form.specs.Forms.{bits_piece, whole_piece, byte_piece, piece_of, fit_of};
ghost use Rattle.line_form.specs.Held.{held_fit, held_piece, held_digits, held_positive, word, kept};

use super::OFFSET;
use binary32::hex::read_bits;

// What stands at the front of a text, and how many bytes stand behind it: the number of some digits, cut to OFFSET; or, for one byte of a form, the
// number as it is held, none where the byte stands for itself.
// Stays: with the rest as a slice the answer would be no equation with its definition: two slices with one text may lie at two places (d).
#[derive(Clone, Copy, Debug, PartialEq, Eq)]
pub struct Taken<T> {
    pub value: T,
    pub left: usize,
}

// One digit more behind a number.
fn grown(value: u32, b: u8) -> u32
    requires { (value ≤ offset) × (is_digit b ≡ true) }
    ensures { result ≡ min offset (value * 10 + (b - 48)) }
{
    (value * 10 + u32::from(b - b'0')).min(OFFSET)
}

// The digits at the front of a text, as far as they go.
fn read_digits(text: &[u8]) -> Taken<u32>
    ensures { result ≡ held_digits (digits_after 0 text.now) }
{
    let mut value = 0u32;
    for (i, b) in text.iter().enumerate() {
        if !b.is_ascii_digit() {
            return Taken {
                value,
                left: text.len() - i,
            };
        }
        value = grown(value, *b);
    }
    Taken { value, left: 0 }
}

// The digits of a number above 0: the first is not 0.
fn positive(text: &[u8]) -> Option<Taken<u32>>
    ensures { result ≡ held_positive (read_positive text.now) }
{
    match text {
        [b'1'..=b'9', ..] => Some(read_digits(text)),
        _ => None,
    }
}

// A number that was read.
fn number(value: u32, left: usize) -> Taken<Option<u32>>
    ensures { result ≡ word value left }
{
    Taken {
        value: Some(value),
        left,
    }
}

// An integer: 0, or a minus and a number above 0, or a number above 0.
fn integer(text: &[u8]) -> Option<Taken<Option<u32>>>
    ensures { result ≡ held_piece (whole_piece (read_integer text.now)) }
{
    match text {
        [b'0', rest @ ..] => Some(number(OFFSET, rest.len())),
        [b'-', rest @ ..] => {
            let d = positive(rest)?;
            Some(number(OFFSET - d.value, d.left))
        }
        [_, ..] => {
            let d = positive(text)?;
            Some(number(OFFSET + d.value, d.left))
        }
        [] => None,
    }
}

// A float.
fn float(text: &[u8]) -> Option<Taken<Option<u32>>>
    ensures { result ≡ held_piece (bits_piece (read_bits text.now) (drop 8 text.now)) }
{
    let bits = read_bits(text)?;
    Some(number(bits, text.len() - 8))
}

// A byte that stands for itself.
#[tactic(auto, using(crate::proofs::Reading::byte_none, crate::proofs::Reading::byte_same, crate::proofs::Reading::byte_other))]
fn byte(c: u8, text: &[u8]) -> Option<Taken<Option<u32>>>
    ensures { result ≡ held_piece (byte_piece c text.now) }
{
    match text {
        [b, rest @ ..] if *b == c => Some(Taken {
            value: None,
            left: rest.len(),
        }),
        _ => None,
    }
}

// What stands for one byte of a form.
#[tactic(auto, using(crate::proofs::Reading::of_float, crate::proofs::Reading::of_whole, crate::proofs::Reading::of_byte))]
fn piece(c: u8, text: &[u8]) -> Option<Taken<Option<u32>>>
    ensures { result ≡ held_piece (piece_of c text.now) }
{
    match c {
        b'%' => float(text),
        b'#' => integer(text),
        _ => byte(c, text),
    }
}

// A number goes to place k, if there is one.
#[tactic(auto, unfolding(crate::specs::Held::kept))]
fn put(values: &mut [u32; 5], k: usize, v: u32)
    ensures { values.new ≡ kept values.old k v }
{
    if k < 5 {
        values[k] = v;
    }
}

// The numbers of a line that has a form to its last byte, as they are held: a line has up to five, and zeros stand behind the last.
pub fn fit_line(form: &[u8], line: &[u8]) -> Option<[u32; 5]>
    ensures { result ≡ held_fit (fit_of form.now line.now) }
{
    let mut values = [0u32; 5];
    let mut at = 0usize;
    let mut k = 0usize;
    // Stays: neither goes a step at each byte of the form: `at` goes past what was taken, and `k` on at a number alone (d).
    for c in form {
        let taken = piece(*c, &line[at..])?;
        at = line.len() - taken.left;
        if let Some(v) = taken.value {
            put(&mut values, k, v);
            k += 1;
        }
    }
    if at < line.len() {
        return None;
    }
    Some(values)
}
