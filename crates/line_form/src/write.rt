// A line written from its form, and from words that hold its numbers: a float as its bits, an integer as OFFSET more than it is.
ghost use Rattle.std.specs.Prelude.{cond, ◌≡◌, ◌+◌, ◌%◌, ◌≤◌, length, get_or};
ghost use Rattle.line_form.specs.Integers.{decimal, integer_text};
ghost use Rattle.line_form.specs.Forms.{is_slot};
ghost use Rattle.line_form.specs.Lengths.{DigitCount};
ghost use Rattle.line_form.specs.Written.{unheld_whole, form_text, piece_text, Wrote};

use super::OFFSET;
use binary32::hex::write_bits;

// How many digits a number has.
pub fn digit_count(n: usize) -> usize
    ensures { DigitCount n result }
{
    n.checked_ilog10().map_or(1, |d| d as usize + 1)
}

// The last digit of a number.
fn last_digit(n: u32) -> u8
    ensures { result ≡ 48 + n % 10 }
{
    b'0' + (n % 10) as u8
}

// Writes the digits of a number, the last first.
fn write_decimal(n: u32, out: &mut [u8]) -> usize
    requires { length (decimal n) ≤ length out.old }
    ensures { Wrote (decimal n) out.old out.new result }
{
    let count = digit_count(n as usize);
    let mut m = n;
    // Stays: no proof knows what `iter_mut().rev()` wrote; written forwards and turned by `reverse`, a cell's line takes 561 instructions and not 493 (b).
    for i in (0..count).rev() {
        out[i] = last_digit(m);
        m /= 10;
    }
    count
}

// Writes the integer that a word holds.
fn write_integer(w: u32, out: &mut [u8]) -> usize
    requires { length (integer_text (unheld_whole w)) ≤ length out.old }
    ensures { Wrote (integer_text (unheld_whole w)) out.old out.new result }
{
    if w < OFFSET {
        out[0] = b'-';
        let n = write_decimal(OFFSET - w, &mut out[1..]);
        return n + 1;
    }
    write_decimal(w - OFFSET, out)
}

// Writes what stands for one byte of a form.
fn write_piece(c: u8, w: u32, out: &mut [u8]) -> usize
    requires { length (piece_text c w) ≤ length out.old }
    ensures { Wrote (piece_text c w) out.old out.new result }
{
    match c {
        b'%' => {
            write_bits(w, out);
            8
        }
        b'#' => write_integer(w, out),
        _ => {
            out[0] = c;
            1
        }
    }
}

// How many words a byte of a form takes.
fn words_of(c: u8) -> usize
    ensures { result ≡ cond (is_slot c) 1 0 }
{
    usize::from(matches!(c, b'%' | b'#'))
}

// A word, and 0 where it is wanting.
fn word_at(words: &[u32], k: usize) -> u32
    ensures { result ≡ get_or words.now k 0 }
{
    words.get(k).copied().unwrap_or(0)
}

// Writes a form with its numbers to the front of a part, and leaves the rest of it as it was; how many bytes it wrote.
pub fn write_form(form: &[u8], words: &[u32], out: &mut [u8]) -> usize
    requires { length (form_text form.now words.now) ≤ length out.old }
    ensures { Wrote (form_text form.now words.now) out.old out.new result }
{
    let mut at = 0usize;
    let mut k = 0usize;
    // Stays: neither goes a step at each byte of the form: `at` goes past what was written, and `k` on at a number alone (d).
    for c in form {
        at += write_piece(*c, word_at(words, k), &mut out[at..]);
        k += words_of(*c);
    }
    at
}
