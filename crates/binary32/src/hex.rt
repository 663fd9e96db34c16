// A float in text: eight lowercase hexadecimal digits, its binary32 bits (01, "Number").
ghost use Rattle.std.specs.Prelude.{◌≡◌, ◌++◌, ◌≤◌, ◌<◌, length, drop};
ghost use Rattle.std.specs.Float.{binary32};
ghost use Rattle.std.specs.Float.Ieee.{to_bits};
ghost use Rattle.binary32.specs.Hex.{digit_of, digit_read, hex_text, read_bits, float_of, read_float};

use super::ranges::is_finite;
use refusal::Refusal;
use std::num::{f32_from_bits_with_nan, f32_to_bits_with_nan};

// The digit of a number below 16.
pub fn digit_of(n: u8) -> u8
    requires { n < 16 }
    ensures { result ≡ digit_of n }
{
    if n < 10 { b'0' + n } else { b'a' - 10 + n }
}

// The number of a lowercase hexadecimal digit; any other byte has none.
#[tactic(auto, unfolding(crate::specs::Hex::digit_read, crate::specs::Hex::digit_value))]
pub fn digit_value(b: u8) -> Option<u32>
    ensures { result ≡ digit_read b }
{
    match b {
        b'0'..=b'9' => Some(u32::from(b - b'0')),
        b'a'..=b'f' => Some(u32::from(b - b'a' + 10)),
        _ => None,
    }
}

// The number that the first eight bytes of a part stand for, if there are eight and all are digits.
pub fn read_bits(text: &[u8]) -> Option<u32>
    ensures { result ≡ read_bits text.now }
{
    let mut bits = 0u32;
    for b in text.get(..8)? {
        bits = bits * 16 + digit_value(*b)?;
    }
    Some(bits)
}

// The float that the first eight bytes of a part stand for, or the refusal: number 1 where the text is ill-formed, number 3 where it is no finite
// float's. What follows the eight bytes is not looked at.
#[tactic(auto, unfolding(crate::specs::Hex::float_of_bits))]
pub fn read_float(text: &[u8]) -> Result<f32, Refusal>
    ensures { result ≡ read_float text.now }
{
    let bits = read_bits(text).ok_or(Refusal::Malformed)?;
    float_of(bits)
}

// The float of a pattern, if it is finite.
#[tactic(auto, unfolding(crate::specs::Hex::float_of))]
fn float_of(bits: u32) -> Result<f32, Refusal>
    ensures { result ≡ float_of bits }
{
    let x = f32_from_bits_with_nan(bits);
    is_finite(x).then_some(x).ok_or(Refusal::OutOfRange)
}

// Writes the eight digits of a pattern to the front of a part, and leaves the rest of it as it was.
pub fn write_bits(bits: u32, out: &mut [u8])
    requires { 8 ≤ length out.old }
    ensures { out.new ≡ hex_text bits ++ drop 8 out.old }
{
    for (i, digit) in out[..8].iter_mut().enumerate() {
        *digit = digit_of(((bits >> (28 - 4 * (i as u32))) % 16) as u8);
    }
}

// Writes a float's eight digits to the front of a part. Any NaN is written as 7fc00000.
pub fn write_float(x: f32, out: &mut [u8])
    requires { 8 ≤ length out.old }
    ensures { out.new ≡ hex_text (to_bits binary32 x) ++ drop 8 out.old }
{
    write_bits(f32_to_bits_with_nan(x), out);
}
