// What the program `passes_main` reads: the numbers of a list of calls, from lines of eight hexadecimal digits.

#![tactic(auto)]

ghost use Rattle.std.specs.Prelude.{◌≡◌, ◌≤◌, ◌<◌, length};
ghost use Rattle.sizes.specs.Sizes.{place_count};

use arguments::{FillParams, GrowParams, LocalExtensionParams, Pass, Settings};
use labels::{Bounds, KeptBox};
use predict::{Grid, Vector};
use sizes::PLACES;
use std::num::f32_from_bits_with_nan;

// ---- numbers

// The text from its k-th number on, counted from 0; nothing where it ends before or the number is past 7,280, which is more than a list of 1,024
// corners, as many labels and 16 calls has.
fn text_from(text: &[u8], k: usize) -> Option<&[u8]> {
    if k <= 7280 { text.get(9 * k..) } else { None }
}

// The 32 bits of the text's k-th number, counted from 0, and 0 where there is none.
fn bits_at(text: &[u8], k: usize) -> u32 {
    text_from(text, k)
        .and_then(binary32::hex::read_bits)
        .unwrap_or(0)
}

// The k-th number of the text.
pub fn number_at(text: &[u8], k: usize) -> usize {
    bits_at(text, k) as usize
}

// The k-th number of the text, which is signed: 32 bits in two's complement.
fn signed_at(text: &[u8], k: usize) -> i32 {
    bits_at(text, k).cast_signed()
}

// The k-th float of the text.
fn float_at(text: &[u8], k: usize) -> f32 {
    text_from(text, k).map_or(0.0, |rest| {
        binary32::hex::read_bits(rest).map_or(f32::NAN, |bits| f32_from_bits_with_nan(bits))
    })
}

// The values of n corners, read from every fourth number from number `from` on; `nothing` stands behind them.
fn column<T: Copy, F: Fn(usize) -> T>(nothing: T, from: usize, n: usize, read: F) -> [T; 1025]
    requires from_bound { from ≤ 100 }
    requires n_bound { n ≤ 1025 }
    requires callable { F.IsAlwaysCallable read }
    ensures { 1025 ≡ length result }
{
    let mut out = [nothing; 1025];
    for (i, value) in out[..n].iter_mut().enumerate() {
        *value = read(from + 4 * i);
    }
    out
}

// n floats, every fourth number from number `from` on.
pub fn read_floats(text: &[u8], from: usize, n: usize) -> [f32; 1025]
    requires from_bound { from ≤ 100 }
    requires n_bound { n ≤ 1025 }
    ensures { 1025 ≡ length result }
{
    column(0.0, from, n, |k| float_at(text, k))
}

// The byte that is lent to call `call`, counted from 0, for a corner: two bits of the word that the corner has for all calls of a list, the
// lowest for call 0 and for call 16 again.
fn shade_of(word: usize, call: usize) -> u8 {
    (word >> (2 * (call % 16)) & 3) as u8
}

// The shades of n corners as call `call` is lent them, every fourth number from number `from` on.
pub fn read_shades(text: &[u8], from: usize, n: usize, call: usize) -> [u8; 1025]
    requires from_bound { from ≤ 100 }
    requires n_bound { n ≤ 1025 }
    ensures { 1025 ≡ length result }
{
    column(0, from, n, |k| shade_of(number_at(text, k), call))
}

// The word of a label's corner.
fn label_word(text: &[u8], k: usize) -> u16 {
    (number_at(text, k) % 16383 + 1) as u16
}

fn place_at(text: &[u8], k: usize) -> usize
    ensures { result < place_count }
{
    number_at(text, k) % PLACES
}

// A sheet with m labels: for each its corner, then its place.
pub fn read_labels(text: &[u8], from: usize, m: usize) -> [u16; PLACES]
    requires from_bound { from ≤ 4200 }
    requires m_bound { m ≤ 2048 }
    ensures { place_count ≡ length result }
{
    let mut sheet = [0u16; PLACES];
    for at in (from..from + 2 * m).step_by(2) {
        sheet[place_at(text, at + 1)] = label_word(text, at);
    }
    sheet
}

fn vector_at(text: &[u8], k: usize) -> Vector
    requires { k ≤ 10000 }
{
    Vector {
        x: float_at(text, k),
        y: float_at(text, k + 1),
    }
}

// Cell, the four axis parts, band.
pub fn settings_at(text: &[u8], k: usize) -> Settings
    requires { k ≤ 9300 }
{
    let axis_i = vector_at(text, k + 1);
    let axis_j = vector_at(text, k + 3);
    let grid = Grid {
        axis_i,
        axis_j,
        cell_size: float_at(text, k),
    };
    Settings {
        grid,
        edge_length_tol: float_at(text, k + 5),
    }
}

// ---- calls

// A number of rounds, or of rings.
fn rounds_at(text: &[u8], k: usize) -> u32 {
    number_at(text, k).min(1000) as u32
}

// The pass of a call: kind 0 is grow, 1 fill, and any other local.
// Stays: the kinds are numbers of the text; `frame_passes` makes a pass of words, where the rounds have a place of their own (d).
pub fn pass_at(text: &[u8], at: usize) -> Pass
    requires { at ≤ 9160 }
{
    let search = float_at(text, at + 7);
    let factor = float_at(text, at + 8);
    match number_at(text, at) {
        0 => Pass::Grow(GrowParams {
            attach_search_rel: search,
            attach_ambiguity_factor: factor,
            boundary_search_factor: float_at(text, at + 9),
        }),
        1 => Pass::Fill(FillParams {
            attach_search_rel: search,
            attach_ambiguity_factor: factor,
            max_iters: rounds_at(text, at + 9),
        }),
        _ => Pass::Local(LocalExtensionParams {
            search_rel: search,
            ambiguity_factor: factor,
            max_iters: rounds_at(text, at + 9),
            max_residual_rel: float_at(text, at + 10),
            extend_depth: rounds_at(text, at + 11),
        }),
    }
}

// How many places of each buffer a call is lent.
#[derive(Clone, Copy)]
pub struct Lengths {
    pub ys: usize,
    pub pitches: usize,
    pub sheet: usize,
    pub queue: usize,
    pub attached: usize,
    pub shades: usize,
}

pub fn lengths_at(text: &[u8], k: usize) -> Lengths
    requires { k ≤ 9300 }
{
    Lengths {
        ys: number_at(text, k),
        pitches: number_at(text, k + 1),
        sheet: number_at(text, k + 2),
        queue: number_at(text, k + 3),
        attached: number_at(text, k + 4),
        shades: number_at(text, k + 5),
    }
}

// The box that a call is handed: the one that the last call left, of the first call what a search of the sheet finds; or any other.
#[derive(Clone, Copy)]
pub enum Handed {
    AsLeft,
    Other(KeptBox),
}

// A box: mark, low i, high i, low j, high j. A mark other than 0 is an empty box here, so that each number is a mark.
fn box_at(text: &[u8], k: usize) -> KeptBox
    requires { k ≤ 9500 }
{
    KeptBox {
        empty: number_at(text, k) != 0,
        bounds: Bounds {
            low_i: signed_at(text, k + 1),
            high_i: signed_at(text, k + 2),
            low_j: signed_at(text, k + 3),
            high_j: signed_at(text, k + 4),
        },
    }
}

// A box that a call is handed: 0 for the one behind this number, any other number for the one that the last call left.
fn handed_at(text: &[u8], k: usize) -> Handed
    requires { k ≤ 9300 }
{
    match number_at(text, k) {
        0 => Handed::Other(box_at(text, k + 1)),
        _ => Handed::AsLeft,
    }
}

// ---- lists

// What is printed of a list's calls: what each answers, the cells that grow visited as well, or sums over what a call left as well.
#[derive(Clone, Copy, PartialEq, Eq)]
pub enum Told {
    Answers,
    Visited,
    Sums,
}

// What a list asks to be printed, by its number 3.
fn told_at(text: &[u8]) -> Told {
    match number_at(text, 3) % 4 {
        0 => Told::Answers,
        2 => Told::Sums,
        _ => Told::Visited,
    }
}

// Whether the calls of a list say which box they are handed: its number 3 is 4 more then.
fn has_boxes(text: &[u8]) -> bool {
    number_at(text, 3) / 4 % 2 == 1
}

// How many corners, labels and calls a list has, and what is printed of its calls.
#[derive(Clone, Copy)]
pub struct Header {
    pub n: usize,
    pub labels: usize,
    pub count: usize,
    pub told: Told,
    // whether its calls say which box they are handed, and the boxes that they answer are printed
    pub boxes: bool,
    // the number at which its calls begin
    pub first: usize,
}

impl Header {
    // The number at which call i begins. A call has 18 numbers, and six more where it says which box it is handed.
    pub fn call_at(self, i: usize) -> usize
        requires { (self.first ≤ 8200) × (i ≤ 40) }
        ensures { (4 ≤ self.first → 4 ≤ result) × (result ≤ 9160) }
    {
        self.first + if self.boxes { 24 * i } else { 18 * i }
    }

    // The box that the call which begins at number `at` is handed.
    pub fn handed(self, text: &[u8], at: usize) -> Handed
        requires { at ≤ 9160 }
    {
        if self.boxes {
            handed_at(text, at + 18)
        } else {
            Handed::AsLeft
        }
    }
}

pub fn header_at(text: &[u8]) -> Header
    ensures { (result.n ≤ 1025) × (result.labels ≤ 2048) × (result.count ≤ 40) × (4 ≤ result.first) × (result.first ≤ 8200) }
{
    let n = number_at(text, 0).min(1025);
    let labels = number_at(text, 1).min(2048);
    let count = number_at(text, 2).min(40);
    Header {
        n,
        labels,
        count,
        told: told_at(text),
        boxes: has_boxes(text),
        first: 4 + 4 * n + 2 * labels,
    }
}

// Whether a call of the list is of none of the three kinds.
pub fn has_unknown_kind(text: &[u8]) -> bool {
    let h = header_at(text);
    (0..h.count).any(|i| 2 < number_at(text, h.call_at(i)))
}
