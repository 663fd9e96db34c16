// The numbers of a frame's line as they are held: the refusals of each by its sort, and what the words of counts, labels and shades say.

#![tactic(auto)]

ghost use Rattle.std.specs.Prelude.{◌≡◌, ◌<◌, ◌≤◌};
ghost use Rattle.sizes.specs.Sizes.{corner_limit};
ghost use Rattle.frame_line.specs.Table.{sort_of};
ghost use Rattle.frame_line.specs.Checks.{wild_bits};
ghost use Rattle.labels.specs.Labelled.{any_below};
ghost use Rattle.frame_line.specs.Held.{count_in, cell_in, label_in, shade_in, beyond, refusal_in, refusals_in, is_refusal, number_or_0, outside_held};
ghost use Rattle.frame_number.specs.Numbers.{numbers_of, with_number};

use binary32::ranges::Quantity;
use frame_line::{HeldLabel, HeldShade, ListedLine, Sort};
use line_form::OFFSET;
use refusal::Refusal;
use sheet::Cell;
use std::num::f32_from_bits_with_nan;

// Integers as they are held: OFFSET is 0. The limits of a depth, of rounds, of a shade's kind and of a cell's i and j; -1; the largest that is held;
// and 0 signed.
const MOST_DEPTH: u32 = OFFSET + 4;

const MOST_ROUNDS: u32 = OFFSET + 64;

const MOST_KIND: u32 = OFFSET + 1;

const LEAST_SIDE: u32 = OFFSET - 64;

const MOST_SIDE: u32 = OFFSET + 63;

const MINUS_ONE: u32 = OFFSET - 1;

const LARGEST: u32 = 2 * OFFSET;

const ZERO: i32 = OFFSET as i32;

// What a letter of the table stands for; any other letter stands for no number.
#[tactic(auto, unfolding(frame_line::specs::Table::sort_of))]
fn sort_of(letter: u8) -> Option<Sort>
    ensures { result ≡ sort_of letter }
{
    let sort = match letter {
        b'a' => Sort::Float(Quantity::AxisPart),
        b'b' => Sort::Float(Quantity::Band),
        b'c' => Sort::Float(Quantity::CellSize),
        b'd' => Sort::Whole(Refusal::OutOfRange, OFFSET, MOST_DEPTH),
        b'f' => Sort::Float(Quantity::Factor),
        b'i' => Sort::Whole(Refusal::OffSheet, LEAST_SIDE, MOST_SIDE),
        b'k' => Sort::Whole(Refusal::Malformed, OFFSET, MOST_KIND),
        b'm' => Sort::Float(Quantity::Multiple),
        b'n' => Sort::Corner,
        b'p' => Sort::Float(Quantity::Pitch),
        b'r' => Sort::Whole(Refusal::OutOfRange, OFFSET, MOST_ROUNDS),
        b'x' => Sort::Float(Quantity::Position),
        _ => return None,
    };
    Some(sort)
}

// Whether the float of a pattern is not in the range of its quantity. What is not finite is in none.
#[tactic(auto, unfolding(frame_line::specs::Checks::wild_bits, arguments::specs::Arguments::outside))]
fn is_wild(q: Quantity, bits: u32) -> bool
    ensures { result ≡ wild_bits q bits }
{
    !binary32::ranges::in_range(q, f32_from_bits_with_nan(bits))
}

// Whether an integer as it is held is not from low to high.
fn is_beyond(low: u32, high: u32, word: u32) -> bool
    ensures { result ≡ beyond low high word }
{
    !(low..=high).contains(&word)
}

// The refusal of a number, if it has one, by its letter.
#[tactic(auto, unfolding(frame_line::specs::Held::refusal_in))]
fn refusal_of(corners: u32, letter: u8, word: u32) -> Option<Refusal>
    requires { corners ≤ corner_limit }
    ensures { number_or_0 result ≡ refusal_in corners (sort_of letter) word }
{
    match sort_of(letter)? {
        Sort::Float(q) => is_wild(q, word).then_some(Refusal::OutOfRange),
        Sort::Whole(refusal, low, high) => is_beyond(low, high, word).then_some(refusal),
        Sort::Corner => is_beyond(OFFSET, MINUS_ONE + corners, word).then_some(
            Refusal::UnknownCorner,
        ),
    }
}

// The refusals of a line's numbers: that of each, in their order, and which of them some number has.
#[derive(Clone, Copy, Default)]
pub struct NumberRefusals {
    pub each: [Option<Refusal>; 5],
    pub malformed: bool,
    pub out_of_range: bool,
    pub off_sheet: bool,
    pub unknown_corner: bool,
}

impl NumberRefusals {
    // Of the refusal of each: which of them some number has.
    pub fn of(each: [Option<Refusal>; 5]) -> NumberRefusals
        ensures same { result.each ≡ each }
        ensures malformed { result.malformed ≡ any_below 5 (is_refusal (numbers_of each) 1) }
        ensures out_of_range { result.out_of_range ≡ any_below 5 (is_refusal (numbers_of each) 3) }
        ensures off_sheet { result.off_sheet ≡ any_below 5 (is_refusal (numbers_of each) 4) }
        ensures unknown_corner { result.unknown_corner ≡ any_below 5 (is_refusal (numbers_of each) 5) }
    {
        let none = NumberRefusals {
            each,
            ..NumberRefusals::default()
        };
        each.iter()
            .fold(none, |found, refusal| found.with(*refusal))
    }

    // One number's refusal more, if it has one.
    fn with(self, refusal: Option<Refusal>) -> NumberRefusals
        ensures { result ≡ with_number self (number_or_0 refusal) }
    {
        match refusal {
            Some(Refusal::Malformed) => NumberRefusals {
                malformed: true,
                ..self
            },
            Some(Refusal::OutOfRange) => NumberRefusals {
                out_of_range: true,
                ..self
            },
            Some(Refusal::OffSheet) => NumberRefusals {
                off_sheet: true,
                ..self
            },
            Some(Refusal::UnknownCorner) => NumberRefusals {
                unknown_corner: true,
                ..self
            },
            _ => self,
        }
    }
}

// The refusals of a line's numbers, by the letters of its row.
pub fn refusals_of(corners: u32, line: ListedLine) -> NumberRefusals
    requires { corners ≤ corner_limit }
    ensures each { numbers_of result.each ≡ refusals_in corners line.held }
    ensures malformed { result.malformed ≡ outside_held 1 corners line.held }
    ensures out_of_range { result.out_of_range ≡ outside_held 3 corners line.held }
    ensures off_sheet { result.off_sheet ≡ outside_held 4 corners line.held }
    ensures unknown_corner { result.unknown_corner ≡ outside_held 5 corners line.held }
{
    let letters = line.letters();
    let words = line.held.values;
    let each = std::array::from_fn(
        |m|
            requires { m < 5 × corners ≤ corner_limit }
        { refusal_of(corners, letters[m], words[m]) },
    );
    NumberRefusals::of(each)
}

// The count that a word holds: OFFSET less, or OFFSET where that is below 0.
// Stays: OFFSET stands for a number below 0, as in the definition `count_in`; a line with such a number is refused before it is used (d).
pub fn count_of(word: u32) -> u32
    ensures { result ≡ count_in word }
{
    word.checked_sub(OFFSET).unwrap_or(OFFSET)
}

// The cell whose numbers two words hold.
fn cell_of(i: u32, j: u32) -> Cell
    ensures { result ≡ cell_in i j }
{
    Cell {
        i: i.min(LARGEST) as i32 - ZERO,
        j: j.min(LARGEST) as i32 - ZERO,
    }
}

// The label whose numbers a label line holds.
pub fn label_of(v: [u32; 5]) -> HeldLabel
    ensures { result ≡ label_in v }
{
    let corner = count_of(v[0]) as usize;
    let cell = cell_of(v[1], v[2]);
    HeldLabel { corner, cell }
}

// The shade whose numbers a shade line holds.
pub fn shade_of(v: [u32; 5]) -> HeldShade
    ensures { result ≡ shade_in v }
{
    let corner = count_of(v[0]) as usize;
    let kind = count_of(v[1]);
    HeldShade { corner, kind }
}
