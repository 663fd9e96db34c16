// Joining two patches (change request 3/14) as code: the first set is a sheet, the second its labels in the order of their lines. The second set is
// shifted onto the first, and the union is written to the sheet, with the label box that is kept beside it (5/14).

#![tactic(auto)]

ghost use Rattle.std.specs.Prelude.{◌≡◌, map, false, ◌<◌, ◌≤◌, length, get_or, Result, None, Ok};
ghost use Rattle.sizes.specs.Sizes.{place_count, corner_limit};
ghost use Rattle.sheet.specs.Cells.{cell_of, on_sheet, moved, OnSheet, Within};
ghost use Rattle.sheet.specs.Words.{label_of};
ghost use Rattle.labels.specs.Box.{box_of};
ghost use Rattle.labels.specs.Used.{names};
ghost use Rattle.join.specs.Rule.{Placed, shifted_by};
ghost use Rattle.join.specs.Join.{every, asks, asked, tested};
ghost use Rattle.join.specs.Sheets.{labelled};
ghost use Rattle.join_sheet.specs.Held.{held_labels, cell_on, agrees_on, new_put, new_held, outcome, verdict_on, join_on, LabelHeld, HeldSecond, Unused, HeldSets, WriteAsked, BoxKept};

use join::{Unjoinable, Verdict};
use labels::Bounds;
use refusal::Refusal;
use sheet::{Cell, Offset, Written};
use sizes::{CORNERS, PLACES};

// A label of the second set as it is held: its corner, and the place of its cell.
#[derive(Clone, Copy)]
pub struct SecondLabel {
    pub corner: u16,
    pub place: u16,
}

// The first set: a sheet, and the array that says which corners it has.
#[derive(Clone, Copy)]
struct First<'a> {
    sheet: &'a [u16],
    used: &'a [bool; CORNERS],
    ghost long: { place_count ≤ length sheet.now },
    ghost unused: { Unused sheet.now used.now },
}

// The second set: its labels.
#[derive(Clone, Copy)]
struct Second<'a> {
    labels: &'a [SecondLabel],
    ghost held: { HeldSecond labels.now },
}

// A shift of the second set: an offset of at most 128 each way.
#[derive(Clone, Copy)]
struct Shift {
    offset: Offset,
    ghost near: { Within 128 offset },
}

// Whether a word names a corner.
#[tactic(auto, unfolding(labels::specs::Used::names))]
fn word_names(word: u16, corner: usize) -> bool
    ensures { result ≡ names corner (label_of word) }
{
    sheet::label_of(word) == Some(corner)
}

impl First<'_> {
    // The cell at which the sheet has a corner.
    fn cell_with(&self, corner: usize) -> Option<Cell>
        ensures { result ≡ cell_on self.now.sheet.now corner }
    {
        Written::new(self.sheet)
            .find(|(_, word)| word_names(*word, corner))
            .map(|(place, _)| sheet::cell_of(place))
    }

    // The shift that a label asks for. The sheet is searched only where the array says that it has the corner.
    #[tactic(auto, using(crate::proofs::Walk::entry_nowhere, crate::proofs::Walk::cell_near, sheet::proofs::Laws::on_near), unfolding(join::specs::Join::asks))]
    fn asked_by(&self, corner: usize, c: Cell) -> Option<Offset>
        requires { (corner < corner_limit) × OnSheet c }
        ensures { result ≡ asks (cell_on self.now.sheet.now corner) c None }
    {
        if !self.used[corner] {
            return None;
        }
        self.cell_with(corner).map(|a| sheet::difference(a, c))
    }

    // Whether a label agrees with the set.
    #[tactic(auto, unfolding(crate::specs::Held::agrees_on, crate::specs::Held::agrees_with))]
    fn agrees(&self, corner: usize, c: Cell) -> bool
        requires { corner < corner_limit }
        ensures { result ≡ agrees_on self.now.sheet.now (record { corner = corner; cell = c }) }
    {
        match sheet::label_at(self.sheet, c) {
            None => !self.used[corner],
            Some(k) => k == corner,
        }
    }
}

impl SecondLabel {
    // The cell of a label.
    #[tactic(auto, using(sheet::proofs::Laws::cell_on_lem))]
    fn cell(&self) -> Cell
        requires { LabelHeld self.now }
        ensures value { result ≡ cell_of self.now.place }
        ensures on { OnSheet result }
    {
        sheet::cell_of(usize::from(self.place))
    }

    // The cell of a label, moved.
    fn moved_cell(&self, d: Shift) -> Cell
        requires { LabelHeld self.now }
        ensures { result ≡ moved (cell_of self.now.place) d.offset }
    {
        sheet::neighbour(self.cell(), d.offset)
    }
}

impl Second<'_> {
    // Whether every label, moved, is on the sheet.
    fn all_on(&self, d: Shift) -> bool
        ensures { result ≡ every (λ l. on_sheet l.cell) (map (shifted_by d.offset) (held_labels self.now.labels.now)) }
    {
        self.labels.iter().all(|l| sheet::on_sheet(l.moved_cell(d)))
    }
}

// The shift that the first shared label asks for.
fn asked_shift(first: &First, second: &Second) -> Option<Offset>
    ensures { result ≡ asked (cell_on first.now.sheet.now) (held_labels second.now.labels.now) }
{
    second
        .labels
        .iter()
        .find_map(|l| first.asked_by(usize::from(l.corner), l.cell()))
}

// Whether every label of the second set, moved, agrees with the first.
fn all_agree(first: &First, second: &Second, d: Shift) -> bool
    ensures { result ≡ every (agrees_on first.now.sheet.now) (map (shifted_by d.offset) (held_labels second.now.labels.now)) }
{
    second
        .labels
        .iter()
        .all(|l| first.agrees(usize::from(l.corner), l.moved_cell(d)))
}

// The test of a shift: 9 before 4.
#[tactic(auto, unfolding(join::specs::Join::tested))]
fn test_shift(first: &First, second: &Second, d: Shift) -> Verdict
    ensures { result ≡ tested (agrees_on first.now.sheet.now) (held_labels second.now.labels.now) d.offset }
{
    if !all_agree(first, second, d) {
        return Err(Unjoinable::Clash);
    }
    if !second.all_on(d) {
        return Err(Unjoinable::Off);
    }
    Ok(d.offset)
}

// The verdict on two sets: 8 before 9 before 4.
#[tactic(auto, using(crate::proofs::Walk::asked_within), unfolding(crate::specs::Held::verdict_on, join::specs::Join::told))]
fn verdict_of(first: &First, second: &Second) -> Verdict
    ensures { result ≡ verdict_on first.now.sheet.now (held_labels second.now.labels.now) }
{
    let offset = asked_shift(first, second).ok_or(Unjoinable::Apart)?;
    test_shift(first, second, Shift { offset })
}

// A label whose corner the first set has not is attached, and the box is widened by its cell.
#[tactic(auto, using(crate::proofs::Around::put_kept), unfolding(crate::specs::Held::new_put))]
fn put_new(
    sheet: &mut [u16; PLACES],
    around: &mut Option<Bounds>,
    used: &[bool; CORNERS],
    corner: usize,
    c: Cell,
)
    requires fits { OnSheet c × (corner < corner_limit) }
    requires kept { BoxKept sheet.old around.old }
    ensures written { sheet.new ≡ new_put (get_or used.now corner false) sheet.old c corner }
    ensures kept { BoxKept sheet.new around.new }
{
    if !used[corner] {
        sheet::attach(sheet, c, corner);
        *around = labels::widen(*around, c);
    }
}

// The labels of the second set whose corners the first has not are attached, moved, and the box is widened by the cell of each.
fn write_new(
    sheet: &mut [u16; PLACES],
    around: &mut Option<Bounds>,
    used: &[bool; CORNERS],
    second: &Second,
    d: Shift,
)
    requires onto { WriteAsked second.now.labels.now d.offset }
    requires kept { BoxKept sheet.old around.old }
    ensures written { sheet.new ≡ labelled sheet.old (new_held used.now (held_labels second.now.labels.now) d.offset) }
    ensures kept { BoxKept sheet.new around.new }
{
    for l in second.labels {
        put_new(sheet, around, used, usize::from(l.corner), l.moved_cell(d));
    }
}

// The join: the union is written to the sheet and the box widened to it, or both stay as they are and the refusal is answered.
// Stays: the sheet and its box are lent to write and the other two to read; a struct of them would be made for this one call (d).
pub fn join_sets(
    sheet: &mut [u16; PLACES],
    around: &mut Option<Bounds>,
    used: &[bool; CORNERS],
    second: &[SecondLabel],
) -> Result<(), Refusal>
    requires sets { HeldSets sheet.old used.now second.now }
    requires kept { around.old ≡ box_of sheet.old }
    ensures joined { outcome sheet.new result ≡ join_on sheet.old (held_labels second.now) }
    ensures kept { around.new ≡ box_of sheet.new }
{
    let second = Second { labels: second };
    let first = First { sheet, used };
    let offset = verdict_of(&first, &second)?;
    write_new(sheet, around, used, &second, Shift { offset });
    Ok(())
}
