// What local remembers of a cell from one round to the next: a visit that attached nothing gives the same again until a label comes that is as
// near to the cell as the fourth of its supports, or nearer, or, where the choice was ambiguous, until a corner is labelled that is no farther
// than the second candidate. So one word is kept for each place of the sheet, and those near a new label are forgotten. A word is the reach of the
// fourth support times 8, plus what was found; beside it three floats are kept, where the fit maps the cell to and how far that second candidate is.

#![tactic(auto)]

ghost use Rattle.std.specs.Prelude.{◌≡◌, ◌<◌};
ghost use Rattle.sizes.specs.Sizes.{place_count};
ghost use Rattle.sheet.specs.Cells.{OnSheet, place_of, cell_of};
ghost use Rattle.passes.specs.Local.{reach_of};
ghost use Rattle.remembered.specs.Remembered.{finding_of, known_of, code_of, known_word, no_aim, aim_of, aim_in, Notable, nothing_noted, left_word, aim_at, entry_of, Noted, Forgotten};

use sheet::{Cell, Position};
use sizes::PLACES;

// What a visit of a cell found: that it changes nothing (no fit, or a residual above the gate), that there is no candidate where the fit maps it
// to, where the fit maps it to, or also that the choice there is ambiguous, and how far the last of the first two candidates is.
#[derive(Clone, Copy)]
pub enum Finding {
    Idle,
    NoCandidates,
    Predicted(Position),
    Ambiguous(Position, f32),
}

// What is known of a cell: how far its fourth support is, and what was found.
#[derive(Clone, Copy)]
pub struct Known {
    pub reach: u32,
    pub finding: Finding,
}

// Where the fit maps a cell to, and how far the last of the first two candidates is; what is not found is 0, and not read.
#[derive(Clone, Copy)]
pub struct Aim {
    pub at: Position,
    pub limit: f32,
}

const NO_AIM: Aim = Aim {
    at: Position { x: 0.0, y: 0.0 },
    limit: 0.0,
};

// What is known of the cells: a word for each place of the sheet, 0 where nothing is known, and what is noted with it.
// Stays: three walks take many words at once, this is one (`local-1024` in all: then 23.6 in place of 50 million); 14 bytes a place, as Option<Known> 24 (b).
#[derive(Drop)]
pub struct Memory {
    pub words: [u16; PLACES],
    pub aims: [Aim; PLACES],
}

// What a code says, with what is noted beside it.
// Stays: as `Memory` (b).
#[tactic(auto, unfolding(crate::specs::Remembered::finding_of))]
fn finding_of(code: u16, aim: Aim) -> Finding
    ensures { result ≡ finding_of code aim }
{
    match code {
        1 => Finding::Idle,
        2 => Finding::NoCandidates,
        3 => Finding::Predicted(aim.at),
        _ => Finding::Ambiguous(aim.at, aim.limit),
    }
}

// What a word says, with what is noted beside it.
#[tactic(auto, unfolding(crate::specs::Remembered::known_of))]
fn known_of(word: u16, aim: Aim) -> Option<Known>
    ensures said { result ≡ known_of word aim }
    ensures notable { Notable result }
{
    if word % 8 == 0 {
        return None;
    }
    Some(Known {
        reach: u32::from(word / 8),
        finding: finding_of(word % 8, aim),
    })
}

// The code of what was found, from 1 on.
// Stays: as `Memory` (b).
#[tactic(auto, unfolding(crate::specs::Remembered::code_of))]
fn code_of(finding: Finding) -> u16
    ensures { result ≡ code_of finding }
{
    match finding {
        Finding::Idle => 1,
        Finding::NoCandidates => 2,
        Finding::Predicted(_) => 3,
        Finding::Ambiguous(_, _) => 4,
    }
}

// The word for what is known.
// Stays: that the reach fits is known of this value, and a closure for `map_or` would have to ask it again, in a clause of its own (d).
#[tactic(auto, unfolding(crate::specs::Remembered::known_word, crate::specs::Remembered::code_of))]
fn word_of(known: Option<Known>) -> u16
    requires { Notable known }
    ensures { result ≡ known_word known }
{
    match known {
        None => 0,
        Some(known) => known.reach as u16 * 8 + code_of(known.finding),
    }
}

// What is noted with it.
#[tactic(auto, unfolding(crate::specs::Remembered::aim_of))]
fn aim_of(finding: Finding) -> Aim
    ensures { result ≡ aim_of finding }
{
    match finding {
        Finding::Idle | Finding::NoCandidates => NO_AIM,
        Finding::Predicted(at) => Aim { at, limit: 0.0 },
        Finding::Ambiguous(at, limit) => Aim { at, limit },
    }
}

// What is noted with what is known.
#[tactic(auto, unfolding(crate::specs::Remembered::aim_in))]
fn aim_in(known: Option<Known>) -> Aim
    ensures { result ≡ aim_in known }
{
    known.map_or(NO_AIM, |known| aim_of(known.finding))
}

// A corner that was attached to a cell of the sheet: the cell, and where the corner is pictured.
#[derive(Clone, Copy)]
struct NewLabel {
    cell: Cell,
    corner: Position,
    ghost on: { OnSheet cell },
}

impl NewLabel {
    // How far the cell lies from the cell of a place: |di| + |dj|.
    fn reach_of(self, place: usize) -> u32
        requires { place < place_count }
        ensures { result ≡ reach_of (cell_of place) (place_of self.cell) }
    {
        let o = sheet::difference(self.cell, sheet::cell_of(place));
        sheet::magnitude(o)
    }

    // What is left of a place's word: nothing if the fourth support of the place's cell is as far as the labelled cell, or farther; and of the word of
    // an ambiguous choice, the prediction alone, unless the corner is farther than the limit. Few choices are ambiguous.
    // Stays: as `Memory` (b).
    #[tactic(auto, unfolding(crate::specs::Remembered::forgotten_word, crate::specs::Remembered::doubted_word))]
    fn left_of(self, word: u16, aim: Aim, place: usize) -> u16
        requires { place < place_count }
        ensures { result ≡ left_word (cell_of place) (place_of self.cell) self.corner aim word }
    {
        if self.reach_of(place) <= u32::from(word / 8) {
            0
        } else if word % 8 < 4 || aim.limit < candidates::distance(self.corner, aim.at) {
            word
        } else {
            word / 8 * 8 + 3
        }
    }
}

impl Memory {
    // Nothing is known yet.
    pub fn new() -> Memory
        ensures { result ≡ nothing_noted }
    {
        Memory {
            words: [0; PLACES],
            aims: [NO_AIM; PLACES],
        }
    }

    // What is known of a cell of the sheet.
    // Stays: a cell is 01's plain struct by value; the walk that calls this has proved that it is on the sheet (d).
    #[tactic(auto, using(sheet::proofs::Laws::place_in))]
    pub fn recall(&self, c: Cell) -> Option<Known>
        requires { OnSheet c }
        ensures said { result ≡ entry_of self.now (place_of c) }
        ensures notable { Notable result }
    {
        let place = sheet::place_of(c);
        known_of(self.words[place], self.aims[place])
    }

    // Notes what is known of a cell of the sheet, in place of what was known of it.
    #[tactic(auto, using(sheet::proofs::Laws::place_in))]
    pub fn note(&mut self, c: Cell, known: Option<Known>)
        requires on { OnSheet c }
        requires notable { Notable known }
        ensures { Noted self.old c known self.new }
    {
        let place = sheet::place_of(c);
        self.words[place] = word_of(known);
        self.aims[place] = aim_in(known);
    }

    // Forgets what may be another once a corner is attached to a cell: what is known of every cell whose fourth support is as far as that cell, or
    // farther, and every ambiguous choice where the corner may have been one of the first two candidates. Places of which nothing is known are
    // passed over.
    pub fn forget_near(&mut self, c: Cell, corner: Position)
        requires { OnSheet c }
        ensures { Forgotten self.old c corner self.new }
    {
        let label = NewLabel { cell: c, corner };
        let mut from = 0usize;
        // Stays: the words that are walked over are written on the way, so that no iterator may hold them (d).
        while let Some(place) = sheet::next_written(&self.words, from) {
            self.words[place] = label.left_of(self.words[place], self.aims[place], place);
            from = place + 1;
        }
    }
}
