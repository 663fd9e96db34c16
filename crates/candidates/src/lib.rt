// Candidates and choice (document 01; 02, 1/14): the unlabelled corners near a prediction that its cell takes, in order of distance and then
// number, and the two rules by which one of them is chosen. Port of shared/grow/mod.rs and of the quotients of extension/common.rs and fill.rs.

#![tactic(auto)]

ghost use Rattle.std.specs.Prelude.{◌≡◌, ◌+◌, ◌≤◌, ◌<◌};
ghost use Rattle.sizes.specs.Sizes.{corner_limit};
ghost use Rattle.binary32.specs.Sqrt.{sqrt_or_nan};
ghost use Rattle.sheet.specs.Corners.{squared_distance};
ghost use Rattle.sheet.specs.Shades.{takes_kind, shades_in};
ghost use Rattle.candidates.specs.Candidates.{positions_in, eligible_in, candidates_at, first_two, last_distance};
ghost use Rattle.candidates.specs.Choice.{by_quotient, choose_unambiguous, raised, choose_with_floor, ChosenBy};
ghost use Rattle.candidates.specs.Steps.{IsNext, is_near, is_within, count_from, measured, is_nearer, narrowed, limit_of, candidates_in};

use sheet::{CornerArrays, Position};
use sizes::CORNERS;

// A corner's number, and its distance from the prediction.
#[derive(Clone, Copy)]
pub struct Candidate {
    pub number: usize,
    pub distance: f32,
}

// What a choice needs of the ordered candidates: of two or more, the first and the distance of the second.
#[derive(Clone, Copy)]
pub enum Candidates {
    Empty,
    One(Candidate),
    Several(Candidate, f32),
}

// A candidate and its squared distance.
#[derive(Clone, Copy)]
struct Measured {
    candidate: Candidate,
    square: f32,
}

impl Measured {
    // Whether it is nearer than another.
    fn is_nearer(self, other: Measured) -> bool
        ensures { result ≡ is_nearer self other }
    {
        self.candidate.distance < other.candidate.distance
    }
}

// What was found so far: no candidate, the only one, or the first two.
#[derive(Clone, Copy)]
enum Found {
    Empty,
    One(Measured),
    Several(Measured, Measured),
}

impl Found {
    // The squared distance that a further candidate may not exceed: the squared radius while fewer than two are found, and then the squared
    // distance of the second. A corner beyond it comes after both, since of two squares the larger has no smaller root. So no root is taken for it.
    fn limit(self, radius: f32) -> f32
        ensures { result ≡ limit_of radius self }
    {
        match self {
            Found::Several(_, second) => second.square,
            _ => radius,
        }
    }

    // One more candidate, whose number is above all others': of equal distances the earlier number stays ahead.
    fn keep(self, c: Measured) -> Found
        ensures { result ≡ narrowed self c }
    {
        match self {
            Found::Empty => Found::One(c),
            Found::One(a) if c.is_nearer(a) => Found::Several(c, a),
            Found::One(a) => Found::Several(a, c),
            Found::Several(a, _) if c.is_nearer(a) => Found::Several(c, a),
            Found::Several(a, b) if c.is_nearer(b) => Found::Several(a, c),
            Found::Several(_, _) => self,
        }
    }

    // What a choice needs of it.
    fn candidates(self) -> Candidates
        ensures { result ≡ candidates_in self }
    {
        match self {
            Found::Empty => Candidates::Empty,
            Found::One(a) => Candidates::One(a.candidate),
            Found::Several(a, b) => Candidates::Several(a.candidate, b.candidate.distance),
        }
    }
}

// Why no candidate is chosen: there is none, or the first two are too alike.
#[derive(Clone, Copy)]
pub enum Unchosen {
    Nothing,
    Ambiguous,
}

// The choice at one cell: the number of the corner that is chosen, or why none is.
pub type CandidateChoice = Result<usize, Unchosen>;

// The squared distance of a corner from the prediction, each operation rounded.
pub fn squared_distance(corner: Position, prediction: Position) -> f32
    ensures { result ≡ squared_distance corner prediction }
{
    corner.squared_distance(prediction)
}

// The distance of a corner from the prediction: the rounded root of the squared distance.
pub fn distance(corner: Position, prediction: Position) -> f32
    ensures { result ≡ sqrt_or_nan (squared_distance corner prediction) }
{
    corner.distance(prediction)
}

// The distance of the last of the first two candidates: the second's, or that of the only one. A corner that is farther is neither of them.
pub fn last_distance(candidates: Candidates) -> f32
    ensures { result ≡ last_distance candidates }
{
    match candidates {
        Candidates::Empty => 0.0,
        Candidates::One(a) => a.distance,
        Candidates::Several(_, second) => second,
    }
}

// The corners as the passes hold them, and which are labelled.
#[derive(Clone, Copy)]
pub struct HeldCorners<'a> {
    pub corners: &'a CornerArrays,
    pub used: &'a [bool; CORNERS],
}

// A scan of them, for a cell of a kind that has a prediction.
#[derive(Clone, Copy)]
pub struct Scan<'a> {
    pub held: HeldCorners<'a>,
    // Stays: as `sheet::kind_at`: 02 has the kinds as the numbers 0 and 1 (a).
    pub kind: usize,
    pub prediction: Position,
}

impl<'a> Scan<'a> {
    // Whether corner k, labelled or not, lies within the limit: its squared distance is at most that. No root is taken for it.
    pub fn is_near(&self, k: usize, limit: f32) -> bool
        requires { k < corner_limit }
        ensures { result ≡ is_near (positions_in self.now.held.corners.now) self.now.prediction limit k }
    {
        let corner = self.held.corners.position_of(k);
        corner.squared_distance(self.prediction) <= limit
    }

    // Whether a cell of the kind takes corner k, labelled or not.
    pub fn is_taken(&self, k: usize) -> bool
        requires { k < corner_limit }
        ensures { result ≡ takes_kind (shades_in self.now.held.corners.now) self.now.kind k }
    {
        self.held.corners.is_taken(self.kind, k)
    }

    // Whether corner k is unlabelled and within the limit, and a cell of the kind takes it.
    #[tactic(auto, unfolding(crate::specs::Candidates::eligible))]
    fn is_within(&self, k: usize, limit: f32) -> bool
        requires { k < corner_limit }
        ensures { result ≡ is_within (positions_in self.now.held.corners.now)
            (eligible_in self.now.held.corners.now self.now.held.used.now self.now.kind) self.now.prediction limit k }
    {
        !self.held.used[k] && self.is_near(k, limit) && self.is_taken(k)
    }

    // How many of the 32 corners from this one on, labelled or not, lie within the limit. No corner ends the loop early, so that the
    // compiler tests several at once.
    fn count_near(&self, from: usize, limit: f32) -> u32
        requires { from + 32 ≤ corner_limit }
        ensures { result ≡ count_from (is_near (positions_in self.now.held.corners.now) self.now.prediction limit) from 32 }
    {
        (0..32)
            .map(|k| u32::from(self.is_near(from + k, limit)))
            .sum()
    }

    // The number of the next corner within the limit from this one on, if there is one. Each is tested.
    fn next_tested(&self, from: usize, limit: f32) -> Option<usize>
        requires { from ≤ self.now.held.corners.now.count.number }
        ensures { IsNext (is_within (positions_in self.now.held.corners.now)
            (eligible_in self.now.held.corners.now self.now.held.used.now self.now.kind) self.now.prediction limit) self.now.held.corners.now.count.number from result }
    {
        (from..self.held.corners.count.number).find(|k| self.is_within(*k, limit))
    }

    // The same, 32 corners at once as long as none of them lies within the limit.
    fn next_within(&self, from: usize, limit: f32) -> Option<usize>
        requires { from ≤ self.now.held.corners.now.count.number }
        ensures { IsNext (is_within (positions_in self.now.held.corners.now)
            (eligible_in self.now.held.corners.now self.now.held.used.now self.now.kind) self.now.prediction limit) self.now.held.corners.now.count.number from result }
    {
        let mut k = from;
        // Stays: its step is 32, and it ends at the first 32 of which one lies within the limit, at a number that is used after it (d).
        while k + 32 <= self.held.corners.count.number && self.count_near(k, limit) == 0 {
            k += 32;
        }
        self.next_tested(k, limit)
    }

    // Corner k as a candidate: the root of its squared distance is taken.
    fn measure(&self, k: usize) -> Measured
        requires { k < corner_limit }
        ensures { result ≡ measured (positions_in self.now.held.corners.now) self.now.prediction k }
    {
        let corner = self.held.corners.position_of(k);
        let square = corner.squared_distance(self.prediction);
        Measured {
            candidate: Candidate {
                number: k,
                distance: binary32::root::sqrt_or_nan(square),
            },
            square,
        }
    }

    // The first two of the candidates at the prediction, in order of distance and then corner number: all unlabelled corners that a cell of the
    // kind takes and whose squared distance is at most the squared radius, and none if the prediction is not finite.
    pub fn collect_candidates(&self, search_r: f32) -> Candidates
        ensures { result ≡ first_two (candidates_at (positions_in self.now.held.corners.now)
            (eligible_in self.now.held.corners.now self.now.held.used.now self.now.kind) self.now.held.corners.now.count.number self.now.prediction search_r) }
    {
        if !self.prediction.is_finite() {
            return Candidates::Empty;
        }
        let radius = search_r * search_r;
        let mut found = Found::Empty;
        let mut from = 0usize;
        // Stays: what was found so far gives the limit within which the next is looked for (d).
        while let Some(k) = self.next_within(from, found.limit(radius)) {
            found = found.keep(self.measure(k));
            from = k + 1;
        }
        found.candidates()
    }
}

// The quotient of the two first distances: ambiguous if second/first is below the factor, else the first corner.
fn by_quotient(number: usize, first: f32, second: f32, factor: f32) -> CandidateChoice
    ensures { result ≡ by_quotient number first second factor }
{
    if second / first < factor {
        Err(Unchosen::Ambiguous)
    } else {
        Ok(number)
    }
}

// The choice by a rule for two or more, which is given the first and the distance of the second: none of none, and the only one of one.
fn choose<F: FnOnce(Candidate, f32) -> CandidateChoice>(
    candidates: Candidates,
    rule: F,
) -> CandidateChoice
    requires { F.IsAlwaysCallable rule }
    ensures { ChosenBy (F.post rule) candidates result }
{
    match candidates {
        Candidates::Empty => Err(Unchosen::Nothing),
        Candidates::One(a) => Ok(a.number),
        Candidates::Several(a, second) => rule(a, second),
    }
}

// Grow's choice. Of two or more: a first distance of at most 2^-23, which is `f32::EPSILON`, is ambiguous, and else the quotient decides.
pub fn choose_unambiguous(candidates: Candidates, ambiguity_factor: f32) -> CandidateChoice
    ensures { result ≡ choose_unambiguous candidates ambiguity_factor }
{
    choose(candidates, |a, second| {
        if a.distance <= f32::EPSILON {
            Err(Unchosen::Ambiguous)
        } else {
            by_quotient(a.number, a.distance, second, ambiguity_factor)
        }
    })
}

// A distance, raised to at least 2^-23.
fn raise(d: f32) -> f32
    ensures { result ≡ raised d }
{
    d.max(f32::EPSILON)
}

// Fill's and local's choice. Of two or more: the first distance is raised to at least 2^-23, then the same quotient decides.
pub fn choose_with_floor(candidates: Candidates, ambiguity_factor: f32) -> CandidateChoice
    ensures { result ≡ choose_with_floor candidates ambiguity_factor }
{
    choose(candidates, |a, second| {
        by_quotient(a.number, raise(a.distance), second, ambiguity_factor)
    })
}
