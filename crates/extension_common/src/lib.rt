// What all three passes do at a cell once they have a prediction: gather the candidates, choose, and try the edges (port of
// shared/extension/common.rs). Whatever this answers, nothing is written.

#![tactic(auto)]

ghost use Rattle.std.specs.Prelude.{◌≡◌, ◌<◌};
ghost use Rattle.sizes.specs.Sizes.{corner_limit};
ghost use Rattle.sheet.specs.Cells.{OnSheet};
ghost use Rattle.sheet.specs.Corners.{corner_in, corners_in, seen_of, Given};
ghost use Rattle.sheet.specs.Seeing.{seen_in};
ghost use Rattle.labels.specs.Used.{Tied};
ghost use Rattle.predict.specs.Predict.{prediction_of};
ghost use Rattle.extension_common.specs.TryCell.{gathered, try_at, tried_from, unattached, Choosable, edges_of, choice_by, result_of};

use candidates::{CandidateChoice, Candidates, HeldCorners, Scan, Unchosen};
use positions_policy::Tolerances;
use predict::Grid;
use sheet::{Cell, Position, Seeing};

// Which rule of choice: grow's, or fill's and local's.
#[derive(Clone, Copy)]
pub enum ChoiceRule {
    Unambiguous,
    WithFloor,
}

impl ChoiceRule {
    // The choice among candidates, by this rule.
    #[tactic(auto, unfolding(crate::specs::TryCell::choice_by))]
    pub fn choose(self, candidates: Candidates, factor: f32) -> CandidateChoice
        ensures { result ≡ choice_by self candidates factor }
    {
        match self {
            ChoiceRule::Unambiguous => candidates::choose_unambiguous(candidates, factor),
            ChoiceRule::WithFloor => candidates::choose_with_floor(candidates, factor),
        }
    }
}

// How a cell is searched: the radius, the ambiguity factor, and the rule of choice.
#[derive(Clone, Copy)]
pub struct Search {
    pub search_r: f32,
    pub ambiguity_factor: f32,
    pub rule: ChoiceRule,
}

// Why no corner is to be attached to a cell that was tried: it has no candidate, the choice is ambiguous, or the edges refuse the chosen corner.
#[derive(Clone, Copy)]
pub enum NotAttached {
    NoCandidates,
    Ambiguous,
    EdgeRejected,
}

impl From<Unchosen> for NotAttached {
    // A cell where no candidate was chosen.
    ghost from_gives = { λ unchosen e. e ≡ unattached unchosen };

    fn from(unchosen: Unchosen) -> NotAttached {
        match unchosen {
            Unchosen::Nothing => NotAttached::NoCandidates,
            Unchosen::Ambiguous => NotAttached::Ambiguous,
        }
    }
}

// What trying a cell finds: the corner to attach, or why there is none.
pub type TryCellResult = Result<usize, NotAttached>;

// A cell that is tried: the corners that are held, the sheet whose labels name them, how the cell is searched, and its edges' tolerances.
#[derive(Clone, Copy)]
pub struct Trial<'a> {
    pub held: HeldCorners<'a>,
    pub sheet: &'a [u16],
    pub c: Cell,
    pub search: Search,
    pub tol: Tolerances,
    ghost given: { Given corner_limit sheet.now },
    ghost on: { OnSheet c },
}

impl<'a> Trial<'a> {
    // The corners as they are seen through the sheet.
    fn seeing(&self) -> Seeing<'a>
        ensures { seen_in result ≡ seen_of (corner_in self.now.held.corners.now) self.now.sheet.now }
    {
        Seeing {
            corners: self.held.corners,
            sheet: self.sheet,
        }
    }

    // The candidates at a prediction: those corners that no cell holds and that the cell takes.
    // Stays: in `Trial` it would be asked of `try_candidates` too, which does not ask it; a second struct round it for these three is no plainer (d).
    pub fn gather(&self, prediction: Position) -> Candidates
        requires { Tied self.now.sheet.now self.now.held.used.now }
        ensures { result ≡ gathered (corners_in self.now.held.corners.now) self.now.sheet.now self.now.search.search_r self.now.c
            prediction }
    {
        let scan = Scan {
            held: self.held,
            kind: sheet::kind_at(self.c),
            prediction,
        };
        scan.collect_candidates(self.search.search_r)
    }

    // Tries the cell at a prediction: no candidate, an ambiguous choice, edges that refuse the chosen corner, or the corner to attach.
    pub fn try_attach_at_cell(&self, prediction: Position) -> TryCellResult
        requires { Tied self.now.sheet.now self.now.held.used.now }
        ensures { result ≡ try_at (corners_in self.now.held.corners.now) self.now.sheet.now self.now.tol self.now.search self.now.c
            prediction }
    {
        let candidates = self.gather(prediction);
        self.try_candidates(candidates)
    }

    // Tries the cell at the prediction from its neighbours; without a labelled neighbour it has no candidate.
    pub fn try_predicted(&self, grid: Grid) -> TryCellResult
        requires { Tied self.now.sheet.now self.now.held.used.now }
        ensures { result ≡ tried_from (corners_in self.now.held.corners.now) self.now.sheet.now self.now.tol
            self.now.search self.now.c (prediction_of (seen_of (corner_in self.now.held.corners.now) self.now.sheet.now) grid self.now.c) }
    {
        let at = predict::predict_from_neighbours(self.seeing(), self.c, grid).ok_or(
            NotAttached::NoCandidates,
        )?;
        self.try_attach_at_cell(at)
    }

    // Tries the cell with the candidates that were gathered at its prediction.
    pub fn try_candidates(&self, candidates: Candidates) -> TryCellResult
        requires { Choosable self.now.search candidates }
        ensures { result ≡ result_of (corner_in self.now.held.corners.now) self.now.sheet.now self.now.tol self.now.c
            (choice_by self.now.search.rule candidates self.now.search.ambiguity_factor) }
    {
        let search = self.search;
        let k = search.rule.choose(candidates, search.ambiguity_factor)?;
        self.try_edges(k)
    }

    // The edges of a chosen corner: it does not pass, or it is to be attached.
    fn try_edges(&self, k: usize) -> TryCellResult
        requires { k < corner_limit }
        ensures { result ≡ edges_of (corner_in self.now.held.corners.now) self.now.sheet.now self.now.tol self.now.c k }
    {
        let candidate = self.held.corners.corner_at(k);
        let verdict = positions_policy::any_cardinal_edge_ok(
            self.seeing(),
            self.c,
            candidate,
            self.tol,
        );
        if positions_policy::passes(verdict) {
            Ok(k)
        } else {
            Err(NotAttached::EdgeRejected)
        }
    }
}
