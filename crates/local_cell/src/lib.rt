// One cell of local (01, "Sheet" and "Fit"; port of the loop's body in shared/extension/local.rs): tried by what is known of it from an earlier round,
// or by the fit on its four nearest labels, where that leads. Crate local has the rounds and the public call.

#![tactic(auto)]

ghost use Rattle.std.specs.Prelude.{◌≡◌, ◌+◌, ◌<◌, ◌≤◌};
ghost use Rattle.sheet.specs.Cells.{OnSheet};
ghost use Rattle.sheet.specs.Shades.{any_in};
ghost use Rattle.passes.specs.Counting.{visits};
ghost use Rattle.passes.specs.Grow.{tolerances_of};
ghost use Rattle.passes.specs.Local.{local_search, gate_of};
ghost use Rattle.local_cell.specs.Extending.{cell_counted, residuals_recorded, unmatched_counted, Extending, NotedIfBare};

use arguments::{LocalExtensionParams, Settings};
use candidates::{Candidates, HeldCorners, Scan};
use extension_common::{ChoiceRule, NotAttached, Search, Trial, TryCellResult};
use labels::Bounds;
use passes::Counts;
use remembered::{Finding, Known, Memory};
use sheet::{Cell, CornerArrays, Position, Seeing};
use sizes::CORNERS;
use supports::{Labelled, Support, SupportFit};

// How far the pass has come: the counts, the largest residual recorded, and how many corners were passed over.
#[derive(Clone, Copy, Default)]
pub struct LocalProgress {
    pub counts: Counts,
    pub residual: Option<f32>,
    pub unmatched: usize,
}

// What a pass is given beside its buffers: the corners, the settings, and the numbers of the pass.
// Stays: each pass has its own numbers; a generic struct of `passes` would share two fields and turn these methods into functions (d).
#[derive(Clone, Copy)]
pub struct LocalSetup<'c> {
    pub corners: &'c CornerArrays,
    pub settings: Settings,
    pub params: LocalExtensionParams,
}

// A pass: what it is given; the lent sheet; the lent attached list; which corners are used; the labelled places; the label box; what is remembered of
// the cells; and how far it has come. What is remembered, 229,376 bytes, and the labelled places, 2,056, are lent too: so they are variables of their
// own, which are cleared once and not copied. It is lent to each function, since it is large.
#[derive(Drop)]
pub struct LocalWork<'c, 'a> {
    pub setup: LocalSetup<'c>,
    pub sheet: &'a mut [u16],
    pub attached: &'a mut [u16],
    pub used: [bool; CORNERS],
    pub labelled: &'a mut Labelled,
    pub around: Option<Bounds>,
    pub memory: &'a mut Memory,
    pub progress: LocalProgress,
    ghost extending: { Extending setup.corners.now.count.number sheet.now attached.now used labelled.now around progress },
}

// A cell that is to be tried where its fit maps it to: how far its fourth support is, and the prediction.
#[derive(Clone, Copy)]
struct Target {
    cell: Cell,
    reach: u32,
    prediction: Position,
    ghost on: { OnSheet cell },
}

impl Target {
    // What is known of the cell by what was found there.
    fn known(self, finding: Finding) -> Known
        ensures { result ≡ record { reach = self.reach; finding = finding } }
    {
        Known {
            reach: self.reach,
            finding,
        }
    }
}

impl<'c> LocalSetup<'c> {
    ghost use Rattle.sheet.specs.Shades.{takes, shades_in};
    ghost use Rattle.candidates.specs.Candidates.{positions_in, unmarked};
    ghost use Rattle.passed_over.specs.PassedOver.{passed_over};

    // How local searches a cell: search times cell size as the radius, and fill's and local's rule of choice.
    // Stays: fill's numbers have other names, the Rust's; a shared function of two floats and the settings would save two lines (d).
    #[tactic(auto, unfolding(passes::specs::Local::local_search))]
    fn search(self) -> Search
        ensures { result ≡ local_search self.entry.settings self.entry.params }
    {
        Search {
            search_r: self.params.search_rel * self.settings.grid.cell_size,
            ambiguity_factor: self.params.ambiguity_factor,
            rule: ChoiceRule::WithFloor,
        }
    }

    // The residual gate: the largest residual that is let through.
    fn gate(self) -> f32
        ensures { result ≡ gate_of self.entry.settings self.entry.params }
    {
        self.params.max_residual_rel * self.settings.grid.cell_size
    }

    // The corners, and which are labelled.
    fn held<'b>(&'b self, used: &'b [bool; CORNERS]) -> HeldCorners<'b>
        ensures corners { result.corners.now ≡ self.now.corners.now }
        ensures used { result.used.now ≡ used.now }
    {
        HeldCorners {
            corners: self.corners,
            used,
        }
    }

    // How many unlabelled corners within the radius the cell does not take.
    fn count_unmatched(self, used: &[bool; CORNERS], target: Target) -> usize
        ensures { result ≡ passed_over (positions_in self.entry.corners.now) (unmarked used.now) (takes (shades_in self.entry.corners.now)
            target.cell) self.entry.corners.now.count.number target.prediction (local_search self.entry.settings self.entry.params).search_r }
    {
        let scan = Scan {
            held: self.held(used),
            kind: sheet::kind_at(target.cell),
            prediction: target.prediction,
        };
        passed_over::count_passed_over(&scan, self.search().search_r)
    }
}

impl LocalProgress {
    // One more cell is counted, by what was found there.
    fn count_cell(&mut self, found: TryCellResult)
        requires { visits self.old.counts < 4294967296 }
        ensures { self.new ≡ cell_counted self.old found }
    {
        self.counts = passes::one_more(found, self.counts);
    }

    // Four residuals are recorded.
    fn record_residuals(&mut self, residuals: [f32; 4])
        ensures { self.new ≡ residuals_recorded self.old residuals }
    {
        self.residual = supports::record_residuals(self.residual, residuals);
    }

    // Some corners more are passed over.
    fn pass_over(&mut self, passed: usize)
        requires { self.old.unmatched + passed < 9007199254740992 }
        ensures { self.new ≡ unmatched_counted self.old passed }
    {
        self.unmatched += passed;
    }
}

// Notes what is known of a cell where no shade stands. Where one does, what is passed over changes with every corner that is labelled, so that a
// cell is gathered anew at each visit.
fn note_if_bare(corners: &CornerArrays, memory: &mut Memory, c: Cell, known: Known)
    requires { OnSheet c × (known.reach < 8192) }
    ensures { NotedIfBare (any_in corners.now) memory.old c known memory.new }
{
    if !corners.is_shaded() {
        memory.note(c, Some(known));
    }
}

impl<'c, 'a> LocalWork<'c, 'a> {
    ghost use Rattle.sheet.specs.Corners.{seen_of};
    ghost use Rattle.extension_common.specs.TryCell.{gathered, try_at};
    ghost use Rattle.passes.specs.Local.{local_fit, local_with, local_try, local_visit};
    ghost use Rattle.remembered.specs.Remembered.{Forgotten};
    ghost use Rattle.supports.specs.Nearest.{places_of};
    ghost use Rattle.supports.specs.Fitted.{support_fit_of, Pictured};
    ghost use Rattle.local_cell.specs.Work.{held, state_in, SamePass, Left, RecallsIn, Trying, ForetoldIn, Taking, WroteIn};

    // Attaches a corner to a cell and clears both of its marks: the sheet, the next place of the attached list and the corner's entry are written,
    // the labelled places are listed anew, the label box is widened, and what the new label may change is forgotten.
    fn attach_corner(&mut self, c: Cell, k: usize, corner: Position)
        requires { Taking self.old c k }
        ensures same { SamePass self.old self.new }
        ensures wrote { WroteIn self.old self.new c k }
        ensures forgotten { Forgotten self.old.memory.now c corner self.new.memory.now }
    {
        self.attached[self.progress.counts.attached] = sheet::place_of(c) as u16;
        let sheet = &mut *self.sheet;
        sheet::attach(sheet, c, k);
        sheet::clear_marks(sheet, c);
        self.used[k] = true;
        self.labelled.gather(sheet);
        self.around = labels::widen(self.around, c);
        self.memory.forget_near(c, corner);
        self.progress.count_cell(Ok(k));
    }

    // The candidates of an unlabelled cell where a fit maps it to, and what is found there with them.
    fn find(&self, target: Target) -> (Candidates, TryCellResult)
        ensures candidates { result.0 ≡ gathered (held self.now) self.now.sheet.now
            (local_search self.now.setup.settings self.now.setup.params).search_r target.cell target.prediction }
        ensures found { result.1 ≡ try_at (held self.now) self.now.sheet.now (tolerances_of self.now.setup.settings)
            (local_search self.now.setup.settings self.now.setup.params) target.cell target.prediction }
    {
        let trial = Trial {
            held: self.setup.held(&self.used),
            sheet: self.sheet,
            c: target.cell,
            search: self.setup.search(),
            tol: passes::tolerances_of(self.setup.settings),
        };
        let candidates = trial.gather(target.prediction);
        let found = trial.try_candidates(candidates);
        (candidates, found)
    }

    // Tries an unlabelled cell where a fit maps it to: a corner that is found is attached, else nothing is written. Either is counted, and that there
    // is no candidate, or that the choice is ambiguous, is noted where no shade stands.
    // Stays: `Trying` is of the cell handed in; `Recalls` tells cases, so a ghost field wants it shown that it has one proof at most, or hides the case (d).
    fn try_candidates_of(&mut self, target: Target)
        requires trying { Trying self.old target.cell }
        requires recalls { RecallsIn self.old }
        requires foretold { ForetoldIn self.old target.cell target.reach target.prediction }
        ensures same { SamePass self.old self.new }
        ensures recalls { RecallsIn self.new }
        ensures left { Left self.old self.new (local_with target.cell (try_at (held self.old) self.old.sheet.now
            (tolerances_of self.old.setup.settings) (local_search self.old.setup.settings self.old.setup.params) target.cell target.prediction)
            (state_in self.old)) }
    {
        let c = target.cell;
        let (candidates, found) = self.find(target);
        match found {
            Ok(k) => {
                let taken = self.setup.corners.corner_at(k);
                self.attach_corner(c, k, taken.position);
            }
            Err(NotAttached::NoCandidates) => {
                let known = target.known(Finding::NoCandidates);
                note_if_bare(self.setup.corners, self.memory, c, known);
                self.progress.count_cell(found);
            }
            Err(NotAttached::Ambiguous) => {
                let limit = candidates::last_distance(candidates);
                let known = target.known(Finding::Ambiguous(target.prediction, limit));
                note_if_bare(self.setup.corners, self.memory, c, known);
                self.progress.count_cell(found);
            }
            Err(NotAttached::EdgeRejected) => self.progress.count_cell(found),
        }
    }

    // Gathers at an unlabelled cell where a fit maps it to: what is passed over is counted, and the cell is tried.
    fn try_predicted_cell(&mut self, target: Target)
        requires trying { Trying self.old target.cell }
        requires recalls { RecallsIn self.old }
        requires foretold { ForetoldIn self.old target.cell target.reach target.prediction }
        ensures same { SamePass self.old self.new }
        ensures recalls { RecallsIn self.new }
        ensures left { Left self.old self.new (local_try (held self.old) self.old.setup.settings self.old.setup.params target.cell
            target.prediction (state_in self.old)) }
    {
        let passed = self.setup.count_unmatched(&self.used, target);
        self.try_candidates_of(target);
        self.progress.pass_over(passed);
    }

    // The fit on four supports, if there is one.
    fn fit_on(&self, nearest: [Support; 4]) -> Option<SupportFit>
        requires { Pictured nearest }
        ensures { result ≡ support_fit_of (local_fit (seen_of (held self.now).corner self.now.sheet.now) (places_of nearest)) }
    {
        let seeing = Seeing {
            corners: self.setup.corners,
            sheet: self.sheet,
        };
        supports::local_fit(seeing, nearest)
    }

    // Tries an unlabelled cell of which nothing is known: by the fit on its four nearest labels, whose residuals are recorded. Without a fit, or with a
    // residual above the gate, nothing is counted. What is worked out is noted.
    fn try_unknown_cell(&mut self, c: Cell)
        requires trying { Trying self.old c }
        requires recalls { RecallsIn self.old }
        ensures same { SamePass self.old self.new }
        ensures recalls { RecallsIn self.new }
        ensures left { Left self.old self.new (local_visit (held self.old) self.old.setup.settings self.old.setup.params c (state_in self.old)) }
    {
        let nearest = supports::nearest_labelled_by_grid(self.labelled.as_slice(), c);
        let reach = nearest[3].reach;
        let idle = Known {
            reach,
            finding: Finding::Idle,
        };
        let Some(fit) = self.fit_on(nearest) else {
            self.memory.note(c, Some(idle));
            return;
        };
        self.progress.record_residuals(fit.residuals);
        if self.setup.gate() < supports::worst_of(fit.residuals) {
            self.memory.note(c, Some(idle));
            return;
        }
        let target = Target {
            cell: c,
            reach,
            prediction: homography::apply(fit.h, supports::cell_point(c)),
        };
        let known = target.known(Finding::Predicted(target.prediction));
        self.memory.note(c, Some(known));
        self.try_predicted_cell(target);
    }

    // Tries an unlabelled cell: by what is known of it from an earlier round, or anew.
    pub fn try_local_cell(&mut self, c: Cell)
        requires trying { Trying self.old c }
        requires recalls { RecallsIn self.old }
        ensures same { SamePass self.old self.new }
        ensures recalls { RecallsIn self.new }
        ensures left { Left self.old self.new (local_visit (held self.old) self.old.setup.settings self.old.setup.params c (state_in self.old)) }
    {
        let Some(Known { reach, finding }) = self.memory.recall(c) else {
            return self.try_unknown_cell(c);
        };
        match finding {
            Finding::Idle => {}
            Finding::NoCandidates => self.progress.count_cell(Err(NotAttached::NoCandidates)),
            Finding::Ambiguous(_, _) => self.progress.count_cell(Err(NotAttached::Ambiguous)),
            Finding::Predicted(prediction) => {
                let target = Target {
                    cell: c,
                    reach,
                    prediction,
                };
                self.try_predicted_cell(target);
            }
        }
    }
}
