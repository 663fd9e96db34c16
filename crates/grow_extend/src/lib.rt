// Grow (01, "Grow"; port of shared/grow_extend.rs): from the neighbours of the labelled cells outwards, cell by cell, corners are attached
// and holes and ambiguous cells marked. If any shade stands, a cell takes only corners of its kind (02, 1/14). The Rust's test whether a
// queued cell is labelled by now is left out: no cell is queued twice, so none is.

#![tactic(auto)]

ghost use Rattle.std.specs.Prelude.{◌≡◌, ◌≤◌, length, Ok};
ghost use Rattle.sheet.specs.Corners.{Given, corner_lists};
ghost use Rattle.labels.specs.Box.{box_of};
ghost use Rattle.labels.specs.Used.{Tied};
ghost use Rattle.arguments.specs.Shades.{corners_of};
ghost use Rattle.arguments.specs.Asked.{lists_of};
ghost use Rattle.arguments.specs.Accepted.{Accepted};
ghost use Rattle.passes.specs.Outcome.{Outcome};
ghost use Rattle.passes.specs.Grow.{radius_of, search_of, grow_after};
ghost use Rattle.passes.specs.Step.{grow_step, grow_out, grow_leaves, lent_of, rooms};
ghost use Rattle.passes.specs.Said.{grow_values, grow_said, outcome_due};

use arguments::{GrowParams, LentCorners, Pass, Settings};
use candidates::HeldCorners;
use extension_common::{ChoiceRule, NotAttached, Search, Trial, TryCellResult};
use grow_queue::Queue;
use labels::{Bounds, KeptBox};
use passes::{Counts, GrowStats};
use refusal::Refusal;
use sheet::{Cell, CornerArrays, CornerCount};
use sizes::CORNERS;

// The settings of a call, and the numbers of the pass.
// Stays: each pass has its own numbers; a generic struct of `passes` would share two fields and turn these methods into functions (d).
#[derive(Clone, Copy)]
pub struct GrowSetup {
    pub settings: Settings,
    pub params: GrowParams,
}

impl GrowSetup {
    // The radius: search times cell size, times boundary where extrapolating.
    #[tactic(auto, unfolding(passes::specs::Grow::radius_of))]
    fn radius(self, extrapolating: bool) -> f32
        ensures { result ≡ radius_of self.settings self.params extrapolating }
    {
        let search_r = self.params.attach_search_rel * self.settings.grid.cell_size;
        if extrapolating {
            search_r * self.params.boundary_search_factor
        } else {
            search_r
        }
    }

    // How a cell is searched: the radius, the factor, and grow's rule of choice.
    #[tactic(auto, unfolding(passes::specs::Grow::search_of))]
    fn search(self, extrapolating: bool) -> Search
        ensures { result ≡ search_of self.settings self.params extrapolating }
    {
        Search {
            search_r: self.radius(extrapolating),
            ambiguity_factor: self.params.attach_ambiguity_factor,
            rule: ChoiceRule::Unambiguous,
        }
    }
}

// A run: the corners, and how they are searched; the lent sheet and its label box, the lent list of the cells that are new, which corners are used,
// and the counts so far. The queue stands beside it.
#[derive(Drop)]
pub struct Growing<'a> {
    pub corners: &'a CornerArrays,
    pub setup: GrowSetup,
    pub sheet: &'a mut [u16],
    pub around: Option<Bounds>,
    pub attached: &'a mut [u16],
    pub used: [bool; CORNERS],
    pub counts: Counts,
    ghost given: { Given corners.now.count.number sheet.now },
    ghost boxed: { around ≡ box_of sheet.now },
    ghost tied: { Tied sheet.now used },
    ghost within: { counts.attached ≤ length attached.now },
}

impl<'a> Growing<'a> {
    ghost use Rattle.passes.specs.Grow.{grow_with, grow_visit, grow_run};
    ghost use Rattle.sheet.specs.Cells.{OnSheet};
    ghost use Rattle.sheet.specs.Words.{hole_marked};
    ghost use Rattle.passes.specs.Counting.{one_more};
    ghost use Rattle.grow_extend.specs.Grow.{found_at, state_of, held, stats_of, SmallCounts, SameRun, Left, Leaves, Attachable, Settleable, Visitable, Startable};

    // What is found at a cell: it is tried at its prediction; one with no labelled neighbour has no candidate.
    fn try_cell(&self, c: Cell) -> TryCellResult
        requires { OnSheet c }
        ensures { result ≡ found_at (held self.now) self.now.setup.settings self.now.setup.params self.now.sheet.now c }
    {
        let setup = self.setup;
        let trial = Trial {
            held: HeldCorners {
                corners: self.corners,
                used: &self.used,
            },
            sheet: self.sheet,
            c,
            search: setup.search(predict::is_extrapolating(self.sheet, c)),
            tol: passes::tolerances_of(setup.settings),
        };
        trial.try_predicted(setup.settings.grid)
    }

    // Attaches a corner to a cell: its marks stay, the label box takes the cell in, the cell joins the attached list, and its neighbours are queued.
    fn attach_corner(&mut self, queue: &mut Queue, c: Cell, k: usize)
        requires { Attachable self.old queue.old c k }
        ensures { Leaves self.old queue.old self.new queue.new (grow_with c (Ok k) (state_of self.old queue.old)) }
    {
        self.attached[self.counts.attached] = sheet::place_of(c) as u16;
        let sheet = &mut *self.sheet;
        sheet::attach(sheet, c, k);
        queue.enqueue_cardinal_neighbours(sheet, c);
        self.around = labels::widen(self.around, c);
        self.used[k] = true;
        self.counts = passes::one_more(Ok(k), self.counts);
    }

    // Marks a hole, and counts why no corner was attached there.
    fn mark_hole(&mut self, c: Cell, why: NotAttached)
        requires on { OnSheet c }
        requires small { SmallCounts self.old.counts }
        ensures same { SameRun self.old self.new }
        ensures same_list { self.new.attached.now ≡ self.old.attached.now }
        ensures marked { self.new.sheet.now ≡ hole_marked self.old.sheet.now c }
        ensures counted { self.new.counts ≡ one_more (Err why) self.old.counts }
    {
        sheet::mark_hole(self.sheet, c);
        self.counts = passes::one_more(Err(why), self.counts);
    }

    // Settles a cell by what was found there: no candidate and refused edges mark a hole, an ambiguous choice marks ambiguous, and a corner
    // found is attached.
    fn settle(&mut self, queue: &mut Queue, c: Cell, found: TryCellResult)
        requires { Settleable self.old queue.old c found }
        ensures { Leaves self.old queue.old self.new queue.new (grow_with c found (state_of self.old queue.old)) }
    {
        match found {
            Ok(k) => self.attach_corner(queue, c, k),
            Err(NotAttached::NoCandidates) => self.mark_hole(c, NotAttached::NoCandidates),
            Err(NotAttached::EdgeRejected) => self.mark_hole(c, NotAttached::EdgeRejected),
            Err(NotAttached::Ambiguous) => {
                sheet::mark_ambiguous(self.sheet, c);
                self.counts = passes::one_more(found, self.counts);
            }
        }
    }

    // Visits a cell of the queue.
    fn visit(&mut self, queue: &mut Queue, c: Cell)
        requires { Visitable self.old queue.old c }
        ensures { Leaves self.old queue.old self.new queue.new
            (grow_visit (held self.old) self.old.setup.settings self.old.setup.params c (state_of self.old queue.old)) }
    {
        let found = self.try_cell(c);
        self.settle(queue, c, found);
    }

    // The run: the seeds are queued, and the queue's cells are visited in order until none is left.
    fn run(&mut self, queue: &mut Queue)
        requires { Startable self.old queue.old }
        ensures { Left self.old queue.old self.new queue.new
            (grow_run (held self.old) self.old.setup.settings self.old.setup.params self.old.sheet.now) }
    {
        let sheet = &mut *self.sheet;
        queue.seed(sheet);
        // Stays: a visit queues more cells, so that no iterator can hold the queue meanwhile (d).
        while let Some(c) = queue.pop() {
            self.visit(queue, c);
        }
    }

    // What is said of a run: its counts, and the rim.
    fn stats(&self) -> GrowStats
        ensures { result ≡ stats_of self.now }
    {
        GrowStats {
            counts: self.counts,
            rim: labels::rim_reached(self.sheet, 1),
        }
    }
}

// The pass on arguments that are accepted: which corners are used, the seeds, the run, and the rim and the label box at its end.
// Stays: the public call is lent them one by one; here the queue becomes a struct of its own, and the other two go into the run (d).
fn extend(
    corners: LentCorners,
    sheet: &mut [u16],
    around: KeptBox,
    queue: &mut [u16],
    attached: &mut [u16],
    settings: Settings,
    params: GrowParams,
) -> (GrowStats, KeptBox)
    requires { Accepted (lent_of (lists_of corners) corners.shades.now sheet.old around (rooms (length queue.old)
        (length attached.old))) settings (Pass.Grow params) }
    ensures { grow_out (Ok result) sheet.new queue.new attached.new
        ≡ grow_leaves (Outcome.done (grow_after (corners_of (lists_of corners.entry) corners.entry.shades.now)
        settings params sheet.old)) sheet.old queue.old attached.old }
{
    // No corner, as `sheet::NO_CORNERS` has it. By that name, or with the NaNs in the struct, the arrays are built beside `held` and copied, which
    // takes 24 or 12 KB more of stack.
    let mut held = CornerArrays {
        xs: [0.0; CORNERS],
        ys: [0.0; CORNERS],
        pitches: [0.0; CORNERS],
        shades: None,
        count: CornerCount { number: 0 },
    };
    held.xs.fill(f32::NAN);
    held.ys.fill(f32::NAN);
    held.pitches.fill(f32::NAN);
    let mut queue = Queue::new(queue);
    corners.hold(&mut held);
    let used = labels::mark_used(sheet);
    let mut growing = Growing {
        corners: &held,
        setup: GrowSetup { settings, params },
        sheet,
        around: around.around(),
        attached,
        used,
        counts: Counts::default(),
    };
    growing.run(&mut queue);
    (growing.stats(), KeptBox::of(growing.around))
}

// Grow on the corners, their shades and the sheet that are lent, and the sheet's label box, which is handed and answered. A refusal says why and
// changes nothing; a box that differs from the sheet is one. Else the sheet holds what grow left, the queue holds the visited cells in order, the
// attached list the new cells in order, the rest of both untouched, and the answer has the counts and the rim, and the label box of what grow left.
// `said` is the same answer in 01's number or values.
// Stays: the public calls of the passes lend slice by slice, as 01 has it and as the C interface does (a).
pub fn extend_from_labelled(
    xs: &[f32],
    ys: &[f32],
    pitches: &[f32],
    shades: &[u8],
    sheet: &mut [u16],
    around: KeptBox,
    queue: &mut [u16],
    attached: &mut [u16],
    settings: Settings,
    params: GrowParams,
) -> Result<(GrowStats, KeptBox), Refusal>
    ensures attached_after { grow_out result sheet.new queue.new attached.new
        ≡ grow_leaves (grow_step (corner_lists xs.now ys.now pitches.now) shades.now sheet.old
        around settings params (rooms (length queue.old) (length attached.old))) sheet.old queue.old
        attached.old }
    ensures said { grow_said result ≡ outcome_due grow_values (grow_step (corner_lists xs.now ys.now pitches.now)
        shades.now sheet.old around settings params (rooms (length queue.old) (length attached.old))) }
{
    let corners = LentCorners {
        xs,
        ys,
        pitches,
        shades,
    };
    arguments::check_arguments(
        corners,
        sheet,
        around,
        queue.len(),
        attached.len(),
        settings,
        Pass::Grow(params),
    )?;
    Ok(extend(corners, sheet, around, queue, attached, settings, params))
}
