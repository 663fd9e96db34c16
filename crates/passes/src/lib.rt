// What the three passes answer, the counts with one cell more, and in specs/ what they do: the definitions that their contracts cite and that
// demand 3 speaks of.
// The passes themselves are the crates grow_extend, fill and local.

#![tactic(auto)]

ghost use Rattle.std.specs.Prelude.{◌≡◌, ◌<◌};
ghost use Rattle.passes.specs.Counting.{one_more, visits};
ghost use Rattle.passes.specs.Grow.{tolerances_of};

use arguments::Settings;
use extension_common::{NotAttached, TryCellResult};
use positions_policy::Tolerances;

// The edge's tolerances of a call: cell size and band.
pub fn tolerances_of(settings: Settings) -> Tolerances
    ensures { result ≡ tolerances_of settings }
{
    Tolerances {
        cell_size: settings.grid.cell_size,
        edge_length_tol: settings.edge_length_tol,
    }
}

// The counts of grow, and of local.
#[derive(Clone, Copy, Default)]
pub struct Counts {
    pub attached: usize,
    pub rejected_no_candidate: usize,
    pub rejected_ambiguous: usize,
    pub rejected_edge: usize,
}

// The counts with one cell more, by what was found there.
pub fn one_more(found: TryCellResult, n: Counts) -> Counts
    requires { visits n < 4294967296 }
    ensures { result ≡ one_more found n }
{
    match found {
        Err(NotAttached::NoCandidates) => Counts {
            rejected_no_candidate: n.rejected_no_candidate + 1,
            ..n
        },
        Err(NotAttached::Ambiguous) => Counts {
            rejected_ambiguous: n.rejected_ambiguous + 1,
            ..n
        },
        Err(NotAttached::EdgeRejected) => Counts {
            rejected_edge: n.rejected_edge + 1,
            ..n
        },
        Ok(_) => Counts {
            attached: n.attached + 1,
            ..n
        },
    }
}

// Grow's pass line: attached, no candidate, ambiguous, edge, rim.
#[derive(Clone, Copy)]
pub struct GrowStats {
    pub counts: Counts,
    pub rim: bool,
}

// Fill's pass line: added, rounds, rim.
#[derive(Clone, Copy)]
pub struct FillStats {
    pub added: usize,
    pub iterations: usize,
    pub rim: bool,
}

// Local's pass line: grow's four counts, rounds, largest residual or none, rim; and the corners passed over.
#[derive(Clone, Copy)]
pub struct LocalStats {
    pub counts: Counts,
    pub iterations: usize,
    // the largest residual that was recorded, if any was
    pub residual: Option<f32>,
    pub rim: bool,
    // how many corners were passed over for their kind, each time that it gathered; none where no shade stands, so that none could be
    pub unmatched: Option<usize>,
}

// What any of the three says.
#[derive(Clone, Copy)]
pub enum PassStats {
    Grow(GrowStats),
    Fill(FillStats),
    Local(LocalStats),
}
