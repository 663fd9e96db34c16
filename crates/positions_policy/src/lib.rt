// Edge (document 01): whether the edges from a candidate to the labelled corners beside its cell have about the length that they
// should have. Port of shared/positions_policy.rs (edge_ok) and of shared/grow/mod.rs (any_cardinal_edge_ok).

#![tactic(auto)]

ghost use Rattle.std.specs.Prelude.{◌≡◌, ◌<◌};
ghost use Rattle.sheet.specs.Cells.{OnSheet, Within};
ghost use Rattle.sheet.specs.Seeing.{seen_in};
ghost use Rattle.positions_policy.specs.Edge.{length_of, expected_length, in_band, edge_ok, cardinal_at, edge_at, verdict_of, passes};

use sheet::{Cell, Corner, Offset, Position, Seeing};

// The numbers of the edge test. The band of 01 is `edge_length_tol`: the part of the expected length by which a length may differ.
#[derive(Clone, Copy)]
pub struct Tolerances {
    pub cell_size: f32,
    pub edge_length_tol: f32,
}

// What the edges to the cardinal neighbours say: one is accepted; there is one and none is accepted; there is none.
#[derive(Clone, Copy)]
pub enum EdgeVerdict {
    Accepted,
    Refused,
    NonePresent,
}

// The length of the edge to the candidate's position from the neighbour's, each operation rounded.
#[tactic(auto, unfolding(crate::specs::Edge::length_of))]
pub fn edge_length(to: Position, from: Position) -> f32
    ensures { result ≡ length_of to from }
{
    to.distance(from)
}

// The length that an edge should have: half the sum of both pitches if that is above 0.001, else the cell size.
#[tactic(auto, unfolding(crate::specs::Edge::mean_pitch, crate::specs::Edge::expected_length))]
pub fn expected_length(cell_size: f32, candidate: f32, neighbour: f32) -> f32
    ensures { result ≡ expected_length cell_size candidate neighbour }
{
    let local = 0.5 * (candidate + neighbour);
    if local > 0.001 { local } else { cell_size }
}

// Whether length/expected lies in 1-band to 1+band, ends included.
#[tactic(auto, using(binary32::proofs::Between::contained), unfolding(crate::specs::Edge::in_band))]
pub fn in_band(length: f32, expected: f32, band: f32) -> bool
    ensures { result ≡ in_band length expected band }
{
    let ratio = length / expected;
    let low = 1.0 - band;
    let high = 1.0 + band;
    (low..=high).contains(&ratio)
}

// Whether the edge to the candidate from the neighbour is accepted: its length lies in the band about the expected length.
#[tactic(auto, unfolding(crate::specs::Edge::edge_ok))]
pub fn edge_ok(candidate: Corner, neighbour: Corner, cell_size: f32, band: f32) -> bool
    ensures { result ≡ edge_ok candidate neighbour cell_size band }
{
    let length = edge_length(candidate.position, neighbour.position);
    let expected = expected_length(cell_size, candidate.pitch, neighbour.pitch);
    in_band(length, expected, band)
}

// The cardinal neighbours, in the order +i, -i, +j, -j.
pub const CARDINALS: [Offset; 4] = [
    Offset { di: 1, dj: 0 },
    Offset { di: -1, dj: 0 },
    Offset { di: 0, dj: 1 },
    Offset { di: 0, dj: -1 },
];

// The offset of the k-th cardinal neighbour.
#[tactic(auto, unfolding(crate::specs::Edge::cardinal_offsets))]
pub fn cardinal_offset(k: usize) -> Offset
    requires { k < 4 }
    ensures { result ≡ cardinal_at k }
{
    CARDINALS[k]
}

// What the edge between the candidate, at the cell, and the neighbour at an offset says.
fn cardinal_edge(
    seeing: Seeing,
    c: Cell,
    candidate: Corner,
    tol: Tolerances,
    o: Offset,
) -> EdgeVerdict
    requires { OnSheet c × Within 128 o }
    ensures { result ≡ edge_at (seen_in seeing.entry) tol c candidate o }
{
    match seeing.at(sheet::neighbour(c, o)) {
        None => EdgeVerdict::NonePresent,
        Some(neighbour) => {
            if edge_ok(candidate, neighbour, tol.cell_size, tol.edge_length_tol) {
                EdgeVerdict::Accepted
            } else {
                EdgeVerdict::Refused
            }
        }
    }
}

// What the edges between the candidate, at the cell, and the labelled cardinal neighbours say: they are tried in the order +i, -i,
// +j, -j, and the search stops at the first accepted edge.
pub fn any_cardinal_edge_ok(
    seeing: Seeing,
    c: Cell,
    candidate: Corner,
    tol: Tolerances,
) -> EdgeVerdict
    requires { OnSheet c }
    ensures { result ≡ verdict_of (seen_in seeing.entry) tol c candidate }
{
    let mut verdict = EdgeVerdict::NonePresent;
    // Stays: the specification asks for a loop over the four cardinal cells, in their order, that stops at the first accepted edge (a).
    for o in CARDINALS {
        match cardinal_edge(seeing, c, candidate, tol, o) {
            EdgeVerdict::Accepted => return EdgeVerdict::Accepted,
            EdgeVerdict::Refused => verdict = EdgeVerdict::Refused,
            EdgeVerdict::NonePresent => {}
        }
    }
    verdict
}

// Whether a candidate with this verdict passes: an edge is accepted, or there is no cardinal neighbour.
#[tactic(auto, unfolding(crate::specs::Edge::passes))]
pub fn passes(verdict: EdgeVerdict) -> bool
    ensures { result ≡ passes verdict }
{
    matches!(verdict, EdgeVerdict::Accepted | EdgeVerdict::NonePresent)
}
