// What every library call checks of what it is lent (01, "Frame and result"): refusals 7, 2, 3, 5 and 6, tried in this order,
// before anything is written.

#![tactic(auto)]

ghost use Rattle.std.specs.Prelude.{◌≡◌, ◌<◌, ◌≤◌, ltb, length};
ghost use Rattle.sizes.specs.Sizes.{place_count, corner_limit};
ghost use Rattle.sheet.specs.Corners.{corner_of, corner_in, corners_in};
ghost use Rattle.labels.specs.declared.kept.KeptBox.{KeptBox};
ghost use Rattle.arguments.specs.Shades.{any_shade, corners_of};
ghost use Rattle.arguments.specs.Arguments.{lent, queue_needed, too_short, outside, corner_outside, some_corner_outside, axis_outside, settings_outside, grow_outside, fill_outside, local_outside, pass_outside, unknown, unknown_corner, doubled_corner, checked};
ghost use Rattle.arguments.specs.Asked.{lists_of, HasCorner, AllShaded, Holdable, HasEntry, HasEntries, Noted, Unseen, Searchable, FoundOn};

use binary32::ranges::Quantity;
use labels::{Bounds, KeptBox};
use predict::{Grid, Vector};
use refusal::Refusal;
use sheet::{Corner, CornerArrays, CornerCount, Position, Written};
use sizes::{CORNERS, PLACES};
use std::mem;

// The numbers of a grow pass: search, factor and boundary in 01's words.
#[derive(Clone, Copy)]
pub struct GrowParams {
    pub attach_search_rel: f32,
    pub attach_ambiguity_factor: f32,
    pub boundary_search_factor: f32,
}

// The numbers of a fill pass: search, factor and rounds.
#[derive(Clone, Copy)]
pub struct FillParams {
    pub attach_search_rel: f32,
    pub attach_ambiguity_factor: f32,
    pub max_iters: u32,
}

// The numbers of a local pass: search, factor, rounds, residual and depth.
#[derive(Clone, Copy)]
pub struct LocalExtensionParams {
    pub search_rel: f32,
    pub ambiguity_factor: f32,
    pub max_iters: u32,
    pub max_residual_rel: f32,
    pub extend_depth: u32,
}

// A pass and its own numbers.
#[derive(Clone, Copy)]
pub enum Pass {
    Grow(GrowParams),
    Fill(FillParams),
    Local(LocalExtensionParams),
}

// Cell size and axes, and the band.
#[derive(Clone, Copy, Default)]
pub struct Settings {
    pub grid: Grid,
    // 01's band
    pub edge_length_tol: f32,
}

// Whether the queue is shorter than the pass needs.
#[tactic(auto, unfolding(crate::specs::Arguments::queue_needed))]
fn queue_short(queue: usize, n: usize, pass: Pass) -> bool
    ensures { result ≡ ltb queue (queue_needed pass n) }
{
    match pass {
        Pass::Grow(_) => queue / 4 < n,
        Pass::Fill(_) | Pass::Local(_) => false,
    }
}

// Whether a float is not in the range of its quantity.
#[tactic(auto, unfolding(crate::specs::Arguments::outside))]
fn is_outside(q: Quantity, x: f32) -> bool
    ensures { result ≡ outside q x }
{
    !binary32::ranges::in_range(q, x)
}

// Whether a corner's x, y or pitch is out of range.
#[tactic(auto, unfolding(crate::specs::Arguments::corner_outside))]
fn corner_outside(c: Corner) -> bool
    ensures { result ≡ corner_outside c }
{
    is_outside(Quantity::Position, c.position.x)
        || is_outside(Quantity::Position, c.position.y)
        || is_outside(Quantity::Pitch, c.pitch)
}

// Whether any of these shades stands.
pub fn any_shade(shades: &[u8]) -> bool
    ensures { result ≡ any_shade shades.now (length shades.now) }
{
    shades.iter().any(|shade| *shade != 0)
}

// The corners that are lent to a call: their xs, ys and pitches, and their shades, a byte each. There are as many as there are xs.
#[derive(Clone, Copy)]
pub struct LentCorners<'a> {
    pub xs: &'a [f32],
    pub ys: &'a [f32],
    pub pitches: &'a [f32],
    pub shades: &'a [u8],
}

impl LentCorners<'_> {
    // 7: whether a lent buffer is too short.
    #[tactic(auto, unfolding(crate::specs::Arguments::too_short))]
    fn too_short(&self, sheet: &[u16], queue: usize, attached: usize, pass: Pass) -> bool
        ensures { (around : KeptBox) → result ≡ too_short (lent self.now.xs.now self.now.ys.now self.now.pitches.now
            self.now.shades.now sheet.now around queue attached) pass }
    {
        self.ys.len() < self.xs.len()
            || self.pitches.len() < self.xs.len()
            || self.shades.len() < self.xs.len()
            || sheet.len() < PLACES
            || queue_short(queue, self.xs.len(), pass)
            || attached < self.xs.len()
    }

    // The corner of a number.
    fn corner(&self, k: usize) -> Corner
        requires { HasCorner (lists_of self.now) k }
        ensures { result ≡ corner_of (lists_of self.now) k }
    {
        let x = self.xs[k];
        let y = self.ys[k];
        let pitch = self.pitches[k];
        let position = Position { x, y };
        Corner { position, pitch }
    }

    // Whether some corner's x, y or pitch is out of range, or its shade neither none nor one of the two kinds.
    fn some_corner_outside(&self) -> bool
        requires { AllShaded (lists_of self.now) self.now.shades.now }
        ensures { result ≡ some_corner_outside (lists_of self.now) self.now.shades.now }
    {
        (0..self.xs.len()).any(|k| corner_outside(self.corner(k)) || 2 < self.shades[k])
    }

    // Whether any shade stands.
    pub fn any_shade(&self) -> bool
        requires { length self.now.xs.now ≤ length self.now.shades.now }
        ensures { result ≡ any_shade self.now.shades.now (length self.now.xs.now) }
    {
        any_shade(&self.shades[..self.xs.len()])
    }

    // Puts the corners, with their shades, into the arrays in which the passes hold them. They hold none before.
    pub fn hold(&self, held: &mut CornerArrays)
        requires { Holdable (lists_of self.now) self.now.shades.now held.old }
        ensures { corners_in held.new ≡ corners_of (lists_of self.now) self.now.shades.now }
    {
        let n = self.xs.len();
        held.count = CornerCount { number: n };
        held.xs[..n].copy_from_slice(self.xs);
        held.ys[..n].copy_from_slice(&self.ys[..n]);
        held.pitches[..n].copy_from_slice(&self.pitches[..n]);
        if self.any_shade() {
            let mut shades = [0; CORNERS];
            shades[..n].copy_from_slice(&self.shades[..n]);
            held.shades = Some(shades);
        }
    }
}

// Whether a part of an axis is out of range.
#[tactic(auto, unfolding(crate::specs::Arguments::axis_outside))]
fn axis_outside(v: Vector) -> bool
    ensures { result ≡ axis_outside v }
{
    is_outside(Quantity::AxisPart, v.x) || is_outside(Quantity::AxisPart, v.y)
}

// Whether the cell size, an axis or the band is out of range.
#[tactic(auto, unfolding(crate::specs::Arguments::settings_outside))]
fn settings_outside(settings: Settings) -> bool
    ensures { result ≡ settings_outside settings }
{
    let grid = settings.grid;
    is_outside(Quantity::CellSize, grid.cell_size)
        || axis_outside(grid.axis_i)
        || axis_outside(grid.axis_j)
        || is_outside(Quantity::Band, settings.edge_length_tol)
}

// Whether one of grow's numbers is out of range.
#[tactic(auto, unfolding(crate::specs::Arguments::grow_outside))]
fn grow_outside(p: GrowParams) -> bool
    ensures { result ≡ grow_outside p }
{
    is_outside(Quantity::Multiple, p.attach_search_rel)
        || is_outside(Quantity::Factor, p.attach_ambiguity_factor)
        || is_outside(Quantity::Multiple, p.boundary_search_factor)
}

// Whether one of fill's numbers is out of range.
#[tactic(auto, unfolding(crate::specs::Arguments::fill_outside))]
fn fill_outside(p: FillParams) -> bool
    ensures { result ≡ fill_outside p }
{
    is_outside(Quantity::Multiple, p.attach_search_rel)
        || is_outside(Quantity::Factor, p.attach_ambiguity_factor)
        || 64 < p.max_iters
}

// Whether one of local's numbers is out of range.
#[tactic(auto, unfolding(crate::specs::Arguments::local_outside))]
fn local_outside(p: LocalExtensionParams) -> bool
    ensures { result ≡ local_outside p }
{
    is_outside(Quantity::Multiple, p.search_rel)
        || is_outside(Quantity::Factor, p.ambiguity_factor)
        || 64 < p.max_iters
        || is_outside(Quantity::Multiple, p.max_residual_rel)
        || 4 < p.extend_depth
}

// Whether one of the pass's own numbers is out of range.
#[tactic(auto, unfolding(crate::specs::Arguments::pass_outside))]
fn pass_outside(pass: Pass) -> bool
    ensures { result ≡ pass_outside pass }
{
    match pass {
        Pass::Grow(p) => grow_outside(p),
        Pass::Fill(p) => fill_outside(p),
        Pass::Local(p) => local_outside(p),
    }
}

// Whether a label names a corner from n on.
#[tactic(auto, unfolding(crate::specs::Arguments::unknown))]
fn is_unknown(n: usize, label: Option<usize>) -> bool
    ensures { result ≡ unknown n label }
{
    label.is_some_and(|k| n <= k)
}

// 5: whether the sheet names a corner from n on.
pub fn unknown_corner(n: usize, sheet: &[u16]) -> bool
    requires { place_count ≤ length sheet.now }
    ensures { result ≡ unknown_corner n sheet.now }
{
    Written::new(sheet).any(|(_, word)| is_unknown(n, sheet::label_of(word)))
}

// Notes the corner of a label as seen; true if it was seen before.
fn note(seen: &mut [bool; CORNERS], label: Option<usize>) -> bool
    requires { HasEntry label }
    ensures { Noted seen.old label seen.new result }
{
    match label {
        Some(k) => mem::replace(&mut seen[k], true),
        None => false,
    }
}

// Whether the sheet names a corner at two places; none is seen at the start.
// Stays: with `any` the closure writes to `seen` and needs a clause of its own, which is no plainer (d).
fn seen_twice(sheet: &[u16], seen: &mut [bool; CORNERS]) -> bool
    requires { Unseen sheet.now seen.old }
    ensures { result ≡ doubled_corner sheet.now }
{
    for (_, word) in Written::new(sheet) {
        if note(seen, sheet::label_of(word)) {
            return true;
        }
    }
    false
}

// What one walk over a sheet finds: its label box, whether it names a corner from n on, and whether a corner below n stands on two places.
#[derive(Clone, Copy, Default)]
pub struct SheetFound {
    around: Option<Bounds>,
    unknown: bool,
    doubled: bool,
}

impl SheetFound {
    ghost use Rattle.arguments.specs.Asked.{LookedAt};

    // One place with its word more: what it holds is noted.
    fn look_at(&mut self, seen: &mut [bool; CORNERS], n: usize, place_and_word: (usize, u16))
        requires { (place_and_word.0 < place_count) × (n ≤ corner_limit) }
        ensures { LookedAt n place_and_word self.old seen.old self.new seen.new }
    {
        let (place, word) = place_and_word;
        if let Some(k) = sheet::label_of(word) {
            self.around = labels::widen(self.around, sheet::cell_of(place));
            if k < n {
                self.doubled |= note(seen, Some(k));
            } else {
                self.unknown = true;
            }
        }
    }
}

// Looks once at all places of a sheet.
fn search_sheet(n: usize, sheet: &[u16]) -> SheetFound
    requires { Searchable n sheet.now }
    ensures { FoundOn n sheet.now result }
{
    let mut found = SheetFound::default();
    let mut seen = [false; CORNERS];
    for place_and_word in Written::new(sheet) {
        found.look_at(&mut seen, n, place_and_word);
    }
    found
}

// 6: whether a corner stands on two places of the sheet.
pub fn doubled_corner(sheet: &[u16]) -> bool
    requires { HasEntries sheet.now }
    ensures { result ≡ doubled_corner sheet.now }
{
    let mut seen = [false; CORNERS];
    seen_twice(sheet, &mut seen)
}

// Whether a call with these arguments is refused, and why: 7, 2, 3, 5 and 6 are tried in this order; a box that differs from the sheet is 3. The
// queue and the attached list are given by their lengths.
pub fn check_arguments(
    corners: LentCorners,
    sheet: &[u16],
    around: KeptBox,
    queue: usize,
    attached: usize,
    settings: Settings,
    pass: Pass,
) -> Result<(), Refusal>
    ensures { result ≡ checked (lent corners.entry.xs.now corners.entry.ys.now corners.entry.pitches.now corners.entry.shades.now
        sheet.now around queue attached) settings pass }
{
    if corners.too_short(sheet, queue, attached, pass) {
        return Err(Refusal::BufferTooShort);
    }
    if CORNERS < corners.xs.len() {
        return Err(Refusal::OverLimit);
    }
    if corners.some_corner_outside() || settings_outside(settings) || pass_outside(pass) {
        return Err(Refusal::OutOfRange);
    }
    let found = search_sheet(corners.xs.len(), sheet);
    if !around.is(found.around) {
        return Err(Refusal::OutOfRange);
    }
    if found.unknown {
        return Err(Refusal::UnknownCorner);
    }
    if found.doubled {
        return Err(Refusal::Duplicate);
    }
    Ok(())
}
