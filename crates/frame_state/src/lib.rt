// What a frame's lines have said so far, and one line added to it. Corners, shades, labels and passes are held in arrays of the reader's own (crate
// frame_check).

#![tactic(auto)]

ghost use Rattle.std.specs.Prelude.{◌≡◌, ◌<◌, ◌≤◌};
ghost use Rattle.sizes.specs.Sizes.{corner_limit, pass_limit};
ghost use Rattle.frame_check.specs.Checks.{nothing_held, checked_held, LabelFits};
ghost use Rattle.frame_state.specs.State.{patched_of, second_of, nothing_said, at_stage, TameOpening, with_opening, CornerFits, SecondRoom, LabelsRoom, ShadeFits, shade_put, grow_words, fill_words, local_words, words_in, words_put, with_shades, with_passes, corner_put, label_put, second_put, label_to, state, Addable, adds};

use arguments::Settings;
use frame_check::{Held, Said};
use frame_line::{HeldLabel, HeldShade, Kind, ListedLine, OpeningKind, PassKind};
use frame_number::count_of;
use join_sheet::SecondLabel;
use labels::Bounds;
use predict::{Grid, Vector};
use refusal::Refusal;
use roles::Role;
use sizes::PASS_WORDS;

// Cell size, axes and band, how many corners, labels of the first set, labels of the second, None where no patch line stands, and passes there are,
// the stage that the lines have come to, the role that holds, and the label box that is kept with the sheet: it is widened by each label of the first
// set. The join widens it by those of the second.
#[derive(Clone, Copy, Default)]
pub struct Progress {
    pub settings: Settings,
    pub corners: usize,
    pub labels: usize,
    pub second: Option<usize>,
    pub passes: usize,
    pub stage: usize,
    pub role: Role,
    pub around: Option<Bounds>,
}

// A line of the opening is said: cell size, axes or band.
fn with_opening(s: Settings, kind: OpeningKind, v: [u32; 5]) -> Settings
    requires { TameOpening kind v }
    ensures { result ≡ with_opening kind s v }
{
    let grid = s.grid;
    match kind {
        OpeningKind::Frame => s,
        OpeningKind::CellSize => {
            let cell_size = f32::from_bits(v[0]);
            Settings {
                grid: Grid { cell_size, ..grid },
                ..s
            }
        }
        OpeningKind::Axes => {
            let axis_i = Vector {
                x: f32::from_bits(v[0]),
                y: f32::from_bits(v[1]),
            };
            let axis_j = Vector {
                x: f32::from_bits(v[2]),
                y: f32::from_bits(v[3]),
            };
            Settings {
                grid: Grid {
                    axis_i,
                    axis_j,
                    ..grid
                },
                ..s
            }
        }
        OpeningKind::Band => Settings {
            edge_length_tol: f32::from_bits(v[0]),
            ..s
        },
    }
}

// The numbers of bare grow, 0.35, 1.5 and 1.25, and of bare fill, 0.35, 1.5 and 1, as they are held.
const BARE_GROW: [u32; 5] = [0x3eb3_3333, 0x3fc0_0000, 0x3fa0_0000, 0, 0];

const BARE_FILL: [u32; 5] = [0x3eb3_3333, 0x3fc0_0000, 1_000_001, 0, 0];

// A pass as seven words: kind (0 grow, 1 fill, 2 local), search, factor, boundary or residual, rounds, depth, role; 0 for what the pass has not.
// Stays: the kind and the role are numbers, since the C interface lends passes as words (a).
fn grow_words(role: Role, v: [u32; 5]) -> [u32; PASS_WORDS]
    ensures { result ≡ grow_words role v }
{
    [0, v[0], v[1], v[2], 0, 0, roles::number(role)]
}

// Stays: as `grow_words` (a).
fn fill_words(role: Role, v: [u32; 5]) -> [u32; PASS_WORDS]
    ensures { result ≡ fill_words role v }
{
    [1, v[0], v[1], 0, count_of(v[2]), 0, roles::number(role)]
}

// Stays: as `grow_words` (a).
fn local_words(role: Role, v: [u32; 5]) -> [u32; PASS_WORDS]
    ensures { result ≡ local_words role v }
{
    [
        2,
        v[0],
        v[1],
        v[3],
        count_of(v[2]),
        count_of(v[4]),
        roles::number(role),
    ]
}

// The words of a pass line that a role runs, with the numbers of a bare one.
fn words_of(role: Role, kind: PassKind, v: [u32; 5]) -> [u32; PASS_WORDS]
    ensures { result ≡ words_in role kind v }
{
    match kind {
        PassKind::BareGrow => grow_words(role, BARE_GROW),
        PassKind::Grow => grow_words(role, v),
        PassKind::BareFill => fill_words(role, BARE_FILL),
        PassKind::Fill => fill_words(role, v),
        PassKind::Local => local_words(role, v),
    }
}

// The corner n is written.
fn put_corner(held: &mut Held, n: usize, v: [u32; 5])
    requires { CornerFits n v }
    ensures { held.new ≡ corner_put n v held.old }
{
    held.xs[n] = f32::from_bits(v[0]);
    held.ys[n] = f32::from_bits(v[1]);
    held.pitches[n] = f32::from_bits(v[2]);
}

// A label of the first set is written: its corner to the sheet, and that the set uses the corner.
fn put_label(held: &mut Held, label: HeldLabel)
    requires { LabelFits label }
    ensures { held.new ≡ label_put label held.old }
{
    sheet::attach(&mut held.sheet, label.cell, label.corner);
    held.used[label.corner] = true;
}

// The label n of the second set is written: its corner and its place, and that the set uses the corner.
fn put_second(held: &mut Held, n: usize, label: HeldLabel)
    requires { SecondRoom n label }
    ensures { held.new ≡ second_put n label held.old }
{
    held.second[n] = SecondLabel {
        corner: label.corner as u16,
        place: sheet::place_of(label.cell) as u16,
    };
    held.second_used[label.corner] = true;
}

// A shade is written: 1 more than its kind to the entry of its corner.
fn put_shade(held: &mut Held, shade: HeldShade)
    requires { ShadeFits shade }
    ensures { held.new ≡ with_shades held.old (shade_put shade held.old.shades) }
{
    held.shades[shade.corner] = (shade.kind + 1) as u8;
}

// The words of the pass m are written.
fn put_pass(held: &mut Held, m: usize, words: [u32; PASS_WORDS])
    requires { m < pass_limit }
    ensures { held.new ≡ with_passes held.old (words_put m words held.old.passes) }
{
    let at = PASS_WORDS * m;
    held.passes[at..at + PASS_WORDS].copy_from_slice(&words);
}

// What a frame's lines have said so far, and the arrays that hold it.
#[derive(Drop)]
pub struct Reading {
    pub progress: Progress,
    pub held: Held,
}

impl Reading {
    // Nothing said.
    pub fn new() -> Reading
        ensures { result ≡ state nothing_said nothing_held }
    {
        Reading {
            progress: Progress::default(),
            held: Held::new(),
        }
    }

    // The lines have come to a stage.
    pub fn come_to(&mut self, stage: usize)
        ensures { self.new ≡ state (at_stage self.old.progress stage) self.old.held }
    {
        self.progress.stage = stage;
    }

    // All checks of a line in its turn, against what was said before it.
    pub fn check_line(&self, line: ListedLine) -> Result<(), Refusal>
        requires few { self.now.progress.corners ≤ corner_limit }
        requires second_few { second_of self.now.progress ≤ corner_limit }
        ensures { result ≡ checked_held self.now.progress.corners self.now.progress.passes self.now.progress.role
            (patched_of self.now.progress) self.now.held (second_of self.now.progress) line.held }
    {
        let p = self.progress;
        let said = Said {
            held: &self.held,
            corners: p.corners,
            passes: p.passes,
            labels: p.second,
            role: p.role,
        };
        said.check_line(line)
    }

    // A label is written to the set that is open: the second once the patch line stands.
    // Stays: either set is written in its own way, and each case counts what it wrote (d).
    fn add_label(&mut self, label: HeldLabel)
        requires { LabelsRoom self.old.progress label }
        ensures { self.new ≡ label_to (patched_of self.old.progress) label self.old }
    {
        match self.progress.second {
            Some(n) => {
                put_second(&mut self.held, n, label);
                self.progress.second = Some(n + 1);
            }
            None => {
                put_label(&mut self.held, label);
                self.progress.labels += 1;
                self.progress.around = labels::widen(self.progress.around, label.cell);
            }
        }
    }

    // A line that passed its checks is added.
    // Stays: each kind of line is written in its own way and has its own count; a closure for each kind would be no shorter (d).
    #[tactic(auto, unfolding(crate::specs::State::adds_as))]
    pub fn add_line(&mut self, line: ListedLine)
        requires { Addable self.old.progress self.old.held line.held }
        ensures { self.new ≡ adds line.held self.old }
    {
        let v = line.held.values;
        let p = self.progress;
        match line.kind() {
            Kind::Opening(opening) => {
                self.progress.settings = with_opening(p.settings, opening, v);
            }
            Kind::Corner => {
                put_corner(&mut self.held, p.corners, v);
                self.progress.corners += 1;
            }
            Kind::Label => self.add_label(frame_number::label_of(v)),
            Kind::Patch => {
                self.progress.second = Some(p.second.unwrap_or(0));
            }
            Kind::Shade => put_shade(&mut self.held, frame_number::shade_of(v)),
            Kind::As(role) => {
                self.progress.role = role;
            }
            Kind::Pass(pass) => {
                put_pass(&mut self.held, p.passes, words_of(p.role, pass, v));
                self.progress.passes += 1;
            }
        }
    }
}
