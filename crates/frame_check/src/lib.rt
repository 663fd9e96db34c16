// The checks of a frame's line (01, the table of refusals): "each in order 1 to 6", and then 10 of 02, 6/14. That it is a line's turn is told before
// (crate frame_line).

#![tactic(auto)]

ghost use Rattle.std.specs.Prelude.{◌≡◌, ◌<◌, ◌≤◌, take, Ok, is_some, unwrap_or};
ghost use Rattle.std.specs.List.{list_any};
ghost use Rattle.sizes.specs.Sizes.{corner_limit};
ghost use Rattle.arguments.specs.Arguments.{refused_if};
ghost use Rattle.frame_check.specs.Checks.{nothing_held, over_limit, may_run, forbidden, has_place, label_twice, shade_twice, twice_held, checked_held, LabelFits, NumbersFine};

use frame_line::{HeldLabel, HeldShade, Kind, ListedLine, PassKind};
use join_sheet::SecondLabel;
use refusal::Refusal;
use roles::Role;
use sizes::{ALL_PASS_WORDS, CORNERS, PASSES, PLACES};

// Refuses what holds.
fn refuse_if(holds: bool, refusal: Refusal) -> Result<(), Refusal>
    ensures { result ≡ refused_if holds refusal (Ok tt) }
{
    if holds { Err(refusal) } else { Ok(()) }
}

// Whether a role may run a pass: a dealer the bare ones, a depot any grow and fill, the plant all.
#[tactic(auto, unfolding(crate::specs::Checks::may_run))]
fn may_run(role: Role, pass: PassKind) -> bool
    ensures { result ≡ may_run role pass }
{
    match role {
        Role::Plant => true,
        Role::Depot => !matches!(pass, PassKind::Local),
        Role::Dealer => matches!(pass, PassKind::BareGrow | PassKind::BareFill),
    }
}

// The arrays in which a frame's lines are held: positions, pitches and shades (0 where none stands) of the corners, the labels of the first set as a
// sheet, the corners that each set uses, the labels of the second set in the order of their lines, and the words of the passes.
// Stays: memory is fixed, and six of them are copied to buffers of their own, as the C interface lends them (a).
#[derive(Drop)]
pub struct Held {
    pub xs: [f32; CORNERS],
    pub ys: [f32; CORNERS],
    pub pitches: [f32; CORNERS],
    pub shades: [u8; CORNERS],
    pub sheet: [u16; PLACES],
    pub used: [bool; CORNERS],
    pub second_used: [bool; CORNERS],
    pub second: [SecondLabel; CORNERS],
    pub passes: [u32; ALL_PASS_WORDS],
}

impl Held {
    // Nothing held.
    pub fn new() -> Held
        ensures { result ≡ nothing_held }
    {
        Held {
            xs: [0.0; CORNERS],
            ys: [0.0; CORNERS],
            pitches: [0.0; CORNERS],
            shades: [0; CORNERS],
            sheet: [0; PLACES],
            used: [false; CORNERS],
            second_used: [false; CORNERS],
            second: [SecondLabel {
                corner: 0,
                place: 0,
            }; CORNERS],
            passes: [0; ALL_PASS_WORDS],
        }
    }
}

// What the lines before said that a line is checked against: the arrays that hold it, how many corners and passes there are, how many labels of
// the second set, None where no patch line stands, and the role that holds.
// Stays: `Progress` stands in a crate above this one; a check reads these three numbers of it with the role, and five of the arrays of `Held` (d).
#[derive(Clone, Copy)]
pub struct Said<'a> {
    pub held: &'a Held,
    pub corners: usize,
    pub passes: usize,
    pub labels: Option<usize>,
    pub role: Role,
    pub ghost few: { corners ≤ corner_limit },
    pub ghost labels_few: { unwrap_or labels 0 ≤ corner_limit },
}

impl<'a> Said<'a> {
    // 2: whether there are as many corners or passes already as there may be.
    #[tactic(auto, unfolding(crate::specs::Checks::over_limit))]
    fn over_limit(&self, kind: Kind) -> bool
        ensures { result ≡ over_limit self.now.corners self.now.passes kind }
    {
        match kind {
            Kind::Corner => CORNERS <= self.corners,
            Kind::Pass(_) => PASSES <= self.passes,
            Kind::Opening(_) | Kind::Label | Kind::Patch | Kind::Shade | Kind::As(_) => false,
        }
    }

    // Whether one of the first n labels of the second set has this place. It looks at all of them in any case, so that the compiler can take several
    // at once.
    fn place_taken(&self, n: usize, place: u16) -> bool
        requires { n ≤ corner_limit }
        ensures { result ≡ list_any (has_place place) (take n self.now.held.now.second) }
    {
        self.held.second[..n]
            .iter()
            .fold(false, |taken, l| taken | (l.place == place))
    }

    // 6 of a label: whether its cell or its corner has a label already in the set that is open, the second once the patch line stands.
    fn label_twice(&self, label: HeldLabel) -> bool
        requires { LabelFits label }
        ensures { result ≡ label_twice (is_some self.now.labels) self.now.held.now (unwrap_or self.now.labels 0) label }
    {
        let place = sheet::place_of(label.cell);
        let held = self.held;
        match self.labels {
            Some(n) => self.place_taken(n, place as u16) || held.second_used[label.corner],
            None => held.sheet[place] != 0 || held.used[label.corner],
        }
    }

    // 6 of a shade: whether its corner has a shade already.
    fn shade_twice(&self, shade: HeldShade) -> bool
        requires { shade.corner < corner_limit }
        ensures { result ≡ shade_twice self.now.held.now.shades shade }
    {
        self.held.shades[shade.corner] != 0
    }

    // 6: a label's, a shade's, and none of any other line.
    #[tactic(auto, unfolding(crate::specs::Checks::twice_of))]
    fn is_twice(&self, line: ListedLine) -> bool
        requires { NumbersFine self.now.corners line.held }
        ensures { result ≡ twice_held (is_some self.now.labels) self.now.held.now (unwrap_or self.now.labels 0) line.held }
    {
        let v = line.held.values;
        match line.kind() {
            Kind::Label => self.label_twice(frame_number::label_of(v)),
            Kind::Shade => self.shade_twice(frame_number::shade_of(v)),
            Kind::Opening(_) | Kind::Corner | Kind::Patch | Kind::As(_) | Kind::Pass(_) => false,
        }
    }

    // 10: whether it is a pass that the role may not run.
    #[tactic(auto, unfolding(crate::specs::Checks::forbidden))]
    fn is_forbidden(&self, kind: Kind) -> bool
        ensures { result ≡ forbidden self.now.role kind }
    {
        match kind {
            Kind::Pass(pass) => !may_run(self.role, pass),
            Kind::Opening(_)
            | Kind::Corner
            | Kind::Label
            | Kind::Patch
            | Kind::Shade
            | Kind::As(_) => false,
        }
    }

    // All checks of a line in its turn, in order.
    pub fn check_line(&self, line: ListedLine) -> Result<(), Refusal>
        ensures { result ≡ checked_held self.now.corners self.now.passes self.now.role (is_some self.now.labels) self.now.held.now (unwrap_or self.now.labels 0) line.held }
    {
        let found = frame_number::refusals_of(self.corners as u32, line);
        refuse_if(found.malformed, Refusal::Malformed)?;
        refuse_if(self.over_limit(line.kind()), Refusal::OverLimit)?;
        refuse_if(found.out_of_range, Refusal::OutOfRange)?;
        refuse_if(found.off_sheet, Refusal::OffSheet)?;
        refuse_if(found.unknown_corner, Refusal::UnknownCorner)?;
        refuse_if(self.is_twice(line), Refusal::Duplicate)?;
        refuse_if(self.is_forbidden(line.kind()), Refusal::NotPermitted)
    }
}
