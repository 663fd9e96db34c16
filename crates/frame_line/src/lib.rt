// The lines of a frame (01, "Frame and result"), by one table: a kind of line is a row, with where it may stand, what its numbers are, and its
// form.

#![tactic(auto)]

ghost use Rattle.std.specs.Prelude.{◌≡◌, ◌<◌};
ghost use Rattle.std.specs.Option.{option_map};
ghost use Rattle.line_form.specs.Forms.{second_is};
ghost use Rattle.frame_line.specs.Table.{row_count, kind_at, form_at, letters_at, turn_by, turn_at, may_end};
ghost use Rattle.frame_line.specs.Lines.{read_row, read_line};
ghost use Rattle.frame_line.specs.Held.{held_read};

use binary32::ranges::Quantity;
use line_form::read::fit_line;
use refusal::Refusal;
use roles::Role;
use sheet::Cell;

// A line of the opening: those that must stand.
#[derive(Clone, Copy, Debug, PartialEq, Eq)]
pub enum OpeningKind {
    Frame,
    CellSize,
    Axes,
    Band,
}

// A pass line: bare, or with its own numbers.
#[derive(Clone, Copy, Debug, PartialEq, Eq)]
pub enum PassKind {
    BareGrow,
    Grow,
    BareFill,
    Fill,
    Local,
}

// A kind of line, by the part of a frame that it belongs to.
#[derive(Clone, Copy, Debug, PartialEq, Eq)]
pub enum Kind {
    Opening(OpeningKind),
    Corner,
    Label,
    Patch,
    Shade,
    As(Role),
    Pass(PassKind),
}

// What a number of a line is.
#[derive(Clone, Copy, Debug, PartialEq, Eq)]
pub enum Sort {
    // a float in the range of a quantity, else refusal 3
    Float(Quantity),
    // the refusal for an integer that is not from the second number to the third, both as they are held
    Whole(Refusal, u32, u32),
    // a corner's number: one of those given, else refusal 5
    Corner,
}

// A line: its row, and its numbers as they are held (crate line_form).
#[derive(Clone, Copy, Debug, PartialEq, Eq)]
pub struct HeldLine {
    // Stays: the definitions tell a line by its row of the table, and its turn, its kind and its letters are asked by it (d).
    pub row: usize,
    pub values: [u32; 5],
}

// A line whose row is one of the table.
#[derive(Clone, Copy, Debug, PartialEq, Eq)]
pub struct ListedLine {
    pub held: HeldLine,
    pub ghost listed: { held.row < row_count },
}

// A label's corner and cell. A corner's number that is not from 0 to OFFSET is held as OFFSET, and the cell's numbers are cut to
// that size: no larger ones are given or on the sheet.
#[derive(Clone, Copy)]
pub struct HeldLabel {
    pub corner: usize,
    pub cell: Cell,
}

// A shade's corner and kind, both held as a label's corner is.
#[derive(Clone, Copy, Debug, PartialEq, Eq)]
pub struct HeldShade {
    pub corner: usize,
    // Stays: a number that is no kind is held too, until it is refused (d).
    pub kind: u32,
}

// How many stages there are: 0 to 3, frame, cell, axes and band must come; 4 corners; 5 labels; 6 labels of a second set; 7 shades; 8 passes; 9 an as
// line stands, and a pass must come.
const STAGES: usize = 10;

// The stage behind an as line.
const AS_STANDS: usize = 9;

// How many rows there are.
const ROWS: usize = 16;

// A row of the table: the kind of line, the stage behind the line for each stage before it (. where it may not come), a letter for each of its numbers,
// and its form.
// Stays: a letter a number and a digit a stage, as the definition's table has them; as enums a row has five Options of a Sort and ten of a stage (d).
#[derive(Clone, Copy)]
struct Row {
    kind: Kind,
    turns: [u8; STAGES],
    letters: [u8; 5],
    form: &'static [u8],
}

static TABLE: [Row; ROWS] = [
    Row {
        kind: Kind::Opening(OpeningKind::Frame),
        turns: *b"1.........",
        letters: *b".....",
        form: b"(frame 1)\n",
    },
    Row {
        kind: Kind::Opening(OpeningKind::CellSize),
        turns: *b".2........",
        letters: *b"c....",
        form: b"(cell %)\n",
    },
    Row {
        kind: Kind::Opening(OpeningKind::Axes),
        turns: *b"..3.......",
        letters: *b"aaaa.",
        form: b"(axes (% %) (% %))\n",
    },
    Row {
        kind: Kind::Opening(OpeningKind::Band),
        turns: *b"...4......",
        letters: *b"b....",
        form: b"(band %)\n",
    },
    Row {
        kind: Kind::Corner,
        turns: *b"....4.....",
        letters: *b"xxp..",
        form: b"(corner (% %) %)\n",
    },
    Row {
        kind: Kind::Label,
        turns: *b"....556...",
        letters: *b"nii..",
        form: b"(label # (# #))\n",
    },
    Row {
        kind: Kind::Pass(PassKind::BareGrow),
        turns: *b"....888888",
        letters: *b".....",
        form: b"(grow)\n",
    },
    Row {
        kind: Kind::Pass(PassKind::Grow),
        turns: *b"....888888",
        letters: *b"mfm..",
        form: b"(grow % % %)\n",
    },
    Row {
        kind: Kind::Pass(PassKind::BareFill),
        turns: *b"....888888",
        letters: *b".....",
        form: b"(fill)\n",
    },
    Row {
        kind: Kind::Pass(PassKind::Fill),
        turns: *b"....888888",
        letters: *b"mfr..",
        form: b"(fill % % #)\n",
    },
    Row {
        kind: Kind::Pass(PassKind::Local),
        turns: *b"....888888",
        letters: *b"mfrmd",
        form: b"(local % % # % #)\n",
    },
    Row {
        kind: Kind::Shade,
        turns: *b"....7777..",
        letters: *b"nk...",
        form: b"(shade # #)\n",
    },
    Row {
        kind: Kind::Patch,
        turns: *b"....66....",
        letters: *b".....",
        form: b"(patch)\n",
    },
    Row {
        kind: Kind::As(Role::Plant),
        turns: *b"....99999.",
        letters: *b".....",
        form: b"(as plant)\n",
    },
    Row {
        kind: Kind::As(Role::Depot),
        turns: *b"....99999.",
        letters: *b".....",
        form: b"(as depot)\n",
    },
    Row {
        kind: Kind::As(Role::Dealer),
        turns: *b"....99999.",
        letters: *b".....",
        form: b"(as dealer)\n",
    },
];

impl ListedLine {
    // Its kind.
    pub fn kind(&self) -> Kind
        ensures { result ≡ kind_at self.now.held.row }
    {
        TABLE[self.held.row].kind
    }

    // The letters of its numbers.
    pub fn letters(&self) -> [u8; 5]
        ensures { result ≡ letters_at self.now.held.row }
    {
        TABLE[self.held.row].letters
    }
}

// The form of a row.
fn form_of(row: usize) -> &'static [u8]
    requires { row < row_count }
    ensures { result.now ≡ form_at row }
{
    TABLE[row].form
}

// Whether the second byte of a line is this one.
fn has_second(b: u8, line: &[u8]) -> bool
    ensures { result ≡ second_is b line.now }
{
    matches!(line, [_, second, ..] if *second == b)
}

// The line of a text by the form of a row, if it has that. A form whose second byte is another is not tried.
// Stays: the line that is found has the number of its row, as `HeldLine` has it (d).
fn read_row(row: usize, line: &[u8]) -> Option<ListedLine>
    requires { row < row_count }
    ensures { option_map (λ l. l.held) result ≡ held_read (read_row row line.now) }
{
    let form = form_of(row);
    if !has_second(form[1], line) {
        return None;
    }
    let values = fit_line(form, line)?;
    Some(ListedLine {
        held: HeldLine { row, values },
    })
}

// The line of a text, by the first row whose form it has.
pub fn read_line(line: &[u8]) -> Option<ListedLine>
    ensures { option_map (λ l. l.held) result ≡ held_read (read_line line.now) }
{
    (0..ROWS).find_map(|row| read_row(row, line))
}

// Where a byte of the table leads: a digit is the stage behind the line.
fn turn_by(to: u8) -> Option<usize>
    ensures { result ≡ turn_by to }
{
    to.checked_sub(b'0').map(usize::from)
}

// The stage that a line of this row leads to from a stage; it may not come there where there is none.
pub fn turn_at(stage: usize, row: usize) -> Option<usize>
    ensures { result ≡ turn_at stage row }
{
    turn_by(*TABLE.get(row)?.turns.get(stage)?)
}

// Whether a frame may end at a stage: once the first four lines stand, and not right behind an as line.
#[tactic(auto, unfolding(crate::specs::Table::may_end))]
pub fn may_end(stage: usize) -> bool
    ensures { result ≡ may_end stage }
{
    (4..AS_STANDS).contains(&stage)
}
