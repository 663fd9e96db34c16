// The lines of a result by their numbers: 0 is the heading, then one line for each pass (local's two count as one), then one for each role, then
// 16,384 lines each of cells, holes and ambiguous cells, most of them empty.
ghost use Rattle.std.specs.Prelude.{◌≡◌, ◌<◌, ltb, length, is_none};
ghost use Rattle.line_form.specs.Written.{Wrote};
ghost use Rattle.role_counts.specs.RoleCounts.{sum_for, AtMost};
ghost use Rattle.report_line.specs.Sizes.{largest_sum};
ghost use Rattle.report_line.specs.Result.{pass_line, line_count};
ghost use Rattle.report_words.specs.Outcomes.{stats_at, outcomes_in};
ghost use Rattle.report.specs.Asked.{AllLent, PassAsked, LineAsked, AllAsked, SomeAsked, IsLine};
ghost use Rattle.report.specs.Asked.{WrotePiece, BlankLines, Skipped, line_at, text_from, piece_from};

use pass_line::write_stats;
use report_line::line::{write_heading, write_sheet_line};
use report_line::line_sizes::{LINE_ROOM, LINES, ROLE_LINES, SHEET_LINES};
use report_line::role::{role_length, write_role};
use report_words::read::Outcome;
use role_counts::RoleCounts;
use roles::Role;
use sizes::PLACES;

// A line of a result: the heading, the pass line of an outcome, that of a role, or a line of the sheet. A pass and a line of the sheet have their
// numbers among their like.
#[derive(Clone, Copy)]
enum Line {
    Heading,
    Pass(usize),
    OfRole(Role),
    OfSheet(usize),
}

// The length of the pass line of an outcome, whatever its words are: what its writer writes of an outcome whose line is as long.
fn pass_length(outcome: &Outcome) -> usize
    ensures { result ≡ length (pass_line (stats_at outcome.now.words.now outcome.now.k)) }
{
    write_stats(outcome.stats_like(), &mut [0; LINE_ROOM])
}

// Writes the pass line of an outcome to the front of a part.
fn write_pass(outcome: &Outcome, out: &mut [u8]) -> usize
    requires { PassAsked outcome.now.words.now outcome.now.k out.old }
    ensures { Wrote (pass_line (stats_at outcome.now.words.now outcome.now.k)) out.old out.new result }
{
    write_stats(outcome.stats_at(), out)
}

// How far a piece goes: how many bytes were written, and which line comes next.
#[derive(Clone, Copy)]
pub struct PieceEnd {
    pub at: usize,
    pub next: usize,
}

// What the lines are written from: how many passes there are, their outcomes as words, and the sheet.
#[derive(Clone, Copy)]
pub struct Source<'a> {
    pub passes: usize,
    pub words: &'a [u32],
    pub sheet: &'a [u16],
    pub ghost all: { AllLent passes words.now sheet.now },
}

impl Source<'_> {
    // Which line line k is: whether it is one of the sheet, as nearly all are, is asked first.
    fn line(&self, k: usize) -> Line
        ensures { IsLine self.now.passes k result }
    {
        if let Some(m) = k.checked_sub(1 + self.passes + ROLE_LINES) {
            return Line::OfSheet(m);
        }
        match k.checked_sub(1) {
            None => Line::Heading,
            Some(m) if m < self.passes => Line::Pass(m),
            Some(m) => Line::OfRole(roles::numbered((m - self.passes) as u32)),
        }
    }

    // The sums of a role's counts: those of the passes that it ran, whatever their words are.
    fn sum_for(&self, role: Role) -> RoleCounts
        ensures value { result ≡ sum_for role (outcomes_in self.now.passes self.now.words.now) }
        ensures few { AtMost largest_sum result }
    {
        let words = self.words;
        let mut sum = RoleCounts::default();
        // Stays: an outcome is words at its place, so that it has only its number, and one of another role adds nothing (d).
        for k in 0..self.passes {
            let outcome = Outcome { words, k };
            if roles::number(outcome.role_at()) == roles::number(role) {
                sum = sum.plus(outcome.role_counts_at());
            }
        }
        sum
    }

    // The length of line k: what its writer writes.
    fn line_length(&self, k: usize) -> usize
        requires { k < line_count self.now.passes }
        ensures { result ≡ length (line_at self.now.passes self.now.words.now self.now.sheet.now k) }
    {
        let words = self.words;
        let mut line = [0u8; LINE_ROOM];
        match self.line(k) {
            Line::Heading => write_heading(&mut line),
            Line::Pass(k) => pass_length(&Outcome { words, k }),
            Line::OfRole(role) => role_length(role, self.sum_for(role)),
            Line::OfSheet(k) => write_sheet_line(self.sheet, k, &mut line),
        }
    }

    // What is left of a room behind the whole text; nothing where the room is shorter.
    fn room_left(&self, room: usize) -> Option<usize>
        ensures { is_none result ≡ ltb room (length (text_from self.now.passes self.now.words.now self.now.sheet.now 0)) }
    {
        (0..self.passes + LINES).try_fold(
            room,
            |left, k|
                requires { k < line_count self.now.passes }
            { left.checked_sub(self.line_length(k)) },
        )
    }

    // Whether a buffer is shorter than the whole text.
    pub fn text_short(&self, room: usize) -> bool
        ensures { result ≡ ltb room (length (text_from self.now.passes self.now.words.now self.now.sheet.now 0)) }
    {
        self.room_left(room).is_none()
    }

    // Writes line k to the front of a part.
    fn write_line(&self, k: usize, out: &mut [u8]) -> usize
        requires { LineAsked self.now.passes self.now.words.now self.now.sheet.now k out.old }
        ensures { Wrote (line_at self.now.passes self.now.words.now self.now.sheet.now k) out.old out.new result }
    {
        let words = self.words;
        match self.line(k) {
            Line::Heading => write_heading(out),
            Line::Pass(k) => write_pass(&Outcome { words, k }, out),
            Line::OfRole(role) => write_role(role, self.sum_for(role), out),
            Line::OfSheet(k) => write_sheet_line(self.sheet, k, out),
        }
    }

    // Writes the whole text, line by line, each into the unfilled rest of the buffer.
    pub fn write_all(&self, out: &mut [u8]) -> usize
        requires { AllAsked self.now.passes self.now.words.now self.now.sheet.now out.old }
        ensures { Wrote (text_from self.now.passes self.now.words.now self.now.sheet.now 0) out.old out.new result }
    {
        let mut at = 0usize;
        // Stays: a line has only its number, and each is written behind the one before it (d).
        for k in 0..self.passes + LINES {
            at += self.write_line(k, &mut out[at..]);
        }
        at
    }

    // How many lines from line k on are of places that hold nothing, as far as a row of the sheet goes.
    fn blank_lines(&self, k: usize) -> usize
        ensures { BlankLines self.now.passes self.now.sheet.now k result }
    {
        match self.line(k) {
            Line::Heading | Line::Pass(_) | Line::OfRole(_) => 0,
            Line::OfSheet(m) => sheet::blank_places(self.sheet, m % PLACES),
        }
    }

    // The next line from line k on that may have something to say, or the last line: most lines are empty, and are passed over here row by row.
    fn next_filled(&self, k: usize) -> usize
        requires { k < line_count self.now.passes }
        ensures { Skipped self.now.passes self.now.words.now self.now.sheet.now k result }
    {
        let last = self.passes + ROLE_LINES + SHEET_LINES;
        let mut r = k;
        // Stays: the step is how many lines are passed over, and not 1 (d).
        while r < last {
            let n = self.blank_lines(r);
            if n == 0 {
                return r;
            }
            r += n.min(last - r);
        }
        r
    }

    // Writes whole lines from a line on, as long as 128 bytes are left before each.
    pub fn write_some(&self, from: usize, out: &mut [u8]) -> PieceEnd
        requires { SomeAsked self.now.passes self.now.words.now self.now.sheet.now from }
        ensures { WrotePiece (piece_from self.now.passes self.now.words.now self.now.sheet.now from (length out.old)) out.old out.new result }
    {
        let count = self.passes + LINES;
        let mut at = 0usize;
        let mut k = from;
        // Stays: empty lines are passed over by rows, so that the step is not 1 (d).
        while k < count {
            if out.len() - at < LINE_ROOM {
                return PieceEnd { at, next: k };
            }
            let filled = self.next_filled(k);
            at += self.write_line(filled, &mut out[at..]);
            k = filled + 1;
        }
        PieceEnd { at, next: k }
    }
}
