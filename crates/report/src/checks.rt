// What the calls check of what they are lent: refusals 7, 2, 3, 5 and 6, tried in this order, before anything is written.
ghost use Rattle.std.specs.Prelude.{◌≡◌, ◌*◌, ◌≤◌, ltb, length};
ghost use Rattle.sizes.specs.Sizes.{outcome_size};
ghost use Rattle.report_words.specs.Asked.{HasOutcome};
ghost use Rattle.report.specs.WriteResult.{text_lent, input_short, over_limit, wild, checked_text, checked_piece};
ghost use Rattle.report.specs.Asked.{AllLent, CornersAsked, corners_checked, rest_checked, text_from};

use super::lines::Source;
use refusal::Refusal;
use report_line::line_sizes::{LINE_ROOM, LINES};
use report_words::read::Outcome;
use sizes::{CORNERS, OUTCOME_WORDS, PASSES, PLACES};

// What a call is lent: how many corners and passes there are, the outcomes of the passes as words, and the sheet.
#[derive(Clone, Copy)]
pub struct Lent<'a> {
    pub corners: usize,
    pub passes: usize,
    pub words: &'a [u32],
    pub sheet: &'a [u16],
}

impl<'a> Lent<'a> {
    // What the lines are written from.
    // Stays: it holds once the test of 7 has passed, so that it is no fact of what is lent (d).
    pub fn source(&self) -> Source<'a>
        requires { AllLent self.now.passes self.now.words.now self.now.sheet.now }
        ensures passes { result.passes ≡ self.now.passes }
        ensures words { result.words.now ≡ self.now.words.now }
        ensures sheet { result.sheet.now ≡ self.now.sheet.now }
    {
        Source {
            passes: self.passes,
            words: self.words,
            sheet: self.sheet,
        }
    }

    // 7: whether the words or the sheet are not all there.
    #[tactic(auto, unfolding(crate::specs::WriteResult::input_short))]
    fn input_short(&self) -> bool
        ensures { result ≡ input_short (text_lent self.now.corners self.now.passes self.now.words.now self.now.sheet.now) }
    {
        self.words.len() / OUTCOME_WORDS < self.passes || self.sheet.len() < PLACES
    }

    // 2: whether there are over 16 outcomes or 1,024 corners.
    #[tactic(auto, unfolding(crate::specs::WriteResult::over_limit))]
    fn over_limit(&self) -> bool
        ensures { result ≡ over_limit (text_lent self.now.corners self.now.passes self.now.words.now self.now.sheet.now) }
    {
        PASSES < self.passes || CORNERS < self.corners
    }

    // 3: whether some outcome's words are not those that an outcome has.
    fn is_wild(&self) -> bool
        requires { outcome_size * self.now.passes ≤ length self.now.words.now }
        ensures { result ≡ wild (text_lent self.now.corners self.now.passes self.now.words.now self.now.sheet.now) }
    {
        let words = self.words;
        (0..self.passes).any(
            |k|
                requires { HasOutcome words.now k }
            { Outcome { words, k }.wild_outcome() },
        )
    }

    // 5 and 6: the corners that the sheet names.
    fn check_corners(&self) -> Result<(), Refusal>
        requires { CornersAsked self.now.corners self.now.sheet.now }
        ensures { result ≡ corners_checked self.now.corners self.now.sheet.now }
    {
        if arguments::unknown_corner(self.corners, self.sheet) {
            return Err(Refusal::UnknownCorner);
        }
        if arguments::doubled_corner(self.sheet) {
            return Err(Refusal::Duplicate);
        }
        Ok(())
    }

    // 7 of the whole text: whether a buffer is shorter than it.
    fn text_short(&self, room: usize) -> bool
        requires { AllLent self.now.passes self.now.words.now self.now.sheet.now }
        ensures { result ≡ ltb room (length (text_from self.now.passes self.now.words.now self.now.sheet.now 0)) }
    {
        self.source().text_short(room)
    }

    // 2, 3, 5 and 6, where the words and the sheet are all there: `outside` says whether the call asks for a line that there is not, which is 3 as well.
    fn check_rest(&self, outside: bool) -> Result<(), Refusal>
        requires { AllLent self.now.passes self.now.words.now self.now.sheet.now }
        ensures { result ≡ rest_checked (text_lent self.now.corners self.now.passes self.now.words.now self.now.sheet.now) outside }
    {
        if self.over_limit() {
            return Err(Refusal::OverLimit);
        }
        if self.is_wild() || outside {
            return Err(Refusal::OutOfRange);
        }
        self.check_corners()
    }

    // Whether a call that writes the whole text is refused, and why.
    pub fn check_text(&self, room: usize) -> Result<(), Refusal>
        ensures { result ≡ checked_text (text_lent self.now.corners self.now.passes self.now.words.now self.now.sheet.now) room }
    {
        if self.input_short() || self.text_short(room) {
            return Err(Refusal::BufferTooShort);
        }
        self.check_rest(false)
    }

    // Whether a call that writes a piece from a line on is refused, and why.
    pub fn check_piece(&self, from: usize, room: usize) -> Result<(), Refusal>
        ensures { result ≡ checked_piece (text_lent self.now.corners self.now.passes self.now.words.now self.now.sheet.now) from room }
    {
        if self.input_short() || room < LINE_ROOM {
            return Err(Refusal::BufferTooShort);
        }
        self.check_rest(self.passes + LINES < from)
    }
}
