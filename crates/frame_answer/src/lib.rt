// A frame in, a result or one refusal out: a frame read and its passes run, and the text of the answer.

#![tactic(auto)]

ghost use Rattle.std.specs.Prelude.{◌≡◌, ◌<◌, ◌≤◌, length, []};
ghost use Rattle.frame_answer.specs.Room.{FrameRoom, PassRoom};
ghost use Rattle.frame_answer.specs.Answer.{Recovers, lent_as, held_lines, held_piece, FewPasses, CanSay, WrotePiece, Moves};
ghost use Rattle.frame_answer.specs.Fact.{can_say_prop};
ghost use Rattle.report_line.specs.Result.{line_count};
ghost use Rattle.report_line.specs.Sizes.{line_room};

use frame::FrameRefusal;
use report::PieceEnd;
use report_line::line_sizes::LINES;

// A frame whose passes have run: how many corners and passes it has.
// Stays: an answer is said of these two counts alone; `FrameHead` would ask whoever says one for settings that no line of it shows (d).
#[derive(Clone, Copy)]
pub struct Recovered {
    pub corners: usize,
    pub passes: usize,
}

// ---- a frame

// Reads a frame and runs its passes in order on one sheet: then the sheet and the words of the outcomes say what the result has to say.
// A refused frame changes none of the buffers.
// Stays: the buffers are lent on to `read_frame` and to the passes, whose public calls lend each list by itself (d).
pub fn recover_frame(
    text: &[u8],
    xs: &mut [f32],
    ys: &mut [f32],
    pitches: &mut [f32],
    shades: &mut [u8],
    sheet: &mut [u16],
    passes: &mut [u32],
    queue: &mut [u16],
    attached: &mut [u16],
    words: &mut [u32],
) -> Result<Recovered, FrameRefusal>
    requires frame_room { FrameRoom xs.old ys.old pitches.old shades.old sheet.old passes.old }
    requires pass_room { PassRoom queue.old attached.old words.old }
    ensures { Recovers text.now (lent_as xs.old ys.old pitches.old shades.old
        sheet.old passes.old queue.old attached.old words.old)
        (lent_as xs.new ys.new pitches.new shades.new sheet.new passes.new
        queue.new attached.new words.new) result }
{
    let head = frame::read_frame(text, xs, ys, pitches, shades, sheet, passes)?;
    frame_passes::run_frame(
        passes, xs, ys, pitches, shades, sheet, queue, attached, head, words,
    );
    Ok(Recovered {
        corners: head.corners,
        passes: head.passes,
    })
}

// ---- the answer

// How many lines the answer has, empty ones included.
#[tactic(auto, unfolding(crate::specs::Answer::held_lines))]
pub fn answer_lines(answer: Result<Recovered, FrameRefusal>) -> usize
    requires { FewPasses answer }
    ensures { result ≡ held_lines answer }
{
    match answer {
        Ok(recovered) => recovered.passes + LINES,
        Err(_) => 1,
    }
}

// An answer that can be said: a frame whose passes have run or its refusal, the words of the outcomes, and the sheet.
#[derive(Clone, Copy)]
pub struct Answer<'a> {
    pub recovered: Result<Recovered, FrameRefusal>,
    pub words: &'a [u32],
    pub sheet: &'a [u16],
    pub ghost can_say: { CanSay recovered words.now sheet.now } by { can_say_prop recovered words.now sheet.now },
}

impl Answer<'_> {
    // Writes its piece from a line on to the front of the output buffer, and leaves the rest of it as it was: whole lines, as long as 128 bytes
    // are left before each. It tells how many bytes the piece has, and which line comes after it.
    pub fn piece(&self, from: usize, out: &mut [u8]) -> PieceEnd
        requires from_bound { from < held_lines self.now.recovered }
        requires line_room_in_bounds { line_room ≤ length out.old }
        ensures wrote_piece { WrotePiece (held_piece self.now.recovered self.now.words.now
            self.now.sheet.now from (length out.old)) out.old out.new result }
        ensures moves { Moves from (length out.old) result }
    {
        match self.recovered {
            Ok(Recovered { corners, passes }) => {
                report::write_result_piece(
                    corners, passes, self.words, self.sheet, from, out,
                ).unwrap()
            }
            Err(FrameRefusal { refusal, line }) => PieceEnd {
                at: report_line::line::write_refused(refusal, line, out),
                next: 1,
            },
        }
    }
}
