// A frame read from a text (01, "Frame and result"): lines from the top, each checked in order 1 to 6, then 10, and then added to what
// the lines before it said; after the last the labels of two patches are joined (02, 3/14). Until the whole frame is accepted it is held in arrays of
// the reader's own, so that a refused one has written nothing.

#![tactic(auto)]

ghost use Rattle.std.specs.Prelude.{◌≡◌, ◌≤◌, ◌*◌, [], length, take};
ghost use Rattle.sizes.specs.Sizes.{corner_limit, pass_size, all_pass_words};
ghost use Rattle.frame_line.specs.Lines.{read_line};
ghost use Rattle.frame_line.specs.Held.{held_read};
ghost use Rattle.line_form.specs.Lines.{lines_of};
ghost use Rattle.join_sheet.specs.Held.{held_labels};
ghost use Rattle.frame_check.specs.Checks.{nothing_held};
ghost use Rattle.frame_state.specs.State.{patched_of, second_of, nothing_said, state};
ghost use Rattle.arguments.specs.Front.{over};
ghost use Rattle.frame.specs.Frame.{read_lines};
ghost use Rattle.frame.specs.ReadFrame.{frame_out, left, too_short, leaves, read_into};
ghost use Rattle.frame.specs.Said.{about_no_line, frame_said, frame_due};
ghost use Rattle.frame.specs.Reading.{joined_to, Room, went, held_step, Finishable, finished, finish_on, ReadAs, buffers, LongEnough, buffers_in, SameBuffers, taken};

use arguments::Settings;
use frame_state::Reading;
use labels::KeptBox;
use refusal::Refusal;
use sizes::{ALL_PASS_WORDS, BYTES, CORNERS, PASS_WORDS, PLACES};

// What an accepted frame says besides what is written to the buffers: cell size, axes and band, how many corners and passes there are, and the label
// box of the sheet that is written (02, 5/14).
#[derive(Clone, Copy)]
pub struct FrameHead {
    pub settings: Settings,
    pub corners: usize,
    pub passes: usize,
    pub around: KeptBox,
}

// A refusal with its line, 0 where it is about no line.
#[derive(Clone, Copy)]
pub struct FrameRefusal {
    pub refusal: Refusal,
    pub line: usize,
}

impl From<Refusal> for FrameRefusal {
    // A refusal that is about no line.
    ghost from_gives = { λ refusal e. e ≡ about_no_line refusal };

    fn from(refusal: Refusal) -> FrameRefusal {
        FrameRefusal { refusal, line: 0 }
    }
}

// One line is read and checked in its turn, and added if it is fine.
#[tactic(auto, using(crate::proofs::Turn::step_addable), unfolding(crate::specs::Reading::held_step))]
fn step_line(reading: &mut Reading, line: &[u8]) -> Result<(), Refusal>
    requires { Room reading.old }
    ensures { went result reading.new ≡ held_step (held_read (read_line line.now)) reading.old }
{
    let found = frame_line::read_line(line).ok_or(Refusal::Malformed)?;
    let stage = frame_line::turn_at(reading.progress.stage, found.held.row).ok_or(
        Refusal::Malformed,
    )?;
    reading.check_line(found)?;
    reading.add_line(found);
    reading.come_to(stage);
    Ok(())
}

// After the last line: the second set is joined to the first where the patch line stands, and the box is widened to the union. A refusal is reported
// at the patch line, which stands behind the first four lines, the corners and the labels of the first set.
fn finish(reading: &mut Reading) -> Result<(), FrameRefusal>
    requires { Finishable reading.old }
    ensures sheet { finished reading.new.held.sheet result
        ≡ finish_on (patched_of reading.old.progress) reading.old.progress reading.old.held.sheet
        (held_labels (take (second_of reading.old.progress) reading.old.held.second)) }
    ensures others { reading.new ≡ joined_to reading.old reading.new.held.sheet }
{
    let p = reading.progress;
    let Some(n) = p.second else {
        return Ok(());
    };
    let held = &mut reading.held;
    let second = &held.second[..n];
    let around = &mut reading.progress.around;
    join_sheet::join_sets(&mut held.sheet, around, &held.used, second).map_err(|refusal| {
        FrameRefusal {
            refusal,
            line: 5 + p.corners + p.labels,
        }
    })
}

// All lines, from the top. A line that is missing counts as the one after the last.
fn read_lines(text: &[u8], reading: &mut Reading) -> Result<(), FrameRefusal>
    requires { reading.old ≡ state nothing_said nothing_held }
    ensures { ReadAs (read_lines 1 0 [] (lines_of text.now)) result reading.new }
{
    let mut n = 1usize;
    // Stays: the number is read behind the loop too, for a line that is missing; a `zip` with the numbers would count the lines once more there (d).
    for line in text.split_inclusive(|b| *b == b'\n') {
        step_line(reading, line).map_err(|refusal| FrameRefusal { refusal, line: n })?;
        n += 1;
    }
    if !frame_line::may_end(reading.progress.stage) {
        return Err(FrameRefusal {
            refusal: Refusal::Malformed,
            line: n,
        });
    }
    finish(reading)
}

// Entries are copied to the front of a buffer.
fn copy_front<T: Copy>(from: &[T], to: &mut [T])
    requires { length from.now ≤ length to.old }
    ensures { to.new ≡ over from.now to.old }
{
    to[..from.len()].copy_from_slice(from);
}

// The lent buffers.
#[derive(Drop)]
struct Buffers<'a> {
    xs: &'a mut [f32],
    ys: &'a mut [f32],
    pitches: &'a mut [f32],
    shades: &'a mut [u8],
    sheet: &'a mut [u16],
    passes: &'a mut [u32],
}

impl Buffers<'_> {
    // 7: whether one of them is too short.
    fn are_short(&self) -> bool
        ensures { result ≡ too_short (buffers_in self.now) }
    {
        self.xs.len() < CORNERS
            || self.ys.len() < CORNERS
            || self.pitches.len() < CORNERS
            || self.shades.len() < CORNERS
            || self.sheet.len() < PLACES
            || self.passes.len() < ALL_PASS_WORDS
    }

    // What is held is copied to them.
    fn take(&mut self, reading: &Reading)
        requires long { LongEnough (buffers_in self.old) }
        requires corners_few { reading.now.progress.corners ≤ corner_limit }
        requires passes_few { pass_size * reading.now.progress.passes ≤ all_pass_words }
        ensures same { SameBuffers self.old self.new }
        ensures copied { buffers_in self.new ≡ taken reading.now.progress reading.now.held (buffers_in self.old) }
    {
        let Reading { progress: p, held } = reading;
        copy_front(&held.xs[..p.corners], self.xs);
        copy_front(&held.ys[..p.corners], self.ys);
        copy_front(&held.pitches[..p.corners], self.pitches);
        copy_front(&held.shades[..p.corners], self.shades);
        copy_front(&held.sheet, self.sheet);
        copy_front(&held.passes[..PASS_WORDS * p.passes], self.passes);
    }
}

// A text that is not too long, with buffers that are long enough.
fn read_text(text: &[u8], buffers: &mut Buffers) -> Result<FrameHead, FrameRefusal>
    requires { LongEnough (buffers_in buffers.old) }
    ensures same { SameBuffers buffers.old buffers.new }
    ensures after { left result (buffers_in buffers.new)
        ≡ leaves (read_lines 1 0 [] (lines_of text.now)) (buffers_in buffers.old) }
{
    let mut reading = Reading::new();
    read_lines(text, &mut reading)?;
    buffers.take(&reading);
    let p = reading.progress;
    Ok(FrameHead {
        settings: p.settings,
        corners: p.corners,
        passes: p.passes,
        around: KeptBox::of(p.around),
    })
}

// Reads a frame. An accepted one is written to the buffers: its corners to the front of the first three, their shades to the front of the fourth,
// a byte each (0 none, 1 kind 0, 2 kind 1), the sheet of its given labels, joined where there are two sets, to the first 16,384 places of the
// fifth, and its passes, seven words each, to the front of the last; the rest of them stays. A refused one writes nothing, and the answer has the
// refusal and the line, 0 where it is about no line. `said` is the same answer in 01's number with the line, or values.
// Stays: each buffer is lent by itself, as the C interface lends it (a).
#[tactic(auto, using(crate::proofs::Leaving::long_enough, crate::proofs::Leaving::due_said), unfolding(crate::specs::ReadFrame::read_into, crate::specs::Frame::read_frame))]
pub fn read_frame(
    text: &[u8],
    xs: &mut [f32],
    ys: &mut [f32],
    pitches: &mut [f32],
    shades: &mut [u8],
    sheet: &mut [u16],
    passes: &mut [u32],
) -> Result<FrameHead, FrameRefusal>
    ensures passes_after { frame_out result xs.new ys.new pitches.new shades.new sheet.new passes.new
        ≡ read_into text.now
        (buffers xs.old ys.old pitches.old shades.old sheet.old passes.old) }
    ensures said { frame_said result ≡ frame_due text.now
        (buffers xs.old ys.old pitches.old shades.old sheet.old passes.old) }
{
    let mut buffers = Buffers {
        xs,
        ys,
        pitches,
        shades,
        sheet,
        passes,
    };
    if buffers.are_short() {
        return Err(FrameRefusal::from(Refusal::BufferTooShort));
    }
    if BYTES < text.len() {
        return Err(FrameRefusal::from(Refusal::OverLimit));
    }
    read_text(text, &mut buffers)
}
