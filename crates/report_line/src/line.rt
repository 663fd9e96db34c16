// The lines of a result but those of the passes (crate `pass_line`), each written to the front of a part of the output buffer, the unfilled rest of it: each
// writer answers how many bytes it wrote, and leaves what follows them as it was.
ghost use Rattle.std.specs.Prelude.{◌≡◌, ◌≤◌, pos, nat_abs, length};
ghost use Rattle.line_form.specs.Written.{unheld_whole, Wrote};
ghost use Rattle.report_line.specs.Sizes.{line_room};
ghost use Rattle.report_line.specs.Refused.{refused_text};
ghost use Rattle.report_line.specs.Result.{heading, cell_line, sheet_line};
ghost use Rattle.report_line.specs.Written.{largest_held, CornerAsked, cell_text, PlaceAsked, mark_line, MarkAsked, LineAsked};

use super::line_sizes::FIRST_AMBIGUOUS;
use line_form::OFFSET;
use line_form::write::write_form;
use refusal::Refusal;
use sheet::Cell;
use sizes::PLACES;

// OFFSET as i and j are added to it.
const OFFSET_SIGNED: i32 = OFFSET as i32;

// A count as a form takes it: 1,000,000 more, so that 32 bits hold it.
pub fn held(n: usize) -> u32
    requires { n ≤ largest_held }
    ensures { unheld_whole result ≡ pos n }
{
    OFFSET + n as u32
}

// A cell's i or j as a form takes it.
fn held_number(z: i32) -> u32
    requires { nat_abs z ≤ 64 }
    ensures { unheld_whole result ≡ z }
{
    (z + OFFSET_SIGNED) as u32
}

// A refusal's line: its number and the refused line.
pub fn write_refused(refusal: Refusal, line: usize, out: &mut [u8]) -> usize
    requires line_bound { line ≤ 10000000 }
    requires line_room_in_bounds { line_room ≤ length out.old }
    ensures { Wrote (refused_text refusal line) out.old out.new result }
{
    let number = refusal::number(refusal);
    let words = [held(number as usize), held(line)];
    write_form(b"(refused # #)\n", &words, out)
}

// The first line.
pub fn write_heading(out: &mut [u8]) -> usize
    requires { length heading ≤ length out.old }
    ensures { Wrote heading out.old out.new result }
{
    write_form(b"(result 1)\n", &[], out)
}

// A cell line: the cell and its corner.
fn write_cell(c: Cell, corner: usize, out: &mut [u8]) -> usize
    requires { CornerAsked c corner out.old }
    ensures { Wrote (cell_text c corner) out.old out.new result }
{
    let words = [held_number(c.i), held_number(c.j), held(corner)];
    write_form(b"(cell (# #) #)\n", &words, out)
}

// The cell line of a place; nothing where it has none.
fn write_cell_line(sheet: &[u16], place: usize, out: &mut [u8]) -> usize
    requires { PlaceAsked sheet.now place (cell_line sheet.now place) out.old }
    ensures { Wrote (cell_line sheet.now place) out.old out.new result }
{
    match sheet::label_of(sheet[place]) {
        None => 0,
        Some(k) => write_cell(sheet::cell_of(place), k, out),
    }
}

// The line of a place's mark, by its form; nothing where it has none.
fn write_mark_line(marked: bool, form: &[u8], place: usize, out: &mut [u8]) -> usize
    requires { MarkAsked marked form.now place out.old }
    ensures { Wrote (mark_line marked form.now place) out.old out.new result }
{
    if !marked {
        return 0;
    }
    let c = sheet::cell_of(place);
    let words = [held_number(c.i), held_number(c.j)];
    write_form(form, &words, out)
}

// A line of the sheet: of cells first, then holes, then ambiguous cells.
// Stays: the definition `sheet_line` numbers the lines so; an enum would be made of the number by these two tests, and matched once (d).
pub fn write_sheet_line(sheet: &[u16], k: usize, out: &mut [u8]) -> usize
    requires { LineAsked sheet.now k (sheet_line sheet.now k) out.old }
    ensures { Wrote (sheet_line sheet.now k) out.old out.new result }
{
    if k < PLACES {
        return write_cell_line(sheet, k, out);
    }
    if k < FIRST_AMBIGUOUS {
        let place = k - PLACES;
        return write_mark_line(sheet::is_hole(sheet[place]), b"(hole (# #))\n", place, out);
    }
    let place = k - FIRST_AMBIGUOUS;
    write_mark_line(
        sheet::is_ambiguous(sheet[place]),
        b"(ambiguous (# #))\n",
        place,
        out,
    )
}
