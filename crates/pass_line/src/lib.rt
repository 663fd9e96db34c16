// The lines of a result's passes, each written to the front of a part of the output buffer, as those of the crate `report_line` are.

#![tactic(auto)]

ghost use Rattle.std.specs.Prelude.{◌≡◌, ◌≤◌, cond, length};
ghost use Rattle.line_form.specs.Written.{form_text, Wrote};
ghost use Rattle.report_line.specs.Result.{grow_line, fill_line, local_line, unmatched_line, local_lines, pass_line};
ghost use Rattle.report_line.specs.Written.{Few, CountsHeld, GrowAsked, FillAsked, LocalAsked, StatsAsked, LocalLineAsked, BareAsked, FullAsked, UnmatchedAsked, bare_local_text, full_local_text};

use line_form::write::write_form;
use passes::{Counts, FillStats, GrowStats, LocalStats, PassStats};
use report_line::line::held;

// Grow's four counts as a form takes them.
fn held_counts(c: Counts) -> [u32; 4]
    requires { Few c }
    ensures held { CountsHeld c result }
    ensures four { 4 ≡ length result }
{
    [
        held(c.attached),
        held(c.rejected_no_candidate),
        held(c.rejected_ambiguous),
        held(c.rejected_edge),
    ]
}

// Writes one form where the rim was reached, and another where it was not.
fn write_rim(rim: bool, yes: &[u8], no: &[u8], words: &[u32], out: &mut [u8]) -> usize
    requires { length (form_text (cond rim yes.now no.now) words.now) ≤ length out.old }
    ensures { Wrote (form_text (cond rim yes.now no.now) words.now) out.old out.new result }
{
    write_form(if rim { yes } else { no }, words, out)
}

// Grow's line: attached, no candidate, ambiguous, edge, rim.
pub fn write_grow(s: GrowStats, out: &mut [u8]) -> usize
    requires { GrowAsked s out.old }
    ensures { Wrote (grow_line s) out.old out.new result }
{
    let words = held_counts(s.counts);
    write_rim(
        s.rim,
        b"(grow # # # # yes)\n",
        b"(grow # # # # no)\n",
        &words,
        out,
    )
}

// Fill's line: added, rounds, rim.
pub fn write_fill(s: FillStats, out: &mut [u8]) -> usize
    requires { FillAsked s out.old }
    ensures { Wrote (fill_line s) out.old out.new result }
{
    let words = [held(s.added), held(s.iterations)];
    write_rim(s.rim, b"(fill # # yes)\n", b"(fill # # no)\n", &words, out)
}

// Local's line where no residual was recorded: grow's four, rounds, `none`, rim.
fn write_bare_local(s: LocalStats, out: &mut [u8]) -> usize
    requires { BareAsked s out.old }
    ensures { Wrote (bare_local_text s) out.old out.new result }
{
    let [a, b, c, d] = held_counts(s.counts);
    let words = [a, b, c, d, held(s.iterations)];
    write_rim(
        s.rim,
        b"(local # # # # # none yes)\n",
        b"(local # # # # # none no)\n",
        &words,
        out,
    )
}

// Local's line with a residual: grow's four, rounds, the residual's eight digits, rim.
fn write_full_local(s: LocalStats, residual: f32, out: &mut [u8]) -> usize
    requires { FullAsked s residual out.old }
    ensures { Wrote (full_local_text s residual) out.old out.new result }
{
    let [a, b, c, d] = held_counts(s.counts);
    let words = [a, b, c, d, held(s.iterations), residual.to_bits()];
    write_rim(
        s.rim,
        b"(local # # # # # % yes)\n",
        b"(local # # # # # % no)\n",
        &words,
        out,
    )
}

// Local's line: grow's four, rounds, largest residual or `none`, rim.
fn write_local_line(s: LocalStats, out: &mut [u8]) -> usize
    requires { LocalLineAsked s out.old }
    ensures { Wrote (local_line s) out.old out.new result }
{
    match s.residual {
        None => write_bare_local(s, out),
        Some(x) => write_full_local(s, x, out),
    }
}

// The line behind local's: how many corners were passed over; nothing where no shade stands.
fn write_unmatched(unmatched: Option<usize>, out: &mut [u8]) -> usize
    requires { UnmatchedAsked unmatched out.old }
    ensures { Wrote (unmatched_line unmatched) out.old out.new result }
{
    match unmatched {
        None => 0,
        Some(n) => {
            let words = [held(n)];
            write_form(b"(unmatched #)\n", &words, out)
        }
    }
}

// Local's line and, if any shade stands, that of the corners passed over.
pub fn write_local(s: LocalStats, out: &mut [u8]) -> usize
    requires { LocalAsked s out.old }
    ensures { Wrote (local_lines s) out.old out.new result }
{
    let unmatched = s.unmatched;
    let n = write_local_line(s, out);
    let m = write_unmatched(unmatched, &mut out[n..]);
    n + m
}

// The line of what a pass answers.
#[tactic(auto, unfolding(report_line::specs::Result::pass_line))]
pub fn write_stats(s: PassStats, out: &mut [u8]) -> usize
    requires { StatsAsked s out.old }
    ensures { Wrote (pass_line s) out.old out.new result }
{
    match s {
        PassStats::Grow(s) => write_grow(s, out),
        PassStats::Fill(s) => write_fill(s, out),
        PassStats::Local(s) => write_local(s, out),
    }
}
