// What the program `passes_main` prints: what a call answers and leaves. For comparing with other programs: what it prints is not proved.
// Where something cannot be printed, nothing more is, and the error is returned.

#![tactic(auto)]

use arguments::Pass;
use call_text::Told;
use labels::KeptBox;
use passes::{Counts, FillStats, GrowStats, LocalStats, PassStats};
use refusal::Refusal;
use std::num::f32_to_bits_with_nan;
use std::{fmt, io};

// The cell of a place.
#[derive(Clone, Copy)]
struct Place(usize);

impl fmt::Display for Place {
    fn fmt<W: fmt::Write>(&self, f: &mut fmt::Formatter<W>) -> fmt::Result {
        let i = (self.0 / 128) as i64 - 64;
        let j = (self.0 % 128) as i64 - 64;
        write!(f, "{i} {j}")
    }
}

fn print_corner(rt: &impl Print, word: u16) -> io::Result<()> {
    match sheet::label_of(word) {
        None => print!(rt; " none"),
        Some(k) => print!(rt; " {k}"),
    }
}

fn print_one_attached(rt: &impl Print, sheet: &[u16], place: usize) -> io::Result<()> {
    let cell = Place(place);
    print!(rt; "attached {cell}")?;
    if let Some(word) = sheet.get(place) {
        print_corner(rt, *word)?;
    }
    println!(rt; "")
}

// The labelled places, each with its corner.
fn print_labelled(rt: &impl Print, sheet: &[u16]) -> io::Result<()> {
    for (place, word) in sheet.iter().enumerate() {
        if labels::is_labelled(*word) {
            let cell = Place(place);
            print!(rt; "cell {cell}")?;
            print_corner(rt, *word)?;
            println!(rt; "")?;
        }
    }
    Ok(())
}

// The places whose word passes a test, each as a line with a name.
fn print_places<F: Fn(u16) -> bool>(
    rt: &impl Print,
    name: &str,
    test: F,
    sheet: &[u16],
) -> io::Result<()>
    requires { F.IsAlwaysCallable test }
{
    for (place, word) in sheet.iter().enumerate() {
        if test(*word) {
            let cell = Place(place);
            println!(rt; "{name} {cell}")?;
        }
    }
    Ok(())
}

fn print_sheet(rt: &impl Print, sheet: &[u16]) -> io::Result<()> {
    print_labelled(rt, sheet)?;
    print_places(rt, "hole", sheet::is_hole, sheet)?;
    print_places(rt, "ambiguous", sheet::is_ambiguous, sheet)
}

fn print_refused(rt: &impl Print, refusal: Refusal) -> io::Result<()> {
    println!(rt; "(refused {})", refusal::number(refusal))
}

fn print_counts(rt: &impl Print, counts: Counts) -> io::Result<()> {
    let attached = counts.attached;
    let no_candidate = counts.rejected_no_candidate;
    let ambiguous = counts.rejected_ambiguous;
    let edge = counts.rejected_edge;
    print!(rt; "{attached} {no_candidate} {ambiguous} {edge}")
}

fn rim_word(rim: bool) -> &'static str {
    if rim { "yes" } else { "no" }
}

fn print_grow(rt: &impl Print, stats: GrowStats) -> io::Result<()> {
    print!(rt; "(grow ")?;
    print_counts(rt, stats.counts)?;
    let rim = rim_word(stats.rim);
    println!(rt; " {rim})")
}

fn print_fill(rt: &impl Print, stats: FillStats) -> io::Result<()> {
    let added = stats.added;
    let iterations = stats.iterations;
    let rim = rim_word(stats.rim);
    println!(rt; "(fill {added} {iterations} {rim})")
}

// A float's eight digits. Any NaN is printed as 7fc00000.
fn print_float(rt: &impl Print, x: f32) -> io::Result<()> {
    let bits = f32_to_bits_with_nan(x);
    print!(rt; "{bits:08x}")
}

fn print_residual(rt: &impl Print, residual: Option<f32>) -> io::Result<()> {
    match residual {
        None => print!(rt; "none"),
        Some(x) => print_float(rt, x),
    }
}

// Local's line of the corners that it passed over, where a shade stands.
fn print_unmatched(rt: &impl Print, unmatched: Option<usize>) -> io::Result<()> {
    match unmatched {
        None => Ok(()),
        Some(count) => println!(rt; "(unmatched {count})"),
    }
}

fn print_local(rt: &impl Print, stats: LocalStats) -> io::Result<()> {
    print!(rt; "(local ")?;
    print_counts(rt, stats.counts)?;
    let iterations = stats.iterations;
    print!(rt; " {iterations} ")?;
    print_residual(rt, stats.residual)?;
    let rim = rim_word(stats.rim);
    println!(rt; " {rim})")?;
    print_unmatched(rt, stats.unmatched)
}

// A box: mark (1 for an empty one, 0 for any other), low i, high i, low j, high j.
fn print_box(rt: &impl Print, kept: KeptBox) -> io::Result<()> {
    let mark = u8::from(kept.empty);
    let bounds = kept.bounds;
    print!(rt; "box {mark} {} {}", bounds.low_i, bounds.high_i)?;
    println!(rt; " {} {}", bounds.low_j, bounds.high_j)
}

// How many cells grow visited: each is counted once, and there are at most four a corner (`AllVisited` of crate passes), so that no sum is cut off.
fn visited_by(counts: Counts) -> usize {
    counts
        .attached
        .saturating_add(counts.rejected_no_candidate)
        .saturating_add(counts.rejected_ambiguous)
        .saturating_add(counts.rejected_edge)
}

// ---- calls

// One place more in a sum over a buffer: each place counts by its number and what it holds.
fn summed(sum: u64, i: usize, v: u16) -> u64 {
    (sum % 0x1_0000_0000 * 31 + (i % 65536) as u64 + u64::from(v)) % 0x1_0000_0000
}

fn print_sum(rt: &impl Print, name: &str, list: &[u16]) -> io::Result<()> {
    let sum = list
        .iter()
        .enumerate()
        .fold(0, |sum, (i, v)| summed(sum, i, *v));
    println!(rt; "{name} {sum:08x}")
}

// What a call leaves in the buffers that it was lent, and what its list asks to be printed.
#[derive(Clone, Copy)]
pub struct Left<'a> {
    pub told: Told,
    // whether the box that the call answers is printed as well
    pub boxes: bool,
    pub sheet: &'a [u16],
    pub queue: &'a [u16],
    pub attached: &'a [u16],
}

impl Left<'_> {
    // Grow's visited cells, where they are asked for.
    fn print_queue(self, rt: &impl Print, counts: Counts) -> io::Result<()> {
        if self.told == Told::Answers {
            return Ok(());
        }
        for place in self.queue.iter().take(visited_by(counts)) {
            let cell = Place(usize::from(*place));
            println!(rt; "visited {cell}")?;
        }
        Ok(())
    }

    // The first cells of the attached list, each with its corner.
    fn print_attached(self, rt: &impl Print, count: usize) -> io::Result<()> {
        for place in self.attached.iter().take(count) {
            print_one_attached(rt, self.sheet, usize::from(*place))?;
        }
        Ok(())
    }

    // What an accepted call says, and the cells that it attached.
    fn print_stats(self, rt: &impl Print, stats: PassStats) -> io::Result<()> {
        match stats {
            PassStats::Grow(stats) => {
                print_grow(rt, stats)?;
                self.print_queue(rt, stats.counts)?;
                self.print_attached(rt, stats.counts.attached)
            }
            PassStats::Fill(stats) => {
                print_fill(rt, stats)?;
                self.print_attached(rt, stats.added)
            }
            PassStats::Local(stats) => {
                print_local(rt, stats)?;
                self.print_attached(rt, stats.counts.attached)
            }
        }
    }

    // What a call answers, the cells that it attached, and the answered box where boxes are asked for.
    fn print_answer(
        self,
        rt: &impl Print,
        answer: Result<(PassStats, KeptBox), Refusal>,
    ) -> io::Result<()> {
        match answer {
            Err(refusal) => print_refused(rt, refusal),
            Ok((stats, kept)) => {
                self.print_stats(rt, stats)?;
                if self.boxes {
                    print_box(rt, kept)?;
                }
                Ok(())
            }
        }
    }

    // Where they are asked for: sums over the whole queue and the whole attached list, so that it is seen what a call left in them.
    fn print_sums(self, rt: &impl Print) -> io::Result<()> {
        if self.told != Told::Sums {
            return Ok(());
        }
        print_sum(rt, "queue", self.queue)?;
        print_sum(rt, "list", self.attached)
    }

    // What a call answers, the whole sheet after it, and the sums.
    pub fn print(
        self,
        rt: &impl Print,
        answer: Result<(PassStats, KeptBox), Refusal>,
    ) -> io::Result<()> {
        self.print_answer(rt, answer)?;
        print_sheet(rt, self.sheet)?;
        self.print_sums(rt)
    }
}

// A call's number and its kind.
pub fn print_call(rt: &impl Print, number: usize, pass: Pass) -> io::Result<()> {
    let kind = match pass {
        Pass::Grow(_) => "grow",
        Pass::Fill(_) => "fill",
        Pass::Local(_) => "local",
    };
    println!(rt; "pass {number} {kind}")
}
