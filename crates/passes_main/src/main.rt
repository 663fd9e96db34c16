// Runs a list of library calls and prints, after each, its answer, the cells that it visited and attached in order, and the whole
// sheet; a refused call prints its number. For comparing with other programs: what it prints is not proved.
//
// It reads lines of eight hexadecimal digits, a number each (compare/words.py writes them from frames), at most 262,144 bytes, list after
// list: corners n, labels m, calls p; 1 if the visited cells are to be printed, 2 if sums over both lists too, and 4 more if the calls say
// which box they are handed; n times x, y, pitch, shades; m times corner, place; then for each call: kind (0 grow, 1 fill, 2 local), cell,
// the four axis parts, band, five numbers of the pass, and the lengths to lend: ys, pitches, sheet, queue, attached, shades. A list with
// another kind is not run, nor what follows it.
//
// Where the calls of a list say which box they are handed, each has six numbers more behind these 18: 1 if it is handed the box that the
// last call left, at first the one that a search of the sheet finds, and 0 if it is handed the five that follow: mark, low i, high i, low j,
// high j, the last four in two's complement. A mark other than 0 is an empty box here, so that each number is one. Of such a list the box that a
// call answers is printed, on a line of its own: the same five numbers, in decimal. Other lists hand each call the box as left.
//
// A corner's shades are two bits for each call, the lowest two for the first, and for the 17th again: the byte that is lent for that corner.
//
// Where the input cannot be read or something not be printed, it ends with an error.

#![tactic(auto)]

ghost use Rattle.std.specs.Prelude.{◌≤◌, IfOk};

use arguments::Pass;
use call_print::{Left, print_call};
use call_text::{
    Handed, Header, has_unknown_kind, header_at, lengths_at, pass_at, read_floats, read_labels,
    read_shades, settings_at,
};
use labels::KeptBox;
use passes::PassStats;
use refusal::Refusal;
use std::io;

// A list's text, its header, and its corners as a call is lent them.
#[derive(Clone, Copy)]
struct List<'a> {
    text: &'a [u8],
    header: Header,
    xs: &'a [f32],
    ys: &'a [f32],
    pitches: &'a [f32],
}

// The sheet, the queue and the attached list that a call is lent.
#[derive(Drop)]
struct Buffers<'a> {
    sheet: &'a mut [u16],
    queue: &'a mut [u16],
    attached: &'a mut [u16],
}

// The first n of a list, or all of it where it has fewer.
fn front<T>(list: &[T], n: usize) -> &[T] {
    &list[..n.min(list.len())]
}

fn front_mut<T>(list: &mut [T], n: usize) -> &mut [T] {
    let n = n.min(list.len());
    &mut list[..n]
}

impl List<'_> {
    // What call i answers: it is lent the front of every buffer.
    fn answer(
        self,
        i: usize,
        pass: Pass,
        handed: KeptBox,
        buffers: &mut Buffers,
    ) -> Result<(PassStats, KeptBox), Refusal>
        requires { (self.header.first ≤ 8200) × (i ≤ 40) }
    {
        let at = self.header.call_at(i);
        let lengths = lengths_at(self.text, at + 12);
        let shades = read_shades(self.text, 7, self.xs.len().min(1025), i);
        pass_call::call_pass(
            self.xs,
            front(self.ys, lengths.ys),
            front(self.pitches, lengths.pitches),
            front(&shades, lengths.shades),
            front_mut(buffers.sheet, lengths.sheet),
            handed,
            front_mut(buffers.queue, lengths.queue),
            front_mut(buffers.attached, lengths.attached),
            settings_at(self.text, at + 1),
            pass,
        )
    }

    // One call, of one of the three kinds, handed the box that it says; `around` is the one that is left to it.
    fn call(
        self,
        rt: &impl Print,
        i: usize,
        around: KeptBox,
        buffers: &mut Buffers,
    ) -> io::Result<Result<(PassStats, KeptBox), Refusal>>
        requires { (self.header.first ≤ 8200) × (i ≤ 40) }
    {
        let at = self.header.call_at(i);
        let pass = pass_at(self.text, at);
        print_call(rt, i + 1, pass)?;
        let handed = match self.header.handed(self.text, at) {
            Handed::AsLeft => around,
            Handed::Other(other) => other,
        };
        Ok(self.answer(i, pass, handed, buffers))
    }
}

// The corners and the labels, and then the calls, the first as if the box that a search of the sheet finds were left to it; answers how many
// numbers the list has.
fn run(rt: &impl Print, text: &[u8]) -> io::Result<usize>
    ensures { IfOk result (λ numbers. (4 ≤ numbers) × (numbers ≤ 9160)) }
{
    let header = header_at(text);
    let n = header.n;
    let xs = read_floats(text, 4, n);
    let ys = read_floats(text, 5, n);
    let pitches = read_floats(text, 6, n);
    let mut sheet = read_labels(text, 4 + 4 * n, header.labels);
    let mut queue = [43981u16; 4100];
    let mut attached = [43981u16; 1025];
    let list = List {
        text,
        header,
        xs: &xs[..n],
        ys: &ys,
        pitches: &pitches,
    };
    let mut around = KeptBox::of(labels::label_box(&sheet));
    // Stays: the number of the call is printed, and says where the call begins (d).
    for i in 0..header.count {
        let mut buffers = Buffers {
            sheet: &mut sheet,
            queue: &mut queue,
            attached: &mut attached,
        };
        let answer = list.call(rt, i, around, &mut buffers)?;
        let left = Left {
            told: header.told,
            boxes: header.boxes,
            sheet: &sheet,
            queue: &queue,
            attached: &attached,
        };
        left.print(rt, answer)?;
        around = answer.map_or(around, |(_, kept)| kept);
    }
    Ok(header.call_at(header.count))
}

// List after list, up to the end or to one that cannot be run.
fn run_all(rt: &impl Print, text: &[u8]) -> io::Result<()> {
    let mut rest = text;
    // Stays: where the next list begins is known only when this one is run, and there the walk may end (d).
    while !rest.is_empty() {
        if has_unknown_kind(rest) {
            return println!(rt; "not run: a call of an unknown kind");
        }
        let numbers = run(rt, rest)?;
        rest = rest.get(9 * numbers..).unwrap_or(&[]);
    }
    Ok(())
}

fn main(rt: HostRuntime) -> io::Result<()> {
    let mut buffer = [0u8; 262144];
    let n = recover_read::read_input(&mut rt.stdin(), &mut buffer)?;
    run_all(&rt, &buffer[..n])
}
