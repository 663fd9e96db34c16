// Reads lines of eight hexadecimal digits, each a float's bits, and prints for each the eight digits of its square root, or
// (refused number): 1 for a line that is no eight digits, 3 for a float that is not finite or is negative.
// Where the input cannot be read or the output not be written, it ends with an error.

#![tactic(auto)]

ghost use Rattle.std.specs.Prelude.{◌≤◌};

use refusal::Refusal;
use std::io;
use std::io::Read;

// A line so far: its first nine bytes, and how many bytes it has, where nine stands for nine and more.
// Stays: the bytes are kept in fixed memory, so that how many there are stands beside them (a).
#[derive(Clone, Copy)]
struct Line {
    bytes: [u8; 9],
    len: usize,
    ghost short: { len ≤ 9 },
}

// A line of which nothing is read yet.
const EMPTY: Line = Line {
    bytes: [0; 9],
    len: 0,
};

// A refusal on a line.
fn print_refused(rt: &impl Print, refusal: Refusal) -> io::Result<()> {
    println!(rt; "(refused {})", refusal::number(refusal))
}

// A float's eight digits on a line. Any NaN is printed as 7fc00000.
fn print_float(rt: &impl Print, x: f32) -> io::Result<()> {
    let mut text = [b'\n'; 9];
    binary32::hex::write_float(x, &mut text);
    rt.write_all(&text)
}

// The root of the float that a line stands for.
fn root_of(line: Line) -> Result<f32, Refusal> {
    if line.len != 8 {
        return Err(Refusal::Malformed);
    }
    binary32::root::sqrt(binary32::hex::read_float(&line.bytes)?)
}

fn answer(rt: &impl Print, line: Line) -> io::Result<()> {
    match root_of(line) {
        Ok(root) => print_float(rt, root),
        Err(refusal) => print_refused(rt, refusal),
    }
}

// One byte more for the line; at its end it is answered, and the next one begins.
fn take_byte(rt: &impl Print, line: &mut Line, b: u8) -> io::Result<()> {
    if b == b'\n' {
        answer(rt, *line)?;
        *line = EMPTY;
    } else if line.len < 9 {
        line.bytes[line.len] = b;
        line.len += 1;
    }
    Ok(())
}

fn take_bytes(rt: &impl Print, line: &mut Line, part: &[u8]) -> io::Result<()> {
    for b in part {
        take_byte(rt, line, *b)?;
    }
    Ok(())
}

// Whether one more read gave anything.
fn read_once<R: Read>(rt: &impl Print, source: &mut R, line: &mut Line) -> io::Result<bool> {
    let mut buffer = [0u8; 65536];
    let n = recover_read::read_input(source, &mut buffer)?;
    take_bytes(rt, line, &buffer[..n])?;
    Ok(0 < n)
}

// A proved loop has to end, and nothing says that the input does: so the loop has a last turn, which no run reaches.
fn main(rt: HostRuntime) -> io::Result<()> {
    let mut source = rt.stdin();
    let mut line = EMPTY;
    // Stays: a loop with no end needs a handle that the project is not allowed (a).
    for _ in 0..u64::MAX {
        if !read_once(&rt, &mut source, &mut line)? {
            break;
        }
    }
    if line.len > 0 {
        print_refused(&rt, Refusal::Malformed)?;
    }
    Ok(())
}
