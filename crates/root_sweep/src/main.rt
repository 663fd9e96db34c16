// Takes the square root of 102,400 pseudo-random patterns, and prints for each 1,024 of them a sum over the answers' bits, where a
// refusal counts as its number: (block number sum), all in hexadecimal.
// Where the output cannot be written, it ends with an error.

#![tactic(auto)]

ghost use Rattle.std.specs.Prelude.{◌≤◌, ◌%◌};

use std::io;

// Where the sweep stands: the next pattern, and the sum over the block so far.
#[derive(Clone, Copy)]
struct Sweep {
    pattern: u32,
    sum: u32,
}

// The next pattern: a linear congruence modulo 2 ^ 32.
fn next(pattern: u32) -> u32 {
    pattern.wrapping_mul(1664525).wrapping_add(1013904223)
}

// The pattern, or the infinity's in place of a NaN's.
fn without_nan(pattern: u32) -> u32
    ensures { result % 0x8000_0000 ≤ 0x7f80_0000 }
{
    if 0x7f80_0000 < pattern % 0x8000_0000 {
        0x7f80_0000
    } else {
        pattern
    }
}

// The bits of a pattern's root, or the refusal's number.
#[tactic(auto, using(binary32::proofs::Answered::answer_no_nan, binary32::proofs::Answered::pattern))]
fn answer(pattern: u32) -> u32 {
    let x = f32::from_bits(without_nan(pattern));
    match binary32::root::sqrt(x) {
        Ok(r) => f32::to_bits(r),
        Err(refusal) => u32::from(refusal::number(refusal)),
    }
}

fn add_answer(s: Sweep) -> Sweep {
    Sweep {
        pattern: next(s.pattern),
        sum: s.sum.wrapping_mul(31).wrapping_add(answer(s.pattern)),
    }
}

// The sum over 1,024 patterns, and the pattern after them.
fn block(pattern: u32) -> Sweep {
    (0..1024u32).fold(Sweep { pattern, sum: 0 }, |s, _| add_answer(s))
}

fn print_block(rt: &impl Print, i: u32, s: Sweep) -> io::Result<()> {
    let sum = s.sum;
    println!(rt; "(block {i:02x} {sum:08x})")
}

fn main(rt: HostRuntime) -> io::Result<()> {
    let mut pattern = 0x2026_1115u32;
    // Stays: a block begins where the one before it ends, and each is printed; a `try_fold` would have the printing in a closure that answers Ok (d).
    for i in 0..100u32 {
        let s = block(pattern);
        print_block(&rt, i, s)?;
        pattern = s.pattern;
    }
    Ok(())
}
