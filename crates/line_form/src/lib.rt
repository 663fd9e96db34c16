// Lines of text that have a form (01, "Frame and result"): a form is a text in which % stands for a float and # for an integer.

#![tactic(auto)]

pub mod read; // read.rt: a line read by its form
pub mod text; // text.rt: the lines of a text
pub mod write; // write.rt: a line written from its form and its numbers

// Integers are held as this much more than they are, and so those below 0 in words too.
pub const OFFSET: u32 = 1_000_000;
