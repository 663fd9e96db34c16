// Numbers as document 01 has them ("Number", and the ranges of "Frame and result"): binary32 floats, their eight hexadecimal
// digits, the range tests by value, and the square root in whole numbers.

#![tactic(auto)]

pub mod hex; // hex.rt: eight digits to a float and back
pub mod ranges; // ranges.rt: finite, and the ranges by value
pub mod root; // root.rt: the square root, rounded to nearest even
