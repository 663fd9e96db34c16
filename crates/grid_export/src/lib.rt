// The public face (crate `projective_grid`) for programs in other languages: numbers and lent slices in, a number out. 0 is done, 1 to 7 are
// the refusals of 01; the reader adds 16 times the refused line to its number. A refused call changes no buffer. What a call that is done says
// beside that it writes as words to its last slice, and the label box of a sheet as five numbers to the slice behind it. c/projective_grid.h declares
// the functions for C.

#![tactic(auto)]

pub mod frame_calls; // frame_calls.rt: the reader
pub mod pass_calls; // pass_calls.rt: grow, fill and local
pub mod text_calls; // text_calls.rt: the result's text
