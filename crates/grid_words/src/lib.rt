// The label box, the reader and the writers of a result's text for programs in other languages, before they are exported (crate `grid_export`): a
// refusal as an error, and what a call that is done says as numbers, floats and words in its last slices. `answered` makes a number of either.

#![tactic(auto)]

pub mod around; // around.rt: the label box
pub mod frame_calls; // frame_calls.rt: the reader
pub mod text_calls; // text_calls.rt: the result's text
pub mod words; // words.rt: answers and words
