// The lines of a result and of a refusal (01, "Frame and result"), each written into the unfilled rest of the output buffer, and the sizes of what is lent.

#![tactic(auto)]

pub mod line; // line.rt: a line written to the front of a part
pub mod line_sizes; // line_sizes.rt: how many lines there are, and how long
pub mod role; // role.rt: the line of a role
