// The outcomes of passes as words, twelve for each (specs/Outcomes.antt).

#![tactic(auto)]

pub mod like; // like.rt: an outcome whose line is as long, whatever its words are
pub mod put; // put.rt: outcomes put at their places
pub mod read; // read.rt: outcomes read
pub mod wild; // wild.rt: whether an outcome's words are not those that an outcome has
