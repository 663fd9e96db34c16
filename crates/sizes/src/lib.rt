// Sizes of what is lent and of what 01 allows ("Sheet", "Frame and result"); specs/Sizes.antt has the same for the definitions.

#![tactic(auto)]

// Places of a sheet: 128 rows of 128.
pub const PLACES: usize = 16384;

// Bytes, corners and passes of a frame, at most.
pub const BYTES: usize = 65536;

pub const CORNERS: usize = 1024;

pub const PASSES: usize = 16;

// Words of a pass as the reader writes it, and of an outcome.
pub const PASS_WORDS: usize = 7;

pub const OUTCOME_WORDS: usize = 12;

// Words of as many passes and of as many outcomes as a frame can have.
pub const ALL_PASS_WORDS: usize = PASSES * PASS_WORDS;

pub const ALL_OUTCOME_WORDS: usize = PASSES * OUTCOME_WORDS;
