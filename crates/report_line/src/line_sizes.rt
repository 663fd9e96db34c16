// How many lines a result has, and how long they are; specs/Sizes.antt has the same for the definitions.
use sizes::PLACES;

// Lines of a result behind its pass lines: one for each role.
pub const ROLE_LINES: usize = 3;
// And behind these: of cells, of holes and of ambiguous cells.
pub const SHEET_LINES: usize = 3 * PLACES;
// Lines of a result besides its pass lines: the first line too.
pub const LINES: usize = 1 + ROLE_LINES + SHEET_LINES;
// Which of the sheet's lines is the first of an ambiguous cell: that of a hole is line PLACES.
pub const FIRST_AMBIGUOUS: usize = 2 * PLACES;
// Bytes that are left before a line of a piece is written: more than any line has.
pub const LINE_ROOM: usize = 128;
