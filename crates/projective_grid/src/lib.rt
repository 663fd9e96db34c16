// The public face of the library: exactly the calls that a fitter's program makes, and their types. None of them asks anything of its caller: each
// checks what it is lent, answers a numbered refusal where something is wrong, and then changes nothing. docs/PROMISES.md says what each promises.

#![tactic(auto)]

// the square root (01, "Number")
pub use binary32::root::sqrt;

// the passes (01, "Sheet")
pub use arguments::{FillParams, GrowParams, LocalExtensionParams, Settings};
pub use fill::fill_grid_holes;
pub use grow_extend::extend_from_labelled;
pub use labels::{Bounds, KeptBox};
pub use local::extend_via_local_homography;
pub use passes::{Counts, FillStats, GrowStats, LocalStats};
pub use predict::{Grid, Vector};

// the reader and the result's text (01, "Frame and result")
pub use frame::{FrameHead, FrameRefusal, read_frame};
pub use report::{PieceEnd, write_result, write_result_piece};

// the refusals, and their numbers
pub use refusal::{Refusal, number};
