// The room that the programs lend.
use jobs::set::JobSet;

// Enough for the bounds text, the trace text and the table of every accepted set, by the theorems `texts_fit` and `write_read`.
pub const MAX_BYTES: usize = 64 * JobSet::MAX_JOBS;
