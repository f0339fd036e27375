use audit_input::{Cause, Source};
use least_places::Finding;

/// What two inputs of any length came to.
#[derive(Debug, Drop)]
pub struct Hearing {
    pub outcome: StreamOutcome,
    /// Whether the companion is of version 3.
    pub tells_charges: bool,
}

/// What is found of a record, or which text is refused and why.
#[derive(Debug, Drop)]
pub enum StreamOutcome {
    Judged(Finding),
    Text {
        source: Source,
        /// The line in that text, from 1, comments counted; of joining, a line of the trace.
        line: u64,
        cause: Cause,
    },
}
