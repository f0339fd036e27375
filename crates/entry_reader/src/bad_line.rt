use sched_record::TraceCause;

/// The first bad line of a trace.
#[derive(Clone, Copy, Debug, PartialEq, Eq)]
pub(crate) struct BadLine {
    /// From 1, comments counted.
    pub(crate) line: u64,
    pub(crate) cause: TraceCause,
}
