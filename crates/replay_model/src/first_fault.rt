use cfs_model::Kind;

/// What is wrong first in a record, and where.
#[derive(Clone, Copy, Debug, PartialEq, Eq)]
pub struct FirstFault {
    /// The line in the trace, from 1, comments counted.
    pub line: u32,
    pub cpu: u32,
    /// The task that the fault names, 0 where it is no task's.
    pub pid: u32,
    pub kind: Kind,
}
