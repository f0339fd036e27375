/// What the companion says of a task's policy: it is the idle policy's from the start, or from its birth at this line
/// of the trace on.
#[derive(Clone, Copy, Debug, PartialEq, Eq)]
pub struct IdleLine {
    /// The line in the trace, from 1, comments counted; `NO_LINE` for the start.
    pub line: u32,
    pub pid: u32,
}
