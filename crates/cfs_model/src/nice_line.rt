use crate::nice::Nice;

/// What the companion says of a change of a task's nice value: from this line of the trace on it is another.
#[derive(Clone, Copy, Debug, PartialEq, Eq)]
pub struct NiceLine {
    /// The line in the trace, from 1, comments counted.
    pub line: u32,
    pub pid: u32,
    /// The new value.
    pub nice: Nice,
}
