use crate::Wait;

/// How often and how long a task waited in a run.
#[derive(Clone, Copy, Debug, PartialEq, Eq)]
pub struct TaskWaits {
    pub pid: u32,
    /// The number of its waits.
    pub times: u64,
    /// All of them together, in nanoseconds.
    pub total: u128,
    /// The first of the longest.
    pub longest: Option<Wait>,
}
