/// One who waits, in the order of the runqueue: by virtual runtime, and of equal ones by pid.
#[derive(Clone, Copy, Debug, PartialEq, Eq, PartialOrd, Ord)]
pub struct WaitingTask {
    /// The virtual runtime, in virtual nanoseconds.
    pub v: i64,
    pub pid: u32,
}
