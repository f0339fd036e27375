/// By which of the fair scheduler's policies a task weighs. It is told at the start or at the task's birth, and kept
/// for the task's life.
#[derive(Clone, Copy, Debug, PartialEq, Eq)]
pub enum Policy {
    /// `SCHED_NORMAL`: by its nice value.
    Normal,
    /// `SCHED_IDLE`: least of all, whatever its nice value.
    Idle,
}
