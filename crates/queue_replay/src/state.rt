/// Whether a replay can go on.
#[derive(Clone, Copy, Debug, PartialEq, Eq)]
pub enum State {
    /// Steps are left, and none has failed.
    Going,
    /// No step is left, and none has failed.
    Done,
    /// A step failed, or the end test did.
    Faulted,
}
