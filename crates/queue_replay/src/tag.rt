/// How far a replay went.
#[derive(Clone, Copy, Debug, PartialEq, Eq)]
pub enum Reached {
    /// Steps are left, and none has failed: the line of the last step made, 0 if none was.
    Stopped(u32),
    /// All steps and the end test passed.
    Done,
    /// A step failed, or the end test did: the fault's line.
    Faulted(u32),
}

/// A page's processor, and how far its replay went.
#[derive(Clone, Copy, Debug, PartialEq, Eq)]
pub struct Tag {
    pub cpu: u32,
    pub reached: Reached,
}
