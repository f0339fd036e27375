/// What a claim is for.
#[derive(Clone, Copy, Debug, PartialEq, Eq)]
pub enum ClaimSort {
    /// The task is enqueued: put back, woken, born, or migrated while it waits.
    At,
    /// The task is migrated while it sleeps.
    Pass,
}

/// What the companion says of a task's virtual runtime at one line of the trace.
#[derive(Clone, Copy, Debug, PartialEq, Eq)]
pub struct Claim {
    /// The line in the trace, from 1, comments counted.
    pub line: u32,
    pub pid: u32,
    /// The virtual runtime claimed, in virtual nanoseconds, signed; at a migration in the destination's frame.
    pub v: i64,
    pub sort: ClaimSort,
}
