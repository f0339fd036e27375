use crate::nice::Nice;
use crate::policy::Policy;

/// Where a task stands at its processor.
#[derive(Clone, Copy, Debug, PartialEq, Eq)]
pub enum Place {
    /// It runs.
    Run,
    /// It waits in the runqueue.
    Wait,
    /// It sleeps, and isn't in the runqueue.
    Rest,
}

/// A task as the companion's start state names it.
#[derive(Clone, Copy, Debug, PartialEq, Eq)]
pub struct Task {
    /// From 1.
    pub pid: u32,
    pub nice: Nice,
    pub policy: Policy,
    /// The processor at which it stands.
    pub cpu: u32,
    pub place: Place,
    /// The virtual runtime, in virtual nanoseconds, signed.
    pub v: i64,
}
