use cfs_model::{Kind, Nice, Place, Policy};

/// What is wrong with a step of a processor.
#[derive(Clone, Copy, Debug, PartialEq, Eq)]
pub struct StepFault {
    /// The line in the trace, from 1, comments counted.
    pub line: u32,
    pub kind: Kind,
    /// 0 where the fault is no task's.
    pub pid: u32,
    /// When the processor had idled for too long, in nanoseconds; for `IdleTooLong` alone.
    pub deadline: Option<u64>,
}

/// What a migration takes from one processor to another, as one of the two sees it.
#[derive(Clone, Copy, Debug, PartialEq, Eq)]
pub struct Ticket {
    /// The migration's line in the trace.
    pub line: u32,
    pub pid: u32,
    pub nice: Nice,
    pub policy: Policy,
    pub place: Place,
    /// The virtual runtime less the processor's floor, in virtual nanoseconds, signed.
    pub offset: i128,
}

/// A birth or a death.
#[derive(Clone, Copy, Debug, PartialEq, Eq)]
pub struct LifeEvent {
    /// The line in the trace.
    pub line: u32,
    pub pid: u32,
}

/// What a task did at a processor.
#[derive(Clone, Copy, Debug, PartialEq, Eq)]
pub struct Tally {
    /// How long it ran, in nanoseconds.
    pub ran: u128,
    /// What it was charged, in virtual nanoseconds.
    pub charged: u128,
    /// The number of switches to it.
    pub picks: u64,
    // Behind the others, so that a tally takes 48 bytes.
    pub pid: u32,
}
