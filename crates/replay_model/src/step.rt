use cfs_model::{ChargeLine, Claim, Nice, NiceLine, Policy, Way};

/// What an event does at one processor. A migration is two deeds, one at each of its ends. Pid 0 is the
/// processor's idle task.
#[derive(Clone, Copy, Debug, PartialEq, Eq)]
pub enum Deed {
    /// The processor goes from one task to another. The nice value of pid 0 is 0, and the way of a `prev` of 0 is
    /// `Stays`.
    Switch {
        prev: u32,
        prev_nice: Nice,
        way: Way,
        next: u32,
        next_nice: Nice,
    },
    /// A task of this processor is woken.
    Wake {
        pid: u32,
        nice: Nice,
    },
    /// A new task begins here.
    Born {
        pid: u32,
        nice: Nice,
        policy: Policy,
    },
    /// A task leaves for another processor.
    Leave {
        pid: u32,
        nice: Nice,
        dest: u32,
    },
    /// A task comes from another processor.
    Arrive {
        pid: u32,
        nice: Nice,
        orig: u32,
        /// As it was told at the task's last birth on an earlier line, or at the start.
        policy: Policy,
    },
}

/// One event as a processor that it touches sees it.
#[derive(Clone, Copy, Debug, PartialEq, Eq)]
pub struct Step {
    /// The line in the trace, from 1, comments counted.
    pub line: u32,
    /// In nanoseconds.
    pub time: u64,
    pub deed: Deed,
    /// The claim on the line. A task that leaves has none: it is the destination's.
    pub claim: Option<Claim>,
    /// The change of a task's nice value on the line, which this step makes before its deed. A task that comes has
    /// none: it is the origin's.
    pub nice: Option<NiceLine>,
    /// The told charge on the line. A task that comes has none: it is the origin's.
    pub charge: Option<ChargeLine>,
}
