use crate::values::within_range;
use cfs_model::{Nice, Policy, charge, weight_of};

/// A charge that was printed.
#[derive(Clone, Copy, Debug)]
pub(crate) struct Print {
    /// From 1, comments counted.
    pub line: u32,
    pub pid: u32,
    /// In nanoseconds.
    pub time: u64,
    /// How long the task ran since it was charged last, in nanoseconds.
    pub runtime: u64,
    /// What it has come to, in virtual nanoseconds.
    pub v: i64,
}

impl Print {
    /// The virtual runtime before the run that is printed.
    pub(crate) fn before(self, nice: Nice) -> Option<i64> {
        self.less(self.runtime, nice)
    }

    /// The same of a task that runs at the start: what ran before isn't taken off.
    pub(crate) fn from_start(self, start: u64, nice: Nice) -> Option<i64> {
        self.less(self.runtime.min(self.time.saturating_sub(start)), nice)
    }

    /// What it has come to, less the cost of so much of the run.
    fn less(self, runtime: u64, nice: Nice) -> Option<i64> {
        let cost = charge(runtime, weight_of(nice, Policy::Normal))?;
        Some(within_range(self.v.saturating_sub(cost)))
    }
}
