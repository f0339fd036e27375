use crate::origin::Origin;
use cfs_model::Memory;
use recent_past::{ProcessorState, RecentPast};
use runqueue::{Runqueue, SchedEntity};
use std::alloc::Global;

/// A processor, as its replay leaves it before a line.
#[derive(Drop)]
pub(crate) struct Processor {
    pub cpu: u32,
    pub queue: Runqueue,
    /// Since when nothing has run there while somebody waited, in nanoseconds; if that is so.
    pub since: Option<u64>,
    /// How who runs and those who wait came there, where that was asked for.
    pub origins: Vec<Origin>,
}

impl Processor {
    /// As it is before a line of the trace. Nobody stands at a processor that there isn't.
    pub(crate) fn before(
        alloc: Global,
        past: &RecentPast,
        cpu: u32,
        line: u32,
    ) -> Result<Processor, Memory> {
        let ProcessorState { cpu, queue, since } = past.state_before(cpu, line)?;
        Ok(Processor {
            cpu,
            queue,
            since,
            origins: Vec::new(alloc),
        })
    }

    /// The task of this pid, and the processor, where it stands there.
    pub(crate) fn place_of(&self, pid: u32) -> Option<(u32, SchedEntity)> {
        let task = self.queue.task_at(pid)?;
        Some((self.cpu, task))
    }
}
