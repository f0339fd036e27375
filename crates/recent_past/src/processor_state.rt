use cfs_model::{Knobs, Memory};
use queue_replay::WindowedReplay;
use replay_model::Step;
use runqueue::Runqueue;
use std::alloc::Global;

/// How a processor stands at one moment.
#[derive(Drop)]
pub struct ProcessorState {
    pub cpu: u32,
    pub queue: Runqueue,
    /// Since when nothing has run there while somebody waited, in nanoseconds; if that is so.
    pub since: Option<u64>,
}

impl ProcessorState {
    /// A processor where nobody stands, with its mark at this time, in nanoseconds.
    pub(crate) fn nobody(alloc: Global, cpu: u32, mark: u64) -> ProcessorState {
        ProcessorState {
            cpu,
            queue: Runqueue::empty(alloc, 0, mark),
            since: None,
        }
    }

    /// How it stands behind these steps, or before the first of them that fails.
    pub(crate) fn after(
        self,
        alloc: Global,
        knobs: Knobs,
        steps: &[Step],
    ) -> Result<ProcessorState, Memory> {
        let ProcessorState { cpu, queue, since } = self;
        let mut replay = WindowedReplay::of_runqueue(alloc, cpu, knobs, queue, since)?;
        replay.go_through(steps)?;
        Ok(ProcessorState {
            cpu,
            since: replay.idled_since(),
            queue: replay.into_runqueue(),
        })
    }
}
