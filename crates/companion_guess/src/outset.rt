use crate::forecast::Forecast;
use crate::opening::tasks_at_start;
use crate::touching::processors_of;
use cfs_model::{Entry, Memory, Task};
use std::alloc::Global;

/// What is known of a trace before a strategy is followed.
#[derive(Drop)]
pub(crate) struct Outset {
    pub cpus: u32,
    /// In nanoseconds.
    pub start: u64,
    /// By rising pid, each at virtual runtime 0.
    pub tasks: Vec<Task>,
    pub forecast: Forecast,
}

impl Outset {
    /// By the events of the trace.
    pub(crate) fn of(alloc: Global, events: &[Entry]) -> Result<Outset, Memory> {
        Ok(Outset {
            cpus: processors_of(events),
            start: events.first().map_or(0, |event| event.time),
            tasks: tasks_at_start(alloc, events)?,
            forecast: Forecast::of(alloc, events)?,
        })
    }
}
