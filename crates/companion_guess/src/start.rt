//! What stands at the start, and at which values.

use crate::floors::Floors;
use crate::known::Known;
use crate::learnt::Learnt;
use crate::outset::Outset;
use crate::wishes::Wishes;
use cfs_model::{Entry, Memory, Place, Task};
use std::alloc::Global;

/// The tasks and the floors at the start.
#[derive(Drop)]
pub(crate) struct Start {
    /// By rising pid.
    pub tasks: Vec<Task>,
    floors: Floors,
}

impl Start {
    /// As the kernel's own values tell it; where nothing is known of these, each begins at virtual runtime 0.
    pub(crate) fn of(
        alloc: Global,
        outset: &Outset,
        events: &[Entry],
        wishes: &Wishes,
        learnt: Learnt<'_>,
    ) -> Result<Start, Memory> {
        let known = learnt.known;
        let mut start = Start {
            tasks: Vec::with_capacity(alloc, outset.tasks.len())?,
            floors: Floors::of(outset, events, wishes, learnt),
        };
        for task in outset.tasks.as_slice() {
            let mut placed = *task;
            placed.v = match known.at_start(task, outset.start) {
                Some(v) => v,
                None => start.unknown(task, known),
            };
            start.tasks.push(placed)?;
        }
        Ok(start)
    }

    /// The floor of a processor.
    pub(crate) fn floor(&self, cpu: u32) -> i64 {
        self.floors.at(cpu).unwrap_or(0)
    }

    /// The virtual runtime of a task of which nothing is known. One that waits hides none that wait there too, and
    /// holds no floor.
    fn unknown(&self, task: &Task, known: &Known) -> i64 {
        match task.place {
            Place::Wait => known.prints().greatest(task.cpu),
            Place::Run | Place::Rest => self.floor(task.cpu),
        }
    }
}
