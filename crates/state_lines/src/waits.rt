use cfs_model::{Memory, Place};
use pid_table::PidTable;
use runqueue::SchedEntity;
use std::alloc::Global;

/// Since when tasks wait at a processor, or last waited there; in nanoseconds.
#[derive(Drop)]
pub(crate) struct Waits {
    table: PidTable<u64>,
}

impl Waits {
    /// Nobody has waited.
    pub(crate) fn new(alloc: Global) -> Waits {
        Waits {
            table: PidTable::new(alloc),
        }
    }

    /// Notes that a task waits from a time on, if it does now and didn't before.
    pub(crate) fn note(
        &mut self,
        before: Option<SchedEntity>,
        after: Option<SchedEntity>,
        time: u64,
    ) -> Result<(), Memory> {
        match after {
            Some(task) if task.place == Place::Wait && !is_waiting(before) => self.begin(
                task.pid, time,
            ),
            _ => Ok(()),
        }
    }

    /// A task waits from a time on.
    pub(crate) fn begin(&mut self, pid: u32, time: u64) -> Result<(), Memory> {
        match self.table.index_of(pid) {
            Some(index) => *self.table.row_mut(index) = time,
            None => {
                self.table.make_room()?;
                self.table.add(pid, time);
            }
        }
        Ok(())
    }

    /// Since when a task has waited that is picked.
    pub(crate) fn since(&self, pid: u32) -> Option<u64> {
        let index = self.table.index_of(pid)?;
        self.table.rows().get(index).copied()
    }
}

fn is_waiting(task: Option<SchedEntity>) -> bool {
    match task {
        Some(task) => task.place == Place::Wait,
        None => false,
    }
}
