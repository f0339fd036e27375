use crate::pid_rows::PidRows;
use crate::print::Print;
use cfs_model::Memory;
use std::alloc::Global;

/// The next print of each task behind an event, while the events are gone through from the last to the first.
#[derive(Drop)]
pub(crate) struct NextPrints {
    /// A row for each task that is printed behind; none in it where the task is placed anew before that.
    rows: PidRows<Option<Print>>,
}

impl NextPrints {
    /// Behind the last event.
    pub(crate) fn new(alloc: Global) -> NextPrints {
        NextPrints {
            rows: PidRows::new(alloc),
        }
    }

    /// Whether something is printed of the task.
    pub(crate) fn names(&self, pid: u32) -> bool {
        self.rows.get(pid).is_some()
    }

    /// The next print of a task, where that is before it goes to sleep, ends, is born or is moved.
    pub(crate) fn of(&self, pid: u32) -> Option<Print> {
        self.rows.get(pid).flatten()
    }

    /// The print before those that were met.
    pub(crate) fn meet(&mut self, print: Print) -> Result<(), Memory> {
        self.rows.set(print.pid, Some(print))
    }

    /// The task goes to sleep, ends, is born or is moved before what was met.
    pub(crate) fn part(&mut self, pid: u32) {
        if let Some(row) = self.rows.get_mut(pid) {
            *row = None;
        }
    }
}
