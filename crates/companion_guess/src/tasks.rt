use crate::named::Named;
use crate::pid_rows::PidRows;
use cfs_model::{Memory, Nice};
use std::alloc::Global;

/// Every task by its pid. A row stays when its task ends.
#[derive(Drop)]
pub(crate) struct Tasks {
    rows: PidRows<Option<Named>>,
}

impl Tasks {
    /// None.
    pub(crate) fn new(alloc: Global) -> Tasks {
        Tasks {
            rows: PidRows::new(alloc),
        }
    }

    pub(crate) fn get(&self, pid: u32) -> Option<Named> {
        self.rows.get(pid).flatten()
    }

    pub(crate) fn get_mut(&mut self, pid: u32) -> Option<&mut Named> {
        self.rows.get_mut(pid)?.as_mut()
    }

    /// Where the row of the task of this pid is in its processor's runqueue; where there is none, an index that no row
    /// has.
    pub(crate) fn row_of(&self, pid: u32) -> usize {
        match self.rows.get_ref(pid) {
            Some(Some(named)) => named.row,
            _ => usize::MAX,
        }
    }

    /// A line names the task of this pid with a nice value. Answers how it stood before, where that is another one.
    pub(crate) fn name(&mut self, pid: u32, line: u32, nice: Nice) -> Option<Named> {
        let named = self.get_mut(pid)?;
        if named.nice == nice {
            named.line = line;
            return None;
        }
        let before = *named;
        named.line = line;
        named.nice = nice;
        Some(before)
    }

    /// The task of this pid stands so, whether there was one or not.
    pub(crate) fn set(&mut self, pid: u32, named: Named) -> Result<(), Memory> {
        self.rows.set(pid, Some(named))
    }

    pub(crate) fn remove(&mut self, pid: u32) {
        if let Some(row) = self.rows.get_mut(pid) {
            *row = None;
        }
    }
}
