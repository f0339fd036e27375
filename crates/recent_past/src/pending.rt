use crate::Placing;
use cfs_model::{Claim, Entry};
use pid_table::PidTable;
use std::alloc::{AllocError, Global};

/// Tasks of which it is sought how they were placed.
#[derive(Drop)]
pub(crate) struct Pending {
    /// For each whether that was found.
    tasks: PidTable<bool>,
    /// How many weren't found.
    left: usize,
    /// What was found, in the order in which it was.
    pub found: Vec<Placing>,
}

impl Pending {
    /// Of no task.
    pub(crate) fn new(alloc: Global) -> Pending {
        Pending {
            tasks: PidTable::new(alloc),
            left: 0,
            found: Vec::new(alloc),
        }
    }

    /// Seeks that of one more task.
    pub(crate) fn add(&mut self, pid: u32) -> Result<(), AllocError> {
        self.tasks.make_room()?;
        match self.tasks.index_of(pid) {
            Some(_) => {}
            None => {
                self.tasks.add(pid, false);
                self.left = self.left.saturating_add(1);
            }
        }
        Ok(())
    }

    /// Whether all were found.
    pub(crate) fn is_over(&self) -> bool {
        self.left == 0
    }

    /// A claim on an event's line: it tells how its task was placed, if that is sought and wasn't found before.
    pub(crate) fn offer(&mut self, event: Entry, claim: Claim) -> Result<(), AllocError> {
        // Named: the check knows the types of what is.
        let _act = event.act;
        match self.tasks.index_of(claim.pid) {
            Some(index) => {
                if !self.tasks.rows()[index] {
                    self.found.push(Placing::of(event, claim))?;
                    *self.tasks.row_mut(index) = true;
                    self.left = self.left.saturating_sub(1);
                }
                Ok(())
            }
            None => Ok(()),
        }
    }

    /// Those of which nothing was found.
    pub(crate) fn missing(&self, alloc: Global) -> Result<Vec<u32>, AllocError> {
        let mut missing = Vec::new(alloc);
        for (pid, is_found) in self.tasks.pids().iter().zip(self.tasks.rows()) {
            if !*is_found {
                missing.push(*pid)?;
            }
        }
        Ok(missing)
    }
}
