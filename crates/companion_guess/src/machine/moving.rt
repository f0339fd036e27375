//! Migrations.

use super::{Machine, Moment};
use crate::known::Known;
use crate::values::{moved, stays_in_range};
use cfs_model::{ClaimSort, Memory, Place, Task};

impl Machine {
    /// A task that doesn't run goes to another processor.
    pub(super) fn shift(
        &mut self,
        moment: Moment,
        orig: u32,
        dest: u32,
        pid: u32,
        known: &Known,
    ) -> Result<(), Memory> {
        if orig == dest {
            return Ok(());
        }
        let Some(processor) = self.processors.get_mut(orig as usize) else {
            return Ok(());
        };
        let Some(task) = processor.send(moment.row, pid) else {
            return Ok(());
        };
        let sort = match task.place {
            Place::Rest => ClaimSort::Pass,
            Place::Run | Place::Wait => ClaimSort::At,
        };
        let (from, to) = (self.floor(orig), self.floor(dest));
        if !stays_in_range(task.v, from, to) {
            self.stop_at(moment.line);
        }
        let v = moved(task.v, from, to);
        let unsettled = self.settle_moved(moment, task.place, pid, v)?;
        let come = Task {
            pid,
            nice: task.nice,
            policy: task.policy,
            cpu: dest,
            place: task.place,
            v,
        };
        self.enter(come, moment.line, unsettled, known)?;
        self.claim(moment.line, pid, v, sort)
    }

    /// What is unsettled of a task that comes to another processor with this virtual runtime. Of one that waits the
    /// next print may tell what it has there, and so what its placement was.
    fn settle_moved(
        &mut self,
        moment: Moment,
        place: Place,
        pid: u32,
        v: i64,
    ) -> Result<Option<usize>, Memory> {
        let unsettled = match self.tasks.get(pid) {
            Some(named) => named.unsettled,
            None => None,
        };
        if place != Place::Wait {
            return Ok(unsettled);
        }
        match moment.placement.printed() {
            Some(wanted) => {
                if wanted != v {
                    self.ask(pid, wanted, v)?;
                }
                Ok(None)
            }
            None => Ok(unsettled),
        }
    }
}
