use crate::task_at::TaskAt;
use cfs_model::{Claim, IDLE_PID, Memory, Place, Task, Way};
use runqueue::{Runqueue, SchedEntity};
use std::alloc::Global;

/// A processor: its runqueue, led by events that may break its rules. What breaks one changes nothing.
#[derive(Drop)]
pub(crate) struct Processor {
    pub queue: Runqueue,
    /// The last line of an event here that changes no nice value; 0 where there is none.
    pub free_line: u32,
    /// Since when nothing has run here while somebody waited, in nanoseconds; if that is so.
    since: Option<u64>,
}

impl Processor {
    /// Nobody stands there.
    pub(crate) fn new(alloc: Global, floor: i64, start: u64) -> Processor {
        Processor {
            queue: Runqueue::empty(alloc, floor, start),
            free_line: 0,
            since: None,
        }
    }

    /// What happens here at this time is over.
    pub(crate) fn note_idling(&mut self, time: u64) {
        self.since = if self.idles() {
            Some(self.since.unwrap_or(time))
        } else {
            None
        };
    }

    /// Nothing runs here, and somebody waits.
    fn idles(&self) -> bool {
        self.queue.runner().is_none() && self.queue.least_waiting().is_some()
    }

    /// For how long nothing has run here at this time while somebody waited, in nanoseconds.
    pub(crate) fn idled(&self, time: u64) -> u64 {
        match self.since {
            Some(since) => time.saturating_sub(since),
            None => 0,
        }
    }

    /// How far the told charges of who runs are from exact ones in sum, in virtual nanoseconds.
    pub(crate) fn drift(&self) -> u64 {
        match self.queue.runner() {
            Some(task) => task.drift.unsigned_abs(),
            None => 0,
        }
    }

    /// A task comes, unless one of its pid stands here, or it is to run beside another. Where its row is expected.
    pub(crate) fn enter(&mut self, task: Task) -> Result<usize, Memory> {
        match (self.queue.task_at(task.pid), self.queue.runner()) {
            (None, None) => self.queue.add(SchedEntity::of(task))?,
            (None, Some(_)) if task.place != Place::Run => {
                self.queue.add(SchedEntity::of(task))?
            }
            _ => (),
        }
        Ok(self.queue.row_of(task.pid))
    }

    /// Where the task of this pid is, if it stands here. Its row is expected at an index.
    pub(crate) fn task(&self, row: usize, pid: u32) -> Option<TaskAt> {
        let task = self.queue.task_near(row, pid)?;
        Some(TaskAt {
            place: task.place,
            v: task.v,
        })
    }

    /// Whether a switch from one pid, which goes this way, to another, of which this is the place here, fits where the
    /// tasks stand.
    pub(crate) fn can_switch(&self, prev: u32, way: Way, next: u32, place: Option<Place>) -> bool {
        if prev == next || !self.runs(prev) {
            return false;
        }
        if next == IDLE_PID {
            self.can_idle(prev != IDLE_PID && way == Way::Stays)
        } else {
            place == Some(Place::Wait)
        }
    }

    /// Whether nobody waits, with who is put back, if one is.
    fn can_idle(&self, puts_back: bool) -> bool {
        !puts_back && self.queue.least_waiting().is_none()
    }

    /// Whether the task of this pid runs here; of the idle task's, whether none does.
    fn runs(&self, pid: u32) -> bool {
        self.queue.runner().map_or(IDLE_PID, |task| task.pid) == pid
    }

    /// Who runs goes its way, if it is the task of this pid, and is answered as it ran.
    pub(crate) fn leave(&mut self, prev: u32, way: Way) -> Result<Option<SchedEntity>, Memory> {
        match self.queue.runner() {
            Some(task) if task.pid == prev => {
                self.queue.put_prev(way)?;
                Ok(Some(task))
            }
            _ => Ok(None),
        }
    }

    /// A task that waits is picked; whoever runs still is lost. How far it was above the least who waits, in virtual
    /// nanoseconds. Its row is expected at an index.
    pub(crate) fn pick(&mut self, row: usize, next: u32) -> Result<Option<u64>, Memory> {
        let (Some(task), Some(least)) = (
            self.queue.switch_task(row, next),
            self.queue.least_waiting(),
        ) else {
            return Ok(None);
        };
        if task.place != Place::Wait {
            return Ok(None);
        }
        if self.queue.runner().is_some() {
            self.queue.put_prev(Way::Ends)?;
            let picked = self.queue.switch_task(row, next);
            self.queue.set_next(next, picked, row);
        } else {
            self.queue.set_next(next, Some(task), row);
        }
        Ok(Some(task.v.abs_diff(least)))
    }

    /// A task that rests waits where it is claimed. Its row is expected at an index.
    pub(crate) fn wake(&mut self, row: usize, claim: Claim) -> Result<(), Memory> {
        let task = self.queue.task_near(row, claim.pid);
        self.queue.wake(claim.pid, task, claim, row)
    }

    /// A task that doesn't run leaves, and is answered as it stood. Its row is expected at an index.
    pub(crate) fn send(&mut self, row: usize, pid: u32) -> Option<SchedEntity> {
        let task = self.queue.task_near(row, pid)?;
        if task.place == Place::Run {
            return None;
        }
        self.queue.remove(pid);
        Some(task)
    }

    /// The least who waits, or what is nearest to that within the bounds.
    pub(crate) fn level(&self, low: i64, high: i64) -> i64 {
        self.queue
            .least_waiting()
            .unwrap_or(high)
            .min(high)
            .max(low)
    }
}
