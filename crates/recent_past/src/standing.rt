use crate::ProcessorState;
use cfs_model::{Memory, Place};
use queue_replay::WindowedReplay;
use runqueue::{Runqueue, SchedEntity};
use std::alloc::{AllocError, Global};

/// How a processor stood at one moment: what its runqueue had, without the rows of those who went before.
#[derive(Drop)]
pub(crate) struct Standing {
    cpu: u32,
    pub tasks: Vec<SchedEntity>,
    /// In virtual nanoseconds, signed.
    floor: i64,
    /// The time of the last charge, in nanoseconds.
    mark: u64,
    /// Since when nothing has run there while somebody waited, in nanoseconds; if that is so.
    since: Option<u64>,
}

impl Standing {
    /// Where a replay stands. Nobody stands there but some of these.
    pub(crate) fn of(
        alloc: Global,
        replay: &WindowedReplay,
        pids: &[u32],
    ) -> Result<Standing, AllocError> {
        let queue = replay.runqueue();
        let mut tasks = Vec::new(alloc);
        for pid in pids {
            if let Some(task) = queue.task_at(*pid) {
                tasks.push(task)?;
            }
        }
        Ok(Standing {
            cpu: replay.cpu(),
            tasks,
            floor: queue.floor(),
            mark: queue.mark(),
            since: replay.idled_since(),
        })
    }

    /// The pids of those who stood there.
    pub(crate) fn pids(&self, alloc: Global) -> Result<Vec<u32>, AllocError> {
        let mut pids = Vec::new(alloc);
        for task in &self.tasks {
            pids.push(task.pid)?;
        }
        Ok(pids)
    }

    /// The processor, as it stood.
    pub(crate) fn state(&self, alloc: Global) -> Result<ProcessorState, Memory> {
        let mut queue = Runqueue::empty(alloc, self.floor, self.mark);
        for task in &self.tasks {
            put_in(&mut queue, *task)?;
        }
        Ok(ProcessorState {
            cpu: self.cpu,
            queue,
            since: self.since,
        })
    }
}

/// Lets a task stand there, unless it does already, or runs where another one does.
fn put_in(queue: &mut Runqueue, task: SchedEntity) -> Result<(), Memory> {
    if queue.task_at(task.pid).is_some() {
        return Ok(());
    }
    match task.place {
        Place::Run => match queue.runner() {
            Some(_) => Ok(()),
            None => queue.add(task),
        },
        Place::Wait | Place::Rest => queue.add(task),
    }
}
