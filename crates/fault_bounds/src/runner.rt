//! Who runs at a processor.
ghost use Rattle.std.specs.Prelude.{◌≡◌, None, Some, IfSome};
ghost use Rattle.std.specs.Bool.{OnTrue};
ghost use Rattle.cfs_model.specs.declared.task.Place.TheVariants.{Run};
ghost use Rattle.fault_bounds.specs.Bounds.{IsBesideRunner};
ghost use Rattle.replay_model.specs.Part.{IsIn};
ghost use Rattle.replay_model.specs.QueueTests.{IsRunner};
ghost use Rattle.runqueue.specs.Queue.{runqueue_view};
ghost use Rattle.runqueue.specs.Tasks.{entity_of};

use crate::Bound;
use cfs_model::IDLE_PID;
use runqueue::{Runqueue, SchedEntity};

/// The task of a pid, if it runs.
pub(crate) fn running(queue: &Runqueue, pid: u32) -> Option<SchedEntity>
    ensures runs { IfSome result (λ task. ((runqueue_view queue.now).tasks pid ≡ Some (entity_of task))
        × (task.place ≡ Run)) }
    ensures none { result ≡ None → IsIn (runqueue_view queue.now) Run pid → ⊥ }
{
    match queue.runner() {
        Some(task) => { if task.pid == pid { Some(task) } else { None } }
        None => None,
    }
}

/// Whether the task of a pid runs; of pid 0 whether nobody does.
pub(crate) fn is_runner(queue: &Runqueue, pid: u32) -> bool
    ensures { OnTrue result (IsRunner (runqueue_view queue.now) pid) }
{
    match queue.runner() {
        Some(task) => pid != IDLE_PID && task.pid == pid,
        None => pid == IDLE_PID,
    }
}

/// A pid beside that of who runs; pid 0 where nobody does.
pub(crate) fn beside_runner(queue: &Runqueue, pid: u32) -> Option<Bound>
    ensures { IfSome result (λ bound. IsBesideRunner (runqueue_view queue.now) pid bound.value bound.limit) }
{
    let runner = match queue.runner() {
        Some(task) => task.pid,
        None => IDLE_PID,
    };
    if is_runner(queue, runner) {
        Some(Bound {
            value: i128::from(pid),
            limit: i128::from(runner),
        })
    } else {
        None
    }
}
