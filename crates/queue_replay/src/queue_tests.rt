ghost use Rattle.std.specs.Prelude.{◌≡◌, ◌≢◌, ℕ, ℤ, IsTrue, IsSome, None, ◌↔◌};
ghost use Rattle.cfs_model.specs.declared.task.Place.TheVariants.{Run};
ghost use Rattle.replay_model.specs.Part.{Part, IsIn};
ghost use Rattle.replay_model.specs.QueueTests.{IsMoveHome, IsRunner, HasOtherNice, HasOtherPrio};
ghost use Rattle.replay_model.specs.declared.step.Deed.TheVariants.{Leave};
ghost use Rattle.runqueue.specs.Queue.{runqueue_view, IsSwitchTask, IsTaskAt};
ghost use Rattle.queue_replay.specs.FirstTest.{Decides};

use cfs_model::{IDLE_PID, Nice, Place};
use runqueue::{Runqueue, SchedEntity};

/// The task goes to the processor where it is.
pub(crate) fn move_home(cpu: u32, pid: u32, dest: u32) -> Option<u32>
    ensures { (nice : ℤ) → Decides result (IsMoveHome cpu (Leave pid nice dest)) }
{
    (dest == cpu).then_some(pid)
}

/// The pid doesn't stand here.
pub(crate) fn strange(pid: u32, task: &Option<SchedEntity>) -> Option<u32>
    ensures { (part : Part) → IsTaskAt part pid task.now
        → Decides result (λ named. (part.tasks pid ≡ None) × (named ≡ pid)) }
{
    if task.is_none() { Some(pid) } else { None }
}

/// The pid stands here.
pub(crate) fn already(pid: u32, task: &Option<SchedEntity>) -> Option<u32>
    ensures { (part : Part) → IsTaskAt part pid task.now
        → Decides result (λ named. IsSome (part.tasks pid) × (named ≡ pid)) }
{
    if task.is_some() { Some(pid) } else { None }
}

/// The task runs here.
pub(crate) fn move_running(pid: u32, task: &Option<SchedEntity>) -> Option<u32>
    ensures { (part : Part) → IsTaskAt part pid task.now
        → Decides result (λ named. IsIn part Run pid × (named ≡ pid)) }
{
    if stands_in(*task, Place::Run) {
        Some(pid)
    } else {
        None
    }
}

/// The task stands here, with another nice value than the printed one.
pub(crate) fn wrong_prio(pid: u32, nice: Nice, task: &Option<SchedEntity>) -> Option<u32>
    ensures { (part : Part) → IsTaskAt part pid task.now
        → Decides result (λ named. HasOtherNice part pid nice × (named ≡ pid)) }
{
    if has_other_nice(*task, nice) {
        Some(pid)
    } else {
        None
    }
}

/// The pid is what runs here; pid 0 where nobody does.
pub(crate) fn is_runner(queue: &Runqueue, pid: u32, task: Option<SchedEntity>) -> bool
    requires { IsSwitchTask (runqueue_view queue.now) pid task }
    ensures { IsTrue result ↔ IsRunner (runqueue_view queue.now) pid }
{
    if pid == IDLE_PID {
        queue.runner().is_none()
    } else {
        stands_in(task, Place::Run)
    }
}

/// The task stands here, in this place.
pub(crate) fn stands_in(task: Option<SchedEntity>, place: Place) -> bool
    ensures { (part : Part) (pid : ℕ) → IsTaskAt part pid task → (IsTrue result ↔ IsIn part place pid) }
{
    matches!(task, Some(task) if task.place == place)
}

/// The task stands here, with another nice value than the printed one.
fn has_other_nice(task: Option<SchedEntity>, nice: Nice) -> bool
    ensures { (part : Part) (pid : ℕ) → IsTaskAt part pid task → (IsTrue result ↔ HasOtherNice part pid nice) }
{
    match task {
        Some(task) => task.nice != nice,
        None => false,
    }
}

/// The same at a switch, where that of pid 0 isn't looked at.
pub(crate) fn has_other_prio(task: Option<SchedEntity>, pid: u32, nice: Nice) -> bool
    ensures { (part : Part) → IsSwitchTask part pid task → (IsTrue result ↔ HasOtherPrio part pid nice) }
{
    pid != IDLE_PID && has_other_nice(task, nice)
}
