ghost use Rattle.std.specs.Prelude.{◌≡◌};
ghost use Rattle.runqueue.specs.Tasks.{sched_entity_of};

use cfs_model::{Nice, Place, Policy, Task};

/// A task as it stands at a processor: the kernel's `sched_entity`.
#[derive(Clone, Copy, Debug, PartialEq, Eq)]
pub struct SchedEntity {
    /// From 1.
    pub pid: u32,
    pub nice: Nice,
    pub policy: Policy,
    pub place: Place,
    /// The virtual runtime, in virtual nanoseconds, signed.
    pub v: i64,
    /// By how much its told charges stray in sum from exact ones since it came here, in virtual nanoseconds, signed.
    pub drift: i64,
}

impl SchedEntity {
    /// A task that comes to a processor, or that the start names there: it has no drift.
    pub fn of(task: Task) -> SchedEntity
        ensures { result ≡ sched_entity_of task }
    {
        SchedEntity {
            pid: task.pid,
            nice: task.nice,
            policy: task.policy,
            place: task.place,
            v: task.v,
            drift: 0,
        }
    }
}
