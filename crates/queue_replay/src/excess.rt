ghost use Rattle.std.specs.Prelude.{Option, ℤ, option_map};
ghost use Rattle.replay_model.specs.Needs.{IsExcess};
ghost use Rattle.replay_model.specs.Part.{Part};
ghost use Rattle.queue_replay.specs.Picks.{IsLead};
ghost use Rattle.runqueue.specs.Queue.{IsLeastIfWaiting};
ghost use Rattle.runqueue.specs.Tasks.{entity_of};

use cfs_model::IDLE_PID;
use runqueue::SchedEntity;

/// How far a virtual runtime is above another, in virtual nanoseconds; 0 where it isn't.
pub(crate) fn excess(v: i64, from: i64) -> u64
    ensures { IsExcess v from result }
{
    if v > from { v.abs_diff(from) } else { 0 }
}

/// How far the next task is above the least of those who wait, in virtual nanoseconds.
pub(crate) fn lead(least: Option<i64>, next: u32, own: Option<SchedEntity>) -> u64
    ensures { (part : Part) → IsLeastIfWaiting part least → IsLead (option_map entity_of own) part next result }
{
    if next == IDLE_PID {
        return 0;
    }
    match (own, least) {
        (Some(task), Some(least)) => excess(task.v, least),
        _ => 0,
    }
}
