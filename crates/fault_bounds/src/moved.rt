//! The numbers of a migration.
ghost use Rattle.std.specs.Prelude.{◌≡◌, ◌+ℤ◌, ◌-ℤ◌, IfOk, IfSome};
ghost use Rattle.fault_bounds.specs.Bounds.{AreMovedNumbers, IsBesideMoved};
ghost use Rattle.runqueue.specs.Queue.{runqueue_view};
ghost use Rattle.sched_record.specs.Record.{record_view};

use crate::Bound;
use crate::distance::{above, apart};
use crate::moment::{Moment, moment_at};
use cfs_model::{Knobs, Memory};
use replay_model::Deed;
use sched_record::Record;
use std::alloc::Global;

/// At what a task is claimed that comes to a processor, and at what by the rules.
pub(crate) fn moved_bound(
    alloc: Global,
    joined: &Record,
    knobs: Knobs,
    cpu: u32,
    line: u32,
    task: u32,
) -> Result<Option<Bound>, Memory>
    ensures { IfOk result (λ found. IfSome found (λ bound. AreMovedNumbers knobs (record_view joined.now) cpu line task
        bound.value bound.limit)) }
{
    let Some(here) = moment_at(alloc, joined, knobs, cpu, line)? else {
        return Ok(None);
    };
    match here.step.deed {
        Deed::Arrive { pid, orig, .. } if pid == task => {
            match moment_at(alloc, joined, knobs, orig, line)? {
                Some(there) => Ok(between(&there, &here, pid)),
                None => Ok(None),
            }
        }
        _ => Ok(None),
    }
}

/// The same by the processor where it was, and the one to which it comes.
fn between(there: &Moment, here: &Moment, pid: u32) -> Option<Bound>
    ensures { IfSome result (λ bound. IsBesideMoved (runqueue_view there.now.queue) (runqueue_view here.now.queue)
        here.now.step.claim pid bound.value bound.limit) }
{
    let claim = here.step.claim?;
    let task = there.queue.task_at(pid)?;
    Some(beside_moved(claim.v, task.v, there.queue.floor(), here.queue.floor()))
}

/// At what a task is claimed, and at what it is by the rules that was at this: as far from the floor as it was.
fn beside_moved(claimed: i64, v: i64, from: i64, to: i64) -> Bound
    ensures value { result.value ≡ claimed }
    ensures limit { result.limit ≡ (v -ℤ from) +ℤ to }
{
    Bound {
        value: i128::from(claimed),
        limit: above(apart(v, from), to),
    }
}
