//! The numbers of a test on a processor as the event finds it.
ghost use Rattle.std.specs.Prelude.{◌≡◌, IfOk, IfSome, pos, ◌-ℤ◌};
ghost use Rattle.fault_bounds.specs.Bounds.{AreFoundNumbers, IsBesideBounds, IsBesideClaim, IsBesideFork};
ghost use Rattle.fault_bounds.specs.Bounds.{IsBesideLead, IsBesideNobody, IsBesidePrio, IsPrinted, prio_of};
ghost use Rattle.fault_bounds.specs.Bounds.{subject_of};
ghost use Rattle.std.specs.Int.{int_max};
ghost use Rattle.runqueue.specs.Queue.{runqueue_view};

use crate::Bound;
use crate::distance::apart;
use crate::moment::Moment;
use crate::runner::{beside_runner, is_runner};
use cfs_model::{Kind, Knobs, Memory, Nice};
use replay_model::Deed;

/// The prio that a task of nice value 0 prints.
const PRIO_OF_NICE_0: i128 = 120;

/// The numbers of a fault of this kind, which names this pid.
pub(crate) fn found_bound(
    moment: Moment,
    knobs: Knobs,
    kind: Kind,
    pid: u32,
) -> Result<Option<Bound>, Memory>
    ensures { IfOk result (λ found. IfSome found (λ bound. AreFoundNumbers knobs (runqueue_view moment.queue)
        moment.step kind pid bound.value bound.limit)) }
{
    match kind {
        Kind::PrevNotRunning => Ok(beside_runner(&moment.queue, pid)),
        Kind::WrongPrio => Ok(prio_bound(&moment, pid)),
        Kind::ClaimPid => Ok(Some(pid_bound(&moment, pid))),
        Kind::WrongPutBack => Ok(put_back_bound(&moment, pid)),
        Kind::WakeBounds => Ok(wake_bound(&moment, pid, knobs.credit())),
        Kind::ForkBounds => Ok(fork_bound(&moment, knobs.debit())),
        Kind::IdleBesideWaiting => waiting_bound(moment),
        Kind::NotLeast => Ok(lead_bound(&moment, knobs.granularity())),
        _ => Ok(None),
    }
}

/// The printed prio, and the task's own.
fn prio_bound(moment: &Moment, pid: u32) -> Option<Bound>
    ensures { IfSome result (λ bound. IsBesidePrio (runqueue_view moment.now.queue) moment.now.step.deed pid
        bound.value bound.limit) }
{
    let printed = printed_of(moment.step.deed, pid)?;
    let own = moment.queue.task_at(pid)?.nice;
    Some(Bound {
        value: prio(printed),
        limit: prio(own),
    })
}

fn prio(nice: Nice) -> i128
    ensures { result ≡ prio_of nice }
{
    PRIO_OF_NICE_0 + i128::from(nice.get())
}

/// The nice value that a deed prints of one of its tasks.
fn printed_of(deed: Deed, task: u32) -> Option<Nice>
    ensures { IfSome result (λ printed. IsPrinted deed task printed) }
{
    match deed {
        Deed::Switch {
            prev,
            prev_nice,
            next,
            next_nice,
            ..
        } => {
            if task == prev {
                Some(prev_nice)
            } else if task == next {
                Some(next_nice)
            } else {
                None
            }
        }
        Deed::Wake { pid, nice }
        | Deed::Born { pid, nice, .. }
        | Deed::Leave { pid, nice, .. }
        | Deed::Arrive { pid, nice, .. } => { if task == pid { Some(nice) } else { None } }
    }
}

/// Whose the claim is, and whose it has to be.
fn pid_bound(moment: &Moment, pid: u32) -> Bound
    ensures value { result.value ≡ pos pid }
    ensures limit { result.limit ≡ pos (subject_of moment.now.step.deed) }
{
    let subject = match moment.step.deed {
        Deed::Switch { prev, .. } => prev,
        Deed::Wake { pid, .. }
        | Deed::Born { pid, .. }
        | Deed::Leave { pid, .. }
        | Deed::Arrive { pid, .. } => pid,
    };
    Bound {
        value: i128::from(pid),
        limit: i128::from(subject),
    }
}

/// At what a task is claimed that is put back, and its own.
fn put_back_bound(moment: &Moment, pid: u32) -> Option<Bound>
    ensures { IfSome result (λ bound. IsBesideClaim (runqueue_view moment.now.queue) moment.now.step.claim pid
        (λ s. s.runtime) (λ s. s.runtime) bound.value bound.limit) }
{
    let claim = moment.step.claim?;
    let own = i128::from(moment.queue.task_at(pid)?.v);
    Some(beyond(i128::from(claim.v), own, own))
}

/// At what a woken task is claimed, and the bound that it is beyond.
fn wake_bound(moment: &Moment, pid: u32, credit: u64) -> Option<Bound>
    ensures { IfSome result (λ bound. IsBesideClaim (runqueue_view moment.now.queue) moment.now.step.claim pid
        (λ s. int_max s.runtime ((runqueue_view moment.now.queue).floor -ℤ pos credit))
        (λ s. int_max s.runtime (runqueue_view moment.now.queue).floor) bound.value bound.limit) }
{
    let claim = moment.step.claim?;
    let own = moment.queue.task_at(pid)?.v;
    Some(beyond_woken(claim.v, own, moment.queue.floor(), credit))
}

/// The virtual runtime that a woken task is claimed at, beside the one of its bounds that it is beyond.
fn beyond_woken(v: i64, own: i64, floor: i64, credit: u64) -> Bound
    ensures value { result.value ≡ v }
    ensures limit { IsBesideBounds v (int_max own (floor -ℤ pos credit)) (int_max own floor) result.limit }
{
    let greatest = i128::from(own.max(floor));
    beyond(i128::from(v), least_woken(own, floor, credit), greatest)
}

/// The least at which a task may be woken that has a virtual runtime of its own.
fn least_woken(own: i64, floor: i64, credit: u64) -> i128
    ensures { result ≡ int_max own (floor -ℤ pos credit) }
{
    i128::from(own).max(i128::from(floor) - i128::from(credit))
}

/// At what a new task is claimed, and the bound that it is beyond.
fn fork_bound(moment: &Moment, debit: u64) -> Option<Bound>
    ensures { IfSome result (λ bound. IsBesideFork debit (runqueue_view moment.now.queue) moment.now.step.claim
        bound.value bound.limit) }
{
    let claim = moment.step.claim?;
    let floor = i128::from(moment.queue.floor());
    Some(beyond(i128::from(claim.v), floor, floor + i128::from(debit)))
}

/// A number beside the one of these bounds that it is beyond.
fn beyond(value: i128, least: i128, greatest: i128) -> Bound
    ensures value { result.value ≡ value }
    ensures limit { IsBesideBounds value least greatest result.limit }
{
    let limit = if value < least { least } else { greatest };
    Bound { value, limit }
}

/// How many wait beside a switch to the idle task, and that none may.
fn waiting_bound(moment: Moment) -> Result<Option<Bound>, Memory>
    ensures { IfOk result (λ found. IfSome found (λ bound. IsBesideNobody (runqueue_view moment.queue)
        moment.step.deed bound.value bound.limit)) }
{
    let Moment { step, mut queue } = moment;
    let Deed::Switch { prev, way, .. } = step.deed else {
        return Ok(None);
    };
    if !is_runner(&queue, prev) {
        return Ok(None);
    }
    queue.put_prev(way)?;
    Ok(Some(Bound {
        value: queue.waiting().len() as i128,
        limit: 0,
    }))
}

/// How far the next task is above the least who waits, and the granularity.
fn lead_bound(moment: &Moment, granularity: u64) -> Option<Bound>
    ensures { IfSome result (λ bound. IsBesideLead granularity (runqueue_view moment.now.queue) moment.now.step.deed
        bound.value bound.limit) }
{
    let Deed::Switch {
        prev,
        way,
        next,
        ..
    } = moment.step.deed
    else {
        return None;
    };
    if !is_runner(&moment.queue, prev) {
        return None;
    }
    let task = moment.queue.task_at(next)?;
    let least = moment.queue.least_after(way)?;
    Some(lead(task.v, least, granularity))
}

/// How far a virtual runtime is above another, and the granularity.
fn lead(v: i64, from: i64, granularity: u64) -> Bound
    ensures value { result.value ≡ v -ℤ from }
    ensures limit { result.limit ≡ pos granularity }
{
    Bound {
        value: apart(v, from),
        limit: i128::from(granularity),
    }
}
