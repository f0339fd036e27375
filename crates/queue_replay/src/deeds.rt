ghost use Rattle.std.specs.Prelude.{◌≡◌, ℕ, IfOk};
ghost use Rattle.cfs_model.specs.Knobs.{KnobsView};
ghost use Rattle.replay_model.specs.declared.step.Deed.TheVariants.{Wake, Born, Leave, Arrive};
ghost use Rattle.runqueue.specs.Queue.{runqueue_view};
ghost use Rattle.queue_replay.specs.Rows.{HoldsUnmade, IsDeedTried, NamesMade, switch_deed};

use crate::claimed::{came_ticket, claimed_task, left_ticket, place_of};
use crate::context_switch::ContextSwitch;
use crate::excess::{excess, lead};
use crate::made_deed::MadeDeed;
use crate::outcome::Outcome;
use crate::step_table::{
    first_arrival_test, first_birth_test, first_leave_test, first_pick_test, first_switch_test,
    first_wake_test,
};
use cfs_model::{Knobs, Memory, Nice, Place, Policy};
use replay_model::{Deed, Step};
use runqueue::Runqueue;

// A move of a task between places: waiting, running, resting and none.
macro_rules! moves {
    ($queue:ident: runner leaves by $way:ident) => {
        $queue.put_prev($way)?
    };
    ($queue:ident: $task:ident of $pid:ident in $row:ident runs) => {
        $queue.set_next($pid, $task, $row)
    };
    ($queue:ident: $task:ident of $pid:ident in $row:ident wakes at $claim:ident) => {
        $queue.wake($pid, $task, $claim, $row)?
    };
    ($queue:ident: $pid:ident is gone) => {
        $queue.remove($pid)
    };
    ($queue:ident: $task:expr, comes) => {
        $queue.add($task)?
    };
}

/// A step's deed is tried on a runqueue as it finds it: the moves that it makes, or the first test that it fails. Where
/// a test fails, or memory is wanted, nothing changes.
#[inline(always)]
pub(crate) fn try_deed(
    queue: &mut Runqueue,
    cpu: u32,
    step: &Step,
    knobs: &Knobs,
) -> Result<Outcome, Memory>
    ensures tried { IfOk result
        (IsDeedTried knobs.now cpu (runqueue_view queue.old) step.now (runqueue_view queue.new)) }
    ensures same { HoldsUnmade result queue.old queue.new }
    ensures pids { NamesMade result step.now.deed queue.old queue.new }
{
    let deed = step.deed;
    match deed {
        Deed::Switch {
            prev,
            prev_nice,
            way,
            next,
            next_nice,
        } => {
            let switch = ContextSwitch {
                prev,
                prev_nice,
                way,
                next,
                next_nice,
            };
            try_switch(queue, step, &switch, knobs)
        }
        Deed::Wake { pid, nice } => try_wake(queue, step, pid, nice, knobs),
        Deed::Born { pid, nice, policy } => try_birth(queue, cpu, step, pid, nice, policy, knobs),
        Deed::Leave { pid, nice, dest } => try_leave(queue, cpu, step, pid, nice, dest),
        Deed::Arrive {
            pid,
            nice,
            policy,
            ..
        } => try_arrival(queue, cpu, step, pid, nice, policy),
    }
}

#[inline(always)]
pub(crate) fn try_switch(
    queue: &mut Runqueue,
    step: &Step,
    switch: &ContextSwitch,
    knobs: &Knobs,
) -> Result<Outcome, Memory>
    requires { step.now.deed ≡ switch_deed switch.now }
    ensures tried { (cpu : ℕ) → IfOk result
        (IsDeedTried knobs.now cpu (runqueue_view queue.old) step.now (runqueue_view queue.new)) }
    ensures same { HoldsUnmade result queue.old queue.new }
    ensures pids { NamesMade result step.now.deed queue.old queue.new }
{
    let prev = queue.switch_task(queue.runner_row(), switch.prev);
    let pid = switch.next;
    let row = queue.row_of(pid);
    let next = queue.switch_task(row, pid);
    let way = switch.way;
    if let Some(fault) = first_switch_test(queue, step, switch, &prev, &next) {
        return Ok(Outcome::Failed(fault));
    }
    let least = queue.least_after(way);
    let need = lead(least, pid, next);
    if let Some(fault) = first_pick_test(step.line, least, pid, need, knobs) {
        return Ok(Outcome::Failed(fault));
    }
    moves!(queue: runner leaves by way);
    moves!(queue: next of pid in row runs);
    Ok(Outcome::Made(MadeDeed { ticket: None, need }))
}

#[inline(always)]
pub(crate) fn try_wake(
    queue: &mut Runqueue,
    step: &Step,
    pid: u32,
    nice: Nice,
    knobs: &Knobs,
) -> Result<Outcome, Memory>
    requires { step.now.deed ≡ Wake pid nice }
    ensures tried { (cpu : ℕ) → IfOk result
        (IsDeedTried knobs.now cpu (runqueue_view queue.old) step.now (runqueue_view queue.new)) }
    ensures same { HoldsUnmade result queue.old queue.new }
    ensures pids { NamesMade result step.now.deed queue.old queue.new }
{
    let row = queue.row_of(pid);
    let task = queue.task_near(row, pid);
    if let Some(fault) = first_wake_test(queue, step, pid, nice, &task, knobs) {
        return Ok(Outcome::Failed(fault));
    }
    let Some(claim) = step.claim else {
        return Ok(Outcome::Made(MadeDeed {
            ticket: None,
            need: 0,
        }));
    };
    let need = excess(queue.floor(), claim.v);
    moves!(queue: task of pid in row wakes at claim);
    Ok(Outcome::Made(MadeDeed { ticket: None, need }))
}

#[inline(always)]
pub(crate) fn try_birth(
    queue: &mut Runqueue,
    cpu: u32,
    step: &Step,
    pid: u32,
    nice: Nice,
    policy: Policy,
    knobs: &Knobs,
) -> Result<Outcome, Memory>
    requires { step.now.deed ≡ Born pid nice policy }
    ensures tried { IfOk result
        (IsDeedTried knobs.now cpu (runqueue_view queue.old) step.now (runqueue_view queue.new)) }
    ensures same { HoldsUnmade result queue.old queue.new }
    ensures pids { NamesMade result step.now.deed queue.old queue.new }
{
    let task = queue.newcomer_at(pid);
    if let Some(fault) = first_birth_test(queue, step, pid, &task, knobs) {
        return Ok(Outcome::Failed(fault));
    }
    match step.claim {
        Some(claim) => {
            let need = excess(claim.v, queue.floor());
            moves!(queue: claimed_task(Place::Wait, pid, nice, policy, cpu, claim), comes);
            Ok(Outcome::Made(MadeDeed { ticket: None, need }))
        }
        None => unreachable!(),
    }
}

#[inline(always)]
pub(crate) fn try_leave(
    queue: &mut Runqueue,
    cpu: u32,
    step: &Step,
    pid: u32,
    nice: Nice,
    dest: u32,
) -> Result<Outcome, Memory>
    requires { step.now.deed ≡ Leave pid nice dest }
    ensures tried { (knobs : KnobsView) → IfOk result
        (IsDeedTried knobs cpu (runqueue_view queue.old) step.now (runqueue_view queue.new)) }
    ensures same { HoldsUnmade result queue.old queue.new }
    ensures pids { NamesMade result step.now.deed queue.old queue.new }
{
    let task = queue.task_at(pid);
    if let Some(fault) = first_leave_test(cpu, step.line, pid, nice, dest, &task) {
        return Ok(Outcome::Failed(fault));
    }
    let ticket = left_ticket(queue, step.line, pid, &task);
    moves!(queue: pid is gone);
    Ok(Outcome::Made(MadeDeed { ticket, need: 0 }))
}

#[inline(always)]
pub(crate) fn try_arrival(
    queue: &mut Runqueue,
    cpu: u32,
    step: &Step,
    pid: u32,
    nice: Nice,
    policy: Policy,
) -> Result<Outcome, Memory>
    requires { (orig : ℕ) × (step.now.deed ≡ Arrive pid nice orig policy) }
    ensures tried { (knobs : KnobsView) → IfOk result
        (IsDeedTried knobs cpu (runqueue_view queue.old) step.now (runqueue_view queue.new)) }
    ensures same { HoldsUnmade result queue.old queue.new }
    ensures pids { NamesMade result step.now.deed queue.old queue.new }
{
    let task = queue.newcomer_at(pid);
    if let Some(fault) = first_arrival_test(step, pid, &task) {
        return Ok(Outcome::Failed(fault));
    }
    match step.claim {
        Some(claim) => {
            let ticket = came_ticket(queue, step.line, pid, nice, policy, claim);
            moves!(queue: claimed_task(place_of(claim), pid, nice, policy, cpu, claim), comes);
            Ok(Outcome::Made(MadeDeed {
                ticket: Some(ticket),
                need: 0,
            }))
        }
        None => unreachable!(),
    }
}
