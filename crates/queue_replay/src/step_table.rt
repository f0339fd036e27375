ghost use Rattle.std.specs.Prelude.{◌≡◌, ◌≢◌, ℕ, ℤ, Option, None, [], IfSome};
ghost use Rattle.cfs_model.specs.Knobs.{KnobsView};
ghost use Rattle.replay_model.specs.Part.{Part, Entity};
ghost use Rattle.replay_model.specs.QueueTests.{IsPrevNotRunning};
ghost use Rattle.cfs_model.specs.declared.policy.Policy.{Policy};
ghost use Rattle.replay_model.specs.declared.step.Deed.TheVariants.{Wake, Born, Leave, Arrive};
ghost use Rattle.queue_replay.specs.FirstTest.{FindsFirst, IsFirst, IsOn};
ghost use Rattle.queue_replay.specs.Picks.{IsLead};
ghost use Rattle.runqueue.specs.Queue.{runqueue_view, IsLeastIfWaiting, IsSwitchTask, IsTaskAt};
ghost use Rattle.queue_replay.specs.Rows.{arrival_tests, birth_tests, claim_tests, leave_tests, moved_tests};
ghost use Rattle.queue_replay.specs.Rows.{pick_tests, switch_deed, switch_tests, wake_tests};

use crate::claim_tests::{
    arrival_claim_missing, claim_extra, claim_missing, claim_pid, fork_outside,
    idle_beside_waiting, if_resting, is_as_needed, not_least, wake_outside,
};
use crate::context_switch::ContextSwitch;
use crate::queue_tests::{already, move_home, move_running, strange, wrong_prio};
use cfs_model::{Claim, Kind, Knobs, Nice};
use replay_model::{Step, StepFault};
use runqueue::{Runqueue, SchedEntity};

// A deed's tests in their order, each with the kind of fault that it is on the step's line: the first that holds is
// answered.
macro_rules! guard {
    ($line:expr; $($kind:ident: $condition:expr,)+) => {
        $(if let Some(pid) = $condition {
            return Some(StepFault {
                line: $line,
                kind: Kind::$kind,
                pid,
                deadline: None,
            });
        })+
    };
}

/// A switch, before its previous task has gone its way: the first test that it fails. The two are its tasks as they
/// stand here.
#[inline(always)]
pub(crate) fn first_switch_test(
    queue: &Runqueue,
    step: &Step,
    switch: &ContextSwitch,
    prev: &Option<SchedEntity>,
    next: &Option<SchedEntity>,
) -> Option<StepFault>
    requires prev { IsSwitchTask (runqueue_view queue.now) switch.now.prev prev.now }
    requires next { IsSwitchTask (runqueue_view queue.now) switch.now.next next.now }
    ensures runner { result ≡ None → (pid : ℕ) → IsPrevNotRunning (runqueue_view queue.now) (switch_deed switch.now) pid
        → ⊥ }
    ensures two { result ≡ None → switch.now.prev ≢ switch.now.next }
    ensures line { IfSome result (IsOn step.now.line) }
    ensures first { (knobs : KnobsView) → FindsFirst result
        (pick_tests knobs (runqueue_view queue.now) (switch_deed switch.now))
        (switch_tests knobs (runqueue_view queue.now) (switch_deed switch.now) step.now.claim) }
{
    guard!(
        step.line;
        SelfSwitch: switch.self_switch(),
        PrevNotRunning: switch.prev_not_running(queue, prev),
        WrongPrio: switch.wrong_prio(prev, next),
    );
    if let Some(fault) = first_claim_test(step.line, switch.claimant(), step.claim) {
        return Some(fault);
    }
    guard!(
        step.line;
        WrongPutBack: switch.wrong_put_back(prev, step.claim),
        NextNotWaiting: switch.next_not_waiting(next),
    );
    None
}

/// A switch's pick: the first test that it fails. Once the previous task has gone its way, the least of those who wait
/// has this virtual runtime, and the next task, as it stands, leads it by so many virtual nanoseconds.
#[inline(always)]
pub(crate) fn first_pick_test(
    line: u32,
    least: Option<i64>,
    next: u32,
    lead: u64,
    knobs: &Knobs,
) -> Option<StepFault>
    ensures line { IfSome result (IsOn line) }
    ensures first { (own : Option Entity) (moved : Part) → IsLeastIfWaiting moved least → IsLead own moved next lead
        → IsFirst result (moved_tests knobs.now.granularity own moved next) }
{
    guard!(
        line;
        IdleBesideWaiting: idle_beside_waiting(least, next),
        NotLeast: not_least(next, lead, knobs.granularity()),
    );
    None
}

/// A wakeup: the first test that it fails. The task is the woken one as it stands here.
#[inline(always)]
pub(crate) fn first_wake_test(
    queue: &Runqueue,
    step: &Step,
    pid: u32,
    nice: Nice,
    task: &Option<SchedEntity>,
    knobs: &Knobs,
) -> Option<StepFault>
    requires { IsTaskAt (runqueue_view queue.now) pid task.now }
    ensures line { IfSome result (IsOn step.now.line) }
    ensures first { IsFirst result
        (wake_tests knobs.now.credit (runqueue_view queue.now) (Wake pid nice) step.now.claim) }
{
    guard!(
        step.line;
        Strange: strange(pid, task),
        WrongPrio: wrong_prio(pid, nice, task),
    );
    if let Some(fault) = first_claim_test(step.line, if_resting(pid, task), step.claim) {
        return Some(fault);
    }
    guard!(
        step.line;
        WakeBounds: wake_outside(queue, pid, task, step.claim, knobs.credit()),
    );
    None
}

/// The claim of a switch or a wakeup, where this pid needs one, or none does: the first test that it fails. Mostly it
/// fails none, which is told by one look.
#[inline(always)]
fn first_claim_test(line: u32, needed: Option<u32>, claim: Option<Claim>) -> Option<StepFault>
    ensures line { IfSome result (IsOn line) }
    ensures first { IsFirst result (claim_tests needed claim []) }
{
    if is_as_needed(needed, claim) {
        return None;
    }
    guard!(
        line;
        ClaimMissing: claim_missing(needed, claim),
        ClaimExtra: claim_extra(needed, claim),
        ClaimPid: claim_pid(needed, claim),
    );
    None
}

/// A birth: the first test that it fails. The task is the one of its pid, if one stands here.
pub(crate) fn first_birth_test(
    queue: &Runqueue,
    step: &Step,
    pid: u32,
    task: &Option<SchedEntity>,
    knobs: &Knobs,
) -> Option<StepFault>
    requires { IsTaskAt (runqueue_view queue.now) pid task.now }
    ensures line { IfSome result (IsOn step.now.line) }
    ensures first { (nice : ℤ) (policy : Policy) → IsFirst result
        (birth_tests knobs.now.debit (runqueue_view queue.now) (Born pid nice policy) step.now.claim) }
{
    let needed = Some(pid);
    guard!(
        step.line;
        Already: already(pid, task),
        ClaimMissing: claim_missing(needed, step.claim),
        ClaimPid: claim_pid(needed, step.claim),
        ForkBounds: fork_outside(queue, pid, step.claim, knobs.debit()),
    );
    None
}

/// A task that leaves: the first test that it fails. The task is as it stands here.
pub(crate) fn first_leave_test(
    cpu: u32,
    line: u32,
    pid: u32,
    nice: Nice,
    dest: u32,
    task: &Option<SchedEntity>,
) -> Option<StepFault>
    ensures line { IfSome result (IsOn line) }
    ensures first { (part : Part) → IsTaskAt part pid task.now
        → IsFirst result (leave_tests cpu part (Leave pid nice dest)) }
{
    guard!(
        line;
        MoveHome: move_home(cpu, pid, dest),
        Strange: strange(pid, task),
        MoveRunning: move_running(pid, task),
        WrongPrio: wrong_prio(pid, nice, task),
    );
    None
}

/// A task that comes: the first test that it fails. The task is the one of its pid, if one stands here.
pub(crate) fn first_arrival_test(
    step: &Step,
    pid: u32,
    task: &Option<SchedEntity>,
) -> Option<StepFault>
    ensures line { IfSome result (IsOn step.now.line) }
    ensures first { (part : Part) (nice : ℤ) (orig : ℕ) (policy : Policy) → IsTaskAt part pid task.now
        → IsFirst result (arrival_tests part (Arrive pid nice orig policy) step.now.claim) }
{
    guard!(
        step.line;
        Already: already(pid, task),
        ClaimMissing: arrival_claim_missing(pid, step.claim),
        ClaimPid: claim_pid(Some(pid), step.claim),
    );
    None
}
