ghost use Rattle.std.specs.Prelude.{◌≡◌, ◌≢◌, ℕ, ℤ, IsTrue, ◌↔◌, Option, Some, true, pos, ◌-ℤ◌, ◌≤ℤ◌};
ghost use Rattle.replay_model.specs.ClaimTests.{if_resting, IsClaimMissing, IsInWakeBounds, IsWakeOutside};
ghost use Rattle.replay_model.specs.ClaimTests.{IsInForkBounds, IsForkOutside};
ghost use Rattle.replay_model.specs.Part.{Part, Entity, place_in};
ghost use Rattle.cfs_model.specs.declared.policy.Policy.{Policy};
ghost use Rattle.replay_model.specs.declared.step.Deed.TheVariants.{Wake, Born, Arrive};
ghost use Rattle.cfs_model.specs.declared.task.Place.TheVariants.{Rest};
ghost use Rattle.queue_replay.specs.Picks.{IdlesBeside, IsAboveGranularity, IsLead};
ghost use Rattle.runqueue.specs.Queue.{runqueue_view, IsLeastIfWaiting, IsTaskAt};
ghost use Rattle.queue_replay.specs.FirstTest.{Decides};
ghost use Rattle.queue_replay.specs.Rows.{HasClaimAt, IsUnclaimed, IsNeedless, IsOfAnother};

use crate::excess::excess;
use crate::queue_tests::stands_in;
use cfs_model::{Claim, ClaimSort, IDLE_PID, Place};
use runqueue::{Runqueue, SchedEntity};

/// The pid, if its task rests here.
pub(crate) fn if_resting(pid: u32, task: &Option<SchedEntity>) -> Option<u32>
    ensures { (part : Part) → IsTaskAt part pid task.now → result ≡ if_resting pid (place_in part pid) }
{
    if stands_in(*task, Place::Rest) {
        Some(pid)
    } else {
        None
    }
}

/// The line has a claim of the sort `at`.
fn has_claim_at(claim: Option<Claim>) -> bool
    ensures { IsTrue result ↔ HasClaimAt claim }
{
    matches!(claim, Some(claim) if claim.sort == ClaimSort::At)
}

/// The line has the claim that is needed, of this pid and of the sort `at`; or none is needed, and it has none.
#[inline(always)]
pub(crate) fn is_as_needed(needed: Option<u32>, claim: Option<Claim>) -> bool
    ensures { result ≡ true → (pid : ℕ) → (¬ IsUnclaimed needed claim pid) × (¬ IsNeedless needed claim pid)
        × (¬ IsOfAnother needed claim pid) }
{
    match (needed, claim) {
        (Some(pid), Some(claim)) => claim.pid == pid && claim.sort == ClaimSort::At,
        (None, None) => true,
        (Some(_), None) | (None, Some(_)) => false,
    }
}

/// A claim of this pid is needed, and the line has none of the sort `at`.
pub(crate) fn claim_missing(needed: Option<u32>, claim: Option<Claim>) -> Option<u32>
    ensures { Decides result (IsUnclaimed needed claim) }
{
    if has_claim_at(claim) { None } else { needed }
}

/// A task comes, and the line has no claim.
pub(crate) fn arrival_claim_missing(pid: u32, claim: Option<Claim>) -> Option<u32>
    ensures { (part : Part) (nice : ℤ) (orig : ℕ) (policy : Policy)
        → Decides result (IsClaimMissing part (Arrive pid nice orig policy) claim) }
{
    match claim {
        Some(_) => None,
        None => Some(pid),
    }
}

/// No claim is needed, and the line has one.
pub(crate) fn claim_extra(needed: Option<u32>, claim: Option<Claim>) -> Option<u32>
    ensures { Decides result (IsNeedless needed claim) }
{
    let claim = claim?;
    match needed {
        Some(_) => None,
        None => Some(claim.pid),
    }
}

/// A claim is needed, and the line's names another task.
pub(crate) fn claim_pid(needed: Option<u32>, claim: Option<Claim>) -> Option<u32>
    ensures { Decides result (IsOfAnother needed claim) }
{
    let claim = claim?;
    let pid = needed?;
    if claim.pid != pid {
        Some(claim.pid)
    } else {
        None
    }
}

/// A woken task that rests is claimed outside its bounds; the credit is in virtual nanoseconds.
#[inline(always)]
pub(crate) fn wake_outside(
    queue: &Runqueue,
    pid: u32,
    task: &Option<SchedEntity>,
    claim: Option<Claim>,
    credit: u64,
) -> Option<u32>
    requires { IsTaskAt (runqueue_view queue.now) pid task.now }
    ensures { (nice : ℤ) → Decides result (IsWakeOutside credit (runqueue_view queue.now) (Wake pid nice) claim) }
{
    let claim = claim?;
    if rests_outside(queue, claim, credit, *task) {
        Some(pid)
    } else {
        None
    }
}

/// A new task is claimed outside its bounds; the debit is in virtual nanoseconds.
pub(crate) fn fork_outside(
    queue: &Runqueue,
    pid: u32,
    claim: Option<Claim>,
    debit: u64,
) -> Option<u32>
    ensures { (nice : ℤ) (policy : Policy) → Decides result
        (IsForkOutside debit (runqueue_view queue.now) (Born pid nice policy) claim) }
{
    let claim = claim?;
    if is_in_fork_bounds(queue.floor(), claim, debit) {
        None
    } else {
        Some(pid)
    }
}

/// The processor goes idle, and somebody waits here: the least of them has this virtual runtime.
pub(crate) fn idle_beside_waiting(least: Option<i64>, next: u32) -> Option<u32>
    ensures { (part : Part) → IsLeastIfWaiting part least → Decides result (IdlesBeside part next) }
{
    if next != IDLE_PID {
        return None;
    }
    least.is_some().then_some(IDLE_PID)
}

/// The next task leads the least of those who wait by more than the granularity; both in virtual nanoseconds.
pub(crate) fn not_least(next: u32, lead: u64, granularity: u64) -> Option<u32>
    ensures { (own : Option Entity) (part : Part) → IsLead own part next lead
        → Decides result (IsAboveGranularity granularity own part next) }
{
    if granularity < lead { Some(next) } else { None }
}

/// The task stands here, at another virtual runtime than the claimed one.
pub(crate) fn is_at_other(task: Option<SchedEntity>, claim: Claim) -> bool
    ensures { (part : Part) (pid : ℕ) → IsTaskAt part pid task
        → (IsTrue result ↔ ((s : Entity) × (part.tasks pid ≡ Some s) × (claim.v ≢ s.runtime))) }
{
    match task {
        Some(task) => claim.v != task.v,
        None => false,
    }
}

/// The task rests here, and is claimed outside the bounds of its wakeup.
#[inline(always)]
fn rests_outside(queue: &Runqueue, claim: Claim, credit: u64, task: Option<SchedEntity>) -> bool
    ensures { let part = runqueue_view queue.now in (pid : ℕ) → IsTaskAt part pid task
        → (IsTrue result ↔ ((s : Entity) × (part.tasks pid ≡ Some s) × (s.place ≡ Rest)
        × (¬ IsInWakeBounds credit part.floor s.runtime claim.v))) }
{
    match task {
        Some(task) => task.place == Place::Rest
            && !is_in_wake_bounds(queue.floor(), task, claim, credit),
        None => false,
    }
}

/// The claim is within the bounds of the task's wakeup, by its own virtual runtime, the floor and the credit.
#[inline(always)]
fn is_in_wake_bounds(floor: i64, task: SchedEntity, claim: Claim, credit: u64) -> bool
    ensures { IsTrue result ↔ IsInWakeBounds credit floor task.v claim.v }
{
    if claim.v < task.v {
        return false;
    }
    if claim.v > task.v.max(floor) {
        return false;
    }
    reaches_credit(floor, claim, credit)
}

/// The claim is at most the credit below the floor.
fn reaches_credit(floor: i64, claim: Claim, credit: u64) -> bool
    ensures { IsTrue result ↔ ((floor -ℤ pos credit) ≤ℤ claim.v) }
{
    excess(floor, claim.v) <= credit
}

/// The claim is within the bounds of a birth, by the floor and the debit.
fn is_in_fork_bounds(floor: i64, claim: Claim, debit: u64) -> bool
    ensures { IsTrue result ↔ IsInForkBounds debit floor claim.v }
{
    if claim.v < floor {
        return false;
    }
    excess(claim.v, floor) <= debit
}
