ghost use Rattle.std.specs.Prelude.{◌≡◌, ◌<◌, ◌≤◌, ◌^◌, None, IfSome, SomeIff, IfOk, IfErr, ℤ, pos, neg_ℤ};
ghost use Rattle.std.specs.Prelude.{◌+ℤ◌, ◌-ℤ◌, ◌≤ℤ◌};
ghost use Rattle.cfs_model.specs.Charge.{charge_of};
ghost use Rattle.cfs_model.specs.Limits.{greatest_runtime, greatest_setting};
ghost use Rattle.cfs_model.specs.Told.{IsWithin, drift_after};
ghost use Rattle.runqueue.specs.Tasks.{CanBeCharged, CanBeTold, charged_task, told_task};

use crate::sched_entity::SchedEntity;
use cfs_model::{ChargeLine, GREATEST_RUNTIME, charge, weight_of};

/// What is wrong with a charge, and of which pid.
#[derive(Clone, Copy, Debug, PartialEq, Eq)]
pub enum ChargeFault {
    /// The exact charge of the task, or its virtual runtime after it, is above the greatest.
    Range(u32),
    /// What is told isn't of the task that runs, lowers its virtual runtime, or leaves its drift beyond the bound.
    Told(u32),
}

/// The task after an exact charge for `delta` nanoseconds. Else its pid: the charge or the virtual runtime after it is
/// above the greatest.
#[inline(always)]
pub fn charged(task: SchedEntity, delta: u64) -> Result<SchedEntity, u32>
    ensures fits { IfOk result (λ after. CanBeCharged delta task × (after ≡ charged_task delta task)) }
    ensures above { IfErr result (λ pid. (pid ≡ task.pid) × (CanBeCharged delta task → ⊥)) }
{
    let Some(cost) = cost_of(delta, weight_of(task.nice, task.policy)) else {
        return Err(task.pid);
    };
    if task.v > GREATEST_RUNTIME - cost {
        return Err(task.pid);
    }
    let mut after = task;
    after.v += cost;
    Ok(after)
}

/// What `delta` nanoseconds cost at this weight, in virtual nanoseconds. At the usual weight they cost themselves. That
/// is told here, so that the other weights' code isn't part of each step.
#[inline(always)]
fn cost_of(delta: u64, weight: u32) -> Option<i64>
    requires { 0 < weight }
    ensures { SomeIff result (charge_of delta weight ≤ greatest_runtime) (pos (charge_of delta weight)) }
{
    if weight == NICE_0_WEIGHT && delta <= GREATEST_RUNTIME as u64 {
        Some(delta as i64)
    } else {
        charge(delta, weight)
    }
}

/// The weight at nice value 0.
const NICE_0_WEIGHT: u32 = 1024;

/// The task that is `exact` when charged exactly, as it is told to be charged from its own virtual runtime. None where
/// that isn't of this task, lowers its virtual runtime, or leaves its drift beyond the bound, in virtual nanoseconds.
pub fn told(own: i64, exact: SchedEntity, charge: ChargeLine, bound: u64) -> Option<SchedEntity>
    requires { bound ≤ greatest_setting }
    ensures told { IfSome result (λ after. CanBeTold bound charge own exact × (after ≡ told_task charge exact)) }
    ensures wrong { result ≡ None → CanBeTold bound charge own exact → ⊥ }
{
    if charge.pid != exact.pid || charge.v < own {
        return None;
    }
    let Some(drift) = told_drift(exact.drift, charge.v, exact.v, bound) else {
        return None;
    };
    let mut after = exact;
    after.v = charge.v;
    after.drift = drift;
    Some(after)
}

/// The drift of a task that is told to have one virtual runtime where exact charging gives it another; where it is at
/// most the bound, up or down.
fn told_drift(drift: i64, told: i64, exact: i64, bound: u64) -> Option<i64>
    requires { bound ≤ greatest_setting }
    ensures within { IfSome result (λ after. IsWithin bound (drift_after drift told exact)
        × (after ≡ drift_after drift told exact)) }
    ensures beyond { result ≡ None → IsWithin bound (drift_after drift told exact) → ⊥ }
{
    within(after_straying(drift, strayed(told, exact)), bound)
}

/// By how much a virtual runtime as told is above the exact one, in virtual nanoseconds.
fn strayed(told: i64, exact: i64) -> i128
    ensures same { result ≡ told -ℤ exact }
    ensures bounds { (neg_ℤ (pos (2 ^ 64)) ≤ℤ result) × (result ≤ℤ pos (2 ^ 64)) }
{
    i128::from(told) - i128::from(exact)
}

/// The drift after a charge that strays by so much, in virtual nanoseconds.
fn after_straying(drift: i64, strayed: i128) -> i128
    requires { (neg_ℤ (pos (2 ^ 64)) ≤ℤ strayed) × (strayed ≤ℤ pos (2 ^ 64)) }
    ensures { result ≡ drift +ℤ strayed }
{
    i128::from(drift) + strayed
}

/// The drift, where it is at most the bound, up or down.
fn within(drift: i128, bound: u64) -> Option<i64>
    requires { bound ≤ greatest_setting }
    ensures within { IfSome result (λ narrow. IsWithin bound drift × (narrow ≡ drift)) }
    ensures beyond { result ≡ None → IsWithin bound drift → ⊥ }
{
    let most = i128::from(bound);
    if -most <= drift && drift <= most {
        Some(drift as i64)
    } else {
        None
    }
}
