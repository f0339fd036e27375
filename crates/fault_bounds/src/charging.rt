//! The numbers of a charge.
ghost use Rattle.std.specs.Prelude.{◌≡◌, ◌^◌, ◌+ℤ◌, ◌-ℤ◌, ◌≤ℤ◌, IfSome, Some, nat_abs, neg_ℤ, pos};
ghost use Rattle.cfs_model.specs.Told.{drift_after};
ghost use Rattle.cfs_model.specs.declared.task.Place.TheVariants.{Run};
ghost use Rattle.fault_bounds.specs.Bounds.{IsBesideDrift, IsBesideRange, IsBesideTold};
ghost use Rattle.replay_model.specs.Part.{cost_in};
ghost use Rattle.runqueue.specs.Queue.{runqueue_view};
ghost use Rattle.runqueue.specs.Tasks.{entity_of};

use crate::Bound;
use crate::moment::Moment;
use crate::runner::{beside_runner, running};
use cfs_model::{ChargeLine, GREATEST_RUNTIME, Knobs, weight_of};
use runqueue::SchedEntity;

/// Where the exact charge of a task leads that runs, or what it costs where that alone is too much, and the greatest.
pub(crate) fn range_bound(moment: &Moment, pid: u32) -> Option<Bound>
    ensures { IfSome result (λ bound. IsBesideRange (runqueue_view moment.now.queue) moment.now.step pid bound.value
        bound.limit) }
{
    let task = running(&moment.queue, pid)?;
    let own = task.v;
    let cost = cost_at(moment, task);
    let to = charged(own, cost);
    let limit = i128::from(GREATEST_RUNTIME);
    let value = if to > limit { to } else { cost };
    Some(Bound { value, limit })
}

/// A virtual runtime after a charge of so much.
fn charged(v: i64, cost: i128) -> i128
    requires { (pos 0 ≤ℤ cost) × (cost ≤ℤ pos (2 ^ 74)) }
    ensures same { result ≡ v +ℤ cost }
    ensures bounds { (neg_ℤ (pos (2 ^ 75)) ≤ℤ result) × (result ≤ℤ pos (2 ^ 75)) }
{
    i128::from(v) + cost
}

/// Where the exact charge of a task leads that runs, up to the event; in virtual nanoseconds, however many.
fn exact_at(moment: &Moment, task: SchedEntity) -> i128
    ensures exact { result ≡ task.v +ℤ pos (cost_in (runqueue_view moment.now.queue) moment.now.step.time
        (entity_of task)) }
    ensures bounds { (neg_ℤ (pos (2 ^ 75)) ≤ℤ result) × (result ≤ℤ pos (2 ^ 75)) }
{
    let own = task.v;
    charged(own, cost_at(moment, task))
}

/// What a task costs that runs, up to the event; in virtual nanoseconds, however many.
fn cost_at(moment: &Moment, task: SchedEntity) -> i128
    ensures cost { result ≡ pos (cost_in (runqueue_view moment.now.queue) moment.now.step.time (entity_of task)) }
    ensures few { result ≤ℤ pos (2 ^ 74) }
{
    let ran = moment.step.time.saturating_sub(moment.queue.mark());
    let weight = weight_of(task.nice, task.policy);
    let cost = u128::from(ran) * 1024 / u128::from(weight);
    cost as i128
}

/// How far a told charge leaves its task's drift from none, and the setting; or where it leads, and where the task was.
/// Where it is of a task that doesn't run: whose it is, and who runs.
pub(crate) fn told_bound(moment: &Moment, knobs: Knobs) -> Option<Bound>
    ensures { IfSome result (λ bound. IsBesideTold knobs.drift (runqueue_view moment.now.queue) moment.now.step
        bound.value bound.limit) }
{
    let charge = moment.step.charge?;
    match running(&moment.queue, charge.pid) {
        Some(task) => Some(drift_bound(moment, task, charge, knobs.drift())),
        None => beside_runner(&moment.queue, charge.pid),
    }
}

/// The same of a task that runs.
fn drift_bound(moment: &Moment, task: SchedEntity, charge: ChargeLine, most: u64) -> Bound
    requires stands { (runqueue_view moment.now.queue).tasks charge.pid ≡ Some (entity_of task) }
    requires runs { task.place ≡ Run }
    ensures { IsBesideDrift most (runqueue_view moment.now.queue) moment.now.step charge result.value result.limit }
{
    let (v, drift) = (task.v, task.drift);
    if charge.v < v {
        beside_own(charge.v, v)
    } else {
        beside_drift(drift, charge.v, exact_at(moment, task), most)
    }
}

/// Where a told charge leads, and where its task was.
fn beside_own(told: i64, own: i64) -> Bound
    ensures value { result.value ≡ told }
    ensures limit { result.limit ≡ own }
{
    Bound {
        value: i128::from(told),
        limit: i128::from(own),
    }
}

/// How far a task's drift is from none that is told to have one virtual runtime where exact charging gives it another,
/// and the setting.
fn beside_drift(drift: i64, told: i64, exact: i128, most: u64) -> Bound
    requires { (neg_ℤ (pos (2 ^ 75)) ≤ℤ exact) × (exact ≤ℤ pos (2 ^ 75)) }
    ensures value { result.value ≡ pos (nat_abs (drift_after drift told exact)) }
    ensures limit { result.limit ≡ pos most }
{
    Bound {
        value: size(drift_with(drift, strayed(told, exact))),
        limit: i128::from(most),
    }
}

/// By how much a virtual runtime as told is above the exact one, in virtual nanoseconds.
fn strayed(told: i64, exact: i128) -> i128
    requires { (neg_ℤ (pos (2 ^ 75)) ≤ℤ exact) × (exact ≤ℤ pos (2 ^ 75)) }
    ensures same { result ≡ told -ℤ exact }
    ensures bounds { (neg_ℤ (pos (2 ^ 76)) ≤ℤ result) × (result ≤ℤ pos (2 ^ 76)) }
{
    i128::from(told) - exact
}

/// The drift after a charge that strays by so much, in virtual nanoseconds.
fn drift_with(drift: i64, strayed: i128) -> i128
    requires { (neg_ℤ (pos (2 ^ 76)) ≤ℤ strayed) × (strayed ≤ℤ pos (2 ^ 76)) }
    ensures same { result ≡ drift +ℤ strayed }
    ensures bounds { (neg_ℤ (pos (2 ^ 77)) ≤ℤ result) × (result ≤ℤ pos (2 ^ 77)) }
{
    i128::from(drift) + strayed
}

/// How far a number is from 0.
fn size(number: i128) -> i128
    requires { (neg_ℤ (pos (2 ^ 77)) ≤ℤ number) × (number ≤ℤ pos (2 ^ 77)) }
    ensures { result ≡ pos (nat_abs number) }
{
    number.abs()
}
