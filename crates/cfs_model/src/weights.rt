ghost use Rattle.std.specs.Prelude.{◌≡◌, ℕ, pos, ◌+ℤ◌, nat_abs, ◌*◌, ◌/◌, ◌<◌, ◌≤◌, SomeIff};
ghost use Rattle.cfs_model.specs.Charge.{charge_of};
ghost use Rattle.cfs_model.specs.Limits.{greatest_runtime};
ghost use Rattle.cfs_model.specs.Nice.{task_weight, weight_of};

use crate::limits::GREATEST_RUNTIME;
use crate::nice::Nice;
use crate::policy::Policy;

// A table of weights by its rows, each from the nice value that begins it.
macro_rules! weights {
    ($($nice:literal: $($weight:literal),+);+ $(;)?) => {
        [$($($weight),+),+]
    };
}

/// The weights of the forty nice values, after the scheduler's table of weights by nice.
static WEIGHTS: [u32; 40] = weights!(
    -20: 88761, 71755, 56483, 46273, 36291;
    -15: 29154, 23254, 18705, 14949, 11916;
    -10: 9548, 7620, 6100, 4904, 3906;
    -5: 3121, 2501, 1991, 1586, 1277;
    0: 1024, 820, 655, 526, 423;
    5: 335, 272, 215, 172, 137;
    10: 110, 87, 70, 56, 45;
    15: 36, 29, 23, 18, 15;
);

// The index of a nice value among the forty.
fn index_of(nice: Nice) -> usize
    ensures index { result ≡ nat_abs (nice +ℤ pos 20) }
    ensures within { result < 40 }
{
    (nice.get() + 20) as usize
}

/// The weight of a fair task of this nice value. It is above 0.
pub fn weight(nice: Nice) -> u32
    ensures table { result ≡ weight_of nice }
    ensures positive { 0 < result }
{
    WEIGHTS[index_of(nice)]
}

/// The weight of a task of this nice value and policy. It is above 0.
pub fn weight_of(nice: Nice, policy: Policy) -> u32
    ensures policy { result ≡ task_weight nice policy }
    ensures positive { 0 < result }
{
    match policy {
        Policy::Normal => weight(nice),
        Policy::Idle => IDLE_POLICY_WEIGHT,
    }
}

/// The weight of a task of the idle policy.
const IDLE_POLICY_WEIGHT: u32 = 3;

/// The virtual nanoseconds that `delta` nanoseconds of running time cost at this weight.
pub fn charge(delta: u64, weight: u32) -> Option<i64>
    requires { 0 < weight }
    ensures { SomeIff result (charge_of delta weight ≤ greatest_runtime) (pos (charge_of delta weight)) }
{
    if delta <= SHORT {
        return Some(short_charge(delta, weight));
    }
    let cost = u128::from(delta) * 1024 / u128::from(weight);
    if cost <= GREATEST_RUNTIME as u128 {
        Some(cost as i64)
    } else {
        None
    }
}

/// In nanoseconds, 52 days: so short a time costs at most the greatest runtime, whatever the weight, and 64 bits do.
const SHORT: u64 = GREATEST_RUNTIME as u64 / 1024;

/// The same for at most `SHORT`. Most tasks have the nice value 0, and are charged what they ran: no division.
fn short_charge(delta: u64, weight: u32) -> i64
    requires weight { 0 < weight }
    requires short { delta * 1024 ≤ greatest_runtime }
    ensures { result ≡ pos (charge_of delta weight) }
{
    if weight == NICE_0_WEIGHT {
        delta as i64
    } else {
        (delta * 1024 / u64::from(weight)) as i64
    }
}

/// The weight at nice value 0.
const NICE_0_WEIGHT: u32 = 1024;
