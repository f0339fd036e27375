//! Distances of virtual runtimes, in virtual nanoseconds.
ghost use Rattle.std.specs.Prelude.{◌≡◌, ◌^◌, ◌+ℤ◌, ◌-ℤ◌, ◌≤ℤ◌, neg_ℤ, pos};

/// How far a virtual runtime is above another.
pub(crate) fn apart(v: i64, from: i64) -> i128
    ensures same { result ≡ v -ℤ from }
    ensures bounds { (neg_ℤ (pos (2 ^ 64)) ≤ℤ result) × (result ≤ℤ pos (2 ^ 64)) }
{
    i128::from(v) - i128::from(from)
}

/// What is so far above a virtual runtime.
pub(crate) fn above(distance: i128, from: i64) -> i128
    requires { (neg_ℤ (pos (2 ^ 76)) ≤ℤ distance) × (distance ≤ℤ pos (2 ^ 76)) }
    ensures same { result ≡ distance +ℤ from }
    ensures bounds { (neg_ℤ (pos (2 ^ 77)) ≤ℤ result) × (result ≤ℤ pos (2 ^ 77)) }
{
    distance + i128::from(from)
}
