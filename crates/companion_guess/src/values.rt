use cfs_model::GREATEST_RUNTIME;

/// The nearest virtual runtime in range.
pub(crate) fn within_range(v: i64) -> i64 {
    v.min(GREATEST_RUNTIME).max(-GREATEST_RUNTIME)
}

/// A virtual runtime moved from one floor's frame to another's.
pub(crate) fn moved(v: i64, from: i64, to: i64) -> i64 {
    within_range(v.saturating_sub(from).saturating_add(to))
}

/// Whether it stays in range by that.
pub(crate) fn stays_in_range(v: i64, from: i64, to: i64) -> bool {
    let apart = i128::from(v).saturating_sub(i128::from(from));
    apart.saturating_add(i128::from(to)).unsigned_abs() <= GREATEST_RUNTIME as u128
}

/// How far a virtual runtime is above another, in virtual nanoseconds; 0 where it isn't.
pub(crate) fn excess(v: i64, from: i64) -> u64 {
    if v > from { v.abs_diff(from) } else { 0 }
}

/// A setting above a floor.
pub(crate) fn above(floor: i64, setting: u64) -> i64 {
    within_range(floor.saturating_add(setting.min(GREATEST_RUNTIME as u64) as i64))
}

/// A setting below a floor.
pub(crate) fn below(floor: i64, setting: u64) -> i64 {
    within_range(floor.saturating_sub(setting.min(GREATEST_RUNTIME as u64) as i64))
}
