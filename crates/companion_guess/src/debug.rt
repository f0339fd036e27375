//! Reads what a kernel tells of its runqueues in the file `sched/debug` of debugfs.

use crate::floors::Floors;
use bstr::ByteSlice;
use cfs_model::{GREATEST_RUNTIME, MOST_PROCESSORS};
use text_parts::numerals::{number_at, numeral_at};
use text_parts::pieces::{after_byte, after_front, after_gap};

const NANOSECONDS_PER_MILLISECOND: u64 = 1_000_000;

/// The floors that the text tells: that of a processor is the first `.min_vruntime` behind the heading of its own
/// runqueue. Those of groups of tasks are passed over, and so is what can't be read.
pub(crate) fn told_floors(text: &[u8]) -> Floors {
    let mut told = Floors::unknown();
    let mut heading = None;
    for line in text.lines() {
        if let Some(cpu) = heading_of(line) {
            heading = Some(cpu);
        } else if let (Some(cpu), Some(floor)) = (heading, floor_of(line)) {
            told.begin(cpu, floor);
            heading = None;
        }
    }
    told
}

/// Whether the text tells a floor.
pub fn tells_floors(text: &[u8]) -> bool {
    let told = told_floors(text);
    (0..MOST_PROCESSORS as u32).any(|cpu| told.at(cpu).is_some())
}

/// The processor whose runqueue's heading the line is: `cfs_rq[CPU]:/`, or `cfs_rq[CPU]:` where the kernel has no
/// groups.
fn heading_of(line: &[u8]) -> Option<u32> {
    let (cpu, rest) = numeral_at(after_front(line, b"cfs_rq[")?)?;
    let path = after_front(rest, b"]:")?;
    if path.is_empty() || path == b"/".as_slice() {
        u32::try_from(cpu).ok()
    } else {
        None
    }
}

/// The floor that the line tells, in virtual nanoseconds: `.min_vruntime : N`, N in milliseconds with six digits behind
/// the point.
fn floor_of(line: &[u8]) -> Option<i64> {
    let named = after_front(after_gap(line)?, b".min_vruntime")?;
    let value = after_gap(after_byte(after_gap(named)?, b':')?)?;
    match after_byte(value, b'-') {
        Some(rest) => amount_of(rest)?.checked_neg(),
        None => amount_of(value),
    }
}

/// An amount in milliseconds with six digits behind the point, in nanoseconds, where it is in range.
fn amount_of(text: &[u8]) -> Option<i64> {
    let (milliseconds, rest) = numeral_at(text)?;
    let fraction = number_at(after_byte(rest, b'.')?);
    if fraction.digits != 6 || !fraction.rest.is_empty() {
        return None;
    }
    let amount = milliseconds
        .checked_mul(NANOSECONDS_PER_MILLISECOND)?
        .checked_add(fraction.value)?;
    if amount > GREATEST_RUNTIME as u64 {
        None
    } else {
        Some(amount as i64)
    }
}
