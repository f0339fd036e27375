//! Reads what a kernel prints of a charge.

use bstr::ByteSlice;
use cfs_model::{GREATEST_PID, GREATEST_RUNTIME, NANOSECONDS_PER_SECOND};
use ftrace_line::{RecentClocks, read_line, usual_front};
use memchr::memchr_iter;
use text_parts::lines::next_line;
use text_parts::numerals::numeral_at;
use text_parts::pieces::{after_front, begins_with};
use text_parts::time::read_time;

/// The most bytes of a task's name.
const NAME_MAX: usize = 15;

/// The columns of a head's name, with the space before and the `-` behind them.
const NAME_WIDTH: usize = 17;

/// A charge of a task, as the event `sched_stat_runtime` prints it.
#[derive(Clone, Copy, Debug, PartialEq, Eq)]
pub(crate) struct Printed {
    /// In nanoseconds.
    pub time: u64,
    /// The processor that the line's head names.
    pub cpu: u32,
    pub amounts: PrintedAmounts,
}

/// What the event's text says.
#[derive(Clone, Copy, Debug, PartialEq, Eq)]
pub(crate) struct PrintedAmounts {
    pub pid: u32,
    /// How long the task ran since it was charged last, in nanoseconds.
    pub runtime: u64,
    /// What it has come to, in virtual nanoseconds.
    pub v: i64,
}

/// The name of that event, as it stands behind the head of a line.
const NAME: &[u8] = b"sched_stat_runtime: ";

/// What stands between the head of a line of that event and its text.
pub(crate) const LABEL: &[u8] = b": sched_stat_runtime: ";

/// The charge that the first line of a text prints, if it is a line of that event, and what follows the line.
pub(crate) fn first_charge<'a>(
    text: &'a [u8],
    clocks: &mut RecentClocks,
) -> (Option<Printed>, &'a [u8]) {
    let (line, after) = next_line(text);
    match label_of(line) {
        Some(label) => (charge_on(line, label, clocks), after),
        None => (None, after),
    }
}

/// The charge that a line prints on which the label stands first at this place.
fn charge_on(line: &[u8], label: usize, clocks: &mut RecentClocks) -> Option<Printed> {
    match usual_front(line, clocks) {
        Some(front) => Some(Printed {
            time: front.time,
            cpu: front.cpu,
            amounts: amounts_of(after_front(front.rest, NAME)?)?,
        }),
        None => unusual_charge(line, label),
    }
}

/// Where the first label on a line of a trace is. None has room in the columns of the name.
fn label_of(line: &[u8]) -> Option<usize> {
    let behind = line.get(NAME_WIDTH..)?;
    for colon in memchr_iter(b':', behind) {
        if begins_with(behind.get(colon..)?, LABEL) {
            return Some(NAME_WIDTH.saturating_add(colon));
        }
    }
    None
}

/// The same of a line with something that is seldom there: the first label on it has to stand right behind the head.
fn unusual_charge(line: &[u8], label: usize) -> Option<Printed> {
    let head = line.get(..label)?;
    let text = line.get(label.saturating_add(LABEL.len())..)?;
    // Where a head ends before the label, the label is a part of another event's text.
    if read_line(head).is_ok() {
        return None;
    }
    Some(Printed {
        time: time_of(head)?,
        cpu: cpu_of(head)?,
        amounts: amounts_of(text)?,
    })
}

/// The processor that a head names, in the first brackets behind the columns of the name.
fn cpu_of(head: &[u8]) -> Option<u32> {
    let behind = head.get(NAME_WIDTH..)?;
    let bracket = behind.find_byte(b'[')?;
    let (cpu, _) = numeral_at(behind.get(bracket.saturating_add(1)..)?)?;
    u32::try_from(cpu).ok()
}

/// The time that a head ends in.
fn time_of(head: &[u8]) -> Option<u64> {
    let blank = head.rfind_byte(b' ')?;
    let time = read_time(head.get(blank.saturating_add(1)..)?)?;
    Some(
        time.seconds
            .saturating_mul(NANOSECONDS_PER_SECOND)
            .saturating_add(time.nanoseconds),
    )
}

/// What the event's text says, where it is `comm=NAME pid=N runtime=N [ns] vruntime=N [ns]` and the numbers are in
/// range.
fn amounts_of(text: &[u8]) -> Option<PrintedAmounts> {
    let named = after_front(text, b"comm=")?;
    for blank in memchr_iter(b' ', named) {
        if blank > NAME_MAX {
            return None;
        }
        if let Some(amounts) = amounts_behind_name(named.get(blank..)?) {
            return Some(amounts);
        }
    }
    None
}

/// The same behind the task's name.
fn amounts_behind_name(text: &[u8]) -> Option<PrintedAmounts> {
    let (pid, rest) = numeral_at(after_front(text, b" pid=")?)?;
    let (runtime, rest) = numeral_at(after_front(rest, b" runtime=")?)?;
    let (v, rest) = numeral_at(after_front(rest, b" [ns] vruntime=")?)?;
    let end = after_front(rest, b" [ns]")?;
    if !end.is_empty() || pid > GREATEST_PID || v > GREATEST_RUNTIME as u64 {
        return None;
    }
    Some(PrintedAmounts {
        pid: pid as u32,
        runtime,
        v: v as i64,
    })
}
