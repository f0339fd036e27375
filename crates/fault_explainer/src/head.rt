use cfs_model::GREATEST_PID;
use ftrace_line::{Line, RecentClocks, read_line, usual_front};
use std::ops::Range;
use text_parts::numerals::number_at;
use text_parts::pieces::begins_with;

/// Where the name stands in a line's head, right-aligned.
const NAME_COLUMNS: Range<usize> = 1..16;

/// How many bytes stand before the pid in a line's head.
const BEFORE_PID: usize = 17;

/// What stands behind the head of a line on which the kernel prints a charge. It does so before it switches.
const CHARGE: &[u8] = b"sched_stat_runtime: ";

/// The task that an event's line names in its head: that which ran when the line was written, and where.
#[derive(Clone, Copy)]
pub(crate) struct Head<'a> {
    pub cpu: u32,
    pub pid: u32,
    pub name: &'a [u8],
}

impl<'a> Head<'a> {
    /// That of a line of one of the four events, or on which a charge is printed. The head of another may name who ran
    /// before a switch, though it stands behind it.
    pub(crate) fn of(line: &'a [u8]) -> Option<Head<'a>> {
        Some(Head {
            cpu: cpu_of(line)?,
            pid: pid_at(line.get(BEFORE_PID..)?)?,
            name: without_spaces(line.get(NAME_COLUMNS)?),
        })
    }
}

/// The processor that the head of such a line names.
fn cpu_of(line: &[u8]) -> Option<u32> {
    if let Ok(Line::Sched(sched)) = read_line(line) {
        return Some(sched.cpu);
    }
    let front = usual_front(line, &mut RecentClocks::new())?;
    begins_with(front.rest, CHARGE).then_some(front.cpu)
}

/// The pid that a text begins with.
fn pid_at(text: &[u8]) -> Option<u32> {
    let value = number_at(text).value;
    if value <= GREATEST_PID {
        Some(value as u32)
    } else {
        None
    }
}

/// A name without the spaces before it.
fn without_spaces(name: &[u8]) -> &[u8] {
    let count = name.iter().take_while(|byte| **byte == b' ').count();
    name.get(count..).unwrap_or(name)
}
