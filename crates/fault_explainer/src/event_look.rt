//! What a look at the event of a line shows, where that doesn't go with the companion or with the event before it.

use crate::duration::Nanoseconds;
use cfs_model::MOST_PROCESSORS;
use ftrace_line::{Line, read_line};
use sched_event::read_event;
use std::alloc::AllocError;

/// Says when the event is.
pub(crate) fn push_event_time(text: &mut String, line: &[u8]) -> Result<(), AllocError> {
    match read_line(line) {
        Ok(Line::Sched(sched)) => push_time(text, Nanoseconds(sched.time)),
        _ => Ok(()),
    }
}

fn push_time(text: &mut String, time: Nanoseconds) -> Result<(), AllocError> {
    writeln!(text, "# the event's time is {time}")
}

/// Says which is the greatest processor that the event touches, and how many the companion has to have for it.
pub(crate) fn push_event_cpu(text: &mut String, line: &[u8]) -> Result<(), AllocError> {
    match greatest_cpu(line) {
        Some(cpu) => push_cpu(text, cpu, cpu.saturating_add(1)),
        None => Ok(()),
    }
}

fn push_cpu(text: &mut String, cpu: u32, cpus: u32) -> Result<(), AllocError> {
    if cpus as usize > MOST_PROCESSORS {
        writeln!(
            text,
            "# the event is at cpu {cpu}: at most {MOST_PROCESSORS} processors are audited"
        )
    } else {
        writeln!(
            text,
            "# the event is at cpu {cpu}: cpus has to be {cpus} or more"
        )
    }
}

/// The greatest processor that the event of a line touches.
fn greatest_cpu(line: &[u8]) -> Option<u32> {
    match read_line(line) {
        Ok(Line::Sched(sched)) => match read_event(sched) {
            Ok(event) => {
                let (home, dest) = event.act().ends();
                Some(home.max(dest))
            }
            Err(_) => None,
        },
        _ => None,
    }
}

/// Says what the line is in place of an event that the companion speaks of.
pub(crate) fn push_line_sort(text: &mut String, line: &[u8]) -> Result<(), AllocError> {
    match read_line(line) {
        Ok(Line::Comment) => writeln!(text, "# the line is a comment"),
        Ok(Line::Other) => writeln!(text, "# the line has an event that isn't one of the four"),
        Ok(Line::Sched(_)) => writeln!(
            text,
            "# the line has an event, but not the birth that an idle line names"
        ),
        _ => Ok(()),
    }
}
