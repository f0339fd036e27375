use companion_file::{Companion, CompanionFault, read_companion, read_companion_wide};
use ftrace_line::{Line, RecentClocks, read_line};
use sched_event::{Event, UsualEvent, read_event, usual_line};
use sched_record::{Trace, TraceFault, read_trace, read_trace_wide};
use std::thread::Threads;
use text_parts::lines::{is_comment, next_line};

/// What a reading found, so that none of it can be left out.
#[derive(Clone, Copy, Debug)]
pub enum Found {
    /// How many events there are, and a sum over them.
    Events { count: u64, sum: u64 },
    /// How many lines have the usual form, how many others are no comments, which the reader of all lines reads, and a
    /// sum over the events of the former.
    Usual { lines: u64, others: u64, sum: u64 },
    /// How many events or claims a record keeps.
    Kept { count: usize },
    /// The text is refused, or memory ran out.
    Refused,
}

/// What a reading of this name finds in a text.
pub fn found_by<R: AllocGlobal + Threads + Sync>(rt: &R, what: &str, text: &[u8]) -> Option<Found> {
    let alloc = rt.alloc();
    Some(match what {
        "events" => events_of(text),
        "usual" => usual_of(text),
        "trace" => events_kept(read_trace(alloc, text)),
        "trace_wide" => events_kept(read_trace_wide(rt, alloc, text)),
        "companion" => claims_kept(read_companion(alloc, text)),
        "companion_wide" => claims_kept(read_companion_wide(rt, alloc, text)),
        _ => return None,
    })
}

/// The task of an event; of a switch the previous one.
fn pid_of(event: &Event) -> u32 {
    match event {
        Event::Switch(switch) => switch.prev,
        Event::Wakeup(wakeup) => wakeup.pid,
        Event::WakeupNew(birth) => birth.pid,
        Event::Migration(migration) => migration.pid,
    }
}

/// Reads each line of a trace, and the event on it, and keeps nothing.
fn events_of(text: &[u8]) -> Found {
    let mut count = 0u64;
    let mut sum = 0u64;
    let mut rest = text;
    while !rest.is_empty() {
        let (line, after) = next_line(rest);
        if let Ok(Line::Sched(sched)) = read_line(line) {
            let time = sched.time;
            if let Ok(event) = read_event(sched) {
                count = count.wrapping_add(1);
                sum = sum.wrapping_add(time ^ u64::from(pid_of(&event)));
            }
        }
        rest = after;
    }
    Found::Events { count, sum }
}

/// What a usual line at the front of a text adds to the sum; none where the line has another form.
fn usual_part(text: &[u8], clocks: &mut RecentClocks) -> Option<u64> {
    match usual_line(text, clocks) {
        Some(usual) => Some(part_of(usual.event)),
        None => None,
    }
}

/// What an event that was told by its line's usual form adds to the sum.
fn part_of(event: Option<UsualEvent>) -> u64 {
    match event {
        Some(event) => event.time ^ u64::from(event.act.home()),
        None => 0,
    }
}

/// Counts the lines of the usual form, and those of another that are no comments.
fn usual_of(text: &[u8]) -> Found {
    let mut lines = 0u64;
    let mut others = 0u64;
    let mut sum = 0u64;
    let mut clocks = RecentClocks::new();
    let mut rest = text;
    while !rest.is_empty() {
        let (line, after) = next_line(rest);
        match usual_part(rest, &mut clocks) {
            Some(part) => {
                lines = lines.wrapping_add(1);
                sum = sum.wrapping_add(part);
            }
            None if is_comment(line) => {}
            None => others = others.wrapping_add(1),
        }
        rest = after;
    }
    Found::Usual { lines, others, sum }
}

/// How much a trace that was read keeps.
fn events_kept(read: Result<Trace, TraceFault>) -> Found {
    match read {
        Ok(trace) => Found::Kept {
            count: trace.events().len(),
        },
        Err(_) => Found::Refused,
    }
}

/// How much a companion that was read keeps.
fn claims_kept(read: Result<Companion, CompanionFault>) -> Found {
    match read {
        Ok(companion) => Found::Kept {
            count: companion.claims().len(),
        },
        Err(_) => Found::Refused,
    }
}
