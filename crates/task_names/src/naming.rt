ghost use Rattle.std.specs.Prelude.{IfOk, IfSome, List, ℕ};
ghost use Rattle.sched_record.specs.Record.{record_view};
ghost use Rattle.task_names.specs.NameOf.{IsNameOf};
ghost use Rattle.task_names.specs.Names.{CallsTask};

use crate::TraceText;
use crate::calling::name_on;
use cfs_model::{Act, Entry, IDLE_PID, Memory};
use sched_record::Record;
use std::alloc::Global;

/// The name of a task, which is read from the trace again: from this line of an event, else from the last one before
/// it, else from the first behind it whose event names the task. None for the idle tasks, where none of these names it,
/// and where a line can't be read again or doesn't say its event.
pub fn task_name<T: TraceText>(
    alloc: Global,
    joined: &Record,
    pid: u32,
    line: u32,
    trace: &mut T,
) -> Result<Option<Vec<u8>>, Memory>
    ensures { IfOk result (λ found. IfSome found (λ name. IsNameOf (record_view joined.now) pid name.items)) }
{
    if pid == IDLE_PID {
        return Ok(None);
    }
    let events = joined.events();
    let index = index_of(events, line);
    match name_at(alloc, joined, index, pid, trace)? {
        Some(name) => Ok(Some(name)),
        None => {
            let index = index_naming(events, index, pid);
            name_at(alloc, joined, index, pid, trace)
        }
    }
}

/// The name of a task by the line of the event at an index.
fn name_at<T: TraceText>(
    alloc: Global,
    joined: &Record,
    index: usize,
    pid: u32,
    trace: &mut T,
) -> Result<Option<Vec<u8>>, Memory>
    ensures { IfOk result (λ found. IfSome found (λ name. IsNameOf (record_view joined.now) pid name.items)) }
{
    match joined.events().get(index) {
        Some(event) => name_by(alloc, *event, pid, trace),
        None => Ok(None),
    }
}

/// The same by the line of an event.
fn name_by<T: TraceText>(
    alloc: Global,
    event: Entry,
    pid: u32,
    trace: &mut T,
) -> Result<Option<Vec<u8>>, Memory>
    ensures { IfOk result (λ found. IfSome found (λ name. (line : List ℕ) × CallsTask line event pid name.items)) }
{
    match trace.line(event.line)? {
        Some(line) => copied(alloc, line.as_slice(), event, pid),
        None => Ok(None),
    }
}

/// The same of the line's bytes.
fn copied(alloc: Global, line: &[u8], event: Entry, pid: u32) -> Result<Option<Vec<u8>>, Memory>
    ensures { IfOk result (λ found. IfSome found (λ name. CallsTask line.now event pid name.items)) }
{
    match name_on(line, event, pid) {
        Some(name) => Ok(Some(Vec::from_slice(alloc, name)?)),
        None => Ok(None),
    }
}

/// Where the first event on a line or behind it is.
fn index_of(events: &[Entry], line: u32) -> usize {
    events.partition_point(|event| event.line < line)
}

/// Where the last event before an index is, or else the first from there on, that names a task; behind the last where
/// none does.
fn index_naming(events: &[Entry], end: usize, pid: u32) -> usize {
    let mut found = events.len();
    for (index, event) in events.iter().enumerate() {
        if names(event.act, pid) {
            if index >= end && found < end {
                return found;
            }
            found = index;
            if index >= end {
                return found;
            }
        }
    }
    found
}

/// Whether an event names a task.
fn names(act: Act, pid: u32) -> bool {
    match act {
        Act::Switch { prev, next, .. } => prev == pid || next == pid,
        _ => act.subject() == pid,
    }
}
