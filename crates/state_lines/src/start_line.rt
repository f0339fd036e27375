//! The line of a processor at the start, and that of a fault.
use crate::event_line::{push_head, word_of_place};
use crate::json_text::JsonText;
use cfs_model::Task;
use replay_model::FirstFault;
use sched_record::{Record, Stream};
use std::alloc::AllocError;

/// Writes how a processor stands at the start: the floor, and each task there.
pub(crate) fn push_start(text: &mut JsonText, stream: &Stream) -> Result<(), AllocError> {
    push_head(text, stream.cpu(), 0, stream.start(), "start")?;
    text.push_signed(",\"floor\":", stream.floor())?;
    text.push(",\"tasks\":[")?;
    let mut comma = "";
    for task in stream.tasks() {
        text.push(comma)?;
        push_task(text, task)?;
        comma = ",";
    }
    text.push("]}\n")
}

fn push_task(text: &mut JsonText, task: &Task) -> Result<(), AllocError> {
    text.push_number("{\"pid\":", u64::from(task.pid))?;
    text.push_signed(",\"nice\":", i64::from(task.nice.get()))?;
    text.push_word(",\"place\":\"", word_of_place(task.place))?;
    text.push_signed(",\"v\":", task.v)?;
    text.push("}")
}

/// Writes where a fault is, and of which kind.
pub(crate) fn push_fault(
    text: &mut JsonText,
    record: &Record,
    fault: &FirstFault,
) -> Result<(), AllocError> {
    push_head(
        text,
        fault.cpu,
        fault.line,
        time_of(record, fault.line),
        "fault",
    )?;
    text.push_number(",\"pid\":", u64::from(fault.pid))?;
    let (name, _words) = fault.kind.words();
    text.push_word(",\"kind\":\"", name)?;
    text.push("}\n")
}

/// The time of the event on a line, in nanoseconds; that of the last one behind all.
fn time_of(record: &Record, line: u32) -> u64 {
    let events = record.events();
    let index = events.partition_point(|event| event.line < line);
    match events.get(index) {
        Some(event) => event.time,
        None => record.last_time(),
    }
}
