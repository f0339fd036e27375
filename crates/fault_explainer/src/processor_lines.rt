//! What is told of a processor.

use crate::charge::Charge;
use crate::duration::Nanoseconds;
use crate::names::Names;
use crate::origin::{Origin, Since};
use crate::processor::Processor;
use crate::task_words::weight_words;
use runqueue::{Runqueue, SchedEntity};
use std::alloc::AllocError;

/// The most waiting tasks of a processor that are told.
pub(crate) const MOST_WAITING: usize = 20;

/// Who stands at a processor, in words: with names, and with how long the tasks have run or waited up to a time in
/// nanoseconds.
#[derive(Clone, Copy)]
pub(crate) struct Telling<'a> {
    pub names: &'a Names,
    pub origins: &'a [Origin],
    pub time: u64,
}

/// How it stands before the event.
pub(crate) fn push_processor(
    text: &mut String,
    processor: &Processor,
    telling: Telling<'_>,
) -> Result<(), AllocError> {
    let queue = &processor.queue;
    push_marks(text, processor.cpu, queue)?;
    push_runner(text, queue.runner(), telling)?;
    push_waiting(text, queue, telling)?;
    push_others(text, queue.waiting().len())
}

fn push_marks(text: &mut String, cpu: u32, queue: &Runqueue) -> Result<(), AllocError> {
    let floor = queue.floor();
    let mark = Nanoseconds(queue.mark());
    writeln!(
        text,
        "# cpu {cpu} before this line: floor {floor}, mark {mark}"
    )
}

/// Who runs.
fn push_runner(
    text: &mut String,
    runner: Option<SchedEntity>,
    telling: Telling<'_>,
) -> Result<(), AllocError> {
    match runner {
        Some(task) => push_task(text, task, "runs", telling),
        None => writeln!(text, "#   nobody runs"),
    }
}

/// Those who wait, the least first.
fn push_waiting(
    text: &mut String,
    queue: &Runqueue,
    telling: Telling<'_>,
) -> Result<(), AllocError> {
    for index in 0..MOST_WAITING {
        let waiting = queue.waiting().nth(index);
        if let Some(task) = waiting.and_then(|waiting| queue.task_at(waiting.pid)) {
            push_task(text, task, "waits", telling)?;
        }
    }
    Ok(())
}

fn push_task(
    text: &mut String,
    task: SchedEntity,
    verb: &str,
    telling: Telling<'_>,
) -> Result<(), AllocError> {
    let SchedEntity { pid, v, .. } = task;
    let named = telling.names.named(pid);
    let weight_words = weight_words(&task);
    write!(text, "#   {named} {verb} at {v}, {weight_words}")?;
    match telling.origins.iter().find(|origin| origin.pid == pid) {
        Some(origin) => push_since(text, origin.until(telling.time)),
        None => writeln!(text, ""),
    }
}

fn push_since(text: &mut String, since: Since) -> Result<(), AllocError> {
    writeln!(text, ", {since}")
}

/// That nobody waits, or how many more than are told.
fn push_others(text: &mut String, count: usize) -> Result<(), AllocError> {
    if count == 0 {
        writeln!(text, "#   nobody waits")
    } else if count > MOST_WAITING {
        let more = count - MOST_WAITING;
        writeln!(text, "#   and {more} more wait")
    } else {
        Ok(())
    }
}

/// What who runs is charged, up to a time in nanoseconds.
pub(crate) fn push_charge(
    text: &mut String,
    processor: &Processor,
    time: u64,
    names: &Names,
) -> Result<(), AllocError> {
    let cpu = processor.cpu;
    match Charge::at(&processor.queue, time) {
        Some(charge) => {
            let charge = charge.told_of(names);
            writeln!(text, "# charge at cpu {cpu}: {charge}")
        }
        None => writeln!(
            text,
            "# charge at cpu {cpu}: nobody runs, so nobody is charged"
        ),
    }
}

/// The floor after the charge.
pub(crate) fn push_floor(text: &mut String, cpu: u32, floor: i64) -> Result<(), AllocError> {
    writeln!(text, "# floor of cpu {cpu} after it: {floor}")
}
