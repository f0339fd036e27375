//! The calls that tests make of the crates below, each in a function of its own that promises nothing and most with
//! plain values: what their clauses say stands before no test, which is then proved in seconds.

use crate::answers::wants_about;
use crate::machines::{Lines, Recording};
use audit_crew::{Gate, OpenGate, audit, audit_serial, crew};
use cfs_model::{Kind, Knobs, Setting};
use companion_file::read_companion;
use sched_record::{Record, Stream, join, read_trace};
use std::alloc::Global;
use std::process::Abort;
use std::sync::Wait;
use std::test::Fail;
use std::thread::Threads;
use ticket_book::{Closed, ClosedLeast, LeastSettings, Verdict};
use window_audit::audit_in_windows;

/// The line, processor, pid and kind of a fault, where there is one.
pub(crate) type MaybeFault = Option<(u32, u32, u32, Kind)>;

/// How many pages were made again, and the fault of the verdict.
pub(crate) type Told = (u32, MaybeFault);

/// A trace with these lines, and comments between them.
pub(crate) fn trace_of(alloc: Global, lines: Lines) -> Result<Vec<u8>, Fail> {
    let mut text = Vec::new(alloc);
    let mut next: u32 = 1;
    for (number, times, line) in lines {
        for _ in next..*number {
            text.extend_from_slice(b"#\n")?;
        }
        for _ in 0..*times {
            text.extend_from_slice(line.as_bytes())?;
            text.push(b'\n')?;
        }
        next = number.saturating_add(*times);
    }
    Ok(text)
}

/// A companion of these parts.
pub(crate) fn companion_of(alloc: Global, parts: &[&str]) -> Result<Vec<u8>, Fail> {
    let mut text = Vec::new(alloc);
    for part in parts {
        text.extend_from_slice(part.as_bytes())?;
    }
    Ok(text)
}

/// The record of two texts that go together.
pub(crate) fn record_from(alloc: Global, trace: &[u8], companion: &[u8]) -> Result<Record, Fail> {
    let trace = read_trace(alloc, trace)?;
    let companion = read_companion(alloc, companion)?;
    Ok(join(trace, companion).ok().ok_or("they go together")?)
}

/// The record of a recording.
pub(crate) fn record_of(alloc: Global, recording: &Recording) -> Result<Record, Fail> {
    let trace = trace_of(alloc, recording.lines)?;
    let companion = companion_of(alloc, recording.companion)?;
    record_from(alloc, &trace, &companion)
}

fn dealt(record: &Record, cpu: u32) -> Result<Stream, Fail> {
    if cpu >= record.cpus() {
        return Err(Fail::from("a processor of the record"));
    }
    Ok(record.deal(cpu)?)
}

/// The stream of a processor of a recording.
pub(crate) fn stream_of(alloc: Global, recording: &Recording, cpu: u32) -> Result<Stream, Fail> {
    let record = record_of(alloc, recording)?;
    dealt(&record, cpu)
}

/// The fault of a verdict.
pub(crate) fn fault_of(verdict: Verdict) -> MaybeFault {
    match verdict {
        Verdict::Run(_) => None,
        Verdict::Fault(fault) => Some((fault.line, fault.cpu, fault.pid, fault.kind)),
    }
}

/// What closing a book tells.
pub(crate) fn told(closed: Closed) -> Told {
    (closed.remade, fault_of(closed.verdict))
}

/// One thread's verdict, by the standard settings.
pub(crate) fn alone(alloc: Global, record: &Record) -> Result<Closed, Fail> {
    Ok(audit_serial(alloc, record, Knobs::standard())?)
}

/// What one thread comes to on a recording.
fn told_alone(alloc: Global, recording: &Recording) -> Result<Told, Fail> {
    let record = record_of(alloc, recording)?;
    Ok(told(alone(alloc, &record)?))
}

/// Ends the test where one thread comes to something else on a recording than to its fault, with no page made again.
pub(crate) fn wants_alone<R: Abort>(
    rt: &R,
    alloc: Global,
    recording: &Recording,
) -> Result<(), Fail> {
    let told = told_alone(alloc, recording)?;
    wants_about(rt, recording.name, &told, &(0, recording.fault));
    Ok(())
}

/// What windows of at most so many events come to on a recording.
fn told_in_windows<R: Threads + Sync>(
    rt: &R,
    alloc: Global,
    recording: &Recording,
    size: usize,
) -> Result<MaybeFault, Fail> {
    let record = record_of(alloc, recording)?;
    let knobs = Knobs::standard();
    let verdict = audit_in_windows(rt, alloc, &record, knobs, size.max(1))?;
    Ok(fault_of(verdict))
}

/// Ends the test where windows of one of these sizes come to something else on a recording than to its fault.
pub(crate) fn wants_in_windows<R: Abort + Threads + Sync>(
    rt: &R,
    alloc: Global,
    recording: &Recording,
    sizes: &[usize],
) -> Result<(), Fail> {
    for size in sizes {
        let told = told_in_windows(rt, alloc, recording, *size)?;
        wants_about(rt, recording.name, &told, &recording.fault);
    }
    Ok(())
}

/// A crew's verdict, by the standard settings.
pub(crate) fn together<R: Threads + Wait + Sync, G: Gate>(
    rt: &R,
    alloc: Global,
    record: &Record,
    gate: &G,
) -> Result<Closed, Fail> {
    Ok(audit(rt, alloc, record, Knobs::standard(), gate)?)
}

/// What a crew comes to on a recording.
pub(crate) fn told_together<R: Threads + Wait + Sync, G: Gate>(
    rt: &R,
    alloc: Global,
    recording: &Recording,
    gate: &G,
) -> Result<Told, Fail> {
    let record = record_of(alloc, recording)?;
    Ok(told(together(rt, alloc, &record, gate)?))
}

/// How many pages a crew posts, and the least line of a fault on them.
fn gathered_on<R: Threads + Wait + Sync, G: Gate>(
    rt: &R,
    alloc: Global,
    record: &Record,
    gate: &G,
) -> Result<(u32, u64), Fail> {
    let gathered = crew(rt, alloc, record, Knobs::standard(), gate)?;
    Ok((gathered.posted, gathered.book.least()))
}

/// The same on a recording.
pub(crate) fn gathered<R: Threads + Wait + Sync, G: Gate>(
    rt: &R,
    alloc: Global,
    recording: &Recording,
    gate: &G,
) -> Result<(u32, u64), Fail> {
    let record = record_of(alloc, recording)?;
    gathered_on(rt, alloc, &record, gate)
}

/// The least settings of a record, by a crew.
fn least_of<R: Threads + Wait + Sync>(
    rt: &R,
    alloc: Global,
    record: &Record,
) -> Result<ClosedLeast, Fail> {
    let gathered = crew(rt, alloc, record, Knobs::greatest(), &OpenGate)?;
    Ok(gathered.book.close_least(record)?)
}

/// The drift among least settings, if there are such.
fn drift_of(least: &LeastSettings) -> Option<u64> {
    match least {
        LeastSettings::Found(knobs) => Some(knobs.get(Setting::Drift)),
        LeastSettings::Fault(_) => None,
    }
}

/// The least drift of a recording, where it is a run at some settings.
pub(crate) fn drift_needed<R: Threads + Wait + Sync>(
    rt: &R,
    alloc: Global,
    recording: &Recording,
) -> Result<Option<u64>, Fail> {
    let record = record_of(alloc, recording)?;
    let closed = least_of(rt, alloc, &record)?;
    Ok(drift_of(&closed.least))
}
