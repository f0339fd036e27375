//! The stages of an audit, each ended for all processors before the next begins, in one thread and in several; and
//! whole audits. What is closed is the book of a crew, as `audit` closes it.

use crate::counting_gate::CountingGate;
use crate::endings::{out_of_memory, refused};
use crate::processor::Processor;
use crate::stopwatch::Stopwatch;
use crate::texts::Texts;
use audit_crew::{OpenGate, audit, audit_serial, crew};
use cfs_model::{Knobs, Memory};
use sched_record::{Record, join};
use std::alloc::Global;
use std::rt::Clock;
use std::sync::Wait;
use std::thread::Threads;
use std::{io, thread};

/// How many threads at most share the processors of a record, where there are several.
const THREADS: usize = 4;

/// Audits a trace and its companion, by stages and whole, and prints how long each stage and each audit took; then the
/// most stretches that an auditor of `audit` replayed, and how the book closed.
pub fn print_stages<R: AllocGlobal + Clock + Print + Threads + Wait + Sync>(
    rt: &R,
    texts: &Texts,
) -> io::Result<()> {
    let mut watch = Stopwatch::start(rt)?;
    let (trace, companion) = texts.both(rt.alloc())?;
    watch.print_lap(rt)?;
    let record = join(trace, companion).map_err(|_| refused())?;
    watch.print_lap(rt)?;
    print_by_stages(rt, &record, 1)?;
    print_by_stages(rt, &record, THREADS)?;
    print_whole(rt, &record)
}

/// Audits a record stage by stage, in at most so many threads.
fn print_by_stages<R: AllocGlobal + Clock + Print + Threads + Wait + Sync>(
    rt: &R,
    record: &Record,
    threads: usize,
) -> io::Result<()> {
    let alloc = rt.alloc();
    let mut processors = processors_of(alloc, record.cpus()).map_err(out_of_memory)?;
    let mut watch = Stopwatch::start(rt)?;
    thread::for_each_mut(
        rt,
        processors.as_mut_slice(),
        threads.max(1),
        &|cpu, processor: &mut Processor| processor.deal(record, cpu),
    );
    watch.print_lap(rt)?;
    thread::for_each_mut(
        rt,
        processors.as_mut_slice(),
        threads.max(1),
        &|_cpu, processor: &mut Processor| processor.replay(alloc),
    );
    watch.print_lap(rt)?;
    drop(processors);
    print_closing(rt, record)
}

/// Closes the book that a crew filled.
fn print_closing<R: AllocGlobal + Clock + Print + Threads + Wait + Sync>(
    rt: &R,
    record: &Record,
) -> io::Result<()> {
    let knobs = Knobs::standard();
    let book = crew(rt, rt.alloc(), record, knobs, &OpenGate)
        .map_err(out_of_memory)?
        .book;
    let mut watch = Stopwatch::start(rt)?;
    let _closed = book.close_own(record, knobs).map_err(out_of_memory)?;
    watch.print_lap(rt)
}

/// Audits a record whole, by one thread and by one for each processor.
fn print_whole<R: AllocGlobal + Clock + Print + Threads + Wait + Sync>(
    rt: &R,
    record: &Record,
) -> io::Result<()> {
    let (alloc, knobs) = (rt.alloc(), Knobs::standard());
    let mut watch = Stopwatch::start(rt)?;
    let _closed = audit_serial(alloc, record, knobs).map_err(out_of_memory)?;
    watch.print_lap(rt)?;
    let gate = CountingGate::new(alloc, record.cpus()).map_err(out_of_memory)?;
    let closed = audit(rt, alloc, record, knobs, &gate).map_err(out_of_memory)?;
    watch.print_lap(rt)?;
    println!(rt; "{} {closed:?}", gate.most_stretches())
}

fn processors_of(alloc: Global, cpus: u32) -> Result<Vec<Processor>, Memory> {
    let mut processors = Vec::new(alloc);
    for _cpu in 0..cpus {
        processors.push(Processor::new())?;
    }
    Ok(processors)
}
