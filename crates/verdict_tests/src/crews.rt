//! Crews of auditors, which come to the verdict of one thread; and what an auditor says of its fault.

use crate::answers::wants_about;
use crate::books::{words_in, words_of_second};
use crate::calls::{Told, alone, record_from, record_of, together, told};
use crate::machines::{DEATH_THEN_BIRTH_ELSEWHERE, Recording, recordings};
use audit_crew::{AuditorFault, OpenGate};
use cfs_model::Kind;
use sched_record::Record;
use std::alloc::Global;
use std::sync::Wait;
use std::test::Fail;
use std::thread::Threads;
use ticket_book::Closed;

#[test]
fn an_auditor_tells_its_fault_in_words(rt: HostRuntime) -> Result<(), Fail> {
    wants_about(
        &rt,
        "",
        &words_of_second(rt.alloc(), &DEATH_THEN_BIRTH_ELSEWHERE)?.as_str(),
        &"processor 0: the page's processor has a page",
    );
    Ok(())
}

#[test]
fn an_auditor_tells_want_of_memory_in_words(rt: HostRuntime) -> Result<(), Fail> {
    wants_about(
        &rt,
        "",
        &words_in(rt.alloc(), Err(AuditorFault::Memory))?.as_str(),
        &"out of memory",
    );
    Ok(())
}

/// Whether two are the same, and what the first tells.
fn compared(closed: Closed, alone: Closed) -> (bool, Told) {
    (closed == alone, told(closed))
}

/// Whether a crew and one thread agree in all on a recording, and what they come to.
fn both<R: Threads + Wait + Sync>(
    rt: &R,
    alloc: Global,
    recording: &Recording,
) -> Result<(bool, Told), Fail> {
    let record = record_of(alloc, recording)?;
    let closed = together(rt, alloc, &record, &OpenGate)?;
    Ok(compared(closed, alone(alloc, &record)?))
}

#[test]
fn a_crew_comes_to_the_verdict_of_one_thread(rt: HostRuntime) -> Result<(), Fail> {
    for recording in recordings() {
        let answer = both(&rt, rt.alloc(), recording)?;
        wants_about(&rt, recording.name, &answer, &(true, (0, recording.fault)));
    }
    Ok(())
}

/// The companion of 64 processors, each of which runs a task.
fn companion_of_64(alloc: Global) -> Result<String, Fail> {
    let mut text = String::new(alloc);
    write!(text, "cfs-companion 1\ncpus 64\nstart 100.000000\n")?;
    for cpu in 0..64 {
        writeln!(text, "floor {cpu} 0")?;
    }
    for cpu in 0..64 {
        let pid = 101 + cpu;
        writeln!(text, "task {pid} 0 {cpu} run 0")?;
    }
    Ok(text)
}

/// A processor wakes the task that runs there.
fn write_wakeup(text: &mut String, cpu: u32) -> Result<(), Fail> {
    let pid = cpu.saturating_add(101);
    writeln!(
        text,
        "            t{pid}-{pid}     [{cpu:03}] d..2.   100.001000: sched_wakeup: comm=t{pid} pid={pid} prio=120 target_cpu={cpu:03}"
    )?;
    Ok(())
}

/// A processor switches from a task that does not run there.
fn write_switch(text: &mut String, cpu: u32) -> Result<(), Fail> {
    let pid = cpu.saturating_add(201);
    writeln!(
        text,
        "            t{pid}-{pid}     [{cpu:03}] d..2.   100.002000: sched_switch: prev_comm=t{pid} prev_pid={pid} prev_prio=120 prev_state=S ==> next_comm=swapper/{cpu} next_pid=0 next_prio=120"
    )?;
    Ok(())
}

/// Each of 64 processors wakes its task; then 40, 7 and 63 switch from tasks that do not run there.
fn trace_of_64(alloc: Global) -> Result<String, Fail> {
    let mut text = String::new(alloc);
    for cpu in 0..64 {
        write_wakeup(&mut text, cpu)?;
    }
    for cpu in [40, 7, 63] {
        write_switch(&mut text, cpu)?;
    }
    Ok(text)
}

fn three_faults_on_64_processors(alloc: Global) -> Result<Record, Fail> {
    let trace = trace_of_64(alloc)?;
    let companion = companion_of_64(alloc)?;
    record_from(alloc, trace.as_bytes(), companion.as_bytes())
}

/// What a crew comes to on a record.
fn told_on<R: Threads + Wait + Sync>(rt: &R, alloc: Global, record: &Record) -> Result<Told, Fail> {
    Ok(told(together(rt, alloc, record, &OpenGate)?))
}

/// How many of a thousand crews come to this.
fn count_that_tell<R: Threads + Wait + Sync>(
    rt: &R,
    alloc: Global,
    record: &Record,
    wanted: Told,
) -> Result<u32, Fail> {
    let mut count: u32 = 0;
    for _ in 0..1000 {
        if told_on(rt, alloc, record)? == wanted {
            count = count.saturating_add(1);
        }
    }
    Ok(count)
}

/// The same on the record of 64 processors.
fn count_on_64<R: Threads + Wait + Sync>(rt: &R, alloc: Global, wanted: Told) -> Result<u32, Fail> {
    let record = three_faults_on_64_processors(alloc)?;
    count_that_tell(rt, alloc, &record, wanted)
}

#[test]
fn a_thousand_crews_of_64_come_to_one_verdict(rt: HostRuntime) -> Result<(), Fail> {
    let told = (0, Some((65, 40, 241, Kind::PrevNotRunning)));
    wants_about(&rt, "", &count_on_64(&rt, rt.alloc(), told)?, &1000);
    Ok(())
}
