use crate::endings::{bad_words, print_answer};
use crate::record_calls::print_call_on;
use crate::texts::Texts;
use cfs_model::Knobs;
use companion_file::{read_companion, read_companion_wide};
use sched_audit::{OpenGate, audit_texts, least_texts};
use sched_record::{read_trace, read_trace_wide};
use std::io;
use std::process::ExitCode;
use std::sync::Wait;
use std::thread::Threads;

/// Makes the call of this name on two texts, or on their record, and prints a line for each of its answers.
pub fn print_call<R: AllocGlobal + Print + Threads + Wait + Sync>(
    rt: &R,
    call: &str,
    texts: &Texts,
) -> io::Result<ExitCode> {
    match call {
        "audit_texts" => print_audit(rt, texts),
        "least_texts" => print_least(rt, texts),
        _ if call.starts_with("read_") => print_reading(rt, call, texts),
        _ => print_call_on(rt, call, &texts.record(rt.alloc())?),
    }
}

fn print_audit<R: AllocGlobal + Print + Threads + Wait + Sync>(
    rt: &R,
    texts: &Texts,
) -> io::Result<ExitCode> {
    let (trace, companion) = (texts.trace.as_slice(), texts.companion.as_slice());
    let knobs = Knobs::standard();
    print_answer(
        rt,
        &audit_texts(rt, rt.alloc(), trace, companion, knobs, &OpenGate),
    )
}

fn print_least<R: AllocGlobal + Print + Threads + Wait + Sync>(
    rt: &R,
    texts: &Texts,
) -> io::Result<ExitCode> {
    let (trace, companion) = (texts.trace.as_slice(), texts.companion.as_slice());
    print_answer(
        rt,
        &least_texts(rt, rt.alloc(), trace, companion, &OpenGate),
    )
}

/// Makes the reading of this name.
fn print_reading<R: AllocGlobal + Print + Threads + Sync>(
    rt: &R,
    call: &str,
    texts: &Texts,
) -> io::Result<ExitCode> {
    let alloc = rt.alloc();
    let (trace, companion) = (texts.trace.as_slice(), texts.companion.as_slice());
    match call {
        "read_trace" => print_answer(rt, &read_trace(alloc, trace)),
        "read_trace_wide" => print_answer(rt, &read_trace_wide(rt, alloc, trace)),
        "read_companion" => print_answer(rt, &read_companion(alloc, companion)),
        "read_companion_wide" => print_answer(rt, &read_companion_wide(rt, alloc, companion)),
        _ => bad_words(),
    }
}
