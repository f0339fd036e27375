//! The report as JSON, with nothing beside it.
use crate::fault_naming::FaultNaming;
use audit_command::{Answer, FrontOf, Lengths, kept_input, watched_input};
use audit_input::Keeping;
use given_texts::Input;
use json_audit::{Told, run_json_named};
use sched_audit::{Counted, Fault, LeastFigures, OpenGate, Request, SinkOf, Verdict, WithWaits};
use std::alloc::Global;
use std::io;
use std::rt::Files;
use std::sync::Wait;
use std::thread::Threads;

/// Writes the report as one JSON object.
pub(crate) fn answer_json<R: Files + Print + Eprint + Threads + Wait + Sync>(
    rt: &R,
    alloc: Global,
    request: &Request<'_>,
    trace: Input<R::File>,
    companion: Input<R::File>,
    lengths: Lengths,
) -> Result<Answer, Fault> {
    match (request.least, request.summary) {
        (true, _) => answer_as::<LeastFigures, R>(rt, alloc, request, trace, companion, lengths),
        (false, true) => answer_as::<Counted, R>(rt, alloc, request, trace, companion, lengths),
        (false, false) => answer_as::<Verdict, R>(rt, alloc, request, trace, companion, lengths),
    }
}

/// The same by what is judged, with the waits of the tasks where they are asked for.
fn answer_as<J: Told, R: Files + Print + Eprint + Threads + Wait + Sync>(
    rt: &R,
    alloc: Global,
    request: &Request<'_>,
    trace: Input<R::File>,
    companion: Input<R::File>,
    lengths: Lengths,
) -> Result<Answer, Fault> {
    if request.waits {
        answer_in::<WithWaits<J>, R>(rt, alloc, request, trace, companion, lengths)
    } else {
        answer_in::<J, R>(rt, alloc, request, trace, companion, lengths)
    }
}

/// The same, of what is told. A trace that can't be read a second time is kept.
fn answer_in<J: Told, R: Files + Print + Eprint + Threads + Wait + Sync>(
    rt: &R,
    alloc: Global,
    request: &Request<'_>,
    trace: Input<R::File>,
    companion: Input<R::File>,
    lengths: Lengths,
) -> Result<Answer, Fault> {
    let mut trace = kept_input(rt, alloc, trace, lengths.trace, Keeping::All);
    let mut companion = watched_input(rt, companion, lengths.companion);
    let mut naming = FaultNaming::new(rt, alloc, request.trace);
    let mut end = FrontOf::new(SinkOf::new(io::writer(rt)));
    let (trace, companion, out) = (&mut trace, &mut companion, &mut end);
    let (knobs, gate, naming) = (request.knobs, &OpenGate, &mut naming);
    run_json_named::<J, R, _, _, _, _, _>(
        rt, alloc, trace, companion, knobs, gate, naming, out,
    ).map(|status| end.answer(status))
}
