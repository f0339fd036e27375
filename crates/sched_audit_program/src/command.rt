use crate::json_report::answer_json;
use crate::keeping::{answer_kept, answer_kept_json};
use crate::streaming::answer_explained;
use audit_command::{
    Answer, Ending, Failure, FrontOf, Inputs, Lengths, Terminals, filled_input, open_inputs, tell,
    words_of,
};
use given_texts::Input;
use json_audit::Told;
use sched_audit::{
    Counted, Fault, LeastFigures, Request, SinkOf, Streamed, Verdict, WithWaits, command_line,
    run_request,
};
use std::alloc::Global;
use std::io;
use std::rt::{Env, Files, Stdin};
use std::sync::Wait;
use std::thread::Threads;

/// Does what the command line says.
pub fn obey<R: Env + Files + Print + Eprint + AllocGlobal + Threads + Wait + Sync>(
    rt: &R,
    alloc: Global,
    stdin: Stdin,
    terminals: Terminals,
) -> Ending {
    let words = match words_of(rt, alloc) {
        Ok(words) => words,
        Err(ending) => return ending,
    };
    match command_line(alloc, words.as_slice()) {
        Ok(request) => {
            let request = terminals.color(rt, request);
            Ending::of(rt, &request, answer(rt, alloc, stdin, &request, terminals))
        }
        Err(error) => tell(rt, &error),
    }
}

/// Opens both inputs, and writes what is asked of them to standard output.
fn answer<R: Files + Print + Eprint + Threads + Wait + Sync>(
    rt: &R,
    alloc: Global,
    stdin: Stdin,
    request: &Request<'_>,
    terminals: Terminals,
) -> Result<Answer, Failure> {
    let Inputs {
        trace,
        companion,
        lengths,
    } = open_inputs(rt, stdin, request, terminals)?;
    if !request.explain && request.states.is_none() {
        return Ok(answer_alone(rt, alloc, request, trace, companion, lengths)?);
    }
    match (request.least, request.summary) {
        (true, _) => answer_as::<LeastFigures, R>(rt, alloc, request, trace, companion, lengths),
        (false, true) => answer_as::<Counted, R>(rt, alloc, request, trace, companion, lengths),
        (false, false) => answer_as::<Verdict, R>(rt, alloc, request, trace, companion, lengths),
    }
}

/// Answers a request by what is told of a record, with an explanation or what else is written beside the report. The
/// record is kept where that wants it.
fn answer_as<J: Told + Streamed, R: Files + Print + Eprint + Threads + Wait + Sync>(
    rt: &R,
    alloc: Global,
    request: &Request<'_>,
    trace: Input<R::File>,
    companion: Input<R::File>,
    lengths: Lengths,
) -> Result<Answer, Failure> {
    if keeps_record(request) {
        answer_kept_as::<J, R>(rt, alloc, request, trace, companion, lengths)
    } else {
        answer_explained::<J, R>(rt, alloc, request, trace, companion, lengths)
    }
}

/// Whether what is asked for wants the record, beside an explanation.
fn keeps_record(request: &Request<'_>) -> bool {
    request.waits || request.states.is_some()
}

/// Answers a request with the record kept, and with the waits of its tasks where they are asked for.
fn answer_kept_as<J: Told, R: Files + Print + Eprint + Threads + Wait + Sync>(
    rt: &R,
    alloc: Global,
    request: &Request<'_>,
    trace: Input<R::File>,
    companion: Input<R::File>,
    lengths: Lengths,
) -> Result<Answer, Failure> {
    if request.waits {
        answer_kept_in::<WithWaits<J>, R>(rt, alloc, request, trace, companion, lengths)
    } else {
        answer_kept_in::<J, R>(rt, alloc, request, trace, companion, lengths)
    }
}

/// The same in lines, or as JSON where that is asked for.
fn answer_kept_in<J: Told, R: Files + Print + Eprint + Threads + Wait + Sync>(
    rt: &R,
    alloc: Global,
    request: &Request<'_>,
    trace: Input<R::File>,
    companion: Input<R::File>,
    lengths: Lengths,
) -> Result<Answer, Failure> {
    if request.json {
        answer_kept_json::<J, R>(rt, alloc, request, trace, companion, lengths)
    } else {
        answer_kept::<J, R>(rt, alloc, request, trace, companion, lengths)
    }
}

/// Writes the report, and nothing beside it.
fn answer_alone<R: Files + Print + Eprint + Threads + Wait + Sync>(
    rt: &R,
    alloc: Global,
    request: &Request<'_>,
    trace: Input<R::File>,
    companion: Input<R::File>,
    lengths: Lengths,
) -> Result<Answer, Fault> {
    if request.json {
        return answer_json(rt, alloc, request, trace, companion, lengths);
    }
    let mut trace = filled_input(rt, trace, lengths.trace);
    let mut companion = filled_input(rt, companion, lengths.companion);
    let mut end = FrontOf::new(SinkOf::new(io::writer(rt)));
    let status = run_request(rt, alloc, request, &mut trace, &mut companion, &mut end)?;
    Ok(end.answer(status))
}
