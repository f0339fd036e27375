use audit_command::{
    Answer, Ending, Failure, FrontOf, Terminals, filled_input, open_inputs, tell, words_of,
};
use sched_audit::{Request, SinkOf, command_line, run_request};
use std::alloc::Global;
use std::io;
use std::rt::{Env, Files, Stdin};
use std::sync::Wait;
use std::thread::Threads;

/// Does what the command line says, unless it asks for more than a report in lines.
pub fn obey<R: Env + Files + Print + Eprint + AllocGlobal + Threads + Wait + Sync>(
    rt: &R,
    alloc: Global,
    stdin: Stdin,
    terminals: Terminals,
) -> Ending {
    let words = match words_of(rt, alloc) {
        Ok(words) => words,
        Err(ending) => return ending,
    };
    match command_line(alloc, words.as_slice()) {
        Ok(request) if asks_for_more(&request) => {
            let _ = eprintln!(rt; "error: this program has no --json, --states and --explain");
            Ending::Misused
        }
        Ok(request) => Ending::of(rt, &request, answer(rt, alloc, stdin, &request, terminals)),
        Err(error) => tell(rt, &error),
    }
}

/// Whether more is asked for than a report in lines.
fn asks_for_more(request: &Request<'_>) -> bool {
    request.json || request.explain || request.states.is_some()
}

/// Opens both inputs, and writes the report of them to standard output.
fn answer<R: Files + Print + Eprint + Threads + Wait + Sync>(
    rt: &R,
    alloc: Global,
    stdin: Stdin,
    request: &Request<'_>,
    terminals: Terminals,
) -> Result<Answer, Failure> {
    let inputs = open_inputs(rt, stdin, request, terminals)?;
    let mut trace = filled_input(rt, inputs.trace, inputs.lengths.trace);
    let mut companion = filled_input(rt, inputs.companion, inputs.lengths.companion);
    let mut end = FrontOf::new(SinkOf::new(io::writer(rt)));
    let status = run_request(rt, alloc, request, &mut trace, &mut companion, &mut end)?;
    Ok(end.answer(status))
}
