use crate::cause_word::CauseWord;
use crate::command::{Request, command_line};
use crate::ending::Ending;
use crate::front_feed::FrontFeed;
use crate::hints::{say_of_companion, say_of_stretches, say_of_text};
use audit_input::{Fault, FeedOf};
use clap::Error;
use clap::error::ErrorKind::OutOfMemory;
use companion_guess::{KernelValues, Wishes};
use companion_maker::{Heard, Hearing, NotMade, companion_of_trace, hear_trace};
use given_texts::{StandardInput, open_input, read_input};
use sched_record::{JoinCause, TraceFault};
use std::alloc::Global;
use std::io::{ErrorKind, Write};
use std::rt::{Env, Files, Stdin};
use std::thread::Threads;
use std::{env, io};

/// How many bytes of the trace a read asks for.
const BLOCK: u32 = 1 << 18;

/// Does what the command line says.
pub fn obey<R: Env + Files + Print + Eprint + Threads + Sync + AllocGlobal>(
    rt: &R,
    alloc: Global,
    stdin: Stdin,
) -> Ending {
    let words = match words_of(rt, alloc) {
        Ok(words) => words,
        Err(error) if error.kind() == ErrorKind::OutOfMemory => return Ending::Memory,
        Err(_) => {
            let _ = eprintln!(rt; "error: a word of the command line isn't UTF-8");
            return Ending::Misused;
        }
    };
    match command_line(alloc, words.as_slice()) {
        Ok(request) => make(rt, alloc, stdin, &request),
        Err(error) => tell(rt, &error),
    }
}

/// The words of the command line; the first is the program's own name.
fn words_of<R: Env + AllocGlobal>(rt: &R, alloc: Global) -> io::Result<Vec<String>> {
    Ok(env::args(rt)?.collect(alloc)?)
}

/// Makes the companion, and writes it to standard output.
fn make<R: Files + Print + Eprint + Threads + Sync + AllocGlobal>(
    rt: &R,
    alloc: Global,
    stdin: Stdin,
    request: &Request<'_>,
) -> Ending {
    let mut standard = StandardInput::new(rt, stdin);
    let trace = match open_input(rt, &mut standard, request.trace) {
        Ok(trace) => trace,
        Err(error) => return ending_of(&error, Ending::Unread),
    };
    let mut feed = FrontFeed::new(alloc, FeedOf::new(trace));
    let hearing = match hear_trace(alloc, &mut feed, BLOCK, &request.wishes) {
        Ok(hearing) => hearing,
        Err(Fault::Memory) => return Ending::Memory,
        Err(_) => return Ending::Unread,
    };
    let Some(name) = request.debug else {
        return write_companion(rt, alloc, feed.front(), hearing, None, &request.wishes);
    };
    match read_input(rt, alloc, &mut standard, name) {
        Ok(debug) => write_companion(
            rt,
            alloc,
            feed.front(),
            hearing,
            Some(debug.as_slice()),
            &request.wishes,
        ),
        Err(error) => ending_of(&error, Ending::DebugUnread),
    }
}

/// How the program ends where a text couldn't be read.
fn ending_of(error: &io::Error, unread: Ending) -> Ending {
    if error.kind() == ErrorKind::OutOfMemory {
        Ending::Memory
    } else {
        unread
    }
}

/// Writes the companion of what was heard to standard output. The trace's text began like this.
fn write_companion<R: Print + Eprint + Threads + Sync + AllocGlobal>(
    rt: &R,
    alloc: Global,
    front: &[u8],
    hearing: Hearing,
    debug: Option<&[u8]>,
    wishes: &Wishes,
) -> Ending {
    let Heard { trace, prints } = match hearing.finish() {
        Ok(heard) => heard,
        Err(TraceFault::Text { line, cause }) => {
            return refuse(rt, front, line, CauseWord::Trace(cause));
        }
        Err(TraceFault::Memory) => return Ending::Memory,
    };
    let is_empty = trace.events().is_empty();
    let values = KernelValues::told(prints, debug);
    match companion_of_trace(rt, alloc, trace, values, wishes) {
        Ok(made) => {
            if made.guess.is_none() {
                let _ = eprintln!(rt;
                    "make_companion: nothing is known of this trace; the companion says nothing"
                );
            }
            match io::writer(rt).write_all(made.text.as_slice()) {
                Ok(()) => {
                    say_of_companion(rt, front, is_empty, debug, made.guess);
                    Ending::Told
                }
                Err(_) => Ending::Unwritten,
            }
        }
        Err(NotMade::CpuOutside { line }) => {
            refuse(rt, front, line, CauseWord::Join(JoinCause::CpuOutside))
        }
        Err(NotMade::Memory) => Ending::Memory,
    }
}

/// Says on standard error that the trace is refused.
fn refuse<R: Eprint>(rt: &R, front: &[u8], line: u64, word: CauseWord) -> Ending {
    let _ = eprintln!(rt; "make_companion: refused trace line {line} {word}");
    say_of_text(rt, front);
    if word.cuts_recordings() {
        say_of_stretches(rt);
    }
    Ending::Refused
}

/// Prints clap's text: help and the version to standard output, a mistake to standard error.
fn tell<R: Print + Eprint>(rt: &R, error: &Error) -> Ending {
    if error.kind() == OutOfMemory {
        return Ending::Memory;
    }
    let printed = error.print(rt);
    if error.use_stderr() {
        Ending::Misused
    } else if printed.is_ok() {
        Ending::Told
    } else {
        Ending::Unwritten
    }
}
