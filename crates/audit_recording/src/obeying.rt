use crate::command::{Request, command_line};
use crate::ending::Ending;
use crate::hints::{say_of_audited, say_of_refused};
use crate::keeping::keep;
use crate::progress::Progress;
use cfs_model::Knobs;
use clap::Error;
use clap::error::ErrorKind::OutOfMemory;
use companion_guess::{Strategy, Wishes};
use given_texts::{StandardInput, read_input};
use recording_audit::{Asked, CauseWords, NotAudited, Part, Tally, audit_recording, report};
use std::alloc::Global;
use std::io::{ErrorKind, Write};
use std::rt::{Env, Files, Stdin};
use std::sync::Wait;
use std::thread::Threads;
use std::time::Clock;
use std::{env, io};

/// Does what the command line says. Where `tells` is set, standard error is told how far it is.
pub fn obey<R: Env + Files + Clock + Print + Eprint + AllocGlobal + Threads + Wait + Sync>(
    rt: &R,
    alloc: Global,
    stdin: Stdin,
    tells: bool,
) -> Ending {
    let words = match words_of(rt, alloc) {
        Ok(words) => words,
        Err(error) if error.kind() == ErrorKind::OutOfMemory => return Ending::Memory,
        Err(_) => {
            let _ = eprintln!(rt; "error: a word of the command line isn't UTF-8");
            return Ending::Misused;
        }
    };
    match command_line(alloc, words.as_slice()) {
        Ok(request) => match audit(rt, alloc, stdin, &request, tells) {
            Ok(ending) | Err(ending) => ending,
        },
        Err(error) => tell(rt, &error),
    }
}

/// The words of the command line; the first is the program's own name.
fn words_of<R: Env + AllocGlobal>(rt: &R, alloc: Global) -> io::Result<Vec<String>> {
    Ok(env::args(rt)?.collect(alloc)?)
}

/// Reads what is asked of, audits it, and writes the report.
fn audit<R: Files + Clock + Print + Eprint + AllocGlobal + Threads + Wait + Sync>(
    rt: &R,
    alloc: Global,
    stdin: Stdin,
    request: &Request<'_>,
    tells: bool,
) -> Result<Ending, Ending> {
    let mut standard = StandardInput::new(rt, stdin);
    let text = read(rt, alloc, &mut standard, request.trace, Ending::Unread)?;
    let debug = match request.debug {
        Some(name) => Some(read(rt, alloc, &mut standard, name, Ending::DebugUnread)?),
        None => None,
    };
    let asked = Asked {
        // The limits are none of them: a stretch needs the same whatever is allowed.
        wishes: Wishes {
            knobs: Knobs::standard(),
            strategy: Some(Strategy::Kernel),
        },
        debug: debug.as_ref().map(|debug| debug.as_slice()),
        least_events: request.least_events,
        limits: request.limits,
    };
    let parts = parts_of(rt, alloc, text.as_slice(), &asked, tells)?;
    // The report first: it isn't lost where the folder can't be written.
    let ending = write_report(rt, alloc, parts.as_slice())?;
    if let Some(folder) = request.out {
        keep(rt, alloc, folder, parts.as_slice())?;
    }
    say_of_audited(rt, text.as_slice(), parts.as_slice());
    Ok(ending)
}

/// The bytes of the file that a name of the command line is.
fn read<R: Files>(
    rt: &R,
    alloc: Global,
    standard: &mut StandardInput,
    name: &str,
    unread: Ending,
) -> Result<Vec<u8>, Ending> {
    match read_input(rt, alloc, standard, name) {
        Ok(text) => Ok(text),
        Err(error) if error.kind() == ErrorKind::OutOfMemory => Err(Ending::Memory),
        Err(_) => Err(unread),
    }
}

/// The parts of a recording. Where it is refused, that is printed.
fn parts_of<'a, R: Clock + Print + Eprint + Threads + Wait + Sync>(
    rt: &R,
    alloc: Global,
    text: &'a [u8],
    asked: &Asked<'_>,
    tells: bool,
) -> Result<Vec<Part<'a>>, Ending> {
    let mut progress = Progress::new(rt, text.len() as u64, tells);
    let parts = audit_recording(rt, alloc, text, asked, &mut progress);
    progress.end();
    match parts {
        Ok(parts) => Ok(parts),
        Err(NotAudited::Refused { line, cause }) => {
            Err(refuse(rt, text, line, CauseWords(cause)))
        }
        Err(NotAudited::Memory) => Err(Ending::Memory),
    }
}

/// Prints that the recording is refused.
fn refuse<R: Print + Eprint>(rt: &R, text: &[u8], line: u64, words: CauseWords) -> Ending {
    match println!(rt; "refused trace line {line} {words}") {
        Ok(()) => {
            say_of_refused(rt, text);
            Ending::Refused
        }
        Err(_) => Ending::Unwritten,
    }
}

/// Writes a line for each stretch and cut, and says how the program ends by them.
fn write_report<R: Print>(rt: &R, alloc: Global, parts: &[Part<'_>]) -> Result<Ending, Ending> {
    let Ok(text) = report(alloc, parts) else {
        return Err(Ending::Memory);
    };
    match io::writer(rt).write_all(text.as_bytes()) {
        Ok(()) => Ok(ending_of(parts)),
        Err(_) => Err(Ending::Unwritten),
    }
}

/// How the program ends by these parts.
fn ending_of(parts: &[Part<'_>]) -> Ending {
    let mut tally = Tally::new();
    for part in parts {
        tally.add(&part.told);
    }
    if tally.is_over {
        Ending::Over
    } else if tally.stretches == 0 {
        Ending::Refused
    } else {
        Ending::Told
    }
}

/// Prints clap's text: help and the version to standard output, a mistake to standard error.
fn tell<R: Print + Eprint>(rt: &R, error: &Error) -> Ending {
    if error.kind() == OutOfMemory {
        return Ending::Memory;
    }
    let printed = error.print(rt);
    if error.use_stderr() {
        Ending::Misused
    } else if printed.is_ok() {
        Ending::Told
    } else {
        Ending::Unwritten
    }
}
