use crate::ending::Ending;
use audit_input::Fault;
use clap::Error;
use clap::error::ErrorKind::OutOfMemory;
use std::alloc::Global;
use std::io::ErrorKind;
use std::rt::Env;
use std::{env, io};

/// The words of the command line; the first is the program's own name. Where they can't be had it is said why, unless
/// it is for want of memory.
pub fn words_of<R: Env + Eprint + AllocGlobal>(
    rt: &R,
    alloc: Global,
) -> Result<Vec<String>, Ending> {
    match collect_words(rt, alloc) {
        Ok(words) => Ok(words),
        Err(error) if error.kind() == ErrorKind::OutOfMemory => Err(Ending::Failed(Fault::Memory)),
        Err(_) => {
            let _ = eprintln!(rt; "error: a word of the command line isn't UTF-8");
            Err(Ending::Misused)
        }
    }
}

fn collect_words<R: Env + AllocGlobal>(rt: &R, alloc: Global) -> io::Result<Vec<String>> {
    Ok(env::args(rt)?.collect(alloc)?)
}

/// Prints clap's text: help and the version to standard output, a mistake to standard error.
pub fn tell<R: Print + Eprint>(rt: &R, error: &Error) -> Ending {
    if error.kind() == OutOfMemory {
        return Ending::Failed(Fault::Memory);
    }
    let printed = error.print(rt);
    if error.use_stderr() {
        Ending::Misused
    } else if printed.is_ok() {
        Ending::Told
    } else {
        Ending::Failed(Fault::Write)
    }
}
