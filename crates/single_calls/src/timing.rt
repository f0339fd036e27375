//! What a script times, round by round.

use crate::blocks::sizes_of;
use crate::endings::{bad_words, refused};
use crate::naming::print_naming;
use crate::readings::found_by;
use crate::stages::print_stages;
use crate::stopwatch::Stopwatch;
use crate::streamed::print_streamed;
use crate::texts::Texts;
use sched_audit::Sizes;
use sched_record::read_trace;
use std::process::ExitCode;
use std::rt::{Clock, Files};
use std::sync::Wait;
use std::thread::Threads;
use std::{fs, io};

/// Times what the words say as often as the last of them says, and prints a line for each time.
pub fn print_times<R: AllocGlobal + Clock + Files + Print + Threads + Wait + Sync>(
    rt: &R,
    words: &[String],
) -> io::Result<ExitCode> {
    let Some(rounds) = words.last().and_then(|word| word.parse::<u32>().ok()) else {
        return bad_words();
    };
    match words {
        [what, trace, _] if what.as_str() == "naming" => time_naming(rt, trace.as_str(), rounds),
        [what, file, _] => time_reading(rt, what.as_str(), file.as_str(), rounds),
        [what, trace, companion, _] if what.as_str() == "stages" => {
            let texts = Texts::read(rt, trace.as_str(), companion.as_str())?;
            time_stages(rt, &texts, rounds)
        }
        [what, trace, companion, block, window, _] if what.as_str() == "streamed" => {
            let Some(sizes) = sizes_of(block.as_str(), window.as_str()) else {
                return bad_words();
            };
            time_streamed(rt, trace.as_str(), companion.as_str(), sizes, rounds)
        }
        _ => bad_words(),
    }
}

/// Times how the pids of a trace's births are named.
fn time_naming<R: AllocGlobal + Clock + Files + Print>(
    rt: &R,
    trace: &str,
    rounds: u32,
) -> io::Result<ExitCode> {
    let trace = read_trace(rt.alloc(), &fs::read(rt, trace)?).map_err(|_| refused())?;
    for _ in 0..rounds {
        print_naming(rt, &trace)?;
    }
    Ok(ExitCode::SUCCESS)
}

/// Times a reading of a file.
fn time_reading<R: AllocGlobal + Clock + Files + Print + Threads + Sync>(
    rt: &R,
    what: &str,
    file: &str,
    rounds: u32,
) -> io::Result<ExitCode> {
    let text = fs::read(rt, file)?;
    for _ in 0..rounds {
        let mut watch = Stopwatch::start(rt)?;
        let Some(found) = found_by(rt, what, &text) else {
            return bad_words();
        };
        watch.print_lap(rt)?;
        println!(rt; "{found:?}")?;
    }
    Ok(ExitCode::SUCCESS)
}

/// Times the audit of a recording, by stages and whole.
fn time_stages<R: AllocGlobal + Clock + Print + Threads + Wait + Sync>(
    rt: &R,
    texts: &Texts,
    rounds: u32,
) -> io::Result<ExitCode> {
    for _ in 0..rounds {
        print_stages(rt, texts)?;
    }
    Ok(ExitCode::SUCCESS)
}

/// Times the audit of two files a block at a time.
fn time_streamed<R: AllocGlobal + Clock + Files + Print + Threads + Sync>(
    rt: &R,
    trace: &str,
    companion: &str,
    sizes: Sizes,
    rounds: u32,
) -> io::Result<ExitCode> {
    for _ in 0..rounds {
        print_streamed(rt, trace, companion, sizes)?;
    }
    Ok(ExitCode::SUCCESS)
}
