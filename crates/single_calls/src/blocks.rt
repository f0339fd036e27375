use crate::endings::bad_words;
use sched_audit::{
    FeedOf, SinkOf, Sizes, command_line, run_counted_in_blocks, run_in_blocks, run_least_in_blocks,
};
use std::fs::File;
use std::io;
use std::process::ExitCode;
use std::rt::Files;
use std::thread::Threads;

/// Runs the audit that reads both inputs at once, by how many bytes a read asks for and how many reads are audited
/// together, how many events a window has, and then the words of a command line of `sched_audit`. Prints its report.
pub fn print_in_blocks<R: AllocGlobal + Files + Print + Threads + Sync>(
    rt: &R,
    block: &str,
    words: &[String],
) -> io::Result<ExitCode> {
    let sizes = words
        .first()
        .and_then(|window| sizes_of(block, window.as_str()));
    // The window's size stands where a command line has the program's name.
    let (Some(sizes), Ok(request)) = (sizes, command_line(rt.alloc(), words)) else {
        return bad_words();
    };
    let trace = &mut FeedOf::new(File::open(rt, request.trace)?);
    let companion = &mut FeedOf::new(File::open(rt, request.companion)?);
    let out = &mut SinkOf::new(io::writer(rt));
    let (alloc, knobs) = (rt.alloc(), request.knobs);
    let status = match (request.least, request.summary) {
        (true, _) => run_least_in_blocks(rt, alloc, trace, companion, sizes, out),
        (false, true) => run_counted_in_blocks(rt, alloc, trace, companion, knobs, sizes, out),
        (false, false) => run_in_blocks(rt, alloc, trace, companion, knobs, sizes, out),
    };
    Ok(ExitCode::from(match status {
        Ok(status) => status.code(),
        Err(fault) => fault.code(),
    }))
}

/// The sizes that two words say, each at least one. Behind the bytes of a read may stand an `x` and how many reads are
/// audited together.
pub fn sizes_of(block: &str, window: &str) -> Option<Sizes> {
    let (bytes, reads) = block.split_once('x').unwrap_or((block, "1"));
    match (
        bytes.parse::<u32>(),
        reads.parse::<u32>(),
        window.parse::<usize>(),
    ) {
        (Ok(bytes), Ok(reads), Ok(window)) => {
            Some(Sizes::new(bytes.max(1), window.max(1)).by_reads(reads))
        }
        _ => None,
    }
}
