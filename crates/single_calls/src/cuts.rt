ghost use Rattle.std.specs.Prelude.{◌<◌};

use crate::endings::bad_words;
use crate::texts::Texts;
use cfs_model::Knobs;
use sched_audit::{FeedOf, OpenGate, SinkOf, command_line, run};
use std::io;
use std::io::Write;
use std::process::ExitCode;
use std::rt::Files;
use std::sync::Wait;
use std::thread::Threads;

/// How many bytes at both ends of a text are all cut at.
const EDGE: usize = 1024;

/// Runs the audit on beginnings of two texts, by a step and then the words of a command line of `sched_audit`.
pub fn print_cuts<R: AllocGlobal + Files + Print + Threads + Wait + Sync>(
    rt: &R,
    words: &[String],
) -> io::Result<ExitCode> {
    let step = match words.first().and_then(|word| word.parse::<usize>().ok()) {
        Some(step) if step > 0 => step,
        _ => return bad_words(),
    };
    // The step stands where a command line has the program's name.
    let Ok(request) = command_line(rt.alloc(), words) else {
        return bad_words();
    };
    let texts = Texts::read(rt, request.trace, request.companion)?;
    print_runs(rt, step, &texts.trace, &texts.companion, request.knobs)
}

/// Runs the audit on beginnings of the trace with the whole companion, and on the whole trace with beginnings of the
/// companion: each of their lengths within `EDGE` of either end, and between these each step.
fn print_runs<R: AllocGlobal + Print + Threads + Wait + Sync>(
    rt: &R,
    step: usize,
    trace: &[u8],
    companion: &[u8],
    knobs: Knobs,
) -> io::Result<ExitCode>
    requires { 0 < step }
{
    for length in 0..=trace.len() {
        if is_cut(length, trace.len(), step) {
            print!(rt; "trace {length} ")?;
            print_run(rt, &trace[..length], companion, knobs)?;
        }
    }
    for length in 0..=companion.len() {
        if is_cut(length, companion.len(), step) {
            print!(rt; "companion {length} ")?;
            print_run(rt, trace, &companion[..length], knobs)?;
        }
    }
    Ok(ExitCode::SUCCESS)
}

/// Whether a text of so many bytes is cut at this length.
fn is_cut(length: usize, whole: usize, step: usize) -> bool
    requires { 0 < step }
{
    length < EDGE || whole.saturating_sub(length) < EDGE || length.is_multiple_of(step)
}

/// Prints what a run answered and how many bytes it wrote, and these.
fn print_run<R: AllocGlobal + Print + Threads + Wait + Sync>(
    rt: &R,
    trace: &[u8],
    companion: &[u8],
    knobs: Knobs,
) -> io::Result<()> {
    let mut written = Vec::new(rt.alloc());
    let answer = run(
        rt,
        rt.alloc(),
        &mut FeedOf::new(trace),
        &mut FeedOf::new(companion),
        knobs,
        &OpenGate,
        &mut SinkOf::new(&mut written),
    );
    println!(rt; "{answer:?} {}", written.len())?;
    io::writer(rt).write_all(&written)
}
