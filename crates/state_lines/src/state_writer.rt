ghost use Rattle.std.specs.Prelude.{◌≡◌, ◌<◌, IfOk};
ghost use Rattle.processor_stream.specs.Stream.{stream_view};
ghost use Rattle.sched_record.specs.Record.{record_view};

use crate::NotWritten;
use crate::event_line::push_event;
use crate::output::Output;
use crate::sight::{Sight, next_sight};
use crate::start_line::{push_fault, push_start};
use crate::waits::Waits;
use cfs_model::{IDLE_PID, Knobs, Memory, Place};
use queue_replay::Replay;
use replay_model::{Deed, FirstFault};
use sched_record::{Record, Stream};
use std::alloc::Global;
use std::io::Write;

/// Writes how each processor of a record stands at the start and at each event, one processor after the other, by the
/// replays under these settings; where the record has a fault under them, up to its line, and then the fault.
pub fn write_states<W: Write + Drop>(
    alloc: Global,
    record: &Record,
    knobs: Knobs,
    fault: Option<FirstFault>,
    writer: W,
) -> Result<(), NotWritten> {
    let mut out = Output::new(alloc, writer);
    let until = fault.map_or(u32::MAX, |fault| fault.line);
    for cpu in 0..record.cpus() {
        write_processor(alloc, &mut out, record, cpu, knobs, until)?;
    }
    if let Some(fault) = fault {
        push_fault(&mut out.text, record, &fault)?;
    }
    out.flush()
}

/// The replay of a stream before its first step.
fn replay_of(alloc: Global, stream: Stream, knobs: Knobs) -> Result<Replay, Memory>
    ensures stream { IfOk result (λ replay. replay.stream ≡ stream_view stream) }
    ensures made { IfOk result (λ replay. replay.made ≡ 0) }
{
    match Replay::new(alloc, stream, knobs) {
        Ok(replay) => Ok(replay),
        Err((_, memory)) => Err(memory),
    }
}

/// Writes how a processor stands at the start, and at each event above a line.
fn write_processor<W: Write + Drop>(
    alloc: Global,
    out: &mut Output<W>,
    joined: &Record,
    cpu: u32,
    knobs: Knobs,
    until: u32,
) -> Result<(), NotWritten>
    requires { cpu < (record_view joined.now).cpus }
{
    let stream = joined.deal(cpu)?;
    push_start(&mut out.text, &stream)?;
    write_steps(alloc, out, &stream, joined.deal(cpu)?, knobs, until)
}

/// Writes a processor's events above a line. The stream is dealt twice: once to be read, and once to be replayed.
fn write_steps<W: Write + Drop>(
    alloc: Global,
    out: &mut Output<W>,
    stream: &Stream,
    replayed: Stream,
    knobs: Knobs,
    until: u32,
) -> Result<(), NotWritten>
    requires { stream_view replayed ≡ stream_view stream.now }
{
    let mut waits = waits_at_start(alloc, stream)?;
    let mut replay = replay_of(alloc, replayed, knobs)?;
    write_events(out, stream, &mut replay, &mut waits, knobs, until)
}

/// The same, by a replay of the stream that has made no step, and those who wait at the start.
fn write_events<W: Write + Drop>(
    out: &mut Output<W>,
    stream: &Stream,
    replay: &mut Replay,
    waits: &mut Waits,
    knobs: Knobs,
    until: u32,
) -> Result<(), NotWritten>
    requires stream { replay.old.stream ≡ stream_view stream.now }
    requires made { replay.old.made ≡ 0 }
{
    let steps = stream.steps();
    for step in steps {
        if step.line >= until {
            break;
        }
        match next_sight(replay, step)? {
            Some(sight) => write_sight(out, stream.cpu(), &sight, waits, knobs)?,
            None => break,
        }
    }
    Ok(())
}

/// Writes an event, and notes who waits from it on.
fn write_sight<W: Write + Drop>(
    out: &mut Output<W>,
    cpu: u32,
    sight: &Sight,
    waits: &mut Waits,
    knobs: Knobs,
) -> Result<(), NotWritten> {
    let waited = waited(sight, waits);
    push_event(&mut out.text, cpu, sight, waited, knobs)?;
    waits.note(sight.before.task, sight.after.task, sight.step.time)?;
    out.pass()
}

/// How long who is picked had waited, in nanoseconds.
fn waited(sight: &Sight, waits: &Waits) -> Option<u64> {
    match sight.step.deed {
        Deed::Switch { next, .. } if next != IDLE_PID => {
            let since = waits.since(next)?;
            Some(sight.step.time.saturating_sub(since))
        }
        _ => None,
    }
}

/// Those who wait at the start.
fn waits_at_start(alloc: Global, stream: &Stream) -> Result<Waits, Memory> {
    let mut waits = Waits::new(alloc);
    for task in stream.tasks() {
        if task.place == Place::Wait {
            waits.begin(task.pid, stream.start())?;
        }
    }
    Ok(waits)
}
