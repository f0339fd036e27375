//! A processor just before a line.
ghost use Rattle.std.specs.Prelude.{◌≡◌, ◌<◌, ◌≤◌, IfOk, IfSome, Some, length};
ghost use Rattle.std.specs.Bool.{OnTrue};
ghost use Rattle.fault_bounds.specs.Bounds.{IsBefore, IsMoment, IsReady, steps_before};
ghost use Rattle.replay_model.specs.Found.{IsFound};
ghost use Rattle.replay_model.specs.Part.{Part};
ghost use Rattle.runqueue.specs.Queue.{runqueue_view};
ghost use Rattle.sched_record.specs.Record.{record_view};

use cfs_model::{Knobs, Memory};
use queue_replay::{Replay, State};
use replay_model::Step;
use runqueue::Runqueue;
use sched_record::Record;
use std::alloc::Global;

/// A processor, and what it sees of an event.
#[derive(Drop)]
pub(crate) struct Moment {
    pub step: Step,
    pub queue: Runqueue,
}

/// A processor just before a line, and what it sees of the event there; none where the event doesn't touch it.
pub(crate) fn moment_before(
    alloc: Global,
    joined: &Record,
    knobs: Knobs,
    cpu: u32,
    line: u32,
) -> Result<Option<Moment>, Memory>
    ensures { IfOk result (λ found. IfSome found
        (λ moment. IsMoment knobs (record_view joined.now) cpu line (runqueue_view moment.queue) moment.step)) }
{
    if cpu >= joined.cpus() {
        return Ok(None);
    }
    let stream = joined.deal(cpu)?;
    let count = count_before(stream.steps(), line);
    if count == stream.steps().len() {
        return Ok(None);
    }
    let step = stream.steps()[count];
    let mut replay = match Replay::new(alloc, stream, knobs) {
        Ok(replay) => replay,
        Err((_, memory)) => return Err(memory),
    };
    match replay.go_on(count as u64)? {
        State::Going if step.line == line => Ok(Some(Moment {
            step,
            queue: replay.into_runqueue(),
        })),
        _ => Ok(None),
    }
}

/// The same, with the processor as the event finds it: charged and lifted, and with a changed nice value.
pub(crate) fn moment_at(
    alloc: Global,
    joined: &Record,
    knobs: Knobs,
    cpu: u32,
    line: u32,
) -> Result<Option<Moment>, Memory>
    ensures { IfOk result (λ found. IfSome found
        (λ moment. IsReady knobs (record_view joined.now) cpu line (runqueue_view moment.queue) moment.step)) }
{
    match moment_before(alloc, joined, knobs, cpu, line)? {
        Some(mut moment) => {
            if meet_event(&mut moment, knobs) {
                Ok(Some(moment))
            } else {
                Ok(None)
            }
        }
        None => Ok(None),
    }
}

/// The event finds the processor: charged and lifted, and with a changed nice value. Whether the charge is right.
fn meet_event(moment: &mut Moment, knobs: Knobs) -> bool
    ensures step { moment.new.step ≡ moment.old.step }
    ensures found { OnTrue result (IsFound moment.old.step (runqueue_view moment.old.queue)
        (runqueue_view moment.new.queue)) }
{
    let step = moment.step;
    if moment
        .queue
        .lift(step.time, step.charge, knobs.drift())
        .is_err()
    {
        return false;
    }
    if let Some(change) = step.nice {
        moment.queue.renice(change.pid, change.nice);
    }
    true
}

/// Since when a processor has idled beside a waiting task, just before a line; none where it hasn't.
pub(crate) fn idled_before(
    alloc: Global,
    joined: &Record,
    knobs: Knobs,
    cpu: u32,
    line: u32,
) -> Result<Option<u64>, Memory>
    ensures { IfOk result (λ found. IfSome found
        (λ since. (part : Part) × IsBefore knobs (record_view joined.now) cpu line part (Some since))) }
{
    if cpu >= joined.cpus() {
        return Ok(None);
    }
    let stream = joined.deal(cpu)?;
    let count = count_before(stream.steps(), line);
    let mut replay = match Replay::new(alloc, stream, knobs) {
        Ok(replay) => replay,
        Err((_, memory)) => return Err(memory),
    };
    replay.go_on(count as u64)?;
    let since = replay.idled_since();
    if replay.page().made() == count {
        Ok(since)
    } else {
        Ok(None)
    }
}

/// How many steps are on the lines before one.
fn count_before(steps: &[Step], line: u32) -> usize
    ensures count { result ≡ steps_before line steps.now }
    ensures within { result ≤ length steps.now }
{
    let mut count = 0;
    for step in steps {
        if step.line >= line {
            return count;
        }
        count += 1;
    }
    count
}
