//! The calls that tests make of the crates below, each in a function of its own that promises nothing, and most with
//! plain values: what their clauses say stands before no test, which is then proved in seconds.

use cfs_model::{Knobs, Nice};
use companion_file::read_companion;
use queue_replay::{Page, Replay, State};
use replay_model::{StepFault, Ticket};
use sched_record::{JoinFault, Record, Stream, join, read_trace};
use std::alloc::Global;
use std::test::Fail;

/// The item of a list that has just one.
pub(crate) fn only<T: Copy>(items: &[T]) -> Option<T> {
    match items {
        [item] => Some(*item),
        _ => None,
    }
}

/// The record of two texts, or why they don't go together.
fn joined(
    alloc: Global,
    trace: &[u8],
    companion: &[u8],
) -> Result<Result<Record, JoinFault>, Fail> {
    let trace = read_trace(alloc, trace)?;
    let companion = read_companion(alloc, companion)?;
    match join(trace, companion) {
        Ok(record) => Ok(Ok(record)),
        Err((_trace, _companion, fault)) => Ok(Err(fault)),
    }
}

/// The record of a trace and a companion that go together.
pub(crate) fn record_of(alloc: Global, trace: &[u8], companion: &[u8]) -> Result<Record, Fail> {
    match joined(alloc, trace, companion)? {
        Ok(record) => Ok(record),
        Err(_fault) => Err(Fail::from("they go together")),
    }
}

/// Why a trace and a companion don't go together.
pub(crate) fn refusal_of(
    alloc: Global,
    trace: &[u8],
    companion: &[u8],
) -> Result<Option<JoinFault>, Fail> {
    Ok(joined(alloc, trace, companion)?.err())
}

/// What a processor sees of a record.
fn dealt(record: &Record, cpu: u32) -> Result<Stream, Fail> {
    if record.cpus() <= cpu {
        return Err(Fail::from("a processor"));
    }
    Ok(record.deal(cpu)?)
}

/// What a processor sees of a recording.
pub(crate) fn stream_at(
    alloc: Global,
    trace: &[u8],
    companion: &[u8],
    cpu: u32,
) -> Result<Stream, Fail> {
    let record = record_of(alloc, trace, companion)?;
    dealt(&record, cpu)
}

/// The replay of a stream, before its first step.
fn replay_of(alloc: Global, stream: Stream, knobs: Knobs) -> Result<Replay, Fail> {
    match Replay::new(alloc, stream, knobs) {
        Ok(replay) => Ok(replay),
        Err((_stream, _memory)) => Err(Fail::from("memory suffices")),
    }
}

/// The replay of what a processor sees of a recording, before its first step.
pub(crate) fn replay_at(
    alloc: Global,
    trace: &[u8],
    companion: &[u8],
    cpu: u32,
    knobs: Knobs,
) -> Result<Replay, Fail> {
    replay_of(alloc, stream_at(alloc, trace, companion, cpu)?, knobs)
}

/// What a call of a replay answers, and the line at which it then stands.
pub(crate) fn stands(replay: &mut Replay, steps: u64) -> Result<(State, u32), Fail> {
    let state = replay.go_on(steps)?;
    Ok((state, replay.line()))
}

/// The page of a replay after at most four calls of so many steps.
pub(crate) fn page_after(replay: Replay, steps: u64) -> Result<Page, Fail> {
    let mut replay = replay;
    for _ in 0..4 {
        if replay.go_on(steps)? != State::Going {
            break;
        }
    }
    Ok(replay.page())
}

/// The page of a processor of a recording, in calls of so many steps.
pub(crate) fn page_at(
    alloc: Global,
    trace: &[u8],
    companion: &[u8],
    cpu: u32,
    steps: u64,
) -> Result<Page, Fail> {
    page_after(
        replay_at(alloc, trace, companion, cpu, Knobs::standard())?,
        steps,
    )
}

/// A page's fault, and the only tickets of those who left and of those who came.
pub(crate) type Tickets = (Option<StepFault>, Option<Ticket>, Option<Ticket>);

fn tickets(page: &Page) -> Tickets {
    (page.fault(), only(page.left()), only(page.came()))
}

/// The same of the page of a processor of a recording.
pub(crate) fn tickets_at(
    alloc: Global,
    trace: &[u8],
    companion: &[u8],
    cpu: u32,
) -> Result<Tickets, Fail> {
    let page = page_at(alloc, trace, companion, cpu, 9)?;
    Ok(tickets(&page))
}

/// The nice value of prio 120.
pub(crate) fn zero() -> Nice {
    Nice::new(0).unwrap()
}
