//! The replay of each processor of each recording, in calls of one step, of two, and of all: one page, with one end.

use crate::answers::wants_about;
use crate::calls::stream_of;
use crate::machines::{End, Recording, recordings};
use crate::{idle_policy, nice_changes, told_charges};
use cfs_model::Knobs;
use queue_replay::{Page, Replay, State};
use sched_record::Stream;
use std::alloc::Global;
use std::process::Abort;
use std::test::Fail;

/// How many calls suffice for each of the replays: 10,000 steps, with the end test behind the last.
const CALLS: u32 = 10_000;

/// The page of a replay in calls of so many steps, up to its end.
fn page_after(replay: Replay, steps: u64) -> Result<Page, Fail> {
    let mut replay = replay;
    for _ in 0..CALLS {
        if replay.go_on(steps)? != State::Going {
            break;
        }
    }
    Ok(replay.page())
}

/// The page of a stream's replay in such calls.
fn replayed(alloc: Global, stream: Stream, steps: u64) -> Result<Page, Fail> {
    match Replay::new(alloc, stream, Knobs::standard()) {
        Ok(replay) => page_after(replay, steps),
        Err((_stream, _memory)) => Err(Fail::from("memory suffices")),
    }
}

/// The page of a processor of a recording in such calls.
fn page_at(alloc: Global, recording: &Recording, cpu: u32, steps: u64) -> Result<Page, Fail> {
    replayed(alloc, stream_of(alloc, recording, cpu)?, steps)
}

/// Whether two pages list the same.
fn have_same_lists(one: &Page, other: &Page) -> bool {
    one.left() == other.left()
        && one.came() == other.came()
        && one.births() == other.births()
        && one.deaths() == other.deaths()
        && one.tallies() == other.tallies()
}

/// Whether two pages show the same.
fn are_same(one: &Page, other: &Page) -> bool {
    one.tag() == other.tag()
        && one.made() == other.made()
        && one.line() == other.line()
        && one.fault() == other.fault()
        && one.needs() == other.needs()
        && one.stream() == other.stream()
        && have_same_lists(one, other)
}

/// Whether a processor's page in calls of so many steps is that of one call.
fn is_as_at_once(alloc: Global, recording: &Recording, cpu: u32, steps: u64) -> Result<bool, Fail> {
    let page = page_at(alloc, recording, cpu, steps)?;
    let at_once = page_at(alloc, recording, cpu, u64::MAX)?;
    Ok(are_same(&page, &at_once))
}

/// The end that a page shows.
fn end_of(page: &Page) -> End {
    match page.fault() {
        Some(fault) => Some((fault.line, fault.pid, fault.kind)),
        None => None,
    }
}

/// The end of a processor's replay.
fn end_at(alloc: Global, recording: &Recording, cpu: u32) -> Result<End, Fail> {
    let page = page_at(alloc, recording, cpu, u64::MAX)?;
    Ok(end_of(&page))
}

/// Whether a processor's replay has this end, and one page however its steps are cut.
fn is_replayed(alloc: Global, recording: &Recording, cpu: u32, end: End) -> Result<bool, Fail> {
    Ok(
        end_at(alloc, recording, cpu)? == end
            && is_as_at_once(alloc, recording, cpu, 1)?
            && is_as_at_once(alloc, recording, cpu, 2)?,
    )
}

/// The first processor of a recording whose replay has another end, or another page where its steps are cut.
fn misreplayed(alloc: Global, recording: &Recording) -> Result<Option<u32>, Fail> {
    let mut cpu: u32 = 0;
    for end in recording.ends {
        if !is_replayed(alloc, recording, cpu, *end)? {
            return Ok(Some(cpu));
        }
        cpu = cpu.saturating_add(1);
    }
    Ok(None)
}

/// Ends the test where one of the recordings has such a processor.
fn wants_replayed<R: Abort>(
    rt: &R,
    alloc: Global,
    recordings: &[&'static Recording],
) -> Result<(), Fail> {
    for recording in recordings {
        wants_about(rt, recording.name, &misreplayed(alloc, recording)?, &None);
    }
    Ok(())
}

#[test]
fn a_page_is_the_same_however_its_steps_are_cut(rt: HostRuntime) -> Result<(), Fail> {
    wants_replayed(&rt, rt.alloc(), &recordings())
}

#[test]
fn so_it_is_with_changes_policies_and_told_charges(rt: HostRuntime) -> Result<(), Fail> {
    wants_replayed(&rt, rt.alloc(), &nice_changes::recordings())?;
    wants_replayed(&rt, rt.alloc(), &idle_policy::recordings())?;
    wants_replayed(&rt, rt.alloc(), &told_charges::recordings())
}
