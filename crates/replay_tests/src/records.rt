use crate::answers::wants;
use crate::calls::{only, record_of, refusal_of, stream_at, zero};
use cfs_model::{Act, Claim, ClaimSort, Entry, Policy, Way};
use replay_model::{Deed, Step};
use sched_record::{Events, JoinCause, JoinFault, Record, Stream, read_trace};
use std::alloc::Global;
use std::test::Fail;

// Task 101 runs 4 ms and is put back, and 102 comes.
const SWITCH: &[u8] =
    b"            t101-101     [000] d..2.   100.004000: sched_switch: prev_comm=t101 prev_pid=101 prev_prio=120 prev_state=R+ ==> next_comm=t102 next_pid=102 next_prio=120\n";

// Another event is later than the wakeup behind it, and the wakeup at the same time as the one before.
const LATER_OTHER: &[u8] =
    b"            t101-101     [000] d..2.     1.000002: sched_wakeup: comm=t101 pid=101 prio=120 target_cpu=000
            t101-101     [000] d..2.     1.000009: sched_waking: comm=t101 pid=101 prio=120 target_cpu=000
            t101-101     [000] d..2.     1.000002: sched_wakeup: comm=t101 pid=101 prio=120 target_cpu=000
# the end
";

// An event before the start, and then one at a processor that isn't there.
const EARLY_THEN_OUTSIDE: &[u8] =
    b"            t101-101     [000] d..2.    99.999999: sched_wakeup: comm=t101 pid=101 prio=120 target_cpu=000
            t101-101     [001] d..2.   100.000000: sched_wakeup: comm=t101 pid=101 prio=120 target_cpu=001
";

const START: &[u8] = b"cfs-companion 1\ncpus 1\nstart 100.000000\nfloor 0 0\n";

const ONE_CLAIM: &[u8] =
    b"cfs-companion 1\ncpus 1\nstart 100.000000\nfloor 0 0\ntask 101 0 0 run 0\ntask 102 0 0 wait 0\nat 1 101 4000000\n";

// 101 waits at processor 0 and goes to processor 1, where 102 runs.
const MOVE: &[u8] =
    b"            t101-101     [000] d..2.   100.000000: sched_migrate_task: comm=t101 pid=101 prio=120 orig_cpu=0 dest_cpu=1\n";

const MOVED: &[u8] =
    b"cfs-companion 1\ncpus 2\nstart 100.000000\nfloor 0 3\nfloor 1 100\ntask 101 0 0 wait 5\ntask 102 0 0 run 3\nat 1 101 102\n";

/// The only event of a trace.
fn event_of(alloc: Global, text: &[u8]) -> Result<Option<Entry>, Fail> {
    let trace = read_trace(alloc, text)?;
    Ok(only(trace.events()))
}

#[test]
fn a_switch_is_read(rt: HostRuntime) -> Result<(), Fail> {
    let event = Entry {
        line: 1,
        time: 100_004_000_000,
        act: Act::Switch {
            cpu: 0,
            prev: 101,
            prev_nice: zero(),
            way: Way::Stays,
            next: 102,
            next_nice: zero(),
        },
    };
    wants(&rt, &event_of(rt.alloc(), SWITCH)?, &Some(event));
    Ok(())
}

/// The lines of a trace's events, where there are two.
fn two_lines(alloc: Global, text: &[u8]) -> Result<Option<(u32, u32)>, Fail> {
    let trace = read_trace(alloc, text)?;
    match trace.events() {
        [first, second] => Ok(Some((first.line, second.line))),
        _ => Ok(None),
    }
}

#[test]
fn times_of_other_events_are_not_compared(rt: HostRuntime) -> Result<(), Fail> {
    wants(&rt, &two_lines(rt.alloc(), LATER_OTHER)?, &Some((1, 3)));
    Ok(())
}

#[test]
fn joining_tests_each_thing_over_the_whole(rt: HostRuntime) -> Result<(), Fail> {
    let outside = JoinFault {
        line: 2,
        cause: JoinCause::CpuOutside,
    };
    let refusal = refusal_of(rt.alloc(), EARLY_THEN_OUTSIDE, START)?;
    wants(&rt, &refusal, &Some(outside));
    Ok(())
}

/// A record's number of processors, its start, its last time and line; and how many events, claims, tasks and floors it
/// has.
type Told = ((u32, u64, u64, u32), (usize, usize, usize, usize));

fn told(record: &Record) -> Told {
    (
        (
            record.cpus(),
            record.start(),
            record.last_time(),
            record.last_line(),
        ),
        (
            record.events().len(),
            record.claims().len(),
            record.tasks().len(),
            record.floors().len(),
        ),
    )
}

/// The same of the record of two texts.
fn told_of(alloc: Global, trace: &[u8], companion: &[u8]) -> Result<Told, Fail> {
    let record = record_of(alloc, trace, companion)?;
    Ok(told(&record))
}

#[test]
fn a_record_has_all_of_both(rt: HostRuntime) -> Result<(), Fail> {
    wants(
        &rt,
        &told_of(rt.alloc(), SWITCH, ONE_CLAIM)?,
        &((1, 100_000_000_000, 100_004_000_000, 1), (1, 1, 2, 1)),
    );
    Ok(())
}

#[test]
fn without_events_the_last_time_is_the_start(rt: HostRuntime) -> Result<(), Fail> {
    wants(
        &rt,
        &told_of(rt.alloc(), b"", START)?,
        &((1, 100_000_000_000, 100_000_000_000, 0), (0, 0, 0, 1)),
    );
    Ok(())
}

/// A stream's only step, and how many tasks it begins with; and its processor, its floor, its start, its last time and
/// line.
type Seen = ((Option<Step>, usize), (u32, i64, u64, u64, u32));

fn seen(stream: &Stream) -> Seen {
    (
        (only(stream.steps()), stream.tasks().len()),
        (
            stream.cpu(),
            stream.floor(),
            stream.start(),
            stream.last_time(),
            stream.last_line(),
        ),
    )
}

/// The same of a processor of the migration.
fn seen_at(alloc: Global, cpu: u32) -> Result<Seen, Fail> {
    let stream = stream_at(alloc, MOVE, MOVED, cpu)?;
    Ok(seen(&stream))
}

/// The only step of the migration, as a processor sees it.
fn step(deed: Deed, claim: Option<Claim>) -> Option<Step> {
    Some(Step {
        line: 1,
        time: 100_000_000_000,
        deed,
        claim,
        nice: None,
        charge: None,
    })
}

#[test]
fn a_migration_leaves_its_origin_without_a_claim(rt: HostRuntime) -> Result<(), Fail> {
    let leave = Deed::Leave {
        pid: 101,
        nice: zero(),
        dest: 1,
    };
    wants(
        &rt,
        &seen_at(rt.alloc(), 0)?,
        &(
            (step(leave, None), 2),
            (0, 3, 100_000_000_000, 100_000_000_000, 1),
        ),
    );
    Ok(())
}

#[test]
fn a_migration_comes_to_its_destination_with_the_claim(rt: HostRuntime) -> Result<(), Fail> {
    let arrive = Deed::Arrive {
        pid: 101,
        nice: zero(),
        orig: 0,
        policy: Policy::Normal,
    };
    let claim = Claim {
        line: 1,
        pid: 101,
        v: 102,
        sort: ClaimSort::At,
    };
    wants(
        &rt,
        &seen_at(rt.alloc(), 1)?,
        &(
            (step(arrive, Some(claim)), 0),
            (1, 100, 100_000_000_000, 100_000_000_000, 1),
        ),
    );
    Ok(())
}

/// Whether a list of nothing is one, and how many items it gives back.
fn given_back(alloc: Global) -> (bool, usize) {
    let events = Events::from_vec(Vec::new(alloc));
    let is_empty = events.as_slice().is_empty();
    (is_empty, events.into_vec().len())
}

#[test]
fn a_list_gives_its_items_back(rt: HostRuntime) {
    wants(&rt, &given_back(rt.alloc()), &(true, 0));
}
