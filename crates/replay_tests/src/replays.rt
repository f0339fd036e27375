use crate::answers::wants;
use crate::calls::{only, page_after, page_at, replay_at, stands};
use crate::recordings::{Recording, recording_at, recordings};
use cfs_model::{Knobs, Setting};
use queue_replay::{Page, Reached, Replay, State, Tag};
use replay_model::{LifeEvent, StepFault, Tally};
use std::alloc::Global;
use std::test::Fail;

/// Places in the table: an idle processor at the slack and above it, and a birth.
const IDLE_AT_SLACK: usize = 0;

const IDLE_ABOVE_SLACK: usize = 1;

const BIRTH: usize = 2;

/// The page of a recording's replay, in calls of so many steps.
pub(crate) fn page_of(alloc: Global, row: &Recording, steps: u64) -> Result<Page, Fail> {
    page_at(alloc, row.trace, row.companion, 0, steps)
}

/// The fault on that page.
fn fault_of(alloc: Global, row: &Recording, steps: u64) -> Result<Option<StepFault>, Fail> {
    let page = page_of(alloc, row, steps)?;
    Ok(page.fault())
}

/// Whether the fault is the same in calls of one step, of two, and of all.
fn is_well_judged(alloc: Global, row: &Recording) -> Result<bool, Fail> {
    for steps in [1, 2, 1000] {
        if fault_of(alloc, row, steps)? != row.fault {
            return Ok(false);
        }
    }
    Ok(true)
}

/// The name of the first recording that isn't judged as the table says, however its steps are cut.
pub(crate) fn misjudged(alloc: Global, table: &[Recording]) -> Result<Option<&'static str>, Fail> {
    for row in table {
        if !is_well_judged(alloc, row)? {
            return Ok(Some(row.name));
        }
    }
    Ok(None)
}

#[test]
fn the_first_fault_is_found_however_the_steps_are_cut(rt: HostRuntime) -> Result<(), Fail> {
    wants(&rt, &misjudged(rt.alloc(), recordings())?, &None);
    Ok(())
}

/// What a page shows: the steps made, the line of the last that passed and the tag; the only birth and the only tally,
/// and how many tasks left, came and ended.
type Shown = ((usize, u32, Tag), (Option<LifeEvent>, Option<Tally>, usize));

fn shown(page: &Page) -> Shown {
    let others = page
        .left()
        .len()
        .saturating_add(page.came().len())
        .saturating_add(page.deaths().len());
    (
        (page.made(), page.line(), page.tag()),
        (only(page.births()), only(page.tallies()), others),
    )
}

/// The same of the page of a recording of the table.
fn shown_at(alloc: Global, place: usize) -> Result<Shown, Fail> {
    let page = page_of(alloc, recording_at(place)?, 9)?;
    Ok(shown(&page))
}

/// The tally of a task that did nothing.
fn untouched(pid: u32) -> Option<Tally> {
    Some(Tally {
        pid,
        ran: 0,
        charged: 0,
        picks: 0,
    })
}

fn tag(reached: Reached) -> Tag {
    Tag { cpu: 0, reached }
}

#[test]
fn a_page_shows_a_birth(rt: HostRuntime) -> Result<(), Fail> {
    let birth = LifeEvent { line: 1, pid: 101 };
    wants(
        &rt,
        &shown_at(rt.alloc(), BIRTH)?,
        &((1, 1, tag(Reached::Done)), (Some(birth), untouched(101), 0)),
    );
    Ok(())
}

#[test]
fn a_page_tells_how_far_its_replay_went(rt: HostRuntime) -> Result<(), Fail> {
    wants(
        &rt,
        &shown_at(rt.alloc(), IDLE_ABOVE_SLACK)?,
        &((2, 1, tag(Reached::Faulted(2))), (None, untouched(102), 0)),
    );
    Ok(())
}

/// Where a replay stands after calls of so many steps.
fn stood(replay: Replay, calls: &[u64]) -> Result<(State, u32), Fail> {
    let mut replay = replay;
    let mut stood = (State::Going, 0);
    for steps in calls {
        stood = stands(&mut replay, *steps)?;
    }
    Ok(stood)
}

/// The same of an idle processor.
fn stood_after(alloc: Global, calls: &[u64]) -> Result<(State, u32), Fail> {
    let row = recording_at(IDLE_AT_SLACK)?;
    stood(
        replay_at(alloc, row.trace, row.companion, 0, Knobs::standard())?,
        calls,
    )
}

#[test]
fn a_replay_stops_and_goes_on(rt: HostRuntime) -> Result<(), Fail> {
    wants(&rt, &stood_after(rt.alloc(), &[0])?, &(State::Going, 0));
    wants(&rt, &stood_after(rt.alloc(), &[0, 1])?, &(State::Going, 1));
    wants(
        &rt,
        &stood_after(rt.alloc(), &[0, 1, 1])?,
        &(State::Done, 2),
    );
    wants(
        &rt,
        &stood_after(rt.alloc(), &[0, 1, 1, 7])?,
        &(State::Done, 2),
    );
    Ok(())
}

/// Two tasks wait at one virtual runtime.
const EQUALLY_LOW: &[u8] = b"cfs-companion 1
cpus 1
start 100.000000
floor 0 0
task 101 0 0 run 0
task 102 0 0 wait 0
task 103 0 0 wait 0
";

const TO_THE_FIRST: &[u8] =
    b"            t101-101     [000] d..2.   100.000000: sched_switch: prev_comm=t101 prev_pid=101 prev_prio=120 prev_state=S ==> next_comm=t102 next_pid=102 next_prio=120
";

const TO_THE_SECOND: &[u8] =
    b"            t101-101     [000] d..2.   100.000000: sched_switch: prev_comm=t101 prev_pid=101 prev_prio=120 prev_state=S ==> next_comm=t103 next_pid=103 next_prio=120
";

/// How far a trace from there is replayed without a granularity.
fn picked(alloc: Global, trace: &[u8]) -> Result<Reached, Fail> {
    let knobs = Knobs::standard()
        .with(Setting::Granularity, 0)
        .ok_or("settings in range")?;
    let page = page_after(replay_at(alloc, trace, EQUALLY_LOW, 0, knobs)?, 1)?;
    Ok(page.tag().reached)
}

#[test]
fn of_equally_low_tasks_each_may_be_picked_without_a_granularity(
    rt: HostRuntime,
) -> Result<(), Fail> {
    wants(&rt, &picked(rt.alloc(), TO_THE_FIRST)?, &Reached::Done);
    wants(&rt, &picked(rt.alloc(), TO_THE_SECOND)?, &Reached::Done);
    Ok(())
}
