//! Recordings in which a nice value changes, each with the first fault of processor 0, but those that are worked rows.

use crate::answers::wants;
use crate::calls::tickets_at;
use crate::recordings::Recording;
use crate::replays::{misjudged, page_of};
use cfs_model::{Kind, Nice, Place, Policy};
use queue_replay::Page;
use replay_model::{StepFault, Tally, Ticket};
use std::alloc::Global;
use std::test::Fail;

/// Places in the table: a change while its task waits and while it rests, and one of a task that isn't there.
const WHILE_WAITING: usize = 0;

const WHILE_RESTING: usize = 1;

const UNKNOWN: usize = 2;

static CHANGES: [Recording; 9] = [
    Recording {
        name: "changed while it waits",
        trace: b"            t101-101     [000] d..2.   100.001000: sched_wakeup: comm=t101 pid=101 prio=120 target_cpu=000\n            t101-101     [000] d..2.   100.002000: sched_switch: prev_comm=t101 prev_pid=101 prev_prio=120 prev_state=S ==> next_comm=t102 next_pid=102 next_prio=125\n            t102-102     [000] d..2.   100.003000: sched_wakeup: comm=t102 pid=102 prio=125 target_cpu=000\n",
        companion: b"cfs-companion 2\ncpus 1\nstart 100.000000\nfloor 0 0\ntask 101 0 0 run 0\ntask 102 0 0 wait 0\nnice 1 102 5\n",
        fault: None,
    },
    Recording {
        name: "changed while it rests",
        trace: b"            t101-101     [000] d..2.   100.001000: sched_wakeup: comm=t101 pid=101 prio=120 target_cpu=000\n            t101-101     [000] d..2.   100.001000: sched_wakeup: comm=t102 pid=102 prio=125 target_cpu=000\n            t101-101     [000] d..2.   100.002000: sched_switch: prev_comm=t101 prev_pid=101 prev_prio=120 prev_state=S ==> next_comm=t102 next_pid=102 next_prio=125\n            t102-102     [000] d..2.   100.003000: sched_wakeup: comm=t102 pid=102 prio=125 target_cpu=000\n",
        companion: b"cfs-companion 2\ncpus 1\nstart 100.000000\nfloor 0 0\ntask 101 0 0 run 0\ntask 102 0 0 rest 0\nnice 1 102 5\nat 2 102 0\n",
        fault: None,
    },
    Recording {
        name: "changed of a task that isn't there",
        trace: b"            t101-101     [000] d..2.   100.001000: sched_wakeup: comm=t101 pid=101 prio=125 target_cpu=000\n            t101-101     [000] d..2.   100.002000: sched_switch: prev_comm=t101 prev_pid=101 prev_prio=125 prev_state=R+ ==> next_comm=t102 next_pid=102 next_prio=120\n",
        companion: b"cfs-companion 2\ncpus 1\nstart 100.000000\nfloor 0 0\ntask 101 0 0 run 0\ntask 102 0 0 wait 0\nnice 1 103 5\nat 2 101 4056716\n",
        fault: Some(StepFault {
            line: 1,
            kind: Kind::Strange,
            pid: 103,
            deadline: None,
        }),
    },
    Recording {
        name: "the old prio after a change of one who waits",
        trace: b"            t101-101     [000] d..2.   100.001000: sched_wakeup: comm=t101 pid=101 prio=120 target_cpu=000\n            t101-101     [000] d..2.   100.002000: sched_switch: prev_comm=t101 prev_pid=101 prev_prio=120 prev_state=S ==> next_comm=t102 next_pid=102 next_prio=120\n",
        companion: b"cfs-companion 2\ncpus 1\nstart 100.000000\nfloor 0 0\ntask 101 0 0 run 0\ntask 102 0 0 wait 0\nnice 1 102 5\n",
        fault: Some(StepFault {
            line: 2,
            kind: Kind::WrongPrio,
            pid: 102,
            deadline: None,
        }),
    },
    Recording {
        name: "the old prio on the line of a change",
        trace: b"            t101-101     [000] d..2.   100.001000: sched_wakeup: comm=t101 pid=101 prio=120 target_cpu=000\n",
        companion: b"cfs-companion 2\ncpus 1\nstart 100.000000\nfloor 0 0\ntask 101 0 0 run 0\nnice 1 101 5\n",
        fault: Some(StepFault {
            line: 1,
            kind: Kind::WrongPrio,
            pid: 101,
            deadline: None,
        }),
    },
    Recording {
        name: "changed on the line of its birth",
        trace: b"            t101-101     [000] d..2.   100.000000: sched_wakeup_new: comm=t101 pid=101 prio=125 target_cpu=000\n",
        companion: b"cfs-companion 2\ncpus 1\nstart 100.000000\nfloor 0 0\nnice 1 101 5\nat 1 101 0\n",
        fault: Some(StepFault {
            line: 1,
            kind: Kind::Strange,
            pid: 101,
            deadline: None,
        }),
    },
    Recording {
        name: "a strange change at a switch to the same task",
        trace: b"            t101-101     [000] d..2.   100.001000: sched_switch: prev_comm=t101 prev_pid=101 prev_prio=120 prev_state=R+ ==> next_comm=t101 next_pid=101 next_prio=120\n",
        companion: b"cfs-companion 2\ncpus 1\nstart 100.000000\nfloor 0 0\ntask 101 0 0 run 0\nnice 1 103 5\n",
        fault: Some(StepFault {
            line: 1,
            kind: Kind::Strange,
            pid: 103,
            deadline: None,
        }),
    },
    Recording {
        name: "a strange change after a charge out of range",
        trace: b"            t101-101     [000] d..2.   100.000001: sched_wakeup: comm=t101 pid=101 prio=139 target_cpu=000\n",
        companion: b"cfs-companion 2\ncpus 1\nstart 100.000000\nfloor 0 0\ntask 101 19 0 run 4611686018427387904\nnice 1 103 5\n",
        fault: Some(StepFault {
            line: 1,
            kind: Kind::Range,
            pid: 101,
            deadline: None,
        }),
    },
    Recording {
        name: "a strange change after an idle time above the slack",
        trace: b"            t102-102     [000] d..2.   100.000101: sched_wakeup: comm=t102 pid=102 prio=120 target_cpu=000\n",
        companion: b"cfs-companion 2\ncpus 1\nstart 100.000000\nfloor 0 0\ntask 102 0 0 wait 0\nnice 1 103 5\n",
        fault: Some(StepFault {
            line: 1,
            kind: Kind::IdleTooLong,
            pid: 0,
            deadline: Some(100_000_100_000),
        }),
    },
];

/// The recordings, in the order of the table.
fn changes() -> &'static [Recording] {
    &CHANGES
}

#[test]
fn a_change_of_a_nice_value_takes_effect_after_the_charge(rt: HostRuntime) -> Result<(), Fail> {
    wants(&rt, &misjudged(rt.alloc(), changes())?, &None);
    Ok(())
}

/// Whether these are a page's tallies.
fn are_tallies(page: &Page, tallies: &[Tally]) -> bool {
    page.tallies() == tallies
}

/// The same of the page of a recording of the table.
fn has_tallies(alloc: Global, place: usize, tallies: &[Tally]) -> Result<bool, Fail> {
    let row = changes().get(place).ok_or("a place in the table")?;
    let page = page_of(alloc, row, 1)?;
    Ok(are_tallies(&page, tallies))
}

/// The tally of a task.
fn tally(pid: u32, ran: u128, charged: u128, picks: u64) -> Tally {
    Tally {
        pid,
        ran,
        charged,
        picks,
    }
}

// One millisecond at nice 0 is charged as it is; at nice 5, where the weight is 335, it is charged 3 056 716 ns.
#[test]
fn stretches_before_a_change_are_tallied_by_the_old_weight(rt: HostRuntime) -> Result<(), Fail> {
    let changed = [
        tally(101, 2_000_000, 2_000_000, 0),
        tally(102, 1_000_000, 3_056_716, 1),
    ];
    for place in [WHILE_WAITING, WHILE_RESTING] {
        wants(&rt, &has_tallies(rt.alloc(), place, &changed)?, &true);
    }
    let untouched = [tally(101, 0, 0, 0), tally(102, 0, 0, 0)];
    wants(&rt, &has_tallies(rt.alloc(), UNKNOWN, &untouched)?, &true);
    Ok(())
}

// 101 waits at processor 0, 2 ns above the floor, and goes to processor 1, where 103 runs.
const MOVE: &[u8] =
    b"            t101-101     [000] d..2.   100.000000: sched_migrate_task: comm=t101 pid=101 prio=115 orig_cpu=0 dest_cpu=1\n";

const CHANGED_AND_MOVED: &[u8] =
    b"cfs-companion 2\ncpus 2\nstart 100.000000\nfloor 0 3\nfloor 1 100\ntask 101 0 0 wait 5\ntask 102 0 0 run 3\ntask 103 0 1 run 100\nnice 1 101 -5\nat 1 101 102\n";

const CHANGED_AT_THE_DESTINATION: &[u8] =
    b"cfs-companion 2\ncpus 2\nstart 100.000000\nfloor 0 3\nfloor 1 100\ntask 101 -5 0 wait 5\ntask 102 0 0 run 3\ntask 103 0 1 run 100\nnice 1 103 -5\nat 1 101 102\n";

#[test]
fn a_ticket_has_the_new_nice_value(rt: HostRuntime) -> Result<(), Fail> {
    let ticket = Some(Ticket {
        line: 1,
        pid: 101,
        nice: Nice::new(-5).ok_or("a nice value")?,
        policy: Policy::Normal,
        place: Place::Wait,
        offset: 2,
    });
    let left = tickets_at(rt.alloc(), MOVE, CHANGED_AND_MOVED, 0)?;
    wants(&rt, &left, &(None, ticket, None));
    let came = tickets_at(rt.alloc(), MOVE, CHANGED_AND_MOVED, 1)?;
    wants(&rt, &came, &(None, None, ticket));
    Ok(())
}

/// The fault at a processor, where a nice value changes at the destination.
fn moved_fault(alloc: Global, cpu: u32) -> Result<Option<StepFault>, Fail> {
    let (fault, _left, _came) = tickets_at(alloc, MOVE, CHANGED_AT_THE_DESTINATION, cpu)?;
    Ok(fault)
}

#[test]
fn a_change_at_a_migration_is_the_origins(rt: HostRuntime) -> Result<(), Fail> {
    let strange = StepFault {
        line: 1,
        kind: Kind::Strange,
        pid: 103,
        deadline: None,
    };
    wants(&rt, &moved_fault(rt.alloc(), 0)?, &Some(strange));
    wants(&rt, &moved_fault(rt.alloc(), 1)?, &None);
    Ok(())
}
