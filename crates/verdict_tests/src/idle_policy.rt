//! Tasks of the idle policy that migrate: what they are charged where they come to, and which pages of other companions
//! a verdict relies on.

use crate::books::wants_remade;
use crate::calls::{MaybeFault, wants_alone};
use crate::machines::{Lines, Recording};
use cfs_model::Kind;
use std::test::Fail;

/// 101 goes from processor 0, where 102 runs, to processor 1, runs there for 3 us, and is put back beside 103.
const MOVED: Lines = &[
    (
        1,
        1,
        "            t101-101     [000] d..2.   100.000000: sched_migrate_task: comm=t101 pid=101 prio=120 orig_cpu=0 dest_cpu=1",
    ),
    (
        2,
        1,
        "          <idle>-0       [001] d..2.   100.000050: sched_switch: prev_comm=swapper/0 prev_pid=0 prev_prio=120 prev_state=R ==> next_comm=t101 next_pid=101 next_prio=120",
    ),
    (
        3,
        1,
        "            t101-101     [001] d..2.   100.000053: sched_switch: prev_comm=t101 prev_pid=101 prev_prio=120 prev_state=R+ ==> next_comm=t103 next_pid=103 next_prio=120",
    ),
];

const START: &str =
    "cfs-companion 2\ncpus 2\nstart 100.000000\nfloor 0 3\nfloor 1 100\ntask 101 0 0 wait 5\ntask 102 0 0 run 3\ntask 103 0 1 wait 100\n";

/// Which task of the start is of the idle policy, if one is.
const WHO_MOVES: &str = "idle 0 101\n";

const WHO_STAYS: &str = "idle 0 102\n";

/// The claims of the migration and of the put-back, which the 3 us cost 1 024 000 or 3000.
const BY_THREE: &str = "at 1 101 102\nat 3 101 1024102\n";

const BY_NICE: &str = "at 1 101 102\nat 3 101 3102\n";

const WRONG_PUT_BACK: MaybeFault = Some((3, 1, 101, Kind::WrongPutBack));

static MOVES_BY_THREE: Recording = Recording {
    name: "who moves, claimed by 3",
    lines: MOVED,
    companion: &[START, WHO_MOVES, BY_THREE],
    fault: None,
    ends: &[None, None],
};

static MOVES_BY_NICE: Recording = Recording {
    name: "who moves, claimed by its nice value",
    lines: MOVED,
    companion: &[START, WHO_MOVES, BY_NICE],
    fault: WRONG_PUT_BACK,
    ends: &[None, Some((3, 101, Kind::WrongPutBack))],
};

static NOBODY_BY_NICE: Recording = Recording {
    name: "nobody, claimed by the nice value",
    lines: MOVED,
    companion: &[START, BY_NICE],
    fault: None,
    ends: &[None, None],
};

static NOBODY_BY_THREE: Recording = Recording {
    name: "nobody, claimed by 3",
    lines: MOVED,
    companion: &[START, BY_THREE],
    fault: WRONG_PUT_BACK,
    ends: &[None, Some((3, 101, Kind::WrongPutBack))],
};

static STAYS_BY_NICE: Recording = Recording {
    name: "who stays, claimed by the nice value",
    lines: MOVED,
    companion: &[START, WHO_STAYS, BY_NICE],
    fault: None,
    ends: &[None, None],
};

static STAYS_BY_THREE: Recording = Recording {
    name: "who stays, claimed by 3",
    lines: MOVED,
    companion: &[START, WHO_STAYS, BY_THREE],
    fault: WRONG_PUT_BACK,
    ends: &[None, Some((3, 101, Kind::WrongPutBack))],
};

#[test]
fn the_idle_policy_is_kept_at_a_migration(rt: HostRuntime) -> Result<(), Fail> {
    for recording in recordings() {
        wants_alone(&rt, rt.alloc(), recording)?;
    }
    Ok(())
}

// In the last four rows the page of the migration's origin is by one companion and that of its destination by another,
// and they have tickets of two policies: no two honest pages do.
#[test]
fn a_page_with_other_policies_is_made_again(rt: HostRuntime) -> Result<(), Fail> {
    for (orig, dest, recording, remade) in [
        (&MOVES_BY_THREE, &MOVES_BY_THREE, &MOVES_BY_THREE, 0),
        (&NOBODY_BY_THREE, &NOBODY_BY_THREE, &MOVES_BY_THREE, 2),
        (&MOVES_BY_THREE, &MOVES_BY_THREE, &NOBODY_BY_THREE, 2),
        (&STAYS_BY_NICE, &STAYS_BY_NICE, &NOBODY_BY_NICE, 1),
        (&NOBODY_BY_NICE, &NOBODY_BY_NICE, &STAYS_BY_NICE, 1),
        (&MOVES_BY_NICE, &NOBODY_BY_NICE, &NOBODY_BY_NICE, 1),
        (&NOBODY_BY_NICE, &MOVES_BY_NICE, &NOBODY_BY_NICE, 1),
        (&MOVES_BY_NICE, &NOBODY_BY_NICE, &MOVES_BY_NICE, 1),
        (&NOBODY_BY_NICE, &MOVES_BY_NICE, &MOVES_BY_NICE, 1),
    ] {
        wants_remade(&rt, rt.alloc(), (orig, dest), recording, remade)?;
    }
    Ok(())
}

/// 101, which stands at processor 0, is born at processor 2 too, and then goes from processor 0 to processor 1: it
/// leaves with the policy of the start, and comes with that of the birth.
static BORN_TWICE: Recording = Recording {
    name: "born twice",
    lines: &[
        (
            1,
            1,
            "            t101-101     [002] d..2.   100.000000: sched_wakeup_new: comm=t101 pid=101 prio=120 target_cpu=002",
        ),
        (
            2,
            1,
            "            t101-101     [000] d..2.   100.000000: sched_migrate_task: comm=t101 pid=101 prio=120 orig_cpu=0 dest_cpu=1",
        ),
    ],
    companion: &[
        "cfs-companion 2\ncpus 3\nstart 100.000000\nfloor 0 0\nfloor 1 0\nfloor 2 0\ntask 101 0 0 wait 0\nidle 0 101\nat 1 101 0\nat 2 101 0\n",
    ],
    fault: Some((1, 2, 101, Kind::BornTwice)),
    ends: &[None, None, None],
};

/// All of them.
pub(crate) fn recordings() -> [&'static Recording; 7] {
    [
        &MOVES_BY_THREE,
        &MOVES_BY_NICE,
        &NOBODY_BY_NICE,
        &NOBODY_BY_THREE,
        &STAYS_BY_NICE,
        &STAYS_BY_THREE,
        &BORN_TWICE,
    ]
}

#[test]
fn a_birth_of_a_living_task_comes_before_the_tickets_that_it_makes_unequal(
    rt: HostRuntime,
) -> Result<(), Fail> {
    wants_alone(&rt, rt.alloc(), &BORN_TWICE)
}
