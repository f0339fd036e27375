//! Told charges at two processors: of a migration they are the origin's; which pages of other companions a verdict
//! relies on; and the least drift.

use crate::answers::wants_about;
use crate::books::wants_remade;
use crate::calls::{drift_needed, wants_alone};
use crate::machines::{Lines, Recording};
use cfs_model::Kind;
use std::test::Fail;

/// 102 and 103 run at processors 0 and 1 for 1 ms. 101, which waited at processor 0 and kept its floor at 0, then goes
/// to processor 1, whose floor has followed 103.
const MOVED: Lines = &[(
    1,
    1,
    "            t102-102     [000] d..2.   100.001000: sched_migrate_task: comm=t101 pid=101 prio=120 orig_cpu=0 dest_cpu=1",
)];

const START: &str =
    "cfs-companion 3\ncpus 2\nstart 100.000000\nfloor 0 0\nfloor 1 0\ntask 101 0 0 wait 0\ntask 102 0 0 run 0\ntask 103 0 1 run 0\n";

/// The claim of its place there.
const CLAIM: &str = "at 1 101 1000000\n";

static UNTOLD: Recording = Recording {
    name: "untold",
    lines: MOVED,
    companion: &[START, CLAIM],
    fault: None,
    ends: &[None, None],
};

static OF_THE_ORIGIN: Recording = Recording {
    name: "of who runs at the origin",
    lines: MOVED,
    companion: &[START, "charge 1 102 1000000\n", CLAIM],
    fault: None,
    ends: &[None, None],
};

static ONE_MORE: Recording = Recording {
    name: "one more than the exact charge",
    lines: MOVED,
    companion: &[START, "charge 1 102 1000001\n", CLAIM],
    fault: Some((1, 0, 102, Kind::WrongCharge)),
    ends: &[Some((1, 102, Kind::WrongCharge)), None],
};

static OF_THE_DESTINATION: Recording = Recording {
    name: "of who runs at the destination",
    lines: MOVED,
    companion: &[START, "charge 1 103 1000000\n", CLAIM],
    fault: Some((1, 0, 103, Kind::WrongCharge)),
    ends: &[Some((1, 103, Kind::WrongCharge)), None],
};

static OF_THE_MOVED_TASK: Recording = Recording {
    name: "of the task that moves",
    lines: MOVED,
    companion: &[START, "charge 1 101 0\n", CLAIM],
    fault: Some((1, 0, 101, Kind::WrongCharge)),
    ends: &[Some((1, 101, Kind::WrongCharge)), None],
};

// Which values were told changes the origin's stream alone.
#[test]
fn a_page_with_other_charges_is_made_again(rt: HostRuntime) -> Result<(), Fail> {
    for (pages, recording, remade) in [
        (&OF_THE_ORIGIN, &OF_THE_ORIGIN, 0),
        (&UNTOLD, &OF_THE_ORIGIN, 1),
        (&ONE_MORE, &OF_THE_ORIGIN, 1),
        (&OF_THE_ORIGIN, &UNTOLD, 1),
        (&OF_THE_ORIGIN, &ONE_MORE, 1),
    ] {
        wants_remade(&rt, rt.alloc(), (pages, pages), recording, remade)?;
    }
    Ok(())
}

/// 101 and 102 run at processors 0 and 1 for 1 ms each.
const BOTH_CHARGED: Lines = &[
    (
        1,
        1,
        "            t101-101     [000] d..2.   100.001000: sched_wakeup: comm=t101 pid=101 prio=120 target_cpu=000",
    ),
    (
        2,
        1,
        "            t102-102     [001] d..2.   100.001000: sched_wakeup: comm=t102 pid=102 prio=120 target_cpu=001",
    ),
];

const BOTH_RUN: &str =
    "cfs-companion 3\ncpus 2\nstart 100.000000\nfloor 0 0\nfloor 1 0\ntask 101 0 0 run 0\ntask 102 0 1 run 0\n";

static NONE_STRAYS: Recording = Recording {
    name: "none strays",
    lines: BOTH_CHARGED,
    companion: &[BOTH_RUN, "charge 1 101 1000000\ncharge 2 102 1000000\n"],
    fault: None,
    ends: &[None, None],
};

static FIRST_STRAYS_MORE: Recording = Recording {
    name: "the first strays more",
    lines: BOTH_CHARGED,
    companion: &[BOTH_RUN, "charge 1 101 1000300\ncharge 2 102 999800\n"],
    fault: Some((1, 0, 101, Kind::WrongCharge)),
    ends: &[
        Some((1, 101, Kind::WrongCharge)),
        Some((2, 102, Kind::WrongCharge)),
    ],
};

static SECOND_STRAYS_MORE: Recording = Recording {
    name: "the second strays more",
    lines: BOTH_CHARGED,
    companion: &[BOTH_RUN, "charge 1 101 1000100\ncharge 2 102 999800\n"],
    fault: Some((1, 0, 101, Kind::WrongCharge)),
    ends: &[
        Some((1, 101, Kind::WrongCharge)),
        Some((2, 102, Kind::WrongCharge)),
    ],
};

/// All of them.
pub(crate) fn recordings() -> [&'static Recording; 8] {
    [
        &UNTOLD,
        &OF_THE_ORIGIN,
        &ONE_MORE,
        &OF_THE_DESTINATION,
        &OF_THE_MOVED_TASK,
        &NONE_STRAYS,
        &FIRST_STRAYS_MORE,
        &SECOND_STRAYS_MORE,
    ]
}

#[test]
fn a_told_charge_is_of_who_runs_where_the_event_is(rt: HostRuntime) -> Result<(), Fail> {
    for recording in recordings() {
        wants_alone(&rt, rt.alloc(), recording)?;
    }
    Ok(())
}

#[test]
fn the_least_drift_is_the_greatest_of_all_processors(rt: HostRuntime) -> Result<(), Fail> {
    for (recording, drift) in [
        (&NONE_STRAYS, 0),
        (&FIRST_STRAYS_MORE, 300),
        (&SECOND_STRAYS_MORE, 200),
    ] {
        let needed = drift_needed(&rt, rt.alloc(), recording)?;
        wants_about(&rt, recording.name, &needed, &Some(drift));
    }
    Ok(())
}
