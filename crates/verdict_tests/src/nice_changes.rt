//! Changes of nice values at a migration: what they do at its two ends, and which pages of other companions a verdict
//! relies on.

use crate::books::wants_remade;
use crate::calls::{MaybeFault, wants_alone};
use crate::machines::{Lines, Recording};
use cfs_model::Kind;
use std::test::Fail;

/// 101 goes from processor 0 to processor 1 at the start, and is printed with a nice value of -5, or of 0.
const PRINTED_FASTER: Lines = &[(
    1,
    1,
    "            t101-101     [000] d..2.   100.000000: sched_migrate_task: comm=t101 pid=101 prio=115 orig_cpu=0 dest_cpu=1",
)];

const PRINTED_AS_BEFORE: Lines = &[(
    1,
    1,
    "            t101-101     [000] d..2.   100.000000: sched_migrate_task: comm=t101 pid=101 prio=120 orig_cpu=0 dest_cpu=1",
)];

/// 101 waits at processor 0 with a nice value of 0.
const START: &str =
    "cfs-companion 2\ncpus 2\nstart 100.000000\nfloor 0 3\nfloor 1 100\ntask 101 0 0 wait 5\ntask 102 0 0 run 3\n";

/// The claim of its place.
const CLAIM: &str = "at 1 101 102\n";

/// What is wrong with a printed value: it is tested at the origin.
const WRONG_PRIO: MaybeFault = Some((1, 0, 101, Kind::WrongPrio));

static TO_MINUS_FIVE: Recording = Recording {
    name: "to -5",
    lines: PRINTED_FASTER,
    companion: &[START, "nice 1 101 -5\n", CLAIM],
    fault: None,
    ends: &[None, None],
};

static TO_MINUS_FIVE_PRINTED_AS_BEFORE: Recording = Recording {
    name: "to -5, printed as before",
    lines: PRINTED_AS_BEFORE,
    companion: &[START, "nice 1 101 -5\n", CLAIM],
    fault: WRONG_PRIO,
    ends: &[Some((1, 101, Kind::WrongPrio)), None],
};

static TO_MINUS_FOUR: Recording = Recording {
    name: "to -4",
    lines: PRINTED_FASTER,
    companion: &[START, "nice 1 101 -4\n", CLAIM],
    fault: WRONG_PRIO,
    ends: &[Some((1, 101, Kind::WrongPrio)), None],
};

static UNCHANGED: Recording = Recording {
    name: "unchanged",
    lines: PRINTED_FASTER,
    companion: &[START, CLAIM],
    fault: WRONG_PRIO,
    ends: &[Some((1, 101, Kind::WrongPrio)), None],
};

static ONE_ABOVE: Recording = Recording {
    name: "a claim of one above its place",
    lines: PRINTED_FASTER,
    companion: &[START, "nice 1 101 -5\n", "at 1 101 103\n"],
    fault: Some((1, 1, 101, Kind::TicketUnequal)),
    ends: &[None, None],
};

static OF_THE_RUNNER: Recording = Recording {
    name: "of the task that runs at the origin",
    lines: PRINTED_AS_BEFORE,
    companion: &[START, "nice 1 102 -5\n", CLAIM],
    fault: None,
    ends: &[None, None],
};

static AT_THE_DESTINATION: Recording = Recording {
    name: "of a task at the destination",
    lines: PRINTED_AS_BEFORE,
    companion: &[START, "task 103 0 1 run 100\nnice 1 103 -5\n", CLAIM],
    fault: Some((1, 0, 103, Kind::Strange)),
    ends: &[Some((1, 103, Kind::Strange)), None],
};

/// All of them.
pub(crate) fn recordings() -> [&'static Recording; 7] {
    [
        &TO_MINUS_FIVE,
        &TO_MINUS_FIVE_PRINTED_AS_BEFORE,
        &TO_MINUS_FOUR,
        &UNCHANGED,
        &ONE_ABOVE,
        &OF_THE_RUNNER,
        &AT_THE_DESTINATION,
    ]
}

#[test]
fn a_change_at_a_migration_is_made_where_the_task_leaves(rt: HostRuntime) -> Result<(), Fail> {
    for recording in recordings() {
        wants_alone(&rt, rt.alloc(), recording)?;
    }
    Ok(())
}

#[test]
fn a_page_with_other_changes_is_made_again(rt: HostRuntime) -> Result<(), Fail> {
    for (pages, recording, remade) in [
        (&TO_MINUS_FIVE, &TO_MINUS_FIVE, 0),
        (&UNCHANGED, &TO_MINUS_FIVE, 1),
        (&TO_MINUS_FOUR, &TO_MINUS_FIVE, 1),
        (&TO_MINUS_FIVE, &UNCHANGED, 1),
    ] {
        wants_remade(&rt, rt.alloc(), (pages, pages), recording, remade)?;
    }
    Ok(())
}
