//! Recordings with tasks of the idle policy, each with the first fault of processor 0, but those that are worked rows;
//! and what arrivals and tickets have of a policy.

use crate::answers::wants;
use crate::calls::{refusal_of, stream_at, tickets_at, zero};
use crate::recordings::Recording;
use crate::replays::misjudged;
use cfs_model::{Kind, Place, Policy};
use replay_model::{Deed, StepFault, Ticket};
use sched_record::{JoinCause, JoinFault, Stream};
use std::alloc::Global;
use std::test::Fail;

static POLICIES: [Recording; 5] = [
    Recording {
        name: "charged by rounding up",
        trace: b"            t101-101     [000] d..2.   100.004000: sched_switch: prev_comm=t101 prev_pid=101 prev_prio=120 prev_state=R+ ==> next_comm=t102 next_pid=102 next_prio=120\n",
        companion: b"cfs-companion 2\ncpus 1\nstart 100.000000\nfloor 0 0\ntask 101 0 0 run 0\ntask 102 0 0 wait 0\nidle 0 101\nat 1 101 1365333334\n",
        fault: Some(StepFault {
            line: 1,
            kind: Kind::WrongPutBack,
            pid: 101,
            deadline: None,
        }),
    },
    Recording {
        name: "charged by the weight of nice 19",
        trace: b"            t101-101     [000] d..2.   100.004000: sched_switch: prev_comm=t101 prev_pid=101 prev_prio=120 prev_state=R+ ==> next_comm=t102 next_pid=102 next_prio=120\n",
        companion: b"cfs-companion 2\ncpus 1\nstart 100.000000\nfloor 0 0\ntask 101 0 0 run 0\ntask 102 0 0 wait 0\nidle 0 101\nat 1 101 273066666\n",
        fault: Some(StepFault {
            line: 1,
            kind: Kind::WrongPutBack,
            pid: 101,
            deadline: None,
        }),
    },
    Recording {
        name: "another task of the idle policy",
        trace: b"            t101-101     [000] d..2.   100.004000: sched_switch: prev_comm=t101 prev_pid=101 prev_prio=120 prev_state=R+ ==> next_comm=t102 next_pid=102 next_prio=120\n",
        companion: b"cfs-companion 2\ncpus 1\nstart 100.000000\nfloor 0 0\ntask 101 0 0 run 0\ntask 102 0 0 wait 0\nidle 0 102\nat 1 101 1365333333\n",
        fault: Some(StepFault {
            line: 1,
            kind: Kind::WrongPutBack,
            pid: 101,
            deadline: None,
        }),
    },
    Recording {
        name: "charged up to the greatest virtual runtime",
        trace: b"            t101-101     [000] d..2.   100.000001: sched_wakeup: comm=t101 pid=101 prio=139 target_cpu=000\n",
        companion: b"cfs-companion 2\ncpus 1\nstart 100.000000\nfloor 0 0\ntask 101 19 0 run 4611686018427046571\nidle 0 101\n",
        fault: None,
    },
    Recording {
        name: "charged beyond it",
        trace: b"            t101-101     [000] d..2.   100.000001: sched_wakeup: comm=t101 pid=101 prio=139 target_cpu=000\n",
        companion: b"cfs-companion 2\ncpus 1\nstart 100.000000\nfloor 0 0\ntask 101 19 0 run 4611686018427046572\nidle 0 101\n",
        fault: Some(StepFault {
            line: 1,
            kind: Kind::Range,
            pid: 101,
            deadline: None,
        }),
    },
];

#[test]
fn a_task_of_the_idle_policy_is_charged_at_its_own_weight(rt: HostRuntime) -> Result<(), Fail> {
    wants(&rt, &misjudged(rt.alloc(), &POLICIES)?, &None);
    Ok(())
}

// 101 goes from processor 0 to processor 1 three times, and is born at processor 0 before the second and the third;
// then 102 goes, of which nothing was said before.
const MOVES: &[u8] =
    b"            t101-101     [000] d..2.   100.000000: sched_migrate_task: comm=t101 pid=101 prio=120 orig_cpu=0 dest_cpu=1\n            t101-101     [000] d..2.   100.000000: sched_wakeup_new: comm=t101 pid=101 prio=120 target_cpu=000\n            t101-101     [000] d..2.   100.000000: sched_migrate_task: comm=t101 pid=101 prio=120 orig_cpu=0 dest_cpu=1\n            t101-101     [000] d..2.   100.000000: sched_wakeup_new: comm=t101 pid=101 prio=120 target_cpu=000\n            t101-101     [000] d..2.   100.000000: sched_migrate_task: comm=t101 pid=101 prio=120 orig_cpu=0 dest_cpu=1\n            t102-102     [000] d..2.   100.000000: sched_migrate_task: comm=t102 pid=102 prio=120 orig_cpu=0 dest_cpu=1\n";

const MOVES_START: &str =
    "cfs-companion 2\ncpus 2\nstart 100.000000\nfloor 0 0\nfloor 1 0\ntask 101 0 0 wait 0\n";

/// What a processor sees of these, where the companion has such `idle` lines.
fn moves_at(alloc: Global, idles: &str, cpu: u32) -> Result<Stream, Fail> {
    let companion = format!(in alloc; "{MOVES_START}{idles}")?;
    stream_at(alloc, MOVES, companion.as_bytes(), cpu)
}

/// The policy of the task that arrives or is born by a step of a stream; None where none does.
fn policy_at(stream: &Stream, index: usize) -> Option<Policy> {
    match stream.steps().get(index)?.deed {
        Deed::Arrive { policy, .. } | Deed::Born { policy, .. } => Some(policy),
        _ => None,
    }
}

/// The policies of those who arrive or are born by the first four steps of a processor.
type Policies = [Option<Policy>; 4];

fn policies_at(alloc: Global, idles: &str, cpu: u32) -> Result<Policies, Fail> {
    let stream = moves_at(alloc, idles, cpu)?;
    Ok([
        policy_at(&stream, 0),
        policy_at(&stream, 1),
        policy_at(&stream, 2),
        policy_at(&stream, 3),
    ])
}

/// The first `idle` lines of a table by which a processor sees other policies.
fn misdealt(
    alloc: Global,
    cpu: u32,
    table: &[(&'static str, Policies)],
) -> Result<Option<&'static str>, Fail> {
    for (idles, policies) in table {
        if policies_at(alloc, idles, cpu)? != *policies {
            return Ok(Some(*idles));
        }
    }
    Ok(None)
}

static ARRIVALS: [(&str, Policies); 5] = [
    (
        "",
        [
            Some(Policy::Normal),
            Some(Policy::Normal),
            Some(Policy::Normal),
            Some(Policy::Normal),
        ],
    ),
    (
        "idle 0 101\n",
        [
            Some(Policy::Idle),
            Some(Policy::Normal),
            Some(Policy::Normal),
            Some(Policy::Normal),
        ],
    ),
    (
        "idle 2 101\n",
        [
            Some(Policy::Normal),
            Some(Policy::Idle),
            Some(Policy::Normal),
            Some(Policy::Normal),
        ],
    ),
    (
        "idle 4 101\n",
        [
            Some(Policy::Normal),
            Some(Policy::Normal),
            Some(Policy::Idle),
            Some(Policy::Normal),
        ],
    ),
    (
        "idle 0 101\nidle 4 101\n",
        [
            Some(Policy::Idle),
            Some(Policy::Normal),
            Some(Policy::Idle),
            Some(Policy::Normal),
        ],
    ),
];

#[test]
fn an_arrival_has_the_policy_of_the_last_birth_before_it(rt: HostRuntime) -> Result<(), Fail> {
    wants(&rt, &misdealt(rt.alloc(), 1, &ARRIVALS)?, &None);
    Ok(())
}

static BIRTHS: [(&str, Policies); 4] = [
    ("", [None, Some(Policy::Normal), None, Some(Policy::Normal)]),
    (
        "idle 0 101\n",
        [None, Some(Policy::Normal), None, Some(Policy::Normal)],
    ),
    (
        "idle 2 101\n",
        [None, Some(Policy::Idle), None, Some(Policy::Normal)],
    ),
    (
        "idle 4 101\n",
        [None, Some(Policy::Normal), None, Some(Policy::Idle)],
    ),
];

#[test]
fn a_birth_has_the_policy_that_is_named_on_its_line(rt: HostRuntime) -> Result<(), Fail> {
    wants(&rt, &misdealt(rt.alloc(), 0, &BIRTHS)?, &None);
    Ok(())
}

/// Whether a processor sees the same with these `idle` lines as where task 101 is named at its first birth.
fn is_same(alloc: Global, idles: &str, cpu: u32) -> Result<bool, Fail> {
    let one = moves_at(alloc, idles, cpu)?;
    let other = moves_at(alloc, "idle 2 101\n", cpu)?;
    Ok(one == other)
}

#[test]
fn streams_with_other_policies_differ(rt: HostRuntime) -> Result<(), Fail> {
    for cpu in [0, 1] {
        wants(&rt, &is_same(rt.alloc(), "", cpu)?, &false);
        wants(&rt, &is_same(rt.alloc(), "idle 0 101\n", cpu)?, &false);
        wants(&rt, &is_same(rt.alloc(), "idle 2 101\n", cpu)?, &true);
    }
    Ok(())
}

/// Why such lines of the companion don't go together with these moves.
fn join_fault(alloc: Global, lines: &str) -> Result<Option<JoinFault>, Fail> {
    let companion = format!(in alloc; "{MOVES_START}{lines}")?;
    refusal_of(alloc, MOVES, companion.as_bytes())
}

/// Lines of companions with the least line of the trace that hasn't the event that they name it for.
static NAMED: [(&str, Option<JoinFault>); 10] = [
    ("idle 0 101\nidle 2 101\nidle 4 101\n", None),
    (
        "idle 1 101\n",
        Some(JoinFault {
            line: 1,
            cause: JoinCause::ClaimNoEvent,
        }),
    ),
    (
        "idle 2 102\n",
        Some(JoinFault {
            line: 2,
            cause: JoinCause::ClaimNoEvent,
        }),
    ),
    (
        "idle 2 101\nidle 2 102\n",
        Some(JoinFault {
            line: 2,
            cause: JoinCause::ClaimNoEvent,
        }),
    ),
    (
        "idle 7 101\n",
        Some(JoinFault {
            line: 7,
            cause: JoinCause::ClaimNoEvent,
        }),
    ),
    (
        "idle 4294967295 101\n",
        Some(JoinFault {
            line: 4_294_967_295,
            cause: JoinCause::ClaimNoEvent,
        }),
    ),
    // the least line of all is named
    (
        "idle 4 102\nat 7 101 0\n",
        Some(JoinFault {
            line: 4,
            cause: JoinCause::ClaimNoEvent,
        }),
    ),
    (
        "idle 7 101\nnice 8 101 5\nat 9 101 0\n",
        Some(JoinFault {
            line: 7,
            cause: JoinCause::ClaimNoEvent,
        }),
    ),
    (
        "idle 8 101\nnice 7 101 5\nat 9 101 0\n",
        Some(JoinFault {
            line: 7,
            cause: JoinCause::ClaimNoEvent,
        }),
    ),
    (
        "idle 9 101\nat 7 101 0\nnice 8 101 5\n",
        Some(JoinFault {
            line: 7,
            cause: JoinCause::ClaimNoEvent,
        }),
    ),
];

/// The first lines of the table that are told otherwise.
fn misjoined(alloc: Global) -> Result<Option<&'static str>, Fail> {
    for (lines, fault) in &NAMED {
        if join_fault(alloc, lines)? != *fault {
            return Ok(Some(*lines));
        }
    }
    Ok(None)
}

#[test]
fn an_idle_line_above_0_is_for_the_birth_of_its_task(rt: HostRuntime) -> Result<(), Fail> {
    wants(&rt, &misjoined(rt.alloc())?, &None);
    Ok(())
}

// 101 waits at processor 0, 2 ns above the floor, and goes to processor 1.
const MOVE: &[u8] =
    b"            t101-101     [000] d..2.   100.000000: sched_migrate_task: comm=t101 pid=101 prio=120 orig_cpu=0 dest_cpu=1\n";

const IDLE_MOVE: &[u8] =
    b"cfs-companion 2\ncpus 2\nstart 100.000000\nfloor 0 3\nfloor 1 100\ntask 101 0 0 wait 5\ntask 102 0 0 run 3\nidle 0 101\nat 1 101 102\n";

/// The ticket of that migration.
fn ticket() -> Option<Ticket> {
    Some(Ticket {
        line: 1,
        pid: 101,
        nice: zero(),
        policy: Policy::Idle,
        place: Place::Wait,
        offset: 2,
    })
}

#[test]
fn a_ticket_has_the_policy(rt: HostRuntime) -> Result<(), Fail> {
    let left = tickets_at(rt.alloc(), MOVE, IDLE_MOVE, 0)?;
    wants(&rt, &left, &(None, ticket(), None));
    let came = tickets_at(rt.alloc(), MOVE, IDLE_MOVE, 1)?;
    wants(&rt, &came, &(None, None, ticket()));
    Ok(())
}
