//! Recordings of one processor and of several, with their verdicts, and how the replay of each processor ends.

use crate::calls::MaybeFault;
use cfs_model::Kind;

/// The lines of a trace that are no comments: from which line on each stands, and how often.
pub(crate) type Lines = &'static [(u32, u32, &'static str)];

/// The line, pid and kind of the fault with which the replay of a processor alone ends, if it has one.
pub(crate) type End = Option<(u32, u32, Kind)>;

/// A recording, and the line, processor, pid and kind of its fault, if it has one.
pub(crate) struct Recording {
    pub name: &'static str,
    pub lines: Lines,
    /// The companion, in parts.
    pub companion: &'static [&'static str],
    pub fault: MaybeFault,
    /// The ends of its processors, from 0 on.
    pub ends: &'static [End],
}

/// 101 goes from processor 0 to 1.
const MIGRATION: Lines = &[(
    1,
    1,
    "            t101-101     [000] d..2.   100.000000: sched_migrate_task: comm=t101 pid=101 prio=120 orig_cpu=0 dest_cpu=1",
)];

/// Both processors run a task each from the start on.
const BOTH_RUN: &[&str] = &[
    "cfs-companion 1\ncpus 2\nstart 100.000000\nfloor 0 0\nfloor 1 0\ntask 101 0 0 run 0\ntask 102 0 1 run 0\n",
];

/// Each processor switches from a task that does not run there: processor 0 at line 4, processor 1 at line 9.
pub(crate) static TWO_FAULTS_FIRST_LINE_NAMED: Recording = Recording {
    name: "two faults first line named",
    lines: &[
        (
            4,
            1,
            "            t201-201     [000] d..2.   100.001000: sched_switch: prev_comm=t201 prev_pid=201 prev_prio=120 prev_state=S ==> next_comm=swapper/0 next_pid=0 next_prio=120",
        ),
        (
            9,
            1,
            "            t202-202     [001] d..2.   100.002000: sched_switch: prev_comm=t202 prev_pid=202 prev_prio=120 prev_state=S ==> next_comm=swapper/1 next_pid=0 next_prio=120",
        ),
    ],
    companion: BOTH_RUN,
    fault: Some((4, 0, 201, Kind::PrevNotRunning)),
    ends: &[
        Some((4, 201, Kind::PrevNotRunning)),
        Some((9, 202, Kind::PrevNotRunning)),
    ],
};

/// 102 waits at processor 1, which idles to 0.1 ms; its own next event is at line 100, and 0 goes on at lines 20, 50,
/// 80.
pub(crate) static IDLE_FAULT_AT_LINE_OF_OTHER_PROCESSOR: Recording = Recording {
    name: "idle fault at line of other processor",
    lines: &[
        (
            5,
            1,
            "            t102-102     [001] d..2.   100.000050: sched_wakeup: comm=t102 pid=102 prio=120 target_cpu=001",
        ),
        (
            10,
            1,
            "            t101-101     [000] d..2.   100.000100: sched_wakeup: comm=t101 pid=101 prio=120 target_cpu=000",
        ),
        (
            50,
            1,
            "            t101-101     [000] d..2.   100.000200: sched_wakeup: comm=t101 pid=101 prio=120 target_cpu=000",
        ),
        (
            80,
            1,
            "            t201-201     [000] d..2.   100.000300: sched_switch: prev_comm=t201 prev_pid=201 prev_prio=120 prev_state=S ==> next_comm=swapper/0 next_pid=0 next_prio=120",
        ),
        (
            100,
            1,
            "          <idle>-0       [001] d..2.   100.000400: sched_switch: prev_comm=swapper/1 prev_pid=0 prev_prio=120 prev_state=R ==> next_comm=t102 next_pid=102 next_prio=120",
        ),
    ],
    companion: &[
        "cfs-companion 1\ncpus 2\nstart 100.000000\nfloor 0 0\nfloor 1 0\ntask 101 0 0 run 0\ntask 102 0 1 wait 0\n",
    ],
    fault: Some((50, 1, 0, Kind::IdleTooLong)),
    ends: &[
        Some((80, 201, Kind::PrevNotRunning)),
        Some((100, 0, Kind::IdleTooLong)),
    ],
};

/// 101 stands nowhere, and goes from processor 0 to 1.
pub(crate) static MIGRATION_OF_UNKNOWN_TASK: Recording = Recording {
    name: "migration of unknown task",
    lines: MIGRATION,
    companion: &["cfs-companion 1\ncpus 2\nstart 100.000000\nfloor 0 0\nfloor 1 0\n"],
    fault: Some((1, 0, 101, Kind::Strange)),
    ends: &[
        Some((1, 101, Kind::Strange)),
        Some((1, 101, Kind::ClaimMissing)),
    ],
};

/// 101 rests at processor 0, and goes to 1 without a claim.
pub(crate) static MIGRATION_WITHOUT_CLAIM: Recording = Recording {
    name: "migration without claim",
    lines: MIGRATION,
    companion: &[
        "cfs-companion 1\ncpus 2\nstart 100.000000\nfloor 0 0\nfloor 1 0\ntask 101 0 0 rest 0\n",
    ],
    fault: Some((1, 1, 101, Kind::ClaimMissing)),
    ends: &[None, Some((1, 101, Kind::ClaimMissing))],
};

/// The same with a claim of 102.
pub(crate) static MIGRATION_CLAIM_OF_OTHER_TASK: Recording = Recording {
    name: "migration claim of other task",
    lines: MIGRATION,
    companion: &[
        "cfs-companion 1\ncpus 2\nstart 100.000000\nfloor 0 0\nfloor 1 0\ntask 101 0 0 rest 0\npass 1 102 0\n",
    ],
    fault: Some((1, 1, 102, Kind::ClaimPid)),
    ends: &[None, Some((1, 102, Kind::ClaimPid))],
};

/// Both processors idle beside a waiting task from the start.
pub(crate) static TWO_PROCESSORS_IDLE_LOWEST_NAMED: Recording = Recording {
    name: "two processors idle lowest named",
    lines: &[(
        1,
        1,
        "            t102-102     [001] d..2.   100.000101: sched_wakeup: comm=t102 pid=102 prio=120 target_cpu=001",
    )],
    companion: &[
        "cfs-companion 1\ncpus 2\nstart 100.000000\nfloor 0 0\nfloor 1 0\ntask 101 0 0 wait 0\ntask 102 0 1 wait 0\n",
    ],
    fault: Some((1, 0, 0, Kind::IdleTooLong)),
    ends: &[
        Some((1, 0, Kind::IdleTooLong)),
        Some((1, 0, Kind::IdleTooLong)),
    ],
};

/// 101 sleeps at processor 0, and is born at 1.
pub(crate) static SLEEP_THEN_BIRTH_ELSEWHERE: Recording = Recording {
    name: "sleep then birth elsewhere",
    lines: &[
        (
            1,
            1,
            "            t101-101     [000] d..2.   100.001000: sched_switch: prev_comm=t101 prev_pid=101 prev_prio=120 prev_state=S ==> next_comm=swapper/0 next_pid=0 next_prio=120",
        ),
        (
            2,
            1,
            "            t101-101     [001] d..2.   100.002000: sched_wakeup_new: comm=t101 pid=101 prio=120 target_cpu=001",
        ),
    ],
    companion: &[
        "cfs-companion 1\ncpus 2\nstart 100.000000\nfloor 0 0\nfloor 1 0\ntask 101 0 0 run 0\nat 2 101 0\n",
    ],
    fault: Some((2, 1, 101, Kind::BornTwice)),
    ends: &[None, None],
};

/// 101 waits 2 above the floor of processor 0, and is claimed 3 above that of 1.
pub(crate) static MIGRATION_VALUE_ONE_MORE: Recording = Recording {
    name: "migration value one more",
    lines: MIGRATION,
    companion: &[
        "cfs-companion 1\ncpus 2\nstart 100.000000\nfloor 0 3\nfloor 1 100\ntask 101 0 0 wait 5\ntask 102 0 0 run 3\nat 1 101 103\n",
    ],
    fault: Some((1, 1, 101, Kind::TicketUnequal)),
    ends: &[None, None],
};

/// 101 goes from processor 0 to 0.
pub(crate) static MIGRATION_TO_OWN_PROCESSOR: Recording = Recording {
    name: "migration to own processor",
    lines: &[(
        1,
        1,
        "            t101-101     [000] d..2.   100.000000: sched_migrate_task: comm=t101 pid=101 prio=120 orig_cpu=0 dest_cpu=0",
    )],
    companion: &["cfs-companion 1\ncpus 1\nstart 100.000000\nfloor 0 0\ntask 101 0 0 rest 0\n"],
    fault: Some((1, 0, 101, Kind::MoveHome)),
    ends: &[Some((1, 101, Kind::MoveHome))],
};

/// 101 runs at processor 0, and goes to 1.
pub(crate) static MIGRATION_OF_RUNNING_TASK: Recording = Recording {
    name: "migration of running task",
    lines: MIGRATION,
    companion: &[
        "cfs-companion 1\ncpus 2\nstart 100.000000\nfloor 0 0\nfloor 1 0\ntask 101 0 0 run 0\npass 1 101 0\n",
    ],
    fault: Some((1, 0, 101, Kind::MoveRunning)),
    ends: &[Some((1, 101, Kind::MoveRunning)), None],
};

/// 101 ends at processor 0, and is born at 1.
pub(crate) static DEATH_THEN_BIRTH_ELSEWHERE: Recording = Recording {
    name: "death then birth elsewhere",
    lines: &[
        (
            1,
            1,
            "            t101-101     [000] d..2.   100.001000: sched_switch: prev_comm=t101 prev_pid=101 prev_prio=120 prev_state=X ==> next_comm=swapper/0 next_pid=0 next_prio=120",
        ),
        (
            2,
            1,
            "            t101-101     [001] d..2.   100.002000: sched_wakeup_new: comm=t101 pid=101 prio=120 target_cpu=001",
        ),
    ],
    companion: &[
        "cfs-companion 1\ncpus 2\nstart 100.000000\nfloor 0 0\nfloor 1 0\ntask 101 0 0 run 0\nat 2 101 0\n",
    ],
    fault: None,
    ends: &[None, None],
};

/// Three processors switch from tasks that do not run there: 2 at line 2, 0 at line 4, 1 at line 9.
pub(crate) static THREE_FAULTS_ON_THREE_PROCESSORS: Recording = Recording {
    name: "three faults on three processors",
    lines: &[
        (
            2,
            1,
            "            t203-203     [002] d..2.   100.000500: sched_switch: prev_comm=t203 prev_pid=203 prev_prio=120 prev_state=S ==> next_comm=swapper/2 next_pid=0 next_prio=120",
        ),
        (
            4,
            1,
            "            t201-201     [000] d..2.   100.001000: sched_switch: prev_comm=t201 prev_pid=201 prev_prio=120 prev_state=S ==> next_comm=swapper/0 next_pid=0 next_prio=120",
        ),
        (
            9,
            1,
            "            t202-202     [001] d..2.   100.002000: sched_switch: prev_comm=t202 prev_pid=202 prev_prio=120 prev_state=S ==> next_comm=swapper/1 next_pid=0 next_prio=120",
        ),
    ],
    companion: &[
        "cfs-companion 1\ncpus 3\nstart 100.000000\nfloor 0 0\nfloor 1 0\nfloor 2 0\ntask 101 0 0 run 0\ntask 102 0 1 run 0\ntask 103 0 2 run 0\n",
    ],
    fault: Some((2, 2, 203, Kind::PrevNotRunning)),
    ends: &[
        Some((4, 201, Kind::PrevNotRunning)),
        Some((9, 202, Kind::PrevNotRunning)),
        Some((2, 203, Kind::PrevNotRunning)),
    ],
};

/// 101 rests 5 below the floor of processor 0, and so below that of 1.
pub(crate) static MIGRATION_OF_SLEEPING_TASK: Recording = Recording {
    name: "migration of sleeping task",
    lines: MIGRATION,
    companion: &[
        "cfs-companion 1\ncpus 2\nstart 100.000000\nfloor 0 0\nfloor 1 10\ntask 101 0 0 rest -5\npass 1 101 5\n",
    ],
    fault: None,
    ends: &[None, None],
};

/// The same, claimed as one that waits.
pub(crate) static MIGRATION_OF_SLEEPING_TASK_ENQUEUED: Recording = Recording {
    name: "migration of sleeping task enqueued",
    lines: MIGRATION,
    companion: &[
        "cfs-companion 1\ncpus 2\nstart 100.000000\nfloor 0 0\nfloor 1 10\ntask 101 0 0 rest -5\nat 1 101 5\n",
    ],
    fault: Some((1, 1, 101, Kind::TicketUnequal)),
    ends: &[None, None],
};

/// 101 waits 2 above the floor of processor 0, and so above that of 1.
pub(crate) static MIGRATION_OF_WAITING_TASK: Recording = Recording {
    name: "migration of waiting task",
    lines: MIGRATION,
    companion: &[
        "cfs-companion 1\ncpus 2\nstart 100.000000\nfloor 0 3\nfloor 1 100\ntask 101 0 0 wait 5\ntask 102 0 0 run 3\nat 1 101 102\n",
    ],
    fault: None,
    ends: &[None, None],
};

/// The same, claimed as one that rests.
pub(crate) static MIGRATION_OF_WAITING_TASK_PASSED: Recording = Recording {
    name: "migration of waiting task passed",
    lines: MIGRATION,
    companion: &[
        "cfs-companion 1\ncpus 2\nstart 100.000000\nfloor 0 3\nfloor 1 100\ntask 101 0 0 wait 5\ntask 102 0 0 run 3\npass 1 101 102\n",
    ],
    fault: Some((1, 1, 101, Kind::TicketUnequal)),
    ends: &[None, None],
};

/// 101, of nice 5, runs at processor 0, sleeps, goes to 1, is woken and runs there.
pub(crate) static SUMMARY_OVER_TWO_PROCESSORS: Recording = Recording {
    name: "summary over two processors",
    lines: &[
        (
            1,
            1,
            "            t101-101     [000] d..2.   100.001000: sched_switch: prev_comm=t101 prev_pid=101 prev_prio=125 prev_state=S ==> next_comm=swapper/0 next_pid=0 next_prio=120",
        ),
        (
            2,
            1,
            "            t101-101     [000] d..2.   100.002000: sched_migrate_task: comm=t101 pid=101 prio=125 orig_cpu=0 dest_cpu=1",
        ),
        (
            3,
            1,
            "            t101-101     [001] d..2.   100.002000: sched_wakeup: comm=t101 pid=101 prio=125 target_cpu=001",
        ),
        (
            4,
            1,
            "          <idle>-0       [001] d..2.   100.002050: sched_switch: prev_comm=swapper/1 prev_pid=0 prev_prio=120 prev_state=R ==> next_comm=t101 next_pid=101 next_prio=125",
        ),
        (
            5,
            1,
            "            t101-101     [001] d..2.   100.003050: sched_switch: prev_comm=t101 prev_pid=101 prev_prio=125 prev_state=S ==> next_comm=swapper/1 next_pid=0 next_prio=120",
        ),
    ],
    companion: &[
        "cfs-companion 1\ncpus 2\nstart 100.000000\nfloor 0 0\nfloor 1 0\ntask 101 5 0 run 0\npass 2 101 0\nat 3 101 0\n",
    ],
    fault: None,
    ends: &[None, None],
};

/// At line 4 processor 0 switches away from a task that doesn't run there; from line 5 on processor 1's task is woken.
pub(crate) static FAULT_BEFORE_MANY_WAKEUPS: Recording = Recording {
    name: "fault before many wakeups",
    lines: &[
        (
            4,
            1,
            "            t201-201     [000] d..2.   100.001000: sched_switch: prev_comm=t201 prev_pid=201 prev_prio=120 prev_state=S ==> next_comm=swapper/0 next_pid=0 next_prio=120",
        ),
        (
            5,
            996,
            "            t102-102     [001] d..2.   100.002000: sched_wakeup: comm=t102 pid=102 prio=120 target_cpu=001",
        ),
    ],
    companion: BOTH_RUN,
    fault: Some((4, 0, 201, Kind::PrevNotRunning)),
    ends: &[Some((4, 201, Kind::PrevNotRunning)), None],
};

/// The task of either processor is woken 5000 times: two stretches of an auditor.
pub(crate) static TEN_THOUSAND_WAKEUPS: Recording = Recording {
    name: "ten thousand wakeups",
    lines: &[
        (
            1,
            5000,
            "            t101-101     [000] d..2.   100.000000: sched_wakeup: comm=t101 pid=101 prio=120 target_cpu=000",
        ),
        (
            5001,
            5000,
            "            t102-102     [001] d..2.   100.000000: sched_wakeup: comm=t102 pid=102 prio=120 target_cpu=001",
        ),
    ],
    companion: BOTH_RUN,
    fault: None,
    ends: &[None, None],
};

/// At line 1 processor 0 switches away from a task that doesn't run there; then processor 1's task is woken for more
/// than two stretches, of which its auditor makes one.
pub(crate) static FAULT_BEFORE_TEN_THOUSAND_WAKEUPS: Recording = Recording {
    name: "fault before ten thousand wakeups",
    lines: &[
        (
            1,
            1,
            "            t201-201     [000] d..2.   100.000000: sched_switch: prev_comm=t201 prev_pid=201 prev_prio=120 prev_state=S ==> next_comm=swapper/0 next_pid=0 next_prio=120",
        ),
        (
            2,
            10000,
            "            t102-102     [001] d..2.   100.000000: sched_wakeup: comm=t102 pid=102 prio=120 target_cpu=001",
        ),
    ],
    companion: BOTH_RUN,
    fault: Some((1, 0, 201, Kind::PrevNotRunning)),
    ends: &[Some((1, 201, Kind::PrevNotRunning)), None],
};

/// 101 runs 4 ms and is put back, and 102 comes.
pub(crate) static ONE_SWITCH: Recording = Recording {
    name: "one switch",
    lines: &[(
        1,
        1,
        "            t101-101     [000] d..2.   100.004000: sched_switch: prev_comm=t101 prev_pid=101 prev_prio=120 prev_state=R+ ==> next_comm=t102 next_pid=102 next_prio=120",
    )],
    companion: &[
        "cfs-companion 1\ncpus 1\nstart 100.000000\nfloor 0 0\ntask 101 0 0 run 0\ntask 102 0 0 wait 0\nat 1 101 4000000\n",
    ],
    fault: None,
    ends: &[None],
};

/// 102 rests, is woken, and waits up to the slack.
const WAKEUP: (u32, u32, &str) = (
    1,
    1,
    "            t102-102     [000] d..2.   100.001000: sched_wakeup: comm=t102 pid=102 prio=120 target_cpu=000",
);

const WOKEN: &[&str] = &[
    "cfs-companion 1\ncpus 1\nstart 100.000000\nfloor 0 0\ntask 102 0 0 rest 0\nat 1 102 0\n",
];

pub(crate) static IDLE_AT_SLACK: Recording = Recording {
    name: "idle at slack",
    lines: &[
        WAKEUP,
        (
            2,
            1,
            "          <idle>-0       [000] d..2.   100.001100: sched_switch: prev_comm=swapper/0 prev_pid=0 prev_prio=120 prev_state=R ==> next_comm=t102 next_pid=102 next_prio=120",
        ),
    ],
    companion: WOKEN,
    fault: None,
    ends: &[None],
};

/// The same for 1 us more.
pub(crate) static IDLE_ABOVE_SLACK: Recording = Recording {
    name: "idle above slack",
    lines: &[
        WAKEUP,
        (
            2,
            1,
            "          <idle>-0       [000] d..2.   100.001101: sched_switch: prev_comm=swapper/0 prev_pid=0 prev_prio=120 prev_state=R ==> next_comm=t102 next_pid=102 next_prio=120",
        ),
    ],
    companion: WOKEN,
    fault: Some((2, 0, 0, Kind::IdleTooLong)),
    ends: &[Some((2, 0, Kind::IdleTooLong))],
};

/// 101 is born at the credit above the floor.
pub(crate) static BIRTH_AT_UPPER_BOUND: Recording = Recording {
    name: "birth at upper bound",
    lines: &[(
        1,
        1,
        "            t101-101     [000] d..2.   100.000000: sched_wakeup_new: comm=t101 pid=101 prio=120 target_cpu=000",
    )],
    companion: &["cfs-companion 1\ncpus 1\nstart 100.000000\nfloor 0 0\nat 1 101 3000000\n"],
    fault: None,
    ends: &[None],
};

/// All recordings.
pub(crate) fn recordings() -> [&'static Recording; 24] {
    [
        &ONE_SWITCH,
        &IDLE_AT_SLACK,
        &IDLE_ABOVE_SLACK,
        &BIRTH_AT_UPPER_BOUND,
        &TWO_FAULTS_FIRST_LINE_NAMED,
        &IDLE_FAULT_AT_LINE_OF_OTHER_PROCESSOR,
        &MIGRATION_OF_UNKNOWN_TASK,
        &MIGRATION_WITHOUT_CLAIM,
        &MIGRATION_CLAIM_OF_OTHER_TASK,
        &TWO_PROCESSORS_IDLE_LOWEST_NAMED,
        &SLEEP_THEN_BIRTH_ELSEWHERE,
        &MIGRATION_VALUE_ONE_MORE,
        &MIGRATION_TO_OWN_PROCESSOR,
        &MIGRATION_OF_RUNNING_TASK,
        &DEATH_THEN_BIRTH_ELSEWHERE,
        &THREE_FAULTS_ON_THREE_PROCESSORS,
        &MIGRATION_OF_SLEEPING_TASK,
        &MIGRATION_OF_SLEEPING_TASK_ENQUEUED,
        &MIGRATION_OF_WAITING_TASK,
        &MIGRATION_OF_WAITING_TASK_PASSED,
        &SUMMARY_OVER_TWO_PROCESSORS,
        &FAULT_BEFORE_MANY_WAKEUPS,
        &TEN_THOUSAND_WAKEUPS,
        &FAULT_BEFORE_TEN_THOUSAND_WAKEUPS,
    ]
}
