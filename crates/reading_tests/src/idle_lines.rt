use crate::answers::wants;
use crate::companions::{BAD_LINE, OUT_OF_RANGE, Refusal, TWO, misread, task};
use cfs_model::{IdleLine, NO_LINE, Place, Policy, Task};
use companion_file::{Companion, CompanionCause, IdleSpan, read_companion};
use std::alloc::Global;
use std::test::Fail;

/// The lines up to the tasks of the start state, of which the second is to be of the idle policy.
const PEOPLED: &str =
    "cfs-companion 2\ncpus 1\nstart 100.000000\nfloor 0 0\ntask 101 0 0 run 0\ntask 102 0 0 wait 0\n";

/// The same in version 1.
const PEOPLED_IN_ONE: &str =
    "cfs-companion 1\ncpus 1\nstart 100.000000\nfloor 0 0\ntask 101 0 0 run 0\ntask 102 0 0 wait 0\n";

/// Two tasks of the start state are of the idle policy, and some that are born.
const NAMED: &[u8] =
    b"cfs-companion 2\ncpus 1\nstart 100.000000\nfloor 0 0\ntask 101 -20 0 run 0\ntask 102 0 0 wait 0\ntask 4194304 19 0 rest 0\nidle 0 101\n# a\nidle 0 4194304\nidle 7 102\nidle 007 103\nidle 4294967295 1\nnice 7 101 5\nat 7 101 0\n";

fn idle_task(pid: u32, nice: i32, place: Place) -> Result<Task, Fail> {
    let mut task = task(pid, nice, 0, place, 0)?;
    task.policy = Policy::Idle;
    Ok(task)
}

/// What a companion says of tasks and of who is of the idle policy, and how many changes and claims it has.
type Policies<'a> = (&'a [Task], &'a [IdleLine], usize, usize);

fn policies_of(companion: &Companion) -> Policies<'_> {
    (
        companion.tasks(),
        companion.idles(),
        companion.nices().len(),
        companion.claims().len(),
    )
}

/// Whether a text's companion says this.
fn has_policies(alloc: Global, text: &[u8], wanted: Policies<'_>) -> bool {
    match read_companion(alloc, text) {
        Ok(companion) => policies_of(&companion) == wanted,
        Err(_) => false,
    }
}

#[test]
fn who_is_of_the_idle_policy(rt: HostRuntime) -> Result<(), Fail> {
    let tasks = [
        idle_task(101, -20, Place::Run)?,
        task(102, 0, 0, Place::Wait, 0)?,
        idle_task(4_194_304, 19, Place::Rest)?,
    ];
    let idles = [
        (NO_LINE, 101),
        (NO_LINE, 4_194_304),
        (7, 102),
        (7, 103),
        (4_294_967_295, 1),
    ]
    .map(|(line, pid)| IdleLine { line, pid });
    let policies: Policies = (&tasks, &idles, 1, 1);
    wants(&rt, &has_policies(rt.alloc(), NAMED, policies), &true);
    Ok(())
}

/// Two tasks are named on lines that cross.
const CROSSED: &[u8] =
    b"cfs-companion 2\ncpus 1\nstart 100.000000\nfloor 0 0\ntask 101 0 0 run 0\ntask 102 0 0 wait 0\nidle 0 102\nidle 3 102\nidle 4 1\nidle 4 102\nidle 9 1\n";

/// Whether a companion has these spans once its third ends at line 3.
fn has_spans(companion: Companion, spans: &[IdleSpan]) -> bool {
    let mut companion = companion;
    if companion.spans().len() > 2 {
        companion.end_span(2, 3);
    }
    companion.spans() == spans
}

/// The same of the companion of a text.
fn text_has_spans(alloc: Global, text: &[u8], spans: &[IdleSpan]) -> bool {
    match read_companion(alloc, text) {
        Ok(companion) => has_spans(companion, spans),
        Err(_) => false,
    }
}

#[test]
fn spans_by_pid_and_line(rt: HostRuntime) {
    let spans = [(1, 4, 0), (1, 9, 0), (102, 0, 3), (102, 3, 0), (102, 4, 0)].map(|(
        pid,
        from,
        until,
    )| IdleSpan { pid, from, until });
    wants(&rt, &text_has_spans(rt.alloc(), CROSSED, &spans), &true);
}

/// Texts of both versions without an `idle` line.
const WITHOUT: &[u8] =
    b"cfs-companion 1\ncpus 1\nstart 100.000000\nfloor 0 0\ntask 101 0 0 run 0\ntask 102 0 0 wait 0\nat 1 101 400\n";

const WITHOUT_IN_TWO: &[u8] =
    b"cfs-companion 2\ncpus 1\nstart 100.000000\nfloor 0 0\ntask 101 0 0 run 0\ntask 102 0 0 wait 0\nat 1 101 400\n";

/// Whether a companion names nobody as of the idle policy.
fn names_nobody(companion: &Companion) -> bool {
    companion.idles().is_empty()
        && companion.spans().is_empty()
        && companion
            .tasks()
            .iter()
            .all(|task| task.policy == Policy::Normal)
}

/// The same of the companion of a text.
fn text_names_nobody(alloc: Global, text: &[u8]) -> bool {
    match read_companion(alloc, text) {
        Ok(companion) => names_nobody(&companion),
        Err(_) => false,
    }
}

#[test]
fn texts_without_an_idle_line_name_nobody(rt: HostRuntime) {
    for text in [WITHOUT, WITHOUT_IN_TWO] {
        wants(&rt, &text_names_nobody(rt.alloc(), text), &true);
    }
}

static PLACES: [(&str, Refusal); 26] = [
    // behind the tasks, before claims and changes of nice values
    ("idle 0 102\nat 1 101 0", None),
    ("idle 5 103\nnice 1 101 5", None),
    ("idle 5 103\npass 5 103 0", None),
    (
        "idle 0 102\ntask 103 0 0 rest 0",
        Some((8, CompanionCause::Order)),
    ),
    (
        "idle 5 103\ntask 103 0 0 rest 0",
        Some((8, CompanionCause::Order)),
    ),
    ("at 1 101 0\nidle 0 102", Some((8, CompanionCause::Order))),
    ("pass 1 101 0\nidle 2 103", Some((8, CompanionCause::Order))),
    ("nice 1 101 5\nidle 2 103", Some((8, CompanionCause::Order))),
    ("idle 0 102\nfloor 0 0", Some((8, CompanionCause::Order))),
    (
        "idle 0 102\ncfs-companion 2",
        Some((8, CompanionCause::Order)),
    ),
    // lines of the trace rise, and pids at one line
    ("idle 0 101\nidle 0 102", None),
    ("idle 5 103\nidle 5 104", None),
    ("idle 5 104\nidle 6 103", None),
    (
        "idle 0 102\nidle 0 102",
        Some((8, CompanionCause::LineOrder)),
    ),
    (
        "idle 0 102\nidle 0 101",
        Some((8, CompanionCause::LineOrder)),
    ),
    (
        "idle 5 103\nidle 5 103",
        Some((8, CompanionCause::LineOrder)),
    ),
    (
        "idle 5 104\nidle 5 103",
        Some((8, CompanionCause::LineOrder)),
    ),
    (
        "idle 5 103\nidle 4 104",
        Some((8, CompanionCause::LineOrder)),
    ),
    (
        "idle 5 103\nidle 0 102",
        Some((8, CompanionCause::LineOrder)),
    ),
    // a task of the start state
    ("idle 0 101\nidle 0 103", Some((8, CompanionCause::NoTask))),
    (
        "idle 0 102\nidle 0 4194304",
        Some((8, CompanionCause::NoTask)),
    ),
    ("idle 0 102\nidle 1 103", None),
    // the order of the tests
    ("at 1 101 0\nidle 0 0", Some((8, CompanionCause::Order))),
    (
        "idle 5 103\nidle 0 0",
        Some((8, CompanionCause::NumberRange)),
    ),
    (
        "idle 5 103\nidle 0 103",
        Some((8, CompanionCause::LineOrder)),
    ),
    (
        "idle 0 102\nidle 0 100",
        Some((8, CompanionCause::LineOrder)),
    ),
];

#[test]
fn where_idle_lines_may_stand(rt: HostRuntime) {
    wants(&rt, &misread(rt.alloc(), PEOPLED, &PLACES), &None);
}

static TOO_EARLY: [(&str, Refusal); 4] = [
    (
        "cfs-companion 2\nidle 0 101",
        Some((2, CompanionCause::Order)),
    ),
    (
        "cfs-companion 2\ncpus 1\nidle 0 101",
        Some((3, CompanionCause::Order)),
    ),
    (
        "cfs-companion 2\ncpus 1\nstart 100.000000\nidle 0 101",
        Some((4, CompanionCause::Order)),
    ),
    (
        "cfs-companion 2\ncpus 2\nstart 100.000000\nfloor 0 0\nidle 1 101",
        Some((5, CompanionCause::Order)),
    ),
];

#[test]
fn idle_lines_before_the_last_floor(rt: HostRuntime) {
    wants(&rt, &misread(rt.alloc(), "", &TOO_EARLY), &None);
}

static UNNAMED: [(&str, Refusal); 6] = [
    ("idle 0 101", Some((5, CompanionCause::NoTask))),
    ("# a\nidle 0 1", Some((6, CompanionCause::NoTask))),
    (
        "task 101 0 0 run 0\nidle 0 100",
        Some((6, CompanionCause::NoTask)),
    ),
    (
        "task 101 0 0 run 0\nidle 0 102",
        Some((6, CompanionCause::NoTask)),
    ),
    ("idle 1 101", None),
    ("task 101 0 0 run 0\nidle 1 101", None),
];

#[test]
fn a_task_that_no_line_names(rt: HostRuntime) {
    wants(&rt, &misread(rt.alloc(), TWO, &UNNAMED), &None);
}

static IN_ONE: [(&str, Refusal); 4] = [
    ("idle 0 101\nat 1 101 0", Some((7, CompanionCause::BadLine))),
    ("idle 0 103\nat 1 101 0", Some((7, CompanionCause::BadLine))),
    ("idle 5 103\nat 1 101 0", Some((7, CompanionCause::BadLine))),
    ("idle 0 0\nat 1 101 0", Some((7, CompanionCause::BadLine))),
];

#[test]
fn version_one_has_no_idle_lines(rt: HostRuntime) {
    wants(&rt, &misread(rt.alloc(), PEOPLED_IN_ONE, &IN_ONE), &None);
}

static SHAPES: [(&str, Refusal); 15] = [
    ("idle", BAD_LINE),
    ("idle ", BAD_LINE),
    ("idle 1", BAD_LINE),
    ("idle 1 ", BAD_LINE),
    ("idle 1 101 ", BAD_LINE),
    ("idle 1 101 0", BAD_LINE),
    ("idle  1 101", BAD_LINE),
    ("idle 1  101", BAD_LINE),
    (" idle 1 101", BAD_LINE),
    ("idle +1 101", BAD_LINE),
    ("idle -1 101", BAD_LINE),
    ("idle 1 -101", BAD_LINE),
    ("idle 1 101.0", BAD_LINE),
    ("idles 1 101", BAD_LINE),
    ("idle\t1 101", BAD_LINE),
];

#[test]
fn idle_lines_that_have_no_shape(rt: HostRuntime) {
    wants(&rt, &misread(rt.alloc(), TWO, &SHAPES), &None);
}

static LIMITS: [(&str, Refusal); 12] = [
    ("idle 1 1", None),
    ("idle 4294967295 1", None),
    ("idle 4294967296 1", OUT_OF_RANGE),
    ("idle 99999999999999999999999999 1", OUT_OF_RANGE),
    ("idle 00000000000000000000000001 1", None),
    ("idle 1 0", OUT_OF_RANGE),
    ("idle 0 0", OUT_OF_RANGE),
    ("idle 1 4194304", None),
    ("idle 1 4194305", OUT_OF_RANGE),
    ("idle 0 4194305", OUT_OF_RANGE),
    ("idle 1 99999999999999999999999999", OUT_OF_RANGE),
    ("idle 1 00000000000000000000000001", None),
];

#[test]
fn both_sides_of_each_limit_of_an_idle_line(rt: HostRuntime) {
    wants(&rt, &misread(rt.alloc(), TWO, &LIMITS), &None);
}
