use crate::answers::wants;
use cfs_model::{Claim, ClaimSort, Nice, NiceLine, Place, Policy, Task};
use companion_file::{Companion, CompanionCause, CompanionFault, read_companion};
use std::alloc::Global;
use std::test::Fail;

/// The lines up to the floor of the only processor.
pub(crate) const ONE: &str = "cfs-companion 1\ncpus 1\nstart 100.000000\nfloor 0 0\n";

/// The same in version 2.
pub(crate) const TWO: &str = "cfs-companion 2\ncpus 1\nstart 100.000000\nfloor 0 0\n";

/// Why a text is refused: its first bad line and the cause; None where it is read.
pub(crate) type Refusal = Option<(u64, CompanionCause)>;

/// No text has a line 0.
const WANT_OF_MEMORY: Refusal = Some((0, CompanionCause::Short));

/// Refusals of a line that stands behind four.
pub(crate) const BAD_LINE: Refusal = Some((5, CompanionCause::BadLine));

pub(crate) const OUT_OF_RANGE: Refusal = Some((5, CompanionCause::NumberRange));

fn refusal(alloc: Global, text: &[u8]) -> Refusal {
    match read_companion(alloc, text) {
        Ok(_) => None,
        Err(CompanionFault::Text { line, cause }) => Some((line, cause)),
        Err(CompanionFault::Memory) => WANT_OF_MEMORY,
    }
}

/// The same of a text that begins so and goes on with these lines.
fn refusal_behind(alloc: Global, front: &str, lines: &str) -> Refusal {
    match format!(in alloc; "{front}{lines}\n") {
        Ok(text) => refusal(alloc, text.as_bytes()),
        Err(_) => WANT_OF_MEMORY,
    }
}

/// The first lines of a table that, behind such a front, aren't refused as it says.
pub(crate) fn misread(
    alloc: Global,
    front: &str,
    table: &[(&'static str, Refusal)],
) -> Option<&'static str> {
    for (lines, wanted) in table {
        if refusal_behind(alloc, front, lines) != *wanted {
            return Some(*lines);
        }
    }
    None
}

/// Changes of nice values among the claims, one of them at a claim's line, with numbers at their limits.
const NICED: &[u8] =
    b"cfs-companion 2\ncpus 1\nstart 100.000000\nfloor 0 0\ntask 101 0 0 run 0\ntask 102 0 0 wait 0\nnice 1 101 5\nat 1 101 4000000\n# a\npass 2 102 7\nnice 3 4194304 -20\nnice 004 1 19\nnice 4294967295 101 -0";

/// Tasks and claims without a change.
const PLAIN: &[u8] =
    b"cfs-companion 1\ncpus 1\nstart 100.000000\nfloor 0 0\ntask 101 0 0 run 0\ntask 102 0 0 wait 0\nat 1 101 400\npass 2 102 7\n";

/// The same in version 2. The last line has no line feed.
const PLAIN_IN_TWO: &[u8] =
    b"cfs-companion 2\ncpus 1\nstart 100.000000\nfloor 0 0\ntask 101 0 0 run 0\ntask 102 0 0 wait 0\nat 1 101 400\npass 2 102 7";

/// Comments stand between the lines, and numbers are at their limits.
const COMMENTED: &[u8] =
    b"# \xff\n\ncfs-companion 1\n#\ncpus 2\nstart 007.000000009\nfloor 0 -5\n\nfloor 01 4611686018427387904\ntask 7 -20 1 rest -4611686018427387904\npass 9 7 -0\n# cgroup\n";

/// All that a companion says, but who is of the idle policy.
type Said<'a> = (u32, u64, &'a [i64], &'a [Task], &'a [Claim], &'a [NiceLine]);

fn said(companion: &Companion) -> Said<'_> {
    (
        companion.cpus(),
        companion.start(),
        companion.floors(),
        companion.tasks(),
        companion.claims(),
        companion.nices(),
    )
}

/// Whether a text's companion says this.
fn says(alloc: Global, text: &[u8], wanted: Said<'_>) -> bool {
    match read_companion(alloc, text) {
        Ok(companion) => said(&companion) == wanted,
        Err(_) => false,
    }
}

pub(crate) fn task(pid: u32, nice: i32, cpu: u32, place: Place, v: i64) -> Result<Task, Fail> {
    let nice = Nice::new(nice).ok_or("a nice value")?;
    Ok(Task {
        pid,
        nice,
        policy: Policy::Normal,
        cpu,
        place,
        v,
    })
}

fn change(line: u32, pid: u32, nice: i32) -> Result<NiceLine, Fail> {
    let nice = Nice::new(nice).ok_or("a nice value")?;
    Ok(NiceLine { line, pid, nice })
}

fn claim(line: u32, pid: u32, v: i64, sort: ClaimSort) -> Claim {
    Claim { line, pid, v, sort }
}

/// 101 runs and 102 waits.
fn two_tasks() -> Result<[Task; 2], Fail> {
    Ok([
        task(101, 0, 0, Place::Run, 0)?,
        task(102, 0, 0, Place::Wait, 0)?,
    ])
}

#[test]
fn what_comments_hold_is_not_looked_at(rt: HostRuntime) -> Result<(), Fail> {
    let floors = [-5, 4_611_686_018_427_387_904];
    let tasks = [task(7, -20, 1, Place::Rest, -4_611_686_018_427_387_904)?];
    let claims = [claim(9, 7, 0, ClaimSort::Pass)];
    let said: Said = (2, 7_000_000_009, &floors, &tasks, &claims, &[]);
    wants(&rt, &says(rt.alloc(), COMMENTED, said), &true);
    Ok(())
}

#[test]
fn changes_of_nice_values_among_the_claims(rt: HostRuntime) -> Result<(), Fail> {
    let tasks = two_tasks()?;
    let claims = [
        claim(1, 101, 4_000_000, ClaimSort::At),
        claim(2, 102, 7, ClaimSort::Pass),
    ];
    let changes = [
        change(1, 101, 5)?,
        change(3, 4_194_304, -20)?,
        change(4, 1, 19)?,
        change(4_294_967_295, 101, 0)?,
    ];
    let said: Said = (1, 100_000_000_000, &[0], &tasks, &claims, &changes);
    wants(&rt, &says(rt.alloc(), NICED, said), &true);
    Ok(())
}

#[test]
fn texts_without_a_change_say_the_same_in_both_versions(rt: HostRuntime) -> Result<(), Fail> {
    let tasks = two_tasks()?;
    let claims = [
        claim(1, 101, 400, ClaimSort::At),
        claim(2, 102, 7, ClaimSort::Pass),
    ];
    let said: Said = (1, 100_000_000_000, &[0], &tasks, &claims, &[]);
    wants(&rt, &says(rt.alloc(), PLAIN, said), &true);
    wants(&rt, &says(rt.alloc(), PLAIN_IN_TWO, said), &true);
    Ok(())
}

static WHOLE: [(&str, Refusal); 25] = [
    ("# a\n", Some((3, CompanionCause::Short))),
    ("cfs-companion 4", Some((1, CompanionCause::Version))),
    ("cfs-companion 3", Some((2, CompanionCause::Short))),
    ("cfs-companion 03", Some((1, CompanionCause::Version))),
    ("cfs-companion 3 ", Some((1, CompanionCause::Version))),
    ("cfs-companion 2", Some((2, CompanionCause::Short))),
    ("cfs-companion 02", Some((1, CompanionCause::Version))),
    ("cfs-companion 2 ", Some((1, CompanionCause::Version))),
    ("cfs-companion", Some((1, CompanionCause::Version))),
    (
        "cfs-companion 2\nnice 1 101 5",
        Some((2, CompanionCause::Order)),
    ),
    (
        "cfs-companion 2\ncpus 1\nstart 100.000000\nnice 1 101 5",
        Some((4, CompanionCause::Order)),
    ),
    ("# a\ncgroup /a", Some((2, CompanionCause::Version))),
    ("cfs-companion 01", Some((1, CompanionCause::Version))),
    (
        "cfs-companion 1\ncpus 0",
        Some((2, CompanionCause::NumberRange)),
    ),
    ("cfs-companion 1\ncpus 1", Some((3, CompanionCause::Short))),
    ("cfs-companion 1\ncpus 64", Some((3, CompanionCause::Short))),
    (
        "cfs-companion 1\ncpus 65",
        Some((2, CompanionCause::NumberRange)),
    ),
    (
        "cfs-companion 1\nstart 1.000000",
        Some((2, CompanionCause::Order)),
    ),
    (
        "cfs-companion 1\ncpus 1\nstart 100.000000",
        Some((4, CompanionCause::Short)),
    ),
    (
        "cfs-companion 1\ncpus 1\nstart 4294967295.999999999",
        Some((4, CompanionCause::Short)),
    ),
    (
        "cfs-companion 1\ncpus 1\nstart 4294967296.000000",
        Some((3, CompanionCause::NumberRange)),
    ),
    (
        "cfs-companion 1\ncpus 1\nstart 1.0000000",
        Some((3, CompanionCause::BadLine)),
    ),
    (
        "cfs-companion 1\ncpus 2\nstart 100.000000\nfloor 0 0\ntask 101 0 0 run 0",
        Some((5, CompanionCause::Order)),
    ),
    (
        "cfs-companion 1\ncpus 2\nstart 100.000000\nfloor 1 0",
        Some((4, CompanionCause::Order)),
    ),
    (
        "cfs-companion 1\ncpus 2\nstart 100.000000\nfloor 2 0",
        Some((4, CompanionCause::NumberRange)),
    ),
];

#[test]
fn first_bad_lines_of_whole_texts(rt: HostRuntime) {
    wants(
        &rt,
        &refusal(rt.alloc(), b""),
        &Some((1, CompanionCause::Short)),
    );
    wants(&rt, &misread(rt.alloc(), "", &WHOLE), &None);
}

static AFTER_FLOORS: [(&str, Refusal); 21] = [
    ("task 101 0 0 sleep 0", BAD_LINE),
    ("task 101 0 0  run 0", BAD_LINE),
    ("task 101 0 0 run 0 ", BAD_LINE),
    (" task 101 0 0 run 0", BAD_LINE),
    ("task 101 +1 0 run 0", BAD_LINE),
    ("tasks", BAD_LINE),
    ("cgroup", Some((5, CompanionCause::Group))),
    ("cgroup /a", Some((5, CompanionCause::Group))),
    ("cgroups", BAD_LINE),
    ("cfs-companion 1", Some((5, CompanionCause::Order))),
    ("cpus 65", Some((5, CompanionCause::Order))),
    ("start 1.000000", Some((5, CompanionCause::Order))),
    ("floor 0 0", Some((5, CompanionCause::Order))),
    (
        "task 101 0 0 rest 0\n# a\ntask 101 0 0 rest 0",
        Some((7, CompanionCause::TwiceNamed)),
    ),
    (
        "task 101 0 0 run 0\ntask 102 0 0 run 0",
        Some((6, CompanionCause::TwiceRunning)),
    ),
    (
        "task 101 0 0 run 0\ntask 101 0 0 run 0",
        Some((6, CompanionCause::TwiceNamed)),
    ),
    (
        "task 102 0 0 rest 0\ntask 101 0 0 rest 0",
        Some((6, CompanionCause::Order)),
    ),
    (
        "at 5 101 0\nat 5 102 0",
        Some((6, CompanionCause::LineOrder)),
    ),
    ("at 5 101 0\npass 6 102 0", None),
    (
        "at 5 101 0\ntask 101 0 0 rest 0",
        Some((6, CompanionCause::Order)),
    ),
    (
        "at 5 101 0\nat 4 101 0",
        Some((6, CompanionCause::LineOrder)),
    ),
];

#[test]
fn lines_after_the_floors(rt: HostRuntime) {
    wants(&rt, &misread(rt.alloc(), ONE, &AFTER_FLOORS), &None);
}

static OF_VERSION_TWO: [(&str, Refusal); 5] = [
    ("nice 1 101 5", BAD_LINE),
    (
        "task 101 0 0 run 0\ntask 102 0 0 wait 0\nnice 1 101 5\nat 1 101 4000000",
        Some((7, CompanionCause::BadLine)),
    ),
    (
        "at 1 101 4000000\nnice 1 101 5",
        Some((6, CompanionCause::BadLine)),
    ),
    ("nice 0 0 20", BAD_LINE),
    ("idle 0 101", BAD_LINE),
];

#[test]
fn lines_that_version_one_has_no_shape_for(rt: HostRuntime) {
    wants(&rt, &misread(rt.alloc(), ONE, &OF_VERSION_TWO), &None);
}

static NICE_PLACES: [(&str, Refusal); 20] = [
    // at a claim's line, before the claim
    ("nice 1 101 5\nat 1 101 0", None),
    ("nice 1 101 5\npass 1 102 0", None),
    (
        "at 1 101 0\nnice 1 101 5",
        Some((6, CompanionCause::LineOrder)),
    ),
    (
        "pass 1 101 0\nnice 1 102 5",
        Some((6, CompanionCause::LineOrder)),
    ),
    (
        "nice 1 101 5\nat 1 101 0\nnice 1 102 5",
        Some((7, CompanionCause::LineOrder)),
    ),
    // one at a line
    (
        "nice 1 101 5\nnice 1 102 5",
        Some((6, CompanionCause::LineOrder)),
    ),
    (
        "nice 1 101 5\nnice 1 101 5",
        Some((6, CompanionCause::LineOrder)),
    ),
    ("nice 1 101 5\nnice 2 101 5", None),
    // one claim at a line still
    (
        "nice 1 101 5\nat 1 101 0\nat 1 101 0",
        Some((7, CompanionCause::LineOrder)),
    ),
    // lines rise
    (
        "nice 5 101 5\nnice 4 101 5",
        Some((6, CompanionCause::LineOrder)),
    ),
    (
        "nice 5 101 5\nat 4 101 0",
        Some((6, CompanionCause::LineOrder)),
    ),
    (
        "at 3 101 0\nnice 5 101 5\nat 4 101 0",
        Some((7, CompanionCause::LineOrder)),
    ),
    (
        "at 5 101 0\nnice 4 101 5",
        Some((6, CompanionCause::LineOrder)),
    ),
    (
        "nice 3 101 5\nat 5 101 0\nnice 4 101 5",
        Some((7, CompanionCause::LineOrder)),
    ),
    ("at 5 101 0\nnice 6 101 5\npass 7 101 0", None),
    // behind the tasks
    (
        "nice 1 101 5\ntask 101 0 0 run 0",
        Some((6, CompanionCause::Order)),
    ),
    ("nice 1 101 5\nfloor 0 0", Some((6, CompanionCause::Order))),
    (
        "nice 1 101 5\ncfs-companion 2",
        Some((6, CompanionCause::Order)),
    ),
    ("task 101 0 0 run 0\nnice 1 101 5", None),
    // a number out of its limits comes first
    (
        "at 5 101 0\nnice 5 0 5",
        Some((6, CompanionCause::NumberRange)),
    ),
];

#[test]
fn where_nice_lines_may_stand(rt: HostRuntime) {
    wants(&rt, &misread(rt.alloc(), TWO, &NICE_PLACES), &None);
}

static NICE_SHAPES: [(&str, Refusal); 15] = [
    ("nice", BAD_LINE),
    ("nice ", BAD_LINE),
    ("nice 1", BAD_LINE),
    ("nice 1 101", BAD_LINE),
    ("nice 1 101 ", BAD_LINE),
    ("nice 1 101 5 ", BAD_LINE),
    ("nice 1 101 5 5", BAD_LINE),
    ("nice  1 101 5", BAD_LINE),
    (" nice 1 101 5", BAD_LINE),
    ("nice 1 101 +5", BAD_LINE),
    ("nice 1 101 - 5", BAD_LINE),
    ("nice -1 101 5", BAD_LINE),
    ("nice 1 -101 5", BAD_LINE),
    ("nice 1 101 5.0", BAD_LINE),
    ("nices 1 101 5", BAD_LINE),
];

#[test]
fn nice_lines_that_have_no_shape(rt: HostRuntime) {
    wants(&rt, &misread(rt.alloc(), TWO, &NICE_SHAPES), &None);
}

static NICE_LIMITS: [(&str, Refusal); 18] = [
    ("nice 0 1 0", OUT_OF_RANGE),
    ("nice 1 1 0", None),
    ("nice 4294967295 1 0", None),
    ("nice 4294967296 1 0", OUT_OF_RANGE),
    ("nice 99999999999999999999999999 1 0", OUT_OF_RANGE),
    ("nice 00000000000000000000000001 1 0", None),
    ("nice 1 0 0", OUT_OF_RANGE),
    ("nice 1 4194304 0", None),
    ("nice 1 4194305 0", OUT_OF_RANGE),
    ("nice 1 99999999999999999999999999 0", OUT_OF_RANGE),
    ("nice 1 1 -21", OUT_OF_RANGE),
    ("nice 1 1 -20", None),
    ("nice 1 1 -0", None),
    ("nice 1 1 19", None),
    ("nice 1 1 20", OUT_OF_RANGE),
    ("nice 1 1 99999999999999999999999999", OUT_OF_RANGE),
    ("nice 1 1 -99999999999999999999999999", OUT_OF_RANGE),
    ("nice 1 1 00000000000000000000000019", None),
];

#[test]
fn both_sides_of_each_limit_of_a_nice_line(rt: HostRuntime) {
    wants(&rt, &misread(rt.alloc(), TWO, &NICE_LIMITS), &None);
}

static LIMITS: [(&str, Refusal); 25] = [
    ("task 0 0 0 rest 0", OUT_OF_RANGE),
    ("task 1 0 0 rest 0", None),
    ("task 4194304 0 0 rest 0", None),
    ("task 4194305 0 0 rest 0", OUT_OF_RANGE),
    ("task 1 -21 0 rest 0", OUT_OF_RANGE),
    ("task 1 -20 0 rest 0", None),
    ("task 1 19 0 rest 0", None),
    ("task 1 20 0 rest 0", OUT_OF_RANGE),
    ("task 1 0 1 rest 0", OUT_OF_RANGE),
    ("task 1 0 0 rest 4611686018427387904", None),
    ("task 1 0 0 rest 4611686018427387905", OUT_OF_RANGE),
    ("task 1 0 0 rest -4611686018427387904", None),
    ("task 1 0 0 rest -4611686018427387905", OUT_OF_RANGE),
    ("task 1 0 99999999999999999999999999 rest 0", OUT_OF_RANGE),
    ("task 1 0 00000000000000000000000000 rest 0", None),
    ("at 0 1 0", OUT_OF_RANGE),
    ("at 1 1 0", None),
    ("at 4294967295 1 0", None),
    ("at 4294967296 1 0", OUT_OF_RANGE),
    ("pass 1 0 0", OUT_OF_RANGE),
    ("pass 1 4194304 0", None),
    ("pass 1 4194305 0", OUT_OF_RANGE),
    ("pass 1 1 -4611686018427387905", OUT_OF_RANGE),
    ("pass 1 1 4611686018427387905", OUT_OF_RANGE),
    ("pass 1 1 99999999999999999999999999", OUT_OF_RANGE),
];

#[test]
fn both_sides_of_each_limit(rt: HostRuntime) {
    wants(&rt, &misread(rt.alloc(), ONE, &LIMITS), &None);
}

/// The lines up to the number of the floor of the only processor.
const FLOOR: &str = "cfs-companion 1\ncpus 1\nstart 0.000000\nfloor 0 ";

static FLOOR_LIMITS: [(&str, Refusal); 4] = [
    ("4611686018427387904", None),
    (
        "4611686018427387905",
        Some((4, CompanionCause::NumberRange)),
    ),
    ("-4611686018427387904", None),
    (
        "-4611686018427387905",
        Some((4, CompanionCause::NumberRange)),
    ),
];

#[test]
fn both_sides_of_the_limits_of_floors(rt: HostRuntime) {
    wants(&rt, &misread(rt.alloc(), FLOOR, &FLOOR_LIMITS), &None);
}
