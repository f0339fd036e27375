use crate::answers::wants;
use crate::companions::{BAD_LINE, ONE, OUT_OF_RANGE, Refusal, TWO, misread};
use cfs_model::ChargeLine;
use companion_file::{Companion, CompanionCause, read_companion, version_of_text};
use std::alloc::Global;

/// The lines up to the floor of the only processor, in version 3.
const THREE: &str = "cfs-companion 3\ncpus 1\nstart 100.000000\nfloor 0 0\n";

/// All three sorts of lines that name a line of the trace, two at one line, and numbers at their limits.
const CHARGED: &[u8] =
    b"cfs-companion 3\ncpus 1\nstart 100.000000\nfloor 0 0\ntask 101 0 0 run 0\ntask 102 0 0 wait 0\nidle 0 102\ncharge 1 101 3999000\nnice 1 101 5\nat 1 101 3999000\n# a\ncharge 002 1 -0\npass 2 102 7\nnice 3 101 0\ncharge 4 4194304 -4611686018427387904\ncharge 4294967295 101 4611686018427387904";

/// How many changes of nice values, idle lines and claims a companion has, and the charges that it tells.
type Charges<'a> = (usize, usize, usize, &'a [ChargeLine]);

fn charges_of(companion: &Companion) -> Charges<'_> {
    (
        companion.nices().len(),
        companion.idles().len(),
        companion.claims().len(),
        companion.charges(),
    )
}

/// Whether a text's companion tells this.
fn tells(alloc: Global, text: &[u8], wanted: Charges<'_>) -> bool {
    match read_companion(alloc, text) {
        Ok(companion) => charges_of(&companion) == wanted,
        Err(_) => false,
    }
}

#[test]
fn charges_among_changes_and_claims(rt: HostRuntime) {
    let charges = [
        (1, 101, 3_999_000),
        (2, 1, 0),
        (4, 4_194_304, -4_611_686_018_427_387_904),
        (4_294_967_295, 101, 4_611_686_018_427_387_904),
    ]
    .map(|(line, pid, v)| ChargeLine { line, pid, v });
    wants(&rt, &tells(rt.alloc(), CHARGED, (2, 1, 2, &charges)), &true);
}

/// Texts of each version without a `charge` line.
const UNCHARGED: [&[u8]; 3] = [
    b"cfs-companion 1\ncpus 1\nstart 100.000000\nfloor 0 0\ntask 101 0 0 run 0\nat 1 101 400\n",
    b"cfs-companion 2\ncpus 1\nstart 100.000000\nfloor 0 0\ntask 101 0 0 run 0\nat 1 101 400\n",
    b"cfs-companion 3\ncpus 1\nstart 100.000000\nfloor 0 0\ntask 101 0 0 run 0\nat 1 101 400\n",
];

#[test]
fn texts_without_a_charge_line_tell_none(rt: HostRuntime) {
    for text in UNCHARGED {
        wants(&rt, &tells(rt.alloc(), text, (0, 0, 1, &[])), &true);
    }
}

/// Texts, and the version that each names, if it names one that is known.
static VERSIONS: [(&[u8], Option<u32>); 6] = [
    (b"cfs-companion 1\ncpus 1\n", Some(1)),
    (b"# cfs-companion 1\n\ncfs-companion 2\n", Some(2)),
    (b"cfs-companion 3", Some(3)),
    (b"cfs-companion 4\ncfs-companion 3\n", None),
    (b"cpus 1\ncfs-companion 3\n", None),
    (b"# a\n", None),
];

#[test]
fn the_first_line_names_the_version(rt: HostRuntime) {
    for (text, version) in VERSIONS {
        wants(&rt, &version_of_text(text), &version);
    }
}

static EARLIER: [(&str, Refusal); 4] = [
    ("charge 1 101 0", BAD_LINE),
    (
        "task 101 0 0 run 0\ncharge 1 101 4000000\nat 1 101 4000000",
        Some((6, CompanionCause::BadLine)),
    ),
    (
        "at 1 101 4000000\ncharge 1 101 4000000",
        Some((6, CompanionCause::BadLine)),
    ),
    ("charge 0 0 0", BAD_LINE),
];

#[test]
fn versions_one_and_two_have_no_charge_lines(rt: HostRuntime) {
    for front in [ONE, TWO] {
        wants(&rt, &misread(rt.alloc(), front, &EARLIER), &None);
    }
}

static OF_VERSION_TWO: [(&str, Refusal); 3] = [
    ("nice 1 101 5\nat 1 101 0", None),
    ("idle 1 101\nnice 1 101 5", None),
    (
        "at 1 101 0\nnice 1 101 5",
        Some((6, CompanionCause::LineOrder)),
    ),
];

#[test]
fn version_three_has_the_lines_of_version_two(rt: HostRuntime) {
    for front in [TWO, THREE] {
        wants(&rt, &misread(rt.alloc(), front, &OF_VERSION_TWO), &None);
    }
}

static PLACES: [(&str, Refusal); 33] = [
    // at one line the charge stands first, then the change, then the claim
    ("charge 1 101 0\nat 1 101 0", None),
    ("charge 1 101 0\npass 1 102 0", None),
    ("charge 1 101 0\nnice 1 102 5", None),
    ("charge 1 101 0\nnice 1 102 5\nat 1 101 0", None),
    (
        "at 1 101 0\ncharge 1 101 0",
        Some((6, CompanionCause::LineOrder)),
    ),
    (
        "pass 1 101 0\ncharge 1 102 0",
        Some((6, CompanionCause::LineOrder)),
    ),
    (
        "nice 1 102 5\ncharge 1 101 0",
        Some((6, CompanionCause::LineOrder)),
    ),
    (
        "nice 1 102 5\nat 1 101 0\ncharge 1 101 0",
        Some((7, CompanionCause::LineOrder)),
    ),
    (
        "charge 1 101 0\nat 1 101 0\nnice 1 102 5",
        Some((7, CompanionCause::LineOrder)),
    ),
    // one at a line
    (
        "charge 1 101 0\ncharge 1 102 0",
        Some((6, CompanionCause::LineOrder)),
    ),
    (
        "charge 1 101 0\nnice 1 102 5\ncharge 1 101 0",
        Some((7, CompanionCause::LineOrder)),
    ),
    (
        "charge 1 101 0\nnice 1 102 5\nnice 1 102 5",
        Some((7, CompanionCause::LineOrder)),
    ),
    (
        "charge 1 101 0\nat 1 101 0\nat 1 101 0",
        Some((7, CompanionCause::LineOrder)),
    ),
    ("charge 1 101 0\ncharge 2 101 0", None),
    // lines rise
    (
        "charge 5 101 0\ncharge 4 101 0",
        Some((6, CompanionCause::LineOrder)),
    ),
    (
        "charge 5 101 0\nnice 4 101 5",
        Some((6, CompanionCause::LineOrder)),
    ),
    (
        "charge 5 101 0\nat 4 101 0",
        Some((6, CompanionCause::LineOrder)),
    ),
    (
        "charge 5 101 0\npass 4 101 0",
        Some((6, CompanionCause::LineOrder)),
    ),
    (
        "at 5 101 0\ncharge 4 101 0",
        Some((6, CompanionCause::LineOrder)),
    ),
    (
        "nice 5 101 5\ncharge 4 101 0",
        Some((6, CompanionCause::LineOrder)),
    ),
    (
        "at 3 101 0\ncharge 5 101 0\nnice 4 101 5",
        Some((7, CompanionCause::LineOrder)),
    ),
    (
        "charge 3 101 0\nat 5 101 0\ncharge 4 101 0",
        Some((7, CompanionCause::LineOrder)),
    ),
    (
        "at 5 101 0\ncharge 6 101 0\nnice 7 101 5\npass 8 101 0",
        None,
    ),
    // behind the tasks and the idle lines
    ("task 101 0 0 run 0\nidle 0 101\ncharge 1 101 0", None),
    (
        "charge 1 101 0\ntask 101 0 0 run 0",
        Some((6, CompanionCause::Order)),
    ),
    (
        "charge 1 101 0\nidle 1 101",
        Some((6, CompanionCause::Order)),
    ),
    (
        "charge 1 101 0\nfloor 0 0",
        Some((6, CompanionCause::Order)),
    ),
    ("charge 1 101 0\ncpus 1", Some((6, CompanionCause::Order))),
    (
        "charge 1 101 0\ncfs-companion 3",
        Some((6, CompanionCause::Order)),
    ),
    // the order of the tests
    (
        "at 5 101 0\ncharge 5 0 0",
        Some((6, CompanionCause::NumberRange)),
    ),
    (
        "charge 5 101 0\nat 4 0 0",
        Some((6, CompanionCause::NumberRange)),
    ),
    (
        "charge 1 101 0\ntask 0 0 0 run 0",
        Some((6, CompanionCause::Order)),
    ),
    (
        "charge 1 101 0\nidle 0 102",
        Some((6, CompanionCause::Order)),
    ),
];

#[test]
fn where_charge_lines_may_stand(rt: HostRuntime) {
    wants(&rt, &misread(rt.alloc(), THREE, &PLACES), &None);
}

static TOO_EARLY: [(&str, Refusal); 4] = [
    (
        "cfs-companion 3\ncharge 1 101 0",
        Some((2, CompanionCause::Order)),
    ),
    (
        "cfs-companion 3\ncpus 1\ncharge 1 101 0",
        Some((3, CompanionCause::Order)),
    ),
    (
        "cfs-companion 3\ncpus 1\nstart 100.000000\ncharge 1 101 0",
        Some((4, CompanionCause::Order)),
    ),
    (
        "cfs-companion 3\ncpus 2\nstart 100.000000\nfloor 0 0\ncharge 1 101 0",
        Some((5, CompanionCause::Order)),
    ),
];

#[test]
fn charge_lines_before_the_last_floor(rt: HostRuntime) {
    wants(&rt, &misread(rt.alloc(), "", &TOO_EARLY), &None);
}

static SHAPES: [(&str, Refusal); 16] = [
    ("charge", BAD_LINE),
    ("charge ", BAD_LINE),
    ("charge 1", BAD_LINE),
    ("charge 1 101", BAD_LINE),
    ("charge 1 101 ", BAD_LINE),
    ("charge 1 101 0 ", BAD_LINE),
    ("charge 1 101 0 0", BAD_LINE),
    ("charge  1 101 0", BAD_LINE),
    (" charge 1 101 0", BAD_LINE),
    ("charge 1 101 +0", BAD_LINE),
    ("charge 1 101 - 0", BAD_LINE),
    ("charge -1 101 0", BAD_LINE),
    ("charge 1 -101 0", BAD_LINE),
    ("charge 1 101 0.0", BAD_LINE),
    ("charges 1 101 0", BAD_LINE),
    ("charge\t1 101 0", BAD_LINE),
];

#[test]
fn charge_lines_that_have_no_shape(rt: HostRuntime) {
    wants(&rt, &misread(rt.alloc(), THREE, &SHAPES), &None);
}

static LIMITS: [(&str, Refusal); 17] = [
    ("charge 0 1 0", OUT_OF_RANGE),
    ("charge 1 1 0", None),
    ("charge 4294967295 1 0", None),
    ("charge 4294967296 1 0", OUT_OF_RANGE),
    ("charge 99999999999999999999999999 1 0", OUT_OF_RANGE),
    ("charge 00000000000000000000000001 1 0", None),
    ("charge 1 0 0", OUT_OF_RANGE),
    ("charge 1 4194304 0", None),
    ("charge 1 4194305 0", OUT_OF_RANGE),
    ("charge 1 99999999999999999999999999 0", OUT_OF_RANGE),
    ("charge 1 1 -0", None),
    ("charge 1 1 4611686018427387904", None),
    ("charge 1 1 4611686018427387905", OUT_OF_RANGE),
    ("charge 1 1 -4611686018427387904", None),
    ("charge 1 1 -4611686018427387905", OUT_OF_RANGE),
    ("charge 1 1 99999999999999999999999999", OUT_OF_RANGE),
    ("charge 1 1 -99999999999999999999999999", OUT_OF_RANGE),
];

#[test]
fn both_sides_of_each_limit_of_a_charge_line(rt: HostRuntime) {
    wants(&rt, &misread(rt.alloc(), THREE, &LIMITS), &None);
}
