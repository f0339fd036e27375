//! Least settings, as reports tell them: the drift among them where the companion is of version 3.

use crate::answers::wants_about;
use crate::ends::whole;
use crate::runs::{least_ran, least_ran_in_blocks};
use cfs_model::{Kind, Knobs};
use replay_model::FirstFault;
use sched_audit::{Cause, LeastFigures, Outcome, Place, Places, Source, Status, least_report};
use std::alloc::Global;
use std::test::Fail;

/// One processor: task 101 runs for 4 ms and is put back, and task 102 runs next.
const TRACE: &[u8] =
    b"            t101-101     [000] d..2.   100.004000: sched_switch: prev_comm=t101 prev_pid=101 prev_prio=120 prev_state=R+ ==> next_comm=t102 next_pid=102 next_prio=120\n";

/// Its companions, by their versions, exact and with a told charge.
const FIRST: &[u8] =
    b"cfs-companion 1\ncpus 1\nstart 100.000000\nfloor 0 0\ntask 101 0 0 run 0\ntask 102 0 0 wait 0\nat 1 101 4000000\n";

const SECOND: &[u8] =
    b"cfs-companion 2\ncpus 1\nstart 100.000000\nfloor 0 0\ntask 101 0 0 run 0\ntask 102 0 0 wait 0\nat 1 101 4000000\n";

const THIRD: &[u8] =
    b"cfs-companion 3\ncpus 1\nstart 100.000000\nfloor 0 0\ntask 101 0 0 run 0\ntask 102 0 0 wait 0\nat 1 101 4000000\n";

const THIRD_BEHIND_COMMENTS: &[u8] =
    b"# cfs-companion 2\n\ncfs-companion 3\ncpus 1\nstart 100.000000\nfloor 0 0\ntask 101 0 0 run 0\ntask 102 0 0 wait 0\nat 1 101 4000000\n";

const TOLD_LESS: &[u8] =
    b"cfs-companion 3\ncpus 1\nstart 100.000000\nfloor 0 0\ntask 101 0 0 run 0\ntask 102 0 0 wait 0\ncharge 1 101 3999000\nat 1 101 3999000\n";

const TOLD_MORE: &[u8] =
    b"cfs-companion 3\ncpus 1\nstart 100.000000\nfloor 0 0\ntask 101 0 0 run 0\ntask 102 0 0 wait 0\ncharge 1 101 4000700\nat 1 101 4000700\n";

const TOLD_OF_ANOTHER: &[u8] =
    b"cfs-companion 3\ncpus 1\nstart 100.000000\nfloor 0 0\ntask 101 0 0 run 0\ntask 102 0 0 wait 0\ncharge 1 102 0\nat 1 101 4000000\n";

const TOLD_IN_THE_SECOND: &[u8] =
    b"cfs-companion 2\ncpus 1\nstart 100.000000\nfloor 0 0\ntask 101 0 0 run 0\ntask 102 0 0 wait 0\ncharge 1 101 4000000\nat 1 101 4000000\n";

static REPORTS: [(&[u8], Status, &str); 8] = [
    (
        FIRST,
        Status::Yes,
        "least granularity-ns 0\nleast credit-ns 0\nleast debit-ns 0\nleast slack-ns 0\n",
    ),
    (
        SECOND,
        Status::Yes,
        "least granularity-ns 0\nleast credit-ns 0\nleast debit-ns 0\nleast slack-ns 0\n",
    ),
    (
        THIRD,
        Status::Yes,
        "least granularity-ns 0\nleast credit-ns 0\nleast debit-ns 0\nleast slack-ns 0\nleast drift-ns 0\n",
    ),
    (
        THIRD_BEHIND_COMMENTS,
        Status::Yes,
        "least granularity-ns 0\nleast credit-ns 0\nleast debit-ns 0\nleast slack-ns 0\nleast drift-ns 0\n",
    ),
    (
        TOLD_LESS,
        Status::Yes,
        "least granularity-ns 0\nleast credit-ns 0\nleast debit-ns 0\nleast slack-ns 0\nleast drift-ns 1000 line 1 time 100.004000000 cpu 0 pid 101\n",
    ),
    (
        TOLD_MORE,
        Status::Yes,
        "least granularity-ns 0\nleast credit-ns 0\nleast debit-ns 0\nleast slack-ns 0\nleast drift-ns 700 line 1 time 100.004000000 cpu 0 pid 101\n",
    ),
    (
        TOLD_OF_ANOTHER,
        Status::No,
        "fault line 1 cpu 0 pid 102 WrongCharge: charged beyond the drift\n",
    ),
    (
        TOLD_IN_THE_SECOND,
        Status::Refused,
        "refused companion line 7 BadLine\n",
    ),
];

#[test]
fn the_drift_is_told_where_the_companion_is_of_version_3(rt: HostRuntime) {
    for (companion, status, report) in &REPORTS {
        let (answer, written) = least_ran(&rt, rt.alloc(), whole(TRACE), whole(companion));
        wants_about(&rt, report, &answer, &Ok(*status));
        wants_about(&rt, report, &written.as_slice(), &report.as_bytes());
    }
}

/// How many bytes a read asks for, and how many events a window has.
static SIZES: [(u32, usize); 4] = [(1, 1), (7, 2), (100, 7), (65536, 4096)];

#[test]
fn blocks_and_windows_of_any_size_tell_the_same_least_settings(rt: HostRuntime) {
    for (companion, status, report) in &REPORTS {
        for sizes in &SIZES {
            let ends = (whole(TRACE), whole(companion));
            let (answer, written) = least_ran_in_blocks(&rt, rt.alloc(), ends.0, ends.1, *sizes);
            wants_about(&rt, report, &answer, &Ok(*status));
            wants_about(&rt, report, &written.as_slice(), &report.as_bytes());
        }
    }
}

/// Places of some figures, of times with zeros in front and behind.
static PLACES: Places = Places {
    granularity: Some(Place {
        line: 4_294_967_295,
        time: 18_446_744_073_709_551_615,
        cpu: 63,
        pid: 4_194_304,
        over: Some(4_194_303),
    }),
    credit: None,
    debit: Some(Place {
        line: 1,
        time: 0,
        cpu: 0,
        pid: 7,
        over: None,
    }),
    slack: Some(Place {
        line: 20,
        time: 12_000_000_340,
        cpu: 9,
        pid: 0,
        over: None,
    }),
    drift: Some(Place {
        line: 3,
        time: 999_999_999,
        cpu: 1,
        pid: 1,
        over: None,
    }),
};

/// The report of these least settings.
fn report_of_found(alloc: Global, tells_charges: bool) -> Result<Vec<u8>, Fail> {
    let knobs = Knobs::new(1_000_000_000_000, 1, 20, 300, 4000).ok_or("settings in range")?;
    let outcome = Outcome::Judged(LeastFigures::Found {
        knobs,
        places: PLACES,
    });
    Ok(least_report(alloc, &outcome, tells_charges)?)
}

/// The report of a fault at all settings.
fn report_of_fault(alloc: Global, tells_charges: bool) -> Result<Vec<u8>, Fail> {
    let fault = FirstFault {
        line: 9,
        cpu: 1,
        pid: 103,
        kind: Kind::WrongCharge,
    };
    let outcome = Outcome::Judged(LeastFigures::Fault(fault));
    Ok(least_report(alloc, &outcome, tells_charges)?)
}

/// The report of a refusal.
fn report_of_refusal(alloc: Global, tells_charges: bool) -> Result<Vec<u8>, Fail> {
    let outcome = Outcome::Text {
        source: Source::Join,
        line: 4,
        cause: Cause::ClaimNoEvent,
    };
    Ok(least_report(alloc, &outcome, tells_charges)?)
}

#[test]
fn each_setting_has_its_line(rt: HostRuntime) -> Result<(), Fail> {
    for (tells_charges, report) in [
        (
            false,
            "least granularity-ns 1000000000000 line 4294967295 time 18446744073.709551615 cpu 63 pid 4194304 over 4194303\nleast credit-ns 1\nleast debit-ns 20 line 1 time 0.000000000 cpu 0 pid 7\nleast slack-ns 300 line 20 time 12.000000340 cpu 9 pid 0\n",
        ),
        (
            true,
            "least granularity-ns 1000000000000 line 4294967295 time 18446744073.709551615 cpu 63 pid 4194304 over 4194303\nleast credit-ns 1\nleast debit-ns 20 line 1 time 0.000000000 cpu 0 pid 7\nleast slack-ns 300 line 20 time 12.000000340 cpu 9 pid 0\nleast drift-ns 4000 line 3 time 0.999999999 cpu 1 pid 1\n",
        ),
    ] {
        let text = report_of_found(rt.alloc(), tells_charges)?;
        wants_about(&rt, report, &text.as_slice(), &report.as_bytes());
        let text = report_of_fault(rt.alloc(), tells_charges)?;
        let fault = "fault line 9 cpu 1 pid 103 WrongCharge: charged beyond the drift\n";
        wants_about(&rt, fault, &text.as_slice(), &fault.as_bytes());
        let text = report_of_refusal(rt.alloc(), tells_charges)?;
        let refusal = "refused join line 4 ClaimNoEvent\n";
        wants_about(&rt, refusal, &text.as_slice(), &refusal.as_bytes());
    }
    Ok(())
}
