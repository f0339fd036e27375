//! Runs for which both inputs are read at once, in blocks and windows of some sizes: these change no answer.

use crate::answers::wants_about;
use crate::ends::{Pieces, whole};
use crate::runs::ran_in_blocks;
use sched_audit::{Fault, Status};
use std::alloc::Global;
use std::io::ErrorKind;
use std::process::Abort;
use std::test::Fail;
use std::thread::Threads;

/// Two processors: behind a comment, task 101 runs for 4 ms and is put back, and task 201 does the same elsewhere.
const TRACE: &[u8] =
    b"# a comment\n            t101-101     [000] d..2.   100.004000: sched_switch: prev_comm=t101 prev_pid=101 prev_prio=120 prev_state=R+ ==> next_comm=t102 next_pid=102 next_prio=120\n            t201-201     [001] d..2.   100.004000: sched_switch: prev_comm=t201 prev_pid=201 prev_prio=120 prev_state=R+ ==> next_comm=t202 next_pid=202 next_prio=120\n";

/// The comment and the first event of it, with a line between them that no trace has.
const CUT_TRACE: &[u8] =
    b"# a comment\nhello\n            t101-101     [000] d..2.   100.004000: sched_switch: prev_comm=t101 prev_pid=101 prev_prio=120 prev_state=R+ ==> next_comm=t102 next_pid=102 next_prio=120\n";

const START: &[u8] =
    b"cfs-companion 1\ncpus 2\nstart 100.000000\nfloor 0 0\nfloor 1 0\ntask 101 0 0 run 0\ntask 102 0 0 wait 0\ntask 201 0 1 run 0\ntask 202 0 1 wait 0\n";

/// How many bytes a read asks for, and how many events a window has.
static SIZES: [(u32, usize); 7] = [
    (1, 1),
    (2, 3),
    (7, 2),
    (100, 1),
    (1000, 7),
    (65536, 1),
    (65536, 4096),
];

/// A trace, the claims of its companion, and what is answered and reported of them.
struct Row {
    trace: &'static [u8],
    claims: &'static [u8],
    status: Status,
    report: &'static str,
}

static ROWS: [Row; 7] = [
    Row {
        trace: TRACE,
        claims: b"at 2 101 4000000\nat 3 201 4000000\n",
        status: Status::Yes,
        report: "run\nevents 2\nswitches 2\nmigrations 0\nbirths 0\ndeaths 0\ntask 101 ran 4000000 charged 4000000 picks 0\ntask 102 ran 0 charged 0 picks 1\ntask 201 ran 4000000 charged 4000000 picks 0\ntask 202 ran 0 charged 0 picks 1\n",
    },
    Row {
        trace: TRACE,
        claims: b"at 2 101 4000000\nat 3 201 4000001\n",
        status: Status::No,
        report: "fault line 3 cpu 1 pid 201 WrongPutBack: put back at another value\n",
    },
    Row {
        trace: TRACE,
        claims: b"at 2 101 4000001\nat 3 201 4000001\n",
        status: Status::No,
        report: "fault line 2 cpu 0 pid 101 WrongPutBack: put back at another value\n",
    },
    Row {
        trace: TRACE,
        claims: b"at 1 101 4000000\nat 2 101 4000001\n",
        status: Status::Refused,
        report: "refused join line 1 ClaimNoEvent\n",
    },
    Row {
        trace: TRACE,
        claims: b"at 2 101 4000001\nat 4 101 4000000\n",
        status: Status::Refused,
        report: "refused join line 4 ClaimNoEvent\n",
    },
    Row {
        trace: TRACE,
        claims: b"at 2 101 4000001\nhello\n",
        status: Status::Refused,
        report: "refused companion line 11 BadLine\n",
    },
    Row {
        trace: CUT_TRACE,
        claims: b"hello\n",
        status: Status::Refused,
        report: "refused trace line 2 BadHead\n",
    },
];

/// The companion with these claims.
fn companion_of(alloc: Global, claims: &[u8]) -> Result<Vec<u8>, Fail> {
    let mut text = Vec::new(alloc);
    text.extend_from_slice(START)?;
    text.extend_from_slice(claims)?;
    Ok(text)
}

/// Ends the test where something else is answered or reported of a row, in blocks and windows of some size.
fn wants_row<R: Abort + Threads + Sync>(rt: &R, alloc: Global, row: &Row) -> Result<(), Fail> {
    let companion = companion_of(alloc, row.claims)?;
    for sizes in &SIZES {
        let ends = (whole(row.trace), whole(&companion));
        let (status, report) = ran_in_blocks(rt, alloc, ends.0, ends.1, *sizes);
        wants_about(rt, row.report, &status, &Ok(row.status));
        wants_about(rt, row.report, &report.as_slice(), &row.report.as_bytes());
    }
    Ok(())
}

#[test]
fn blocks_and_windows_of_any_size_report_the_same(rt: HostRuntime) -> Result<(), Fail> {
    for row in &ROWS {
        wants_row(&rt, rt.alloc(), row)?;
    }
    Ok(())
}

/// What is answered where the trace fails at one read and the companion at another, from 1 (0 for none), and how many
/// bytes were written.
fn answer_of_failing<R: Threads + Sync>(
    rt: &R,
    alloc: Global,
    fails_at: (u64, u64),
    sizes: (u32, usize),
) -> (Option<Fault>, usize) {
    let trace = Pieces::new(TRACE, usize::MAX, fails_at.0, ErrorKind::Other);
    let companion = Pieces::new(START, usize::MAX, fails_at.1, ErrorKind::Other);
    let (status, written) = ran_in_blocks(rt, alloc, trace, companion, sizes);
    (status.err(), written.len())
}

#[test]
fn a_fault_of_the_trace_is_told_before_one_of_the_companion(rt: HostRuntime) {
    for (fails_at, fault) in [
        ((1, 0), Fault::ReadTrace),
        ((3, 0), Fault::ReadTrace),
        ((0, 1), Fault::ReadCompanion),
        ((0, 2), Fault::ReadCompanion),
        ((1, 1), Fault::ReadTrace),
        ((3, 1), Fault::ReadTrace),
        ((3, 2), Fault::ReadTrace),
    ] {
        for block in [40, 100] {
            let answer = answer_of_failing(&rt, rt.alloc(), fails_at, (block, 1));
            wants_about(&rt, "faults", &answer, &(Some(fault), 0));
        }
    }
}
