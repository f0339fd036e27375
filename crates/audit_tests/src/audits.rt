//! What no clause says: the words of refusals, reports as they are printed, and ends that fail.

use crate::answers::wants_about;
use crate::ends::{Failing, Pieces, Room, ample, in_pieces, room_by, whole};
use crate::runs::wants_run;
use cfs_model::{Kind, Knobs};
use queue_replay::Tallies;
use replay_model::{FirstFault, Tally};
use sched_audit::{
    Cause, Fault, Feed, FeedOf, OpenGate, Outcome, Refused, Source, Status, Summary, Verdict,
    audit_texts, report,
};
use std::alloc::{AllocError, Global};
use std::io::ErrorKind;
use std::sync::Wait;
use std::test::Fail;
use std::thread::Threads;

/// One processor: task 101 runs for 4 ms and is put back, and task 102 runs next.
const TRACE: &[u8] =
    b"            t101-101     [000] d..2.   100.004000: sched_switch: prev_comm=t101 prev_pid=101 prev_prio=120 prev_state=R+ ==> next_comm=t102 next_pid=102 next_prio=120\n";

const COMPANION: &[u8] =
    b"cfs-companion 1\ncpus 1\nstart 100.000000\nfloor 0 0\ntask 101 0 0 run 0\ntask 102 0 0 wait 0\nat 1 101 4000000\n";

const REPORT: &[u8] =
    b"run\nevents 1\nswitches 1\nmigrations 0\nbirths 0\ndeaths 0\ntask 101 ran 4000000 charged 4000000 picks 0\ntask 102 ran 0 charged 0 picks 1\n";

/// One processor that idles from the start on, while task 102 waits.
const WAITING: &[u8] =
    b"cfs-companion 1\ncpus 1\nstart 100.000000\nfloor 0 0\ntask 102 0 0 wait 0\n";

/// What is reported of the next trace.
const REPORT_AT_SLACK: &str =
    "run\nevents 1\nswitches 1\nmigrations 0\nbirths 0\ndeaths 0\ntask 102 ran 0 charged 0 picks 1\n";

/// Task 102 runs after 0.1 ms of that, behind a comment and an empty line, and without a line feed.
const COMMENTED: &[u8] =
    b"# tracer: nop\n\n          <idle>-0       [000] d..2.   100.000100: sched_switch: prev_comm=swapper/0 prev_pid=0 prev_prio=120 prev_state=R ==> next_comm=t102 next_pid=102 next_prio=120";

/// A bad line before a good one.
const HELLO: &[u8] =
    b"hello\n          <idle>-0       [000] d..2.   100.000100: sched_switch: prev_comm=swapper/0 prev_pid=0 prev_prio=120 prev_state=R ==> next_comm=t102 next_pid=102 next_prio=120\n";

/// The words of a refusal.
fn words_of(alloc: Global, refused: Refused) -> Result<String, Fail> {
    Ok(refused.to_string(alloc)?)
}

#[test]
fn refusals_are_told_in_words(rt: HostRuntime) -> Result<(), Fail> {
    let refused = Refused::Text {
        source: Source::Trace,
        line: 1,
        cause: Cause::BadHead,
    };
    for (refused, words) in [
        (refused, "trace line 1: BadHead"),
        (Refused::Memory, "out of memory"),
    ] {
        wants_about(&rt, "", &words_of(rt.alloc(), refused)?.as_str(), &words);
    }
    Ok(())
}

/// A summary with the greatest numbers.
pub fn busy(alloc: Global) -> Result<Summary, AllocError> {
    let mut tallies = Vec::new(alloc);
    tallies.push(Tally {
        pid: 4_194_304,
        ran: u128::MAX,
        charged: 5,
        picks: u64::MAX,
    })?;
    tallies.push(Tally {
        pid: 1,
        ran: 0,
        charged: 0,
        picks: 6,
    })?;
    Ok(Summary {
        events: u64::MAX,
        switches: 1,
        migrations: 2,
        births: 3,
        deaths: 4,
        tallies: Tallies::from_vec(tallies),
    })
}

/// The report of a run with that summary.
fn report_of_run(alloc: Global) -> Result<Vec<u8>, Fail> {
    let verdict = Verdict::Run(busy(alloc)?);
    Ok(report(alloc, &Outcome::Judged(verdict))?)
}

/// The report of a fault at a line.
fn report_of_fault(alloc: Global, line: u32) -> Result<Vec<u8>, Fail> {
    let verdict = Verdict::Fault(FirstFault {
        line,
        cpu: 63,
        pid: 201,
        kind: Kind::PrevNotRunning,
    });
    Ok(report(alloc, &Outcome::Judged(verdict))?)
}

/// The report of a refusal.
fn report_of_refusal(
    alloc: Global,
    source: Source,
    line: u64,
    cause: Cause,
) -> Result<Vec<u8>, Fail> {
    let outcome = Outcome::Text {
        source,
        line,
        cause,
    };
    Ok(report(alloc, &outcome)?)
}

#[test]
fn reports_are_lines(rt: HostRuntime) -> Result<(), Fail> {
    wants_about(
        &rt,
        "a run",
        &report_of_run(rt.alloc())?.as_slice(),
        &b"run\nevents 18446744073709551615\nswitches 1\nmigrations 2\nbirths 3\ndeaths 4\ntask 4194304 ran 340282366920938463463374607431768211455 charged 5 picks 18446744073709551615\ntask 1 ran 0 charged 0 picks 6\n".as_slice(),
    );
    for (line, text) in [
        (
            4,
            "fault line 4 cpu 63 pid 201 PrevNotRunning: previous task is not the running one\n",
        ),
        (
            4294967295,
            "fault line 4294967295 cpu 63 pid 201 PrevNotRunning: previous task is not the running one\n",
        ),
    ] {
        let report = report_of_fault(rt.alloc(), line)?;
        wants_about(&rt, text, &report.as_slice(), &text.as_bytes());
    }
    for (source, line, cause, text) in [
        (
            Source::Trace,
            1,
            Cause::BadHead,
            "refused trace line 1 BadHead\n",
        ),
        (
            Source::Companion,
            10,
            Cause::TwiceRunning,
            "refused companion line 10 TwiceRunning\n",
        ),
        (
            Source::Join,
            18446744073709551615,
            Cause::ClaimNoEvent,
            "refused join line 18446744073709551615 ClaimNoEvent\n",
        ),
    ] {
        let report = report_of_refusal(rt.alloc(), source, line, cause)?;
        wants_about(&rt, text, &report.as_slice(), &text.as_bytes());
    }
    Ok(())
}

/// Whether the audit of two texts comes to a run.
fn is_run<R: Threads + Wait + Sync>(rt: &R, alloc: Global, trace: &[u8], companion: &[u8]) -> bool {
    let knobs = Knobs::standard();
    let verdict = audit_texts(rt, alloc, trace, companion, knobs, &OpenGate);
    matches!(verdict, Ok(Verdict::Run(_)))
}

#[test]
fn a_run_is_judged_and_reported(rt: HostRuntime) {
    assert!(rt; is_run(&rt, rt.alloc(), TRACE, COMPANION));
    let ends = (whole(TRACE), whole(COMPANION), ample());
    let _calls = wants_run(&rt, rt.alloc(), ends, Ok(Status::Yes), REPORT);
}

#[test]
fn inputs_may_come_byte_by_byte(rt: HostRuntime) {
    let ends = (in_pieces(TRACE, 1), in_pieces(COMPANION, 1), ample());
    let _calls = wants_run(&rt, rt.alloc(), ends, Ok(Status::Yes), REPORT);
}

#[test]
fn a_report_may_be_taken_byte_by_byte(rt: HostRuntime) {
    let ends = (whole(TRACE), whole(COMPANION), room_by(1));
    let calls = wants_run(&rt, rt.alloc(), ends, Ok(Status::Yes), REPORT);
    assert_eq!(rt; calls, [2, 2, REPORT.len() as u64]);
}

#[test]
fn lines_may_be_cut_anywhere(rt: HostRuntime) {
    for piece in 1..COMMENTED.len() + 1 {
        for (trace, status, text) in [
            (COMMENTED, Status::Yes, REPORT_AT_SLACK),
            (HELLO, Status::Refused, "refused trace line 1 BadHead\n"),
        ] {
            let ends = (in_pieces(trace, piece), whole(WAITING), ample());
            let _calls = wants_run(&rt, rt.alloc(), ends, Ok(status), text.as_bytes());
        }
    }
}

/// The one switch behind a comment of 200,000 bytes.
fn behind_long_comment(alloc: Global) -> Result<Vec<u8>, Fail> {
    let mut trace = Vec::new(alloc);
    trace.resize(200_000, b'#')?;
    trace.push(b'\n')?;
    trace.extend_from_slice(TRACE)?;
    Ok(trace)
}

#[test]
fn a_line_may_be_longer_than_a_read(rt: HostRuntime) -> Result<(), Fail> {
    let trace = behind_long_comment(rt.alloc())?;
    // The switch now stands on line 2, where the companion claims line 1; and task 102 waits for 4 ms before it.
    for (companion, status, text) in [
        (
            COMPANION,
            Status::Refused,
            "refused join line 1 ClaimNoEvent\n",
        ),
        (
            WAITING,
            Status::No,
            "fault line 2 cpu 0 pid 0 IdleTooLong: idle beside a waiting task\n",
        ),
    ] {
        let ends = (whole(&trace), whole(companion), ample());
        let _calls = wants_run(&rt, rt.alloc(), ends, Ok(status), text.as_bytes());
    }
    Ok(())
}

#[test]
fn a_failed_read_of_the_trace_ends_the_run_with_nothing_written(rt: HostRuntime) {
    // By one call for each piece and one for the end. A bad line before the failure changes nothing.
    for (trace, piece, calls, kind) in [
        (TRACE, 1, TRACE.len() as u64 + 1, ErrorKind::Interrupted),
        (TRACE, usize::MAX, 2, ErrorKind::Other),
        (HELLO, 1, HELLO.len() as u64 + 1, ErrorKind::Interrupted),
    ] {
        for call in 1..=calls {
            let trace = Pieces::new(trace, piece, call, kind);
            let ends = (trace, whole(COMPANION), ample());
            let made = wants_run(&rt, rt.alloc(), ends, Err(Fault::ReadTrace), b"");
            assert_eq!(rt; made, [call, 0, 0]);
        }
    }
}

#[test]
fn a_failed_read_of_the_companion_ends_the_run_with_nothing_written(rt: HostRuntime) {
    for (piece, calls, kind) in [
        (1, COMPANION.len() as u64 + 1, ErrorKind::Interrupted),
        (usize::MAX, 2, ErrorKind::Other),
    ] {
        for call in 1..=calls {
            let companion = Pieces::new(COMPANION, piece, call, kind);
            let ends = (whole(TRACE), companion, ample());
            let made = wants_run(&rt, rt.alloc(), ends, Err(Fault::ReadCompanion), b"");
            assert_eq!(rt; made, [2, call, 0]);
        }
    }
}

#[test]
fn a_failed_write_leaves_a_front_of_the_report(rt: HostRuntime) {
    for failing in [
        Failing::Fails(ErrorKind::Interrupted),
        Failing::Fails(ErrorKind::Other),
        Failing::TakesNone,
    ] {
        for written in 0..REPORT.len() {
            let fails_at = written as u64 + 1;
            let room = Room {
                piece: 1,
                fails_at,
                failing,
            };
            let ends = (whole(TRACE), whole(COMPANION), room);
            let front = &REPORT[..written];
            let made = wants_run(&rt, rt.alloc(), ends, Err(Fault::Write), front);
            assert_eq!(rt; made, [2, 2, fails_at]);
        }
    }
}

#[test]
fn an_end_gives_the_bytes_of_the_end_below(rt: HostRuntime) {
    let mut buf = [0; 4];
    let text: &[u8] = b"run\n";
    let mut feed = FeedOf::new(text);
    assert_eq!(rt; feed.read(&mut buf[..3]), Ok(3));
    assert_eq!(rt; feed.read(&mut buf), Ok(1));
    assert_eq!(rt; feed.read(&mut buf), Ok(0));
}
