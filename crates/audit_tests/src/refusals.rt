//! Refused traces, by both calls: `audit_texts`, which has the whole text, and `run`, which reads it as it comes; and
//! the words for a refusal that no recording of these tests comes to.

use crate::answers::wants_about;
use crate::ends::{ample, whole};
use crate::runs::wants_run;
use cfs_model::Knobs;
use fault_explainer::refusal_words;
use sched_audit::{Cause, OpenGate, Refused, Source, Status, audit_texts};
use std::alloc::Global;
use std::process::Abort;
use std::sync::Wait;
use std::test::Fail;
use std::thread::Threads;

const COMPANION: &[u8] = b"cfs-companion 1\ncpus 1\nstart 0.000000\nfloor 0 0\n";

// A comment, and one of 64 bytes: a thousand of these are a piece of a text for one thread.
const COMMENT: &[u8] = b"#\n";

const LONG_COMMENT: &[u8] = b"#                                                              \n";

const BAD: &[u8] = b"hello\n";

// 101 is woken, at two times.
const LATE: &[u8] =
    b"            t101-101     [000] d..2.   100.000002: sched_wakeup: comm=t101 pid=101 prio=120 target_cpu=000\n";

const EARLY: &[u8] =
    b"            t101-101     [000] d..2.   100.000001: sched_wakeup: comm=t101 pid=101 prio=120 target_cpu=000\n";

/// A text of these lines, each with how often it stands.
fn text_of(alloc: Global, lines: &[(&[u8], u32)]) -> Result<Vec<u8>, Fail> {
    let mut text = Vec::new(alloc);
    for (line, times) in lines {
        for _ in 0..*times {
            text.extend_from_slice(line)?;
        }
    }
    Ok(text)
}

/// What `audit_texts` refuses.
fn refused_by<R: Threads + Wait + Sync>(rt: &R, alloc: Global, trace: &[u8]) -> Option<Refused> {
    audit_texts(rt, alloc, trace, COMPANION, Knobs::standard(), &OpenGate).err()
}

/// Ends the test where a trace of these lines isn't refused for this by both calls.
fn wants_refusal<R: Abort + Threads + Wait + Sync>(
    rt: &R,
    alloc: Global,
    lines: &[(&[u8], u32)],
    line: u64,
    cause: Cause,
    report: &str,
) -> Result<(), Fail> {
    let trace = text_of(alloc, lines)?;
    let refused = Refused::Text {
        source: Source::Trace,
        line,
        cause,
    };
    assert_eq!(*rt; refused_by(rt, alloc, &trace), Some(refused));
    let ends = (whole(&trace), whole(COMPANION), ample());
    let _calls = wants_run(rt, alloc, ends, Ok(Status::Refused), report.as_bytes());
    Ok(())
}

#[test]
fn the_first_of_two_bad_lines_is_named(rt: HostRuntime) -> Result<(), Fail> {
    for comment in [COMMENT, LONG_COMMENT] {
        let lines: [(&[u8], u32); 5] = [
            (comment, 4320),
            (BAD, 1),
            (comment, 677),
            (BAD, 1),
            (comment, 1),
        ];
        let report = "refused trace line 4321 BadHead\n";
        wants_refusal(&rt, rt.alloc(), &lines, 4321, Cause::BadHead, report)?;
    }
    Ok(())
}

#[test]
fn a_time_that_goes_back_before_a_bad_line_is_named(rt: HostRuntime) -> Result<(), Fail> {
    for comment in [COMMENT, LONG_COMMENT] {
        let lines: [(&[u8], u32); 7] = [
            (comment, 2499),
            (LATE, 1),
            (comment, 499),
            (EARLY, 1),
            (comment, 499),
            (BAD, 1),
            (comment, 1500),
        ];
        let report = "refused trace line 3000 TimeBack\n";
        wants_refusal(&rt, rt.alloc(), &lines, 3000, Cause::TimeBack, report)?;
    }
    Ok(())
}

/// What is said of a trace of too many lines, whose last one isn't shown.
fn words_for_too_many_lines(alloc: Global) -> Result<String, Fail> {
    Ok(refusal_words(alloc, Source::Trace, Cause::TooManyLines, None)?)
}

#[test]
fn too_many_lines_have_their_words(rt: HostRuntime) -> Result<(), Fail> {
    let words = words_for_too_many_lines(rt.alloc())?;
    let wanted = "# a trace has at most 4294967295 lines\n# cut the recording\n";
    wants_about(&rt, "too many lines", &words.as_str(), &wanted);
    Ok(())
}
