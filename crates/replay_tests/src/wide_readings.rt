//! Traces that one thread reads, and several.

use crate::answers::wants;
use cfs_model::Entry;
use ftrace_line::LineFault;
use sched_event::EventFault;
use sched_record::{Trace, TraceCause, TraceFault, read_trace, read_trace_wide};
use std::alloc::Global;
use std::test::Fail;
use std::thread::Threads;

// A comment of 64 bytes: a thousand of them are a piece of a text.
pub(crate) const COMMENT: &[u8] =
    b"#                                                              \n";

const BAD: &[u8] = b"hello\n";

// 101 is woken, at two times.
const LATE: &[u8] =
    b"            t101-101     [000] d..2.     1.000002: sched_wakeup: comm=t101 pid=101 prio=120 target_cpu=000\n";

const EARLY: &[u8] =
    b"            t101-101     [000] d..2.     1.000001: sched_wakeup: comm=t101 pid=101 prio=120 target_cpu=000\n";

/// Puts a line behind a text, so many times.
fn repeat(text: &mut Vec<u8>, line: &[u8], times: u32) -> Result<(), Fail> {
    for _ in 0..times {
        text.extend_from_slice(line)?;
    }
    Ok(())
}

/// Lines, each with how often it stands.
pub(crate) type Lines<'a> = &'a [(&'a [u8], u32)];

/// A trace of these.
pub(crate) fn text_of(alloc: Global, lines: Lines<'_>) -> Result<Vec<u8>, Fail> {
    let mut text = Vec::new(alloc);
    for (line, times) in lines {
        repeat(&mut text, line, *times)?;
    }
    Ok(text)
}

/// Why several threads refuse it.
fn fault_of<R: Threads + Sync>(
    rt: &R,
    alloc: Global,
    lines: Lines<'_>,
) -> Result<Option<TraceFault>, Fail> {
    let text = text_of(alloc, lines)?;
    Ok(read_trace_wide(rt, alloc, &text).err())
}

/// A trace's events as several threads read it: how many there are, the line and time of the last, and whether one
/// thread reads the same.
type Reading = (usize, Option<(u32, u64)>, bool);

fn line_and_time(event: Option<&Entry>) -> Option<(u32, u64)> {
    match event {
        Some(event) => Some((event.line, event.time)),
        None => None,
    }
}

/// How a trace compares with its reading in one thread.
fn compared(alloc: Global, text: &[u8], trace: &Trace) -> Result<Reading, Fail> {
    let narrow = read_trace(alloc, text)?;
    Ok((
        trace.events().len(),
        line_and_time(trace.events().last()),
        trace.events() == narrow.events(),
    ))
}

fn reading_of<R: Threads + Sync>(rt: &R, alloc: Global, lines: Lines<'_>) -> Result<Reading, Fail> {
    let text = text_of(alloc, lines)?;
    let trace = read_trace_wide(rt, alloc, &text)?;
    compared(alloc, &text, &trace)
}

#[test]
fn events_of_all_pieces_stand_on_their_lines(rt: HostRuntime) -> Result<(), Fail> {
    // Four pieces, whose times stand still but once, behind comments.
    let lines: [(&[u8], u32); 3] = [(EARLY, 2000), (COMMENT, 1000), (LATE, 2000)];
    let wanted = (4000, Some((5000, 1_000_002_000)), true);
    wants(&rt, &reading_of(&rt, rt.alloc(), &lines)?, &wanted);
    Ok(())
}

// 101 is woken, at two times that fall.
const FALLING: &[u8] =
    b"            t101-101     [000] d..2.     1.000002: sched_wakeup: comm=t101 pid=101 prio=120 target_cpu=000
            t101-101     [000] d..2.     1.000001: sched_wakeup: comm=t101 pid=101 prio=120 target_cpu=000
hello
";

/// Short traces, each with its first bad line.
static REFUSED: [(&[u8], u64, TraceCause); 6] = [
    (b"hello\n", 1, TraceCause::Line(LineFault::BadHead)),
    (
        b"#\n#\nhello\n\nhello\n",
        3,
        TraceCause::Line(LineFault::BadHead),
    ),
    (
        b"#\nCPU:0 [LOST 3 EVENTS]\nhello\n",
        2,
        TraceCause::LostEvents,
    ),
    (FALLING, 2, TraceCause::TimeBack),
    (
        b"#\n#\n            t101-101     [000] d..2.   100.004000: sched_switch: prev_comm=t101 prev_pid=101 prev_prio=98 prev_state=R+ ==> next_comm=t102 next_pid=102 next_prio=120\n",
        3,
        TraceCause::Event(EventFault::RealTime),
    ),
    (
        b"            t101-101     [000] d..2.   100.004000: sched_switch: prev_comm=t101 prev_pid=101",
        1,
        TraceCause::Event(EventFault::BadFields),
    ),
];

/// Why one thread refuses a trace, and why several do.
fn faults_of<R: Threads + Sync>(
    rt: &R,
    alloc: Global,
    text: &[u8],
) -> (Option<TraceFault>, Option<TraceFault>) {
    (
        read_trace(alloc, text).err(),
        read_trace_wide(rt, alloc, text).err(),
    )
}

fn refused(line: u64, cause: TraceCause) -> Option<TraceFault> {
    Some(TraceFault::Text { line, cause })
}

/// The first trace in the table that is refused otherwise.
fn misread<R: Threads + Sync>(rt: &R, alloc: Global) -> Option<&'static [u8]> {
    for (text, line, cause) in &REFUSED {
        let fault = refused(*line, *cause);
        if faults_of(rt, alloc, text) != (fault, fault) {
            return Some(*text);
        }
    }
    None
}

#[test]
fn a_trace_is_refused_at_its_first_bad_line(rt: HostRuntime) {
    wants(&rt, &misread(&rt, rt.alloc()), &None);
}

#[test]
fn the_first_of_two_bad_lines_is_named(rt: HostRuntime) -> Result<(), Fail> {
    let lines: [(&[u8], u32); 5] = [
        (COMMENT, 4320),
        (BAD, 1),
        (COMMENT, 677),
        (BAD, 1),
        (COMMENT, 1),
    ];
    let fault = refused(4321, TraceCause::Line(LineFault::BadHead));
    wants(&rt, &fault_of(&rt, rt.alloc(), &lines)?, &fault);
    Ok(())
}

#[test]
fn a_time_goes_back_before_a_bad_line(rt: HostRuntime) -> Result<(), Fail> {
    let lines: [(&[u8], u32); 7] = [
        (COMMENT, 2499),
        (LATE, 1),
        (COMMENT, 499),
        (EARLY, 1),
        (COMMENT, 499),
        (BAD, 1),
        (COMMENT, 1500),
    ];
    let fault = refused(3000, TraceCause::TimeBack);
    wants(&rt, &fault_of(&rt, rt.alloc(), &lines)?, &fault);
    Ok(())
}
