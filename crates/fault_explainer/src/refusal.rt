use crate::bad_field::push_bad_field;
use crate::bad_head::push_bad_head;
use crate::bad_line::push_bad_line;
use crate::event_look::{push_event_cpu, push_event_time, push_line_sort};
use crate::limits::push_outside_limits;
use crate::number_field::{push_above_limit, push_prio_above, push_prio_below};
use crate::odd_byte::push_odd_byte;
use audit_input::{Cause, Source};
use cfs_model::Memory;
use std::alloc::{AllocError, Global};

/// Why a line is refused, in words: what its cause means and what to do about it, and what a look at the line shows for
/// sure. Each line begins with `# `.
pub fn refusal_words(
    alloc: Global,
    source: Source,
    cause: Cause,
    line: Option<&[u8]>,
) -> Result<String, Memory> {
    let mut text = String::new(alloc);
    if let Some(line) = line {
        push_look(&mut text, source, cause, line)?;
    }
    let meaning = meaning(source, cause);
    let remedy = remedy(source, cause);
    writeln!(text, "# {meaning}")?;
    writeln!(text, "# {remedy}")?;
    Ok(text)
}

/// What a look at the line shows.
fn push_look(
    text: &mut String,
    source: Source,
    cause: Cause,
    line: &[u8],
) -> Result<(), AllocError> {
    match cause {
        Cause::BadHead => {
            push_odd_byte(text, line)?;
            push_bad_head(text, line)
        }
        Cause::BadFields => {
            push_odd_byte(text, line)?;
            push_bad_field(text, line)
        }
        Cause::Version => push_odd_byte(text, line),
        Cause::BadLine => {
            push_odd_byte(text, line)?;
            push_bad_line(text, line)
        }
        Cause::TimeBack | Cause::StartLate => push_event_time(text, line),
        Cause::CpuOutside => push_event_cpu(text, line),
        Cause::ClaimNoEvent => push_line_sort(text, line),
        Cause::NumberRange if source == Source::Companion => push_outside_limits(text, line),
        Cause::NumberRange => push_above_limit(text, line),
        Cause::RealTime => push_prio_below(text, line),
        Cause::PrioRange => push_prio_above(text, line),
        _ => Ok(()),
    }
}

/// What is wrong.
fn meaning(source: Source, cause: Cause) -> &'static str {
    match cause {
        Cause::BadHead => {
            "neither a comment nor an event: an event begins with a name in 16 columns, -PID, [CPU] and the time in seconds"
        }
        Cause::NumberRange if source == Source::Companion => "a number is out of its limits",
        Cause::NumberRange => {
            "a number is too large: a processor is at most 65535, a pid 4194304, the seconds 4294967295"
        }
        Cause::LostEvents => "events were lost before this line, and nobody knows what they did",
        Cause::BadFields => "the event doesn't have its fields, or has more than these",
        Cause::RealTime =>
            "a prio below 100 is of a real-time or deadline task, whose time is outside CFS",
        Cause::PrioRange => "no task has a prio above 139: those of CFS have 100 to 139",
        Cause::IdleNamed =>
            "pid 0 is a processor's idle task, which is never woken, born or migrated",
        Cause::TimeBack => "the time is less than that of the event before it",
        Cause::TooManyLines => "a trace has at most 4294967295 lines",
        Cause::Version => {
            "the first line that is no comment has to be exactly cfs-companion 1, cfs-companion 2 or cfs-companion 3"
        }
        Cause::Group => "virtual runtimes (vruntime) of several control groups can't be compared",
        Cause::BadLine => "no line of a companion of this version",
        Cause::Order => "a line that isn't due here",
        Cause::TwiceNamed => "the task has the pid of the task line before it",
        Cause::TwiceRunning => "a task named before it runs at its processor already",
        Cause::LineOrder =>
            "it names an earlier line of the trace than the line above it, or the same one again",
        Cause::NoTask => "no task line names this pid",
        Cause::Short => "the text ends before each processor has its floor",
        Cause::CpuOutside => "the event is at a processor that the companion doesn't have",
        Cause::StartLate => "the event's time is before the companion's start",
        Cause::ClaimNoEvent => {
            "the companion speaks of this line, which has no event of the scheduler, or not the birth that it names"
        }
    }
}

/// What to do about it.
fn remedy(source: Source, cause: Cause) -> &'static str {
    match cause {
        Cause::BadHead =>
            "give the text of the file trace of tracefs as it is, recorded with a clock of seconds",
        Cause::NumberRange if source == Source::Companion =>
            "make the companion again, or write a number within",
        Cause::NumberRange => "no kernel prints such a number: record again",
        Cause::LostEvents =>
            "record again with a larger buffer_size_kb, or cut the recording before it",
        Cause::BadFields => "give the line whole, as the kernel printed it",
        Cause::RealTime => "cut the recording before it, or record again without such tasks",
        Cause::PrioRange => "no kernel prints such a prio: record again",
        Cause::IdleNamed => "no kernel prints such an event: record again",
        Cause::TimeBack =>
            "put the lines in the order of their times, or record with one clock for all processors",
        Cause::TooManyLines => "cut the recording",
        Cause::Version => "name the companion second, and begin it with its version",
        Cause::Group => "record without control groups",
        Cause::BadLine => {
            "put one space between its words; idle and nice lines are in versions 2 and 3, charge lines in version 3"
        }
        Cause::Order => {
            "the order is: cpus, start, each processor's floor, tasks by pid, idle lines, then claims by line"
        }
        Cause::TwiceNamed => "leave one of the two lines out",
        Cause::TwiceRunning => "let one of the two wait or rest",
        Cause::LineOrder => {
            "let the lines rise; one line of the trace has one charge at most, then one nice, then one claim"
        }
        Cause::NoTask =>
            "name its task above; if it is born later, write its birth's line in place of the 0",
        Cause::Short => "write a floor for each processor",
        Cause::CpuOutside => {
            "set cpus to the greatest processor of the recording plus one; at most 64 processors can be judged"
        }
        Cause::StartLate => "let start be the first event's time, or earlier",
        Cause::ClaimNoEvent => "count the trace's lines from 1, with its comments",
    }
}
