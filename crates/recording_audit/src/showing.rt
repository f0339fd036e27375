//! Causes that a cut's own lines show.
ghost use Rattle.std.specs.Prelude.{◌≡◌, ◌≢◌, ◌+◌, ◌<◌, ◌++◌, ◌⊎◌, ℕ, [], IsTrue, List, Ok, Some, length};
ghost use Rattle.cfs_model.specs.Knobs.{KnobsView};
ghost use Rattle.ftrace_line.specs.Line.{LineAnswer, lost};
ghost use Rattle.text_parts.specs.Lines.{lines_of};
ghost use Rattle.recording_audit.specs.Causes.{IsCauseOf, IsKnown, IsPassedFirst};

use crate::cut_cause::CutCause;
use crate::real_time::is_real_time;
use crate::scanning::ends_by_start;
use crate::splitting::line_count;
use ftrace_line::{Line, read_line};
use sched_event::EventFault;
use sched_record::TraceCause;
use text_parts::lines::next_line;

/// A cut's cause, where its lines show it, or it is that of a fault. The others don't come.
pub(crate) fn shown_cause(text: &[u8], cause: CutCause) -> CutCause
    requires { 0 < length text.now }
    ensures shown { (limits : KnobsView) (before begin after : List ℕ) (events : ℕ) → (begin ≡ before) ⊎ (begin ≡ [])
        → IsKnown (begin ++ (text.now ++ after)) (length (lines_of begin) + 1) (Some cause)
        → IsCauseOf limits before text.now events result }
    ensures unmeasured { result ≢ CutCause.Short }
{
    let is_shown = match cause {
        CutCause::Refused(cause) => begins_so(text, cause),
        CutCause::BufferStarted => ends_by_start(text),
        CutCause::Fault(_) => true,
        CutCause::CpuOutside | CutCause::Short | CutCause::Unsettled => false,
    };
    if is_shown { cause } else { CutCause::Unsettled }
}

/// Whether the first line of a text is refused by itself for this cause, and a stretch may begin behind it.
fn begins_so(text: &[u8], cause: TraceCause) -> bool
    requires { 0 < length text.now }
    ensures { IsTrue result → IsPassedFirst text.now cause }
{
    let (line, _) = next_line(text);
    match cause {
        TraceCause::Event(EventFault::RealTime) => is_real_time(line),
        TraceCause::LostEvents => is_lost(line),
        _ => false,
    }
}

/// Whether a line says that a processor lost events.
fn is_lost(line: &[u8]) -> bool
    ensures { IsTrue result → LineAnswer line.now (Ok lost) }
{
    matches!(read_line(line), Ok(Line::Lost))
}

/// The cause of the line of this number, if it is the first.
pub(crate) fn cause_of_first(cause: Option<CutCause>, line: u64) -> CutCause
    ensures { (text : List ℕ) → IsKnown text line cause → IsKnown text 1 (Some result) }
{
    match cause {
        Some(cause) if line == 1 => cause,
        _ => CutCause::Unsettled,
    }
}

/// The cause of the line of this number, if it is the first behind a text.
pub(crate) fn cause_behind(text: &[u8], cause: Option<CutCause>, line: u64) -> Option<CutCause>
    ensures { (all : List ℕ) → IsKnown all line cause → IsKnown all (length (lines_of text.now) + 1) result }
{
    if line > 0 && line_count(text) == line - 1 {
        cause
    } else {
        None
    }
}
