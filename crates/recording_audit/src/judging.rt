ghost use Rattle.std.specs.Prelude.{IfOk, Ok};
ghost use Rattle.sched_record.specs.Seen.{trace_view};
ghost use Rattle.sched_record.specs.Trace.{TraceAnswer};
ghost use Rattle.recording_audit.specs.Parts.{IsJudgement, IsSpanOf};

use crate::asked::Asked;
use crate::cut_cause::CutCause;
use crate::limits::fault_over;
use crate::part::Stretch;
use crate::span::Span;
use crate::splitting::end_of_lines;
use crate::watch::Watch;
use audit_crew::{OpenGate, least_settings};
use audit_input::{Refused, record_of, tells_charges};
use cfs_model::Memory;
use companion_guess::{KernelValues, Prints};
use companion_maker::{NotMade, companion_of_trace};
use sched_record::{Trace, TraceFault, read_trace, read_trace_wide};
use std::alloc::Global;
use std::sync::Wait;
use std::thread::Threads;
use ticket_book::LeastSettings;

/// What a text came to.
#[derive(Debug, Drop)]
pub(crate) enum Judged {
    /// It is a run at some settings.
    Run(Stretch),
    /// It has no event.
    Quiet,
    /// It can be none up to this line and with it.
    Bad { line: u64, why: CutCause },
}

/// Judges a text, and says how far it is good.
pub(crate) fn judge_watched<R: Threads + Wait + Sync, W: Watch>(
    rt: &R,
    alloc: Global,
    text: &[u8],
    asked: &Asked<'_>,
    watch: &mut W,
) -> Result<Judged, Memory>
    ensures { IfOk result (IsJudgement asked.now.limits text.now) }
{
    let judged = judge(rt, alloc, text, asked)?;
    watch.tried(good_bytes(text, &judged) as u64);
    Ok(judged)
}

/// How many bytes of a text stand before the line up to which it can be no run; all where it is one.
fn good_bytes(text: &[u8], judged: &Judged) -> usize {
    match judged {
        Judged::Run(_) | Judged::Quiet => text.len(),
        Judged::Bad { line, .. } => end_of_lines(text, line.saturating_sub(1)),
    }
}

/// Makes a companion for a text, and judges it.
fn judge<R: Threads + Wait + Sync>(
    rt: &R,
    alloc: Global,
    text: &[u8],
    asked: &Asked<'_>,
) -> Result<Judged, Memory>
    ensures { IfOk result (IsJudgement asked.now.limits text.now) }
{
    match read_trace(alloc, text) {
        Ok(trace) => judge_trace(rt, alloc, text, trace, asked),
        Err(TraceFault::Text { line, cause }) => Ok(Judged::Bad {
            line,
            why: CutCause::Refused(cause),
        }),
        Err(TraceFault::Memory) => Err(Memory),
    }
}

/// The same of a text with this trace.
fn judge_trace<R: Threads + Wait + Sync>(
    rt: &R,
    alloc: Global,
    text: &[u8],
    trace: Trace,
    asked: &Asked<'_>,
) -> Result<Judged, Memory>
    requires { TraceAnswer text.now (Ok (trace_view trace)) }
    ensures { IfOk result (IsJudgement asked.now.limits text.now) }
{
    let span = Span::of(trace.events());
    if span.events == 0 {
        return Ok(Judged::Quiet);
    }
    let values = kernel_values(alloc, text, asked)?;
    match companion_of_trace(rt, alloc, trace, values, &asked.wishes) {
        Ok(made) => judge_made(rt, alloc, text, made.text, span, asked),
        Err(NotMade::CpuOutside { line }) => Ok(Judged::Bad {
            line,
            why: CutCause::CpuOutside,
        }),
        Err(NotMade::Memory) => Err(Memory),
    }
}

/// What a text tells of the kernel's own values, where the companion is made by them.
fn kernel_values(alloc: Global, text: &[u8], asked: &Asked<'_>) -> Result<KernelValues, Memory> {
    let mut prints = Prints::none(alloc);
    if asked.wishes.want_prints() {
        prints.read(text)?;
    }
    Ok(KernelValues::told(prints, asked.debug))
}

/// Judges a text by the companion that was made for it.
fn judge_made<R: Threads + Wait + Sync>(
    rt: &R,
    alloc: Global,
    text: &[u8],
    companion: Vec<u8>,
    span: Span,
    asked: &Asked<'_>,
) -> Result<Judged, Memory>
    requires { IsSpanOf text.now span }
    ensures { IfOk result (IsJudgement asked.now.limits text.now) }
{
    let trace = read_trace_wide(rt, alloc, text);
    let joined = match record_of(rt, alloc, trace, companion.as_slice()) {
        Ok(joined) => joined,
        // The companion was read back, and joins: this doesn't come.
        Err(Refused::Text { line, .. }) => {
            return Ok(Judged::Bad {
                line,
                why: CutCause::Unsettled,
            });
        }
        Err(Refused::Memory) => return Err(Memory),
    };
    match least_settings(rt, alloc, &joined, &OpenGate)? {
        LeastSettings::Found(least) => {
            let over = fault_over(rt, alloc, &joined, least, asked.limits)?;
            let tells_charges = tells_charges(companion.as_slice());
            Ok(Judged::Run(Stretch {
                companion,
                events: span.events,
                begins: span.begins,
                ends: span.ends,
                least,
                tells_charges,
                over,
            }))
        }
        LeastSettings::Fault(fault) => Ok(Judged::Bad {
            line: u64::from(fault.line),
            why: CutCause::Fault(fault),
        }),
    }
}
