//! The theorems, where both inputs are read at once, a block at a time: no more of them is held than a window asks for.

ghost use Rattle.std.specs.Prelude.{◌≡◌, ◌≢◌, ℕ, List, false, IfErr, IfOk};
ghost use Rattle.audit_report.specs.Report.{IsCounted, counted_fault, counted_lines, least_fault, least_lines};
ghost use Rattle.audit_report.specs.Report.{verdict_fault, verdict_lines};
ghost use Rattle.cfs_model.specs.Knobs.{KnobsView};
ghost use Rattle.least_places.specs.LeastAnswer.{IsLeastAnswer};
ghost use Rattle.sched_audit.specs.Answer.{OutcomeAnswer};
ghost use Rattle.sched_audit.specs.Run.{IsOutcomeOf, RunsBy, RunsInBlocks, both_at_once, input_of, output_of};
ghost use Rattle.stream_audit.specs.Hearing.{IsOutcome, ReadsBoth, input_of as ended};
ghost use Rattle.ticket_book.specs.Verdict.{IsVerdict};

use crate::{
    Counted, Fault, Feed, Heard, LeastFigures, Outcome, Sink, Sizes, Status, Streamed, Verdict,
    write_in_pieces,
};
use cfs_model::Knobs;
use std::alloc::Global;
use std::thread::Threads;
use stream_audit::{Aim, NoPast, Past, StreamOutcome, judge_stream};

/// Reads both inputs to their ends, a block at a time, judges them, and writes the report. A fault of the trace is told
/// before one of the companion. `run_in_blocks` is this by a verdict.
pub(crate) fn run_streamed<J: Streamed, R: Threads + Sync, T: Feed, C: Feed, S: Sink>(
    rt: &R,
    alloc: Global,
    trace: &mut T,
    companion: &mut C,
    knobs: Knobs,
    sizes: Sizes,
    out: &mut S,
) -> Result<Status, Fault>
    // No read was made yet, and no write failed.
    requires trace { T.calls trace.old ≡ 0 }
    requires companion { C.calls companion.old ≡ 0 }
    requires out { S.has_failed out.old ≡ false }
    // The report of what was judged, or of a refusal, was written, and else it is told why not.
    ensures { RunsBy both_at_once J.refusal (J.is_of knobs) J.lines J.fault
        (input_of (T.left trace.old) (T.left trace.new) (T.calls trace.new) (T.has_failed trace.new)
        (T.has_ended trace.new)) (input_of (C.left companion.old) (C.left companion.new) (C.calls companion.new)
        (C.has_failed companion.new) (C.has_ended companion.new))
        (output_of (S.taken out.old) (S.taken out.new) (S.has_failed out.new)) result }
{
    let heard: Heard<J> = judge_in_blocks(rt, alloc, trace, companion, knobs, sizes, &mut NoPast)?;
    write_in_pieces(alloc, &heard.outcome, heard.tells_charges, out)
}

/// Reads both inputs to their ends, a block at a time, and judges them. A fault of the trace is told before one of the
/// companion. The past takes the last events up to the first fault, if it keeps events.
pub fn judge_in_blocks<J: Streamed, R: Threads + Sync, T: Feed, C: Feed, P: Past>(
    rt: &R,
    alloc: Global,
    trace: &mut T,
    companion: &mut C,
    knobs: Knobs,
    sizes: Sizes,
    past: &mut P,
) -> Result<Heard<J>, Fault>
    // No read was made yet.
    requires trace { T.calls trace.old ≡ 0 }
    requires companion { C.calls companion.old ≡ 0 }
    ensures outcome { IfOk result (λ heard.
        IsOutcomeOf (J.is_of knobs) (T.left trace.old) (C.left companion.old) heard.outcome heard.tells_charges) }
    ensures reads { ReadsBoth
        (ended (T.left trace.new) (T.calls trace.new) (T.has_failed trace.new) (T.has_ended trace.new))
        (ended (C.left companion.new) (C.calls companion.new) (C.has_failed companion.new)
        (C.has_ended companion.new)) result }
    ensures unwritten { IfErr result (λ fault. fault ≢ Fault.Write) }
{
    let aim = Aim::new(knobs, J::is_least());
    let heard = judge_stream(rt, alloc, trace, companion, aim, sizes, past)?;
    let tells_charges = heard.tells_charges;
    Ok(Heard {
        outcome: streamed(heard.outcome),
        tells_charges,
    })
}

/// What two inputs of any length came to, for a report.
fn streamed<J: Streamed>(outcome: StreamOutcome) -> Outcome<J>
    requires { (knobs : KnobsView) × (trace : List ℕ) × (companion : List ℕ)
        × IsOutcome (record { knobs = knobs; least = J.is_least }) trace companion outcome }
    ensures { (knobs : KnobsView) (trace companion : List ℕ)
        → IsOutcome (record { knobs = knobs; least = J.is_least }) trace companion outcome
        → OutcomeAnswer (J.is_of knobs) trace companion result }
{
    match outcome {
        StreamOutcome::Judged(finding) => Outcome::Judged(J::of_stream(finding)),
        StreamOutcome::Text {
            source,
            line,
            cause,
        } => Outcome::Text {
            source,
            line,
            cause,
        },
    }
}

/// Reads both inputs to their ends, a block at a time, judges them, and writes the report. A fault of the trace is told
/// before one of the companion.
pub fn run_in_blocks<R: Threads + Sync, T: Feed, C: Feed, S: Sink>(
    rt: &R,
    alloc: Global,
    trace: &mut T,
    companion: &mut C,
    knobs: Knobs,
    sizes: Sizes,
    out: &mut S,
) -> Result<Status, Fault>
    // No read was made yet, and no write failed.
    requires trace { T.calls trace.old ≡ 0 }
    requires companion { C.calls companion.old ≡ 0 }
    requires out { S.has_failed out.old ≡ false }
    // The report of the verdict on the two inputs, or of a refusal, was written, and else it is told why not.
    ensures { RunsInBlocks (IsVerdict knobs) (λ _. verdict_lines) verdict_fault
        (input_of (T.left trace.old) (T.left trace.new) (T.calls trace.new) (T.has_failed trace.new)
        (T.has_ended trace.new)) (input_of (C.left companion.old) (C.left companion.new) (C.calls companion.new)
        (C.has_failed companion.new) (C.has_ended companion.new))
        (output_of (S.taken out.old) (S.taken out.new) (S.has_failed out.new)) result }
{
    run_streamed::<Verdict, _, _, _, _>(rt, alloc, trace, companion, knobs, sizes, out)
}

/// The same, but the report has a run's counts alone, and no line for each task.
pub fn run_counted_in_blocks<R: Threads + Sync, T: Feed, C: Feed, S: Sink>(
    rt: &R,
    alloc: Global,
    trace: &mut T,
    companion: &mut C,
    knobs: Knobs,
    sizes: Sizes,
    out: &mut S,
) -> Result<Status, Fault>
    requires trace { T.calls trace.old ≡ 0 }
    requires companion { C.calls companion.old ≡ 0 }
    requires out { S.has_failed out.old ≡ false }
    ensures { RunsInBlocks (IsCounted knobs) (λ _. counted_lines) counted_fault
        (input_of (T.left trace.old) (T.left trace.new) (T.calls trace.new) (T.has_failed trace.new)
        (T.has_ended trace.new)) (input_of (C.left companion.old) (C.left companion.new) (C.calls companion.new)
        (C.has_failed companion.new) (C.has_ended companion.new))
        (output_of (S.taken out.old) (S.taken out.new) (S.has_failed out.new)) result }
{
    run_streamed::<Counted, _, _, _, _>(rt, alloc, trace, companion, knobs, sizes, out)
}

/// The same, but the report has the least settings at which they are a run, each with where it is needed first.
pub fn run_least_in_blocks<R: Threads + Sync, T: Feed, C: Feed, S: Sink>(
    rt: &R,
    alloc: Global,
    trace: &mut T,
    companion: &mut C,
    sizes: Sizes,
    out: &mut S,
) -> Result<Status, Fault>
    requires trace { T.calls trace.old ≡ 0 }
    requires companion { C.calls companion.old ≡ 0 }
    requires out { S.has_failed out.old ≡ false }
    ensures { RunsInBlocks IsLeastAnswer least_lines least_fault
        (input_of (T.left trace.old) (T.left trace.new) (T.calls trace.new) (T.has_failed trace.new)
        (T.has_ended trace.new)) (input_of (C.left companion.old) (C.left companion.new) (C.calls companion.new)
        (C.has_failed companion.new) (C.has_ended companion.new))
        (output_of (S.taken out.old) (S.taken out.new) (S.has_failed out.new)) result }
{
    let knobs = Knobs::greatest();
    run_streamed::<LeastFigures, _, _, _, _>(rt, alloc, trace, companion, knobs, sizes, out)
}
