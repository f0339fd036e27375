//! The theorems: what two texts come to, and what a run over two inputs writes.

ghost use Rattle.std.specs.Prelude.{◌≡◌, false};
ghost use Rattle.sched_audit.specs.Answer.{IsAnswer};
ghost use Rattle.audit_report.specs.Report.{least_fault, least_lines, verdict_fault, verdict_lines};
ghost use Rattle.least_places.specs.LeastAnswer.{IsLeastAnswer};
ghost use Rattle.sched_audit.specs.Run.{Runs, input_of, output_of};
ghost use Rattle.ticket_book.specs.Verdict.{IsVerdict};

use crate::judging::{run_judged, texts_judged};
use crate::{Fault, Feed, Gate, LeastFigures, Refused, Sink, Status, Verdict};
use cfs_model::Knobs;
use std::alloc::Global;
use std::sync::Wait;
use std::thread::Threads;

/// Judges a trace by its companion: the trace is read first, then the companion, each by several threads, then both are
/// joined, and the events are audited, those of each processor by a thread of its own that passes this gate.
pub fn audit_texts<R: Threads + Wait + Sync, G: Gate>(
    rt: &R,
    alloc: Global,
    trace: &[u8],
    companion: &[u8],
    knobs: Knobs,
    gate: &G,
) -> Result<Verdict, Refused>
    // A verdict on the record of the two texts, or why one is refused.
    ensures answer { IsAnswer (IsVerdict knobs) trace.now companion.now result }
{
    texts_judged(rt, alloc, trace, companion, knobs, gate)
}

/// Reads the trace to its end, then the companion, judges them, and writes the report.
pub fn run<R: Threads + Wait + Sync, T: Feed, C: Feed, G: Gate, S: Sink>(
    rt: &R,
    alloc: Global,
    trace: &mut T,
    companion: &mut C,
    knobs: Knobs,
    gate: &G,
    out: &mut S,
) -> Result<Status, Fault>
    // No read was made yet, and no write failed.
    requires trace { T.calls trace.old ≡ 0 }
    requires companion { C.calls companion.old ≡ 0 }
    requires out { S.has_failed out.old ≡ false }
    // The report of the verdict on the two inputs, or of a refusal, was written, and else it is told why not.
    ensures { Runs (IsVerdict knobs) (λ _. verdict_lines) verdict_fault
        (input_of (T.left trace.old) (T.left trace.new) (T.calls trace.new) (T.has_failed trace.new)
        (T.has_ended trace.new)) (input_of (C.left companion.old) (C.left companion.new) (C.calls companion.new)
        (C.has_failed companion.new) (C.has_ended companion.new))
        (output_of (S.taken out.old) (S.taken out.new) (S.has_failed out.new)) result }
{
    run_judged::<Verdict, _, _, _, _, _>(rt, alloc, trace, companion, knobs, gate, out)
}

/// The least settings at which a trace is a run by its companion, each with where it is needed first, or the first line
/// up to which it is one at none.
pub fn least_texts<R: Threads + Wait + Sync, G: Gate>(
    rt: &R,
    alloc: Global,
    trace: &[u8],
    companion: &[u8],
    gate: &G,
) -> Result<LeastFigures, Refused>
    // The least settings of the record of the two texts with their places, a fault of it at all settings, or why a text
    // is refused.
    ensures answer { IsAnswer IsLeastAnswer trace.now companion.now result }
{
    texts_judged(rt, alloc, trace, companion, Knobs::greatest(), gate)
}

/// Reads the trace to its end, then the companion, and writes the least settings at which they are a run, each with
/// where it is needed first.
pub fn run_least<R: Threads + Wait + Sync, T: Feed, C: Feed, G: Gate, S: Sink>(
    rt: &R,
    alloc: Global,
    trace: &mut T,
    companion: &mut C,
    gate: &G,
    out: &mut S,
) -> Result<Status, Fault>
    requires trace { T.calls trace.old ≡ 0 }
    requires companion { C.calls companion.old ≡ 0 }
    requires out { S.has_failed out.old ≡ false }
    ensures { Runs IsLeastAnswer least_lines least_fault
        (input_of (T.left trace.old) (T.left trace.new) (T.calls trace.new) (T.has_failed trace.new)
        (T.has_ended trace.new)) (input_of (C.left companion.old) (C.left companion.new) (C.calls companion.new)
        (C.has_failed companion.new) (C.has_ended companion.new))
        (output_of (S.taken out.old) (S.taken out.new) (S.has_failed out.new)) result }
{
    let knobs = Knobs::greatest();
    run_judged::<LeastFigures, _, _, _, _, _>(rt, alloc, trace, companion, knobs, gate, out)
}
