//! The theorems, where the waits of tasks are asked for.

ghost use Rattle.std.specs.Prelude.{◌≡◌, false};
ghost use Rattle.audit_report.specs.Report.{IsCounted, counted_fault, counted_lines, least_fault, least_lines};
ghost use Rattle.audit_report.specs.Report.{verdict_fault, verdict_lines};
ghost use Rattle.least_places.specs.LeastAnswer.{IsLeastAnswer};
ghost use Rattle.sched_audit.specs.Run.{Runs, input_of, output_of};
ghost use Rattle.sched_audit.specs.Waits.{fault_with, is_with_waits, lines_with};
ghost use Rattle.ticket_book.specs.Verdict.{IsVerdict};

use crate::judging::run_judged;
use crate::{Counted, Fault, Feed, Gate, LeastFigures, Sink, Status, Verdict, WithWaits};
use cfs_model::Knobs;
use std::alloc::Global;
use std::sync::Wait;
use std::thread::Threads;

/// As `run`, and behind the report of a run how often and how long each task waited.
pub fn run_waits<R: Threads + Wait + Sync, T: Feed, C: Feed, G: Gate, S: Sink>(
    rt: &R,
    alloc: Global,
    trace: &mut T,
    companion: &mut C,
    knobs: Knobs,
    gate: &G,
    out: &mut S,
) -> Result<Status, Fault>
    // No read was made yet, and no write failed.
    requires trace { T.calls trace.old ≡ 0 }
    requires companion { C.calls companion.old ≡ 0 }
    requires out { S.has_failed out.old ≡ false }
    // The report of the verdict and of the waits in the states of the run, or of a refusal.
    ensures { Runs (is_with_waits verdict_fault (IsVerdict knobs)) (lines_with (λ _. verdict_lines))
        (fault_with verdict_fault)
        (input_of (T.left trace.old) (T.left trace.new) (T.calls trace.new) (T.has_failed trace.new)
        (T.has_ended trace.new)) (input_of (C.left companion.old) (C.left companion.new) (C.calls companion.new)
        (C.has_failed companion.new) (C.has_ended companion.new))
        (output_of (S.taken out.old) (S.taken out.new) (S.has_failed out.new)) result }
{
    run_judged::<WithWaits<Verdict>, _, _, _, _, _>(rt, alloc, trace, companion, knobs, gate, out)
}

/// As `run_counted`, and behind the counts of a run how often and how long each task waited.
pub fn run_counted_waits<R: Threads + Wait + Sync, T: Feed, C: Feed, G: Gate, S: Sink>(
    rt: &R,
    alloc: Global,
    trace: &mut T,
    companion: &mut C,
    knobs: Knobs,
    gate: &G,
    out: &mut S,
) -> Result<Status, Fault>
    requires trace { T.calls trace.old ≡ 0 }
    requires companion { C.calls companion.old ≡ 0 }
    requires out { S.has_failed out.old ≡ false }
    ensures { Runs (is_with_waits counted_fault (IsCounted knobs)) (lines_with (λ _. counted_lines))
        (fault_with counted_fault)
        (input_of (T.left trace.old) (T.left trace.new) (T.calls trace.new) (T.has_failed trace.new)
        (T.has_ended trace.new)) (input_of (C.left companion.old) (C.left companion.new) (C.calls companion.new)
        (C.has_failed companion.new) (C.has_ended companion.new))
        (output_of (S.taken out.old) (S.taken out.new) (S.has_failed out.new)) result }
{
    run_judged::<WithWaits<Counted>, _, _, _, _, _>(rt, alloc, trace, companion, knobs, gate, out)
}

/// As `run_least`, and behind the least settings how often and how long each task waited.
pub fn run_least_waits<R: Threads + Wait + Sync, T: Feed, C: Feed, G: Gate, S: Sink>(
    rt: &R,
    alloc: Global,
    trace: &mut T,
    companion: &mut C,
    gate: &G,
    out: &mut S,
) -> Result<Status, Fault>
    requires trace { T.calls trace.old ≡ 0 }
    requires companion { C.calls companion.old ≡ 0 }
    requires out { S.has_failed out.old ≡ false }
    ensures { Runs (is_with_waits least_fault IsLeastAnswer) (lines_with least_lines) (fault_with least_fault)
        (input_of (T.left trace.old) (T.left trace.new) (T.calls trace.new) (T.has_failed trace.new)
        (T.has_ended trace.new)) (input_of (C.left companion.old) (C.left companion.new) (C.calls companion.new)
        (C.has_failed companion.new) (C.has_ended companion.new))
        (output_of (S.taken out.old) (S.taken out.new) (S.has_failed out.new)) result }
{
    let knobs = Knobs::greatest();
    run_judged::<WithWaits<LeastFigures>, _, _, _, _, _>(
        rt, alloc, trace, companion, knobs, gate, out,
    )
}
