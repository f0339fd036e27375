//! The theorem, where the counts of a run are asked for alone.

ghost use Rattle.std.specs.Prelude.{◌≡◌, false};
ghost use Rattle.audit_report.specs.Report.{IsCounted, counted_fault, counted_lines};
ghost use Rattle.sched_audit.specs.Run.{Runs, input_of, output_of};

use crate::judging::run_judged;
use crate::{Counted, Fault, Feed, Gate, Sink, Status};
use cfs_model::Knobs;
use std::alloc::Global;
use std::sync::Wait;
use std::thread::Threads;

/// As `run`, but the report has a run's counts alone, and no line for each task.
pub fn run_counted<R: Threads + Wait + Sync, T: Feed, C: Feed, G: Gate, S: Sink>(
    rt: &R,
    alloc: Global,
    trace: &mut T,
    companion: &mut C,
    knobs: Knobs,
    gate: &G,
    out: &mut S,
) -> Result<Status, Fault>
    requires trace { T.calls trace.old ≡ 0 }
    requires companion { C.calls companion.old ≡ 0 }
    requires out { S.has_failed out.old ≡ false }
    ensures { Runs (IsCounted knobs) (λ _. counted_lines) counted_fault
        (input_of (T.left trace.old) (T.left trace.new) (T.calls trace.new) (T.has_failed trace.new)
        (T.has_ended trace.new)) (input_of (C.left companion.old) (C.left companion.new) (C.calls companion.new)
        (C.has_failed companion.new) (C.has_ended companion.new))
        (output_of (S.taken out.old) (S.taken out.new) (S.has_failed out.new)) result }
{
    run_judged::<Counted, _, _, _, _, _>(rt, alloc, trace, companion, knobs, gate, out)
}
