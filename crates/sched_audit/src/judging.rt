//! What a verdict and the least settings share: the texts are read and joined, and their record is judged.
ghost use Rattle.std.specs.Prelude.{◌≡◌, ◌≢◌, false, ℕ, IfErr, IfOk, List, Option};
ghost use Rattle.sched_record.specs.Record.{record_view};
ghost use Rattle.sched_record.specs.Seen.{Tells};
ghost use Rattle.sched_record.specs.Trace.{TraceAnswer};
ghost use Rattle.sched_audit.specs.Answer.{IsAnswer, OutcomeAnswer};
ghost use Rattle.audit_input.specs.Known.{Agrees};
ghost use Rattle.sched_audit.specs.Run.{IsHeard, IsKept, IsOutcomeOf, KeptAnswer, Reads, RunsBy, input_of};
ghost use Rattle.sched_audit.specs.Run.{one_by_one, output_of};
ghost use Rattle.audit_input.specs.Texts.{TellsCharges};

use crate::{
    Fault, Feed, Finding, Gate, Hearing, Judgement, Kept, Outcome, Refused, Sink, Status,
    write_report,
};
use audit_crew::audit;
use audit_input::{read_all, record_of, tells_charges};
use cfs_model::{Knobs, Memory};
use input_blocks::read_lines;
use least_places::least_figures;
use sched_record::{Record, Trace, TraceFault, read_trace_wide};
use std::alloc::Global;
use std::sync::Wait;
use std::thread::Threads;

/// Judges two texts.
pub(crate) fn texts_judged<J: Judgement, R: Threads + Wait + Sync, G: Gate>(
    rt: &R,
    alloc: Global,
    trace: &[u8],
    companion: &[u8],
    knobs: Knobs,
    gate: &G,
) -> Result<J, Refused>
    ensures { IsAnswer (J.is_of knobs) trace.now companion.now result }
{
    let trace = read_trace_wide(rt, alloc, trace);
    let record = record_of(rt, alloc, trace, companion)?;
    Ok(judged(rt, alloc, &record, knobs, gate)?)
}

/// Reads the trace to its end, then the companion, judges them, and writes the report. `run` is this by a verdict.
pub fn run_judged<J: Judgement, R: Threads + Wait + Sync, T: Feed, C: Feed, G: Gate, S: Sink>(
    rt: &R,
    alloc: Global,
    trace: &mut T,
    companion: &mut C,
    knobs: Knobs,
    gate: &G,
    out: &mut S,
) -> Result<Status, Fault>
    // No read was made yet, and no write failed.
    requires trace { T.calls trace.old ≡ 0 }
    requires companion { C.calls companion.old ≡ 0 }
    requires out { S.has_failed out.old ≡ false }
    // The report of what was judged, or of a refusal, was written, and else it is told why not.
    ensures { RunsBy one_by_one J.refusal (J.is_of knobs) J.lines J.fault
        (input_of (T.left trace.old) (T.left trace.new) (T.calls trace.new) (T.has_failed trace.new)
        (T.has_ended trace.new)) (input_of (C.left companion.old) (C.left companion.new) (C.calls companion.new)
        (C.has_failed companion.new) (C.has_ended companion.new))
        (output_of (S.taken out.old) (S.taken out.new) (S.has_failed out.new)) result }
{
    let hearing: Hearing<J> = judge(rt, alloc, trace, companion, knobs, gate)?;
    let Hearing {
        outcome,
        kept,
        tells_charges,
    } = hearing;
    // What was read is given back before the report is written.
    drop(kept);
    write_report(alloc, &outcome, tells_charges, out)
}

/// Reads the trace to its end, then the companion, and judges them. What was read is kept beside the outcome.
pub fn judge<J: Judgement, R: Threads + Wait + Sync, T: Feed, C: Feed, G: Gate>(
    rt: &R,
    alloc: Global,
    trace: &mut T,
    companion: &mut C,
    knobs: Knobs,
    gate: &G,
) -> Result<Hearing<J>, Fault>
    // No read was made yet.
    requires trace { T.calls trace.old ≡ 0 }
    requires companion { C.calls companion.old ≡ 0 }
    ensures outcome { IfOk result (λ hearing.
        IsOutcomeOf (J.is_of knobs) (T.left trace.old) (C.left companion.old) hearing.outcome
        hearing.tells_charges) }
    ensures reads { Reads
        (input_of (T.left trace.old) (T.left trace.new) (T.calls trace.new) (T.has_failed trace.new)
        (T.has_ended trace.new)) (input_of (C.left companion.old) (C.left companion.new) (C.calls companion.new)
        (C.has_failed companion.new) (C.has_ended companion.new)) result }
    ensures kept { IfOk result (λ hearing. IsKept (J.is_of knobs) (C.left companion.old) hearing.outcome hearing.kept) }
    ensures heard { IfOk result (λ hearing. IsHeard (J.is_of knobs) (T.left trace.old) (C.left companion.old)
        hearing.outcome hearing.kept hearing.tells_charges) }
    ensures unwritten { IfErr result (λ fault. fault ≢ Fault.Write) }
{
    let trace = read_lines(alloc, trace)?;
    let companion = read_all(alloc, companion, Fault::ReadCompanion)?;
    Ok(hearing_of(rt, alloc, trace.finish(), companion, knobs, gate)?)
}

/// Joins a trace that was read and a companion's text, and judges their record.
fn hearing_of<J: Judgement, R: Threads + Wait + Sync, G: Gate>(
    rt: &R,
    alloc: Global,
    trace: Result<Trace, TraceFault>,
    companion: Vec<u8>,
    knobs: Knobs,
    gate: &G,
) -> Result<Hearing<J>, Memory>
    ensures kept { (left : Option (List ℕ)) → Agrees left companion.items
        → IfOk result (λ hearing. IsKept (J.is_of knobs) left hearing.outcome hearing.kept) }
    ensures outcome { (text : List ℕ) → Tells trace (TraceAnswer text)
        → IfOk result (λ hearing. OutcomeAnswer (J.is_of knobs) text companion.items hearing.outcome) }
    ensures heard { (text : List ℕ) → Tells trace (TraceAnswer text)
        → IfOk result (λ hearing. KeptAnswer (J.is_of knobs) text companion.items hearing.outcome hearing.kept) }
    ensures tells { IfOk result (λ hearing. TellsCharges companion.items hearing.tells_charges) }
{
    let text = companion.as_slice();
    let tells_charges = tells_charges(text);
    match record_of(rt, alloc, trace, text) {
        Ok(record) => {
            drop(companion);
            let judged = judged(rt, alloc, &record, knobs, gate)?;
            Ok(Hearing {
                outcome: Outcome::Judged(judged),
                kept: Kept::Record(record),
                tells_charges,
            })
        }
        Err(
            Refused::Text {
                source,
                line,
                cause,
            },
        ) => Ok(Hearing {
            outcome: Outcome::Text {
                source,
                line,
                cause,
            },
            kept: Kept::Companion(companion),
            tells_charges,
        }),
        Err(Refused::Memory) => Err(Memory),
    }
}

/// Judges a record: by a verdict or by its least settings, with auditors in threads of their own that pass this gate.
fn judged<J: Judgement, R: Threads + Wait + Sync, G: Gate>(
    rt: &R,
    alloc: Global,
    joined: &Record,
    knobs: Knobs,
    gate: &G,
) -> Result<J, Memory>
    ensures { IfOk result (J.is_of knobs (record_view joined.now)) }
{
    let finding = if J::is_least() {
        Finding::Least(least_figures(rt, alloc, joined, gate)?)
    } else {
        let closed = audit(rt, alloc, joined, knobs, gate)?;
        Finding::Verdict(closed.verdict)
    };
    J::of_finding(alloc, finding, joined, knobs)
}
