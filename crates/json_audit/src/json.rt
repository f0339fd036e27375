//! The theorems, where the report is asked for as JSON.

ghost use Rattle.std.specs.Prelude.{◌≡◌, ◌≢◌, false, IfErr, IfOk, string_bytes};
ghost use Rattle.report_json.specs.Objects.{refusal_object};
ghost use Rattle.report_json.specs.Timed.{is_timed_alone, is_timed_named, object_by, timed_fault};
ghost use Rattle.json_audit.specs.Json.{IsNamedIn, told_with, with_name};
ghost use Rattle.sched_audit.specs.Run.{IsKept, IsOutcomeOf, Reads, RunsBy, input_of, one_by_one, output_of};

use crate::{AsJson, NameTold, TaskNaming, Told};
use cfs_model::{Knobs, Memory};
use sched_audit::{
    Fault, Feed, Gate, Hearing, Judgement, Kept, Outcome, Sink, Status, judge, run_judged,
    write_report,
};
use std::alloc::Global;
use std::sync::Wait;
use std::thread::Threads;

/// Reads the trace to its end, then the companion, judges them, and writes what is told of them as one JSON object.
pub fn run_json<J: Told, R: Threads + Wait + Sync, T: Feed, C: Feed, G: Gate, S: Sink>(
    rt: &R,
    alloc: Global,
    trace: &mut T,
    companion: &mut C,
    knobs: Knobs,
    gate: &G,
    out: &mut S,
) -> Result<Status, Fault>
    // No read was made yet, and no write failed.
    requires trace { T.calls trace.old ≡ 0 }
    requires companion { C.calls companion.old ≡ 0 }
    requires out { S.has_failed out.old ≡ false }
    // The object of what was judged, or of a refusal.
    ensures { RunsBy one_by_one refusal_object (is_timed_alone (J.replayed_by knobs) J.fault (J.is_of knobs))
        (object_by J.fault J.members)
        (timed_fault J.fault)
        (input_of (T.left trace.old) (T.left trace.new) (T.calls trace.new) (T.has_failed trace.new)
        (T.has_ended trace.new)) (input_of (C.left companion.old) (C.left companion.new) (C.calls companion.new)
        (C.has_failed companion.new) (C.has_ended companion.new))
        (output_of (S.taken out.old) (S.taken out.new) (S.has_failed out.new)) result }
{
    run_judged::<AsJson<J>, _, _, _, _, _>(rt, alloc, trace, companion, knobs, gate, out)
}

/// The same, but a fault's object has the name of its task.
pub fn run_json_named<
    J: Told,
    R: Threads + Wait + Sync,
    T: Feed,
    C: Feed,
    G: Gate,
    N: TaskNaming<T>,
    S: Sink,
>(
    rt: &R,
    alloc: Global,
    trace: &mut T,
    companion: &mut C,
    knobs: Knobs,
    gate: &G,
    naming: &mut N,
    out: &mut S,
) -> Result<Status, Fault>
    requires trace { T.calls trace.old ≡ 0 }
    requires companion { C.calls companion.old ≡ 0 }
    requires out { S.has_failed out.old ≡ false }
    // The object of what was judged, or of a refusal.
    ensures { RunsBy one_by_one refusal_object (is_timed_named (J.replayed_by knobs) J.fault (J.is_of knobs))
        (object_by J.fault J.members)
        (timed_fault J.fault)
        (input_of (T.left trace.old) (T.left trace.new) (T.calls trace.new) (T.has_failed trace.new)
        (T.has_ended trace.new)) (input_of (C.left companion.old) (C.left companion.new) (C.calls companion.new)
        (C.has_failed companion.new) (C.has_ended companion.new))
        (output_of (S.taken out.old) (S.taken out.new) (S.has_failed out.new)) result }
{
    let hearing: Hearing<AsJson<J>> = judge_json(rt, alloc, trace, companion, knobs, gate, naming)?;
    let Hearing {
        outcome,
        kept,
        tells_charges,
    } = hearing;
    // What was read is given back before the report is written.
    drop(kept);
    write_report(alloc, &outcome, tells_charges, out)
}

/// Reads the trace to its end, then the companion, and judges them; a fault's object has the name of its task. What was
/// read is kept beside the outcome.
pub fn judge_json<J: Told, R: Threads + Wait + Sync, T: Feed, C: Feed, G: Gate, N: TaskNaming<T>>(
    rt: &R,
    alloc: Global,
    trace: &mut T,
    companion: &mut C,
    knobs: Knobs,
    gate: &G,
    naming: &mut N,
) -> Result<Hearing<AsJson<J>>, Fault>
    // No read was made yet.
    requires trace { T.calls trace.old ≡ 0 }
    requires companion { C.calls companion.old ≡ 0 }
    ensures outcome { IfOk result (λ hearing.
        IsOutcomeOf (is_timed_named (J.replayed_by knobs) J.fault (J.is_of knobs)) (T.left trace.old)
        (C.left companion.old) hearing.outcome hearing.tells_charges) }
    ensures reads { Reads
        (input_of (T.left trace.old) (T.left trace.new) (T.calls trace.new) (T.has_failed trace.new)
        (T.has_ended trace.new)) (input_of (C.left companion.old) (C.left companion.new) (C.calls companion.new)
        (C.has_failed companion.new) (C.has_ended companion.new)) result }
    ensures kept { IfOk result (λ hearing.
        IsKept (is_timed_named (J.replayed_by knobs) J.fault (J.is_of knobs)) (C.left companion.old) hearing.outcome
        hearing.kept) }
    ensures unwritten { IfErr result (λ fault. fault ≢ Fault.Write) }
{
    let hearing: Hearing<AsJson<J>> = judge(rt, alloc, trace, companion, knobs, gate)?;
    let name = name_of(&hearing, trace, naming)?;
    let Hearing {
        outcome,
        kept,
        tells_charges,
    } = hearing;
    Ok(Hearing {
        outcome: outcome_with(outcome, name),
        kept,
        tells_charges,
    })
}

/// What is said of the name of a fault's task; nothing where there is no fault.
fn name_of<J: Told, T, N: TaskNaming<T>>(
    hearing: &Hearing<AsJson<J>>,
    trace: &T,
    naming: &mut N,
) -> Result<NameTold, Memory>
    ensures { IfOk result (IsNamedIn J.fault hearing.now.outcome hearing.now.kept) }
{
    match (&hearing.outcome, &hearing.kept) {
        (Outcome::Judged(told), Kept::Record(joined)) => match told.fault() {
            Some(fault) => Ok(NameTold::Told(naming.name(joined, fault, trace)?)),
            None => Ok(NameTold::Untold),
        },
        _ => Ok(NameTold::Untold),
    }
}

/// The outcome with this said of the name of a fault's task.
fn outcome_with<J: Told>(outcome: Outcome<AsJson<J>>, name: NameTold) -> Outcome<AsJson<J>>
    ensures { result ≡ with_name name outcome }
{
    match outcome {
        Outcome::Judged(told) => Outcome::Judged(told_with(told, name)),
        Outcome::Text {
            source,
            line,
            cause,
        } => Outcome::Text {
            source,
            line,
            cause,
        },
    }
}

/// What is told of a record, with this said of the name of a fault's task.
fn told_with<J: Told>(told: AsJson<J>, name: NameTold) -> AsJson<J>
    ensures { result ≡ told_with name told }
{
    let AsJson {
        judged,
        time,
        bound,
        ..
    } = told;
    AsJson {
        judged,
        time,
        bound,
        name,
    }
}
