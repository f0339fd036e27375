//! The report of an audit whose record is kept, the states at its events, and behind them why that is a fault, or which
//! line is refused and why.
ghost use Rattle.std.specs.Prelude.{◌≡◌};

use crate::explaining::{Texts, explain};
use crate::fault_naming::FaultNaming;
use crate::states::{file_of, write_states_to};
use audit_command::{Answer, Failure, FrontOf, Lengths, kept_input, watched_input};
use audit_input::{Keeping, KeepingFeed};
use given_texts::Input;
use json_audit::{AsJson, Told, judge_json};
use recent_past::RecentPast;
use sched_audit::{
    Fault, Feed, Hearing, Judgement, Kept, OpenGate, Outcome, Request, SinkOf, Status, judge,
    write_report,
};
use std::alloc::Global;
use std::io;
use std::rt::Files;
use std::sync::Wait;
use std::thread::Threads;

/// Judges both inputs, and writes the report, and what of the record is asked for beside it.
pub(crate) fn answer_kept<J: Judgement, R: Files + Print + Eprint + Threads + Wait + Sync>(
    rt: &R,
    alloc: Global,
    request: &Request<'_>,
    trace: Input<R::File>,
    companion: Input<R::File>,
    lengths: Lengths,
) -> Result<Answer, Failure> {
    let keeping = if request.explain {
        Keeping::All
    } else {
        Keeping::Nothing
    };
    let mut trace = kept_input(rt, alloc, trace, lengths.trace, keeping);
    let mut companion = kept_input(rt, alloc, companion, lengths.companion, keeping);
    answer_of::<J, _, _, _>(rt, alloc, request, &mut trace, &mut companion)
}

/// The same, of inputs of which nothing was read.
fn answer_of<'a, J: Judgement, R: Files + Print + Threads + Wait + Sync, F: Feed, C: Feed>(
    rt: &'a R,
    alloc: Global,
    request: &'a Request<'a>,
    trace: &'a mut KeepingFeed<F>,
    companion: &'a mut KeepingFeed<C>,
) -> Result<Answer, Failure>
    requires trace { ⟦<KeepingFeed<F> as Feed>⟧.calls trace.old ≡ 0 }
    requires companion { ⟦<KeepingFeed<C> as Feed>⟧.calls companion.old ≡ 0 }
{
    let hearing: Hearing<J> = judge(rt, alloc, trace, companion, request.knobs, &OpenGate)?;
    let mut texts = Texts::of(rt, alloc, request, trace, companion);
    write_all_of(rt, alloc, request, &hearing, &mut texts)
}

/// Writes what is asked for of what was judged, and an explanation behind it.
fn write_all_of<J: Judgement, R: Files + Print, F: Feed, C: Feed>(
    rt: &R,
    alloc: Global,
    request: &Request<'_>,
    hearing: &Hearing<J>,
    texts: &mut Texts<'_, R, F, C>,
) -> Result<Answer, Failure> {
    let answer = write_kept(rt, alloc, request, hearing)?;
    if request.explain && answer.status != Status::Yes {
        explain_kept(rt, alloc, request, hearing, texts)?;
    }
    Ok(answer)
}

/// Explains a fault by the record, or a refusal.
fn explain_kept<J: Judgement, R: Files + Print, F: Feed, C: Feed>(
    rt: &R,
    alloc: Global,
    request: &Request<'_>,
    hearing: &Hearing<J>,
    texts: &mut Texts<'_, R, F, C>,
) -> Result<(), Fault> {
    let past = past_of(alloc, request, hearing)?;
    explain(rt, alloc, request, &hearing.outcome, &past, texts)
}

/// What was before the fault, where there is one.
fn past_of<J: Judgement>(
    alloc: Global,
    request: &Request<'_>,
    hearing: &Hearing<J>,
) -> Result<RecentPast, Fault> {
    if let (Outcome::Judged(judged), Kept::Record(record)) = (&hearing.outcome, &hearing.kept) {
        if let Some(fault) = judged.fault() {
            let knobs = J::replayed_by(request.knobs);
            return Ok(RecentPast::of_record(alloc, record, knobs, fault)?);
        }
    }
    Ok(RecentPast::unkept(alloc))
}

/// Judges both inputs, and writes the report as one JSON object, and the states that are asked for beside it.
pub(crate) fn answer_kept_json<J: Told, R: Files + Print + Eprint + Threads + Wait + Sync>(
    rt: &R,
    alloc: Global,
    request: &Request<'_>,
    trace: Input<R::File>,
    companion: Input<R::File>,
    lengths: Lengths,
) -> Result<Answer, Failure> {
    let mut trace = kept_input(rt, alloc, trace, lengths.trace, Keeping::All);
    let mut companion = watched_input(rt, companion, lengths.companion);
    json_of::<J, _, _, _>(rt, alloc, request, &mut trace, &mut companion)
}

/// The same, of inputs of which nothing was read.
fn json_of<J: Told, R: Files + Print + Threads + Wait + Sync, F: Feed, C: Feed>(
    rt: &R,
    alloc: Global,
    request: &Request<'_>,
    trace: &mut KeepingFeed<F>,
    companion: &mut C,
) -> Result<Answer, Failure>
    requires trace { ⟦<KeepingFeed<F> as Feed>⟧.calls trace.old ≡ 0 }
    requires companion { C.calls companion.old ≡ 0 }
{
    let mut naming = FaultNaming::new(rt, alloc, request.trace);
    let hearing: Hearing<AsJson<J>> = judge_json(
        rt,
        alloc,
        trace,
        companion,
        request.knobs,
        &OpenGate,
        &mut naming,
    )?;
    write_kept(rt, alloc, request, &hearing)
}

/// Makes the file of the states that are asked for, writes the report, and then the states.
fn write_kept<J: Judgement, R: Files + Print>(
    rt: &R,
    alloc: Global,
    request: &Request<'_>,
    hearing: &Hearing<J>,
) -> Result<Answer, Failure> {
    let states = file_of(rt, request.states)?;
    let mut out = FrontOf::new(SinkOf::new(io::writer(rt)));
    let status = write_report(alloc, &hearing.outcome, hearing.tells_charges, &mut out)?;
    if let Some(file) = states {
        write_states_to(alloc, request.knobs, hearing, file)?;
    }
    Ok(out.answer(status))
}
