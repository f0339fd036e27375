ghost use Rattle.std.specs.Prelude.{◌≡◌, ◌≢◌, ◌⊎◌, ◌<◌, ℕ, List, Option, Ok, [], false};
ghost use Rattle.std.specs.Prelude.{IfErr, IfOk, OnOk};
ghost use Rattle.audit_input.specs.Texts.{TellsCharges};
ghost use Rattle.stream_audit.specs.Aim.{AimView};
ghost use Rattle.cfs_model.specs.declared.act.Entry.{Entry as Event};
ghost use Rattle.sched_record.specs.Trace.{TraceAnswer};
ghost use Rattle.stream_audit.specs.Companion.{IsFedBy};
ghost use Rattle.stream_audit.specs.Course.{IsClosingOf};
ghost use Rattle.stream_audit.specs.Hearing.{AreBothDone, IsHearingOf, IsOutcome, IsRefusalOf, ReadsBoth, input_of};
ghost use Rattle.stream_audit.specs.Listening.{HasHeardNothing};

use crate::course::{Closing, Course};
use crate::intake::Intake;
use crate::listener::Listener;
use crate::{Aim, Ending, Hearing, Judge, Past, Sizes, StreamOutcome};
use audit_input::{Fault, Feed, Refused};
use cfs_model::Memory;
use entry_reader::EntryReader;
use sched_record::one_trace_answer;
use std::alloc::Global;
use std::thread::Threads;

/// Judges two inputs of any length, which are read a block at a time. Of the trace the text of two windows is held, the
/// events of the reads that are audited together and of those before them, and a row for each task at each processor
/// where it ever stood; of the companion a block, the start, the `idle` lines, and what is said ahead of the trace. A
/// fault of the trace is told before one of the companion. The past takes the last events up to the first fault, if it
/// keeps events.
pub fn judge_stream<R: Threads + Sync, T: Feed, C: Feed, P: Past>(
    rt: &R,
    alloc: Global,
    trace: &mut T,
    companion: &mut C,
    aim: Aim,
    sizes: Sizes,
    past: &mut P,
) -> Result<Hearing, Fault>
    // No read was made yet.
    requires trace { T.calls trace.old ≡ 0 }
    requires companion { C.calls companion.old ≡ 0 }
    ensures outcome { IfOk result (IsHearingOf aim (T.left trace.old) (C.left companion.old)) }
    ensures reads { ReadsBoth
        (input_of (T.left trace.new) (T.calls trace.new) (T.has_failed trace.new) (T.has_ended trace.new))
        (input_of (C.left companion.new) (C.calls companion.new) (C.has_failed companion.new)
        (C.has_ended companion.new)) result }
    ensures unwritten { IfErr result (λ fault. fault ≢ Fault.Write) }
{
    let mut listener = Listener::new(alloc, aim, sizes);
    hear(rt, alloc, trace, companion, &mut listener, past)
}

/// Hears two inputs to their ends, and tells what they came to.
fn hear<R: Threads + Sync, T: Feed, C: Feed, P: Past>(
    rt: &R,
    alloc: Global,
    trace: &mut T,
    companion: &mut C,
    listener: &mut Listener,
    past: &mut P,
) -> Result<Hearing, Fault>
    requires trace { T.calls trace.old ≡ 0 }
    requires companion { C.calls companion.old ≡ 0 }
    requires nothing { (aim : AimView) × HasHeardNothing aim listener.old }
    requires unread { listener.old.intake.blocks.source.reads ≡ 0 }
    requires unfed { IsFedBy 0 false false listener.old.intake.course.companion }
    ensures outcome { (aim : AimView) → HasHeardNothing aim listener.old
        → IfOk result (IsHearingOf aim (T.left trace.old) (C.left companion.old)) }
    ensures reads { ReadsBoth
        (input_of (T.left trace.new) (T.calls trace.new) (T.has_failed trace.new) (T.has_ended trace.new))
        (input_of (C.left companion.new) (C.calls companion.new) (C.has_failed companion.new)
        (C.has_ended companion.new)) result }
    ensures unwritten { IfErr result (λ fault. fault ≢ Fault.Write) }
{
    unread(companion);
    let mut goes_on = true;
    while goes_on {
        goes_on = listener.go_on(rt, alloc, trace, companion, past)?;
    }
    listener.read_rest(rt, alloc, companion, past)?;
    let judge = listener.judge.take();
    let Intake { reader, course, .. } = &mut listener.intake;
    Ok(hearing_of(alloc, reader, course, judge)?)
}

/// Of an input of which no read was made none failed, and none gave the end.
fn unread<F: Feed>(feed: &F)
    requires { F.calls feed.now ≡ 0 }
    ensures heard { F.has_failed feed.now ≡ false }
    ensures goes_on { F.has_ended feed.now ≡ false }
{}

/// What both inputs came to, once they were read to their ends.
fn hearing_of(
    alloc: Global,
    trace: &EntryReader,
    course: &mut Course,
    judge: Option<Judge>,
) -> Result<Hearing, Memory>
    requires { (bytes : List ℕ) × (text : List ℕ) × AreBothDone trace.now course.old judge bytes text }
    ensures { (bytes : List ℕ) (text : List ℕ) → AreBothDone trace.now course.old judge bytes text
        → IfOk result (λ hearing. IsOutcome course.old.aim bytes text hearing.outcome
        × TellsCharges text hearing.tells_charges) }
{
    let tells_charges = course.tells_charges();
    let outcome = outcome_of_both(alloc, trace, course, judge)?;
    Ok(Hearing {
        outcome,
        tells_charges,
    })
}

/// What both inputs came to, whether or not the companion tells charges.
fn outcome_of_both(
    alloc: Global,
    trace: &EntryReader,
    course: &mut Course,
    judge: Option<Judge>,
) -> Result<StreamOutcome, Memory>
    requires { (bytes : List ℕ) × (text : List ℕ) × AreBothDone trace.now course.old judge bytes text }
    ensures { (bytes : List ℕ) (text : List ℕ) → AreBothDone trace.now course.old judge bytes text
        → IfOk result (IsOutcome course.old.aim bytes text) }
{
    one_trace_answer();
    match trace.finish() {
        Ok(()) => outcome_of(course.finish(alloc, judge)?),
        Err(fault) => refused(fault.into()),
    }
}

/// What a trace that can be read and a companion come to.
fn outcome_of(closing: Closing) -> Result<StreamOutcome, Memory>
    ensures { (aim : AimView) (trace companion : List ℕ) (events : List Event) → TraceAnswer trace (Ok events)
        → IsClosingOf aim companion events closing → IfOk result (IsOutcome aim trace companion) }
{
    match closing {
        Closing::Joined(Ending::Judged(finding)) => Ok(StreamOutcome::Judged(finding)),
        Closing::Joined(Ending::Apart(fault)) => refused(fault.into()),
        Closing::Refused(fault) => refused(fault.into()),
    }
}

/// A text is refused.
fn refused(refused: Refused) -> Result<StreamOutcome, Memory>
    ensures { (aim : AimView) (trace companion : List ℕ) → IsRefusalOf trace companion refused
        → IfOk result (IsOutcome aim trace companion) }
{
    match refused {
        Refused::Text {
            source,
            line,
            cause,
        } => Ok(StreamOutcome::Text {
            source,
            line,
            cause,
        }),
        Refused::Memory => Err(Memory),
    }
}
