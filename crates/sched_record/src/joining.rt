ghost use Rattle.std.specs.Prelude.{◌≡◌, ◌↔◌, ℕ, ◌<◌, ◌≤◌, Result, All, Any, IfErr, IfNone, IfSome, IsTrue};
ghost use Rattle.std.specs.Bool.{OnFalse, OnTrue};
ghost use Rattle.std.specs.List.{AllPairs};
ghost use Rattle.cfs_model.specs.Touch.{touched};
ghost use Rattle.companion_file.specs.Seen.{companion_view};
ghost use Rattle.companion_file.specs.Order.{IdleRises};
ghost use Rattle.sched_record.specs.Join.{BeginsInTime, GoTogether, HasStrayIdle, IsBeforeStart, IsFirstOutside};
ghost use Rattle.sched_record.specs.Join.{IsFirstStray, IsLeastOf, Refuses, IsInside, NamesBirth, is_birth_of};
ghost use Rattle.sched_record.specs.Join.{is_event_line};
ghost use Rattle.sched_record.specs.Beside.{is_birth_there};
ghost use Rattle.sched_record.specs.Lesser.{lesser_of};
ghost use Rattle.sched_record.specs.Kept.{AreInOrder};
ghost use Rattle.sched_record.specs.Record.{RecordAnswer, RecordView, join_answer_view};
ghost use Rattle.sched_record.specs.Seen.{trace_view};

use crate::on_line::{OnLine, index_from};
use crate::record::Record;
use crate::trace::Trace;
use cfs_model::{Act, Entry, IdleLine, NO_LINE};
use companion_file::Companion;

/// Why a trace and a companion don't go together, in the order of the tests, each over the whole.
#[derive(Clone, Copy, Debug, PartialEq, Eq)]
pub enum JoinCause {
    /// An event touches a processor that the companion doesn't have: the first such event.
    CpuOutside,
    /// The first event comes before the start.
    StartLate,
    /// A claim, a change of a nice value or a charge stands on a line that is no event's, or an idle line of a task
    /// that is born on one that is no birth of its pid: the least such line.
    ClaimNoEvent,
}

/// The first reason why a trace and a companion don't go together.
#[derive(Clone, Copy, Debug, PartialEq, Eq)]
pub struct JoinFault {
    /// The line in the trace, from 1, comments counted.
    pub line: u64,
    pub cause: JoinCause,
}

/// The record of a trace and its companion. A refusal hands both back as they were.
pub fn join(trace: Trace, companion: Companion) -> Result<Record, (Trace, Companion, JoinFault)>
    // What is answered is what joining them gives.
    ensures answered { RecordAnswer (trace_view trace) (companion_view companion) (join_answer_view result) }
    // What joining them gives is answered.
    ensures only { (answer : Result RecordView (ℕ × JoinCause)) →
        RecordAnswer (trace_view trace) (companion_view companion) answer → join_answer_view result ≡ answer }
    // Each refusal, with its line, exactly where it is due.
    ensures cpu_outside { (line : ℕ) → (join_answer_view result ≡ Err (line, JoinCause.CpuOutside))
        ↔ Refuses (trace_view trace) (companion_view companion) line JoinCause.CpuOutside }
    ensures start_late { (line : ℕ) → (join_answer_view result ≡ Err (line, JoinCause.StartLate))
        ↔ Refuses (trace_view trace) (companion_view companion) line JoinCause.StartLate }
    ensures claim_no_event { (line : ℕ) → (join_answer_view result ≡ Err (line, JoinCause.ClaimNoEvent))
        ↔ Refuses (trace_view trace) (companion_view companion) line JoinCause.ClaimNoEvent }
    // A refusal gives both back.
    ensures back { IfErr result (λ back. (back.0 ≡ trace) × (back.1 ≡ companion)) }
{
    join_or_refuse(trace, companion)
}

/// The record, or the first reason to refuse.
fn join_or_refuse(
    trace: Trace,
    companion: Companion,
) -> Result<Record, (Trace, Companion, JoinFault)>
    ensures answered { RecordAnswer (trace_view trace) (companion_view companion) (join_answer_view result) }
    ensures back { IfErr result (λ back. (back.0 ≡ trace) × (back.1 ≡ companion)) }
{
    match refusal_of(trace.events(), &companion) {
        Some(fault) => Err((trace, companion, fault)),
        None => Ok(Record::new(trace, companion)),
    }
}

/// The first reason to refuse, if there is one.
fn refusal_of(events: &[Entry], companion: &Companion) -> Option<JoinFault>
    requires { AreInOrder events.now }
    ensures none { IfNone result (GoTogether events.now (companion_view companion.now)) }
    ensures found { IfSome result (λ fault. Refuses events.now (companion_view companion.now) fault.line fault.cause) }
{
    if let Some(line) = outside_line(events, companion.cpus()) {
        return Some(refusal(line, JoinCause::CpuOutside));
    }
    if let Some(line) = early_line(events, companion.start()) {
        return Some(refusal(line, JoinCause::StartLate));
    }
    let line = stray_line(events, companion)?;
    Some(refusal(line, JoinCause::ClaimNoEvent))
}

fn refusal(line: u32, cause: JoinCause) -> JoinFault
    ensures { result ≡ record { line = line; cause = cause } }
{
    JoinFault {
        line: u64::from(line),
        cause,
    }
}

/// The line of the first event that touches a processor from the count on.
pub fn outside_line(events: &[Entry], cpus: u32) -> Option<u32>
    ensures none { IfNone result (All (IsInside cpus) events.now) }
    ensures found { IfSome result (λ line. IsFirstOutside cpus events.now line) }
{
    for event in events {
        if !event.act.is_within(cpus) {
            return Some(event.line);
        }
    }
    None
}

/// The line of the first event, where it comes before the start.
fn early_line(events: &[Entry], start: u64) -> Option<u32>
    ensures none { IfNone result (BeginsInTime start events.now) }
    ensures found { IfSome result (λ line. IsBeforeStart start events.now line) }
{
    match events {
        [event, ..] if event.time < start => Some(event.line),
        _ => None,
    }
}

/// The least line of a claim, of a change of a nice value or of a charge that is no event's line, or of an idle line
/// with no birth of its pid.
fn stray_line(events: &[Entry], companion: &Companion) -> Option<u32>
    requires { AllPairs (λ a b. a.line < b.line) events.now }
    ensures claimed { IfNone result (All (λ claim. IsTrue (is_event_line events.now claim.line))
        (companion_view companion.now).claims) }
    ensures reniced { IfNone result (All (λ change. IsTrue (is_event_line events.now change.line))
        (companion_view companion.now).nices) }
    ensures born { IfNone result (All (NamesBirth events.now) (companion_view companion.now).idles) }
    ensures charged { IfNone result (All (λ charge. IsTrue (is_event_line events.now charge.line))
        (companion_view companion.now).charges) }
    ensures found { IfSome result (λ line. IsFirstStray events.now (companion_view companion.now) line) }
{
    let claim = first_stray(events, companion.claims());
    let change = first_stray(events, companion.nices());
    let idle = first_stray_idle(events, companion.idles());
    let charge = first_stray(events, companion.charges());
    lesser(claim, lesser(change, lesser(idle, charge)))
}

/// The lesser of the lines that there are.
fn lesser(first: Option<u32>, second: Option<u32>) -> Option<u32>
    ensures { result ≡ lesser_of first second }
{
    match (first, second) {
        (Some(a), Some(b)) => Some(a.min(b)),
        (Some(line), None) | (None, Some(line)) => Some(line),
        (None, None) => None,
    }
}

/// The line of the first idle line that isn't of the start, and on whose line no birth of its pid stands. They and the
/// events are walked side by side.
fn first_stray_idle(events: &[Entry], idles: &[IdleLine]) -> Option<u32>
    requires events_rise { AllPairs (λ a b. a.line < b.line) events.now }
    requires idles_rise { AllPairs IdleRises idles.now }
    ensures { IsLeastOf (HasStrayIdle events.now idles.now) result }
{
    let mut index = 0;
    for idle in idles {
        index = index_from(events, index, idle.line);
        if idle.line != NO_LINE && !is_birth_at(events, index, *idle) {
            return Some(idle.line);
        }
    }
    None
}

/// Whether the event at an index is the birth that an idle line speaks of.
fn is_birth_at(events: &[Entry], index: usize, idle: IdleLine) -> bool
    ensures { result ≡ is_birth_there events.now index idle }
{
    match events.get(index) {
        Some(event) => event.line == idle.line && event.act.begun() == Some(idle.pid),
        None => false,
    }
}

/// The line of the first of these items that stands on no event's line. Items and events are walked side by side.
fn first_stray<T: OnLine>(events: &[Entry], items: &[T]) -> Option<u32>
    requires events_rise { AllPairs (λ a b. a.line < b.line) events.now }
    requires items_rise { AllPairs (λ a b. T.line a < T.line b) items.now }
    ensures none { IfNone result (All (λ item. IsTrue (is_event_line events.now (T.line item))) items.now) }
    ensures said { IfSome result (λ line. Any (λ item. T.line item ≡ line) items.now) }
    ensures stray { IfSome result (λ line. ¬ IsTrue (is_event_line events.now line)) }
    ensures earlier { IfSome result (λ line. All (λ item. T.line item < line
        → IsTrue (is_event_line events.now (T.line item))) items.now) }
{
    let mut index = 0;
    for item in items {
        let line = item.line();
        index = index_from(events, index, line);
        if index == events.len() || events[index].line != line {
            return Some(line);
        }
    }
    None
}
