ghost use Rattle.std.specs.Prelude.{◌≡◌, ◌++◌, ℕ, Bool, IfOk, List, None, OnOk, Option, string_bytes};
ghost use Rattle.audit_input.specs.declared.cause.Cause.{Cause};
ghost use Rattle.audit_input.specs.declared.source.Source.{Source};
ghost use Rattle.least_places.specs.Finding.{IsFinding};
ghost use Rattle.cfs_model.specs.Knobs.{KnobsView};
ghost use Rattle.cfs_model.specs.Run.{IsRun};
ghost use Rattle.replay_model.specs.declared.first_fault.FirstFault.{FirstFault};
ghost use Rattle.sched_record.specs.Record.{RecordView, record_view};
ghost use Rattle.waiting_times.specs.Waits.{first_state, said_events};

use crate::Finding;
use audit_input::{Cause, Source};
use cfs_model::{Knobs, Memory};
use replay_model::FirstFault;
use sched_record::Record;
use std::alloc::{AllocError, Global};

/// What is told of a record: a verdict, or the least settings.
pub trait Judgement: Drop {
    /// Whether it is that of a record, where these settings are asked for.
    ghost is_of: { KnobsView → RecordView → Self → Type 0 };

    /// Whether it is made of the least settings, and not of a verdict.
    ghost is_least: { Bool };

    /// By which settings the processors are then replayed.
    ghost replayed_by: { KnobsView → KnobsView };

    /// What a report says of it, by whether the companion tells charges.
    ghost lines: { Bool → Self → List ℕ };

    /// What a report says in its place where a text is refused: which text, at which line and why.
    ghost refusal: { Source → ℕ → Cause → List ℕ };

    /// The fault that it names, if it does.
    ghost fault: { Self → Option FirstFault };

    /// By which settings the processors are replayed, where these are asked for.
    fn replayed_by(knobs: Knobs) -> Knobs
        ensures { result ≡ replayed_by knobs };

    /// Whether it is made of the least settings, and not of a verdict.
    fn is_least() -> bool
        ensures { result ≡ is_least };

    /// That of a record, by what is found of it.
    fn of_finding(
        alloc: Global,
        finding: Finding,
        joined: &Record,
        knobs: Knobs,
    ) -> Result<Self, Memory>
        requires { IsFinding is_least knobs (record_view joined.now) finding }
        ensures { IfOk result (is_of knobs (record_view joined.now)) };

    /// A law: where it names no fault, the record's events are a run at some settings.
    fn runs()
        ensures { (knobs : KnobsView) (r : RecordView) (judged : Self) → is_of knobs r judged
            → fault judged ≡ None → (at : KnobsView) × IsRun at r.start (first_state r) (said_events r) };

    /// Writes what a report says of it, by whether the companion tells charges.
    fn push(&self, text: &mut String, tells_charges: bool) -> Result<(), AllocError>
        ensures { OnOk result (string_bytes text.new ≡ string_bytes text.old ++ lines tells_charges self.now) };

    /// Writes what a report says in its place where a text is refused.
    fn push_refusal(
        text: &mut String,
        source: Source,
        line: u64,
        cause: Cause,
    ) -> Result<(), AllocError>
        ensures { OnOk result (string_bytes text.new ≡ string_bytes text.old ++ refusal source line cause) };

    /// The fault that it names, if it does.
    fn fault(&self) -> Option<FirstFault>
        ensures { result ≡ fault self.now };
}
