//! What is told of a record, with the waits of its tasks.
ghost use Rattle.std.specs.Prelude.{◌≡◌, IfOk, IsSome, IsSomeAnd, None};
ghost use Rattle.cfs_model.specs.Knobs.{KnobsView};
ghost use Rattle.cfs_model.specs.Run.{IsRun};
ghost use Rattle.sched_record.specs.Record.{record_view};
ghost use Rattle.waiting_times.specs.Waits.{AreWaits, first_state, said_events};

use crate::wait_lines::push_waits;
use crate::{Finding, Judgement};
use audit_input::{Cause, Source};
use cfs_model::{Knobs, Memory};
use plain_list::PlainList;
use replay_model::FirstFault;
use sched_record::Record;
use std::alloc::{AllocError, Global};
use waiting_times::{TaskWaits, waits_of};

/// What is told of a record, and behind a run how often and how long each task waited.
#[derive(Debug, Drop)]
pub struct WithWaits<J> {
    pub judged: J,
    /// Of each task of a run, in the order of its report. None where there is a fault.
    pub waits: Option<PlainList<TaskWaits>>,
}

impl<J: Judgement> Judgement for WithWaits<J> {
    ghost use Rattle.std.specs.Prelude.{◌++◌};
    ghost use Rattle.audit_report.specs.Beside.{AreWaitsBeside};
    ghost use Rattle.audit_report.specs.WaitLines.{told_waits_lines};

    ghost is_of = { λ knobs r told. J.is_of knobs r told.judged × AreWaitsBeside r (J.fault told.judged) told.waits };

    ghost is_least = { J.is_least };

    ghost replayed_by = { J.replayed_by };

    ghost lines = { λ tells_charges told. J.lines tells_charges told.judged ++ told_waits_lines told.waits };

    ghost refusal = { J.refusal };

    ghost fault = { λ told. J.fault told.judged };

    fn replayed_by(knobs: Knobs) -> Knobs {
        J::replayed_by(knobs)
    }

    fn is_least() -> bool {
        J::is_least()
    }

    fn of_finding(
        alloc: Global,
        finding: Finding,
        joined: &Record,
        knobs: Knobs,
    ) -> Result<WithWaits<J>, Memory> {
        let judged = J::of_finding(alloc, finding, joined, knobs)?;
        J::runs();
        let waits = waits_beside(alloc, judged.fault(), joined)?;
        Ok(WithWaits { judged, waits })
    }

    fn runs() {
        J::runs();
    }

    fn push(&self, text: &mut String, tells_charges: bool) -> Result<(), AllocError> {
        self.judged.push(text, tells_charges)?;
        match &self.waits {
            Some(waits) => push_waits(text, waits.as_slice()),
            None => Ok(()),
        }
    }

    fn push_refusal(
        text: &mut String,
        source: Source,
        line: u64,
        cause: Cause,
    ) -> Result<(), AllocError> {
        J::push_refusal(text, source, line, cause)
    }

    fn fault(&self) -> Option<FirstFault> {
        self.judged.fault()
    }
}

/// The waits of a record's run; none beside a fault.
fn waits_beside(
    alloc: Global,
    fault: Option<FirstFault>,
    joined: &Record,
) -> Result<Option<PlainList<TaskWaits>>, Memory>
    ensures fault { IsSome fault → IfOk result (λ waits. waits ≡ None) }
    ensures run { fault ≡ None → (knobs : KnobsView)
        → (run : IsRun knobs (record_view joined.now).start (first_state (record_view joined.now))
        (said_events (record_view joined.now)))
        → IfOk result (λ waits. IsSomeAnd waits (AreWaits (record_view joined.now) run.states)) }
{
    match fault {
        Some(_) => Ok(None),
        None => {
            let waits = waits_of(alloc, joined)?;
            Ok(Some(PlainList::from_vec(waits)))
        }
    }
}
