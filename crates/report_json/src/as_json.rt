//! What is told of a record, as one JSON object.
ghost use Rattle.std.specs.Prelude.{◌≡◌, ◌++◌, OnOk, string_bytes};
ghost use Rattle.audit_report.specs.Report.{line_of};
ghost use Rattle.report_json.specs.Json.{object};

use crate::faults::{push_fault, push_refusal, time_of};
use crate::{NameTold, Told};
use audit_input::{Cause, Source};
use audit_report::{Finding, Judgement};
use cfs_model::{Knobs, Memory};
use fault_bounds::{Bound, bound_of};
use replay_model::FirstFault;
use sched_record::Record;
use std::alloc::{AllocError, Global};

/// What is told of a record, whose report is one JSON object on a line.
#[derive(Debug, Drop)]
pub struct AsJson<J> {
    pub judged: J,
    /// When the event on the fault's line happened, in nanoseconds; 0 where there is no fault.
    pub time: u64,
    /// The two numbers that the fault's rule compares, where it compares any.
    pub bound: Option<Bound>,
    /// The name of the fault's task.
    pub name: NameTold,
}

impl<J: Told> Judgement for AsJson<J> {
    ghost use Rattle.report_json.specs.Objects.{refusal_object};
    ghost use Rattle.report_json.specs.Timed.{is_timed_alone, object_by, timed_fault};

    ghost is_of = { λ knobs. is_timed_alone (J.replayed_by knobs) J.fault (J.is_of knobs) };

    ghost is_least = { J.is_least };

    ghost replayed_by = { J.replayed_by };

    ghost lines = { object_by J.fault J.members };

    ghost refusal = { refusal_object };

    ghost fault = { timed_fault J.fault };

    fn replayed_by(knobs: Knobs) -> Knobs {
        J::replayed_by(knobs)
    }

    fn is_least() -> bool {
        J::is_least()
    }

    fn of_finding(
        alloc: Global,
        finding: Finding,
        joined: &Record,
        knobs: Knobs,
    ) -> Result<AsJson<J>, Memory> {
        let judged = J::of_finding(alloc, finding, joined, knobs)?;
        let fault = judged.fault();
        let bound = match fault {
            Some(fault) => bound_of(alloc, joined, J::replayed_by(knobs), fault)?,
            None => None,
        };
        Ok(AsJson {
            judged,
            time: time_of(fault, joined),
            bound,
            name: NameTold::Untold,
        })
    }

    fn runs() {
        J::runs();
    }

    fn push(&self, text: &mut String, tells_charges: bool) -> Result<(), AllocError> {
        match self.judged.fault() {
            Some(fault) => push_fault(text, fault, self.time, &self.name, self.bound),
            None => push_judged(text, &self.judged, tells_charges),
        }
    }

    fn push_refusal(
        text: &mut String,
        source: Source,
        line: u64,
        cause: Cause,
    ) -> Result<(), AllocError> {
        push_refusal(text, source, line, cause)
    }

    fn fault(&self) -> Option<FirstFault> {
        self.judged.fault()
    }
}

/// Writes what is told where no fault is named.
fn push_judged<J: Told>(
    text: &mut String,
    judged: &J,
    tells_charges: bool,
) -> Result<(), AllocError>
    ensures { OnOk result
        (string_bytes text.new ≡ string_bytes text.old ++ line_of (object (J.members tells_charges judged.now))) }
{
    write!(text, "{{")?;
    judged.push_members(text, tells_charges)?;
    writeln!(text, "}}")
}
