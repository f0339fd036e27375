//! A verdict, told by its counts alone.
ghost use Rattle.std.specs.Prelude.{◌≡◌};

use crate::reporting::{push_fault, push_refusal};
use crate::verdict::push_counts;
use crate::{Finding, Judgement, Streamed};
use audit_input::{Cause, Source};
use cfs_model::{Knobs, Memory};
use replay_model::{FirstFault, Tally};
use sched_record::Record;
use std::alloc::{AllocError, Global};
use ticket_book::Verdict;

/// A verdict whose report has a run's counts, and no line for each task.
#[derive(Debug, PartialEq, Eq, Drop)]
pub struct Counted {
    pub verdict: Verdict,
}

impl Judgement for Counted {
    ghost use Rattle.std.specs.Prelude.{false};
    ghost use Rattle.audit_report.specs.Report.{IsCounted, counted_fault, counted_lines, refusal_line};

    ghost is_of = { IsCounted };

    ghost is_least = { false };

    ghost replayed_by = { λ knobs. knobs };

    ghost lines = { λ _. counted_lines };

    ghost refusal = { refusal_line };

    ghost fault = { counted_fault };

    fn replayed_by(knobs: Knobs) -> Knobs {
        knobs
    }

    fn is_least() -> bool {
        false
    }

    fn of_finding(
        _alloc: Global,
        finding: Finding,
        _joined: &Record,
        _knobs: Knobs,
    ) -> Result<Counted, Memory> {
        Ok(Counted::of_stream(finding))
    }

    fn runs() {}

    fn push(&self, text: &mut String, _tells_charges: bool) -> Result<(), AllocError> {
        match &self.verdict {
            Verdict::Run(summary) => push_counts(text, summary),
            Verdict::Fault(fault) => push_fault(text, fault),
        }
    }

    fn push_refusal(
        text: &mut String,
        source: Source,
        line: u64,
        cause: Cause,
    ) -> Result<(), AllocError> {
        push_refusal(text, source, line, cause)
    }

    fn fault(&self) -> Option<FirstFault> {
        self.verdict.fault()
    }
}

impl Streamed for Counted {
    ghost use Rattle.audit_report.specs.Report.{counted_lines};

    ghost front = { λ _. counted_lines };

    fn of_stream(finding: Finding) -> Counted {
        let verdict = Verdict::of_stream(finding);
        Counted { verdict }
    }

    fn push_front(&self, text: &mut String, tells_charges: bool) -> Result<(), AllocError> {
        self.push(text, tells_charges)
    }

    fn tallies(&self) -> &[Tally] {
        &[]
    }
}
