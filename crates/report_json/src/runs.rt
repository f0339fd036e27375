//! A verdict, whole or by its counts.
ghost use Rattle.std.specs.Prelude.{◌≡◌, ◌++◌, OnOk, string_bytes};
ghost use Rattle.report_json.specs.Objects.{count_members, run_members};
ghost use Rattle.ticket_book.specs.SummaryView.{summary_view};

use crate::Told;
use crate::element::{Element, push_array};
use audit_report::Counted;
use replay_model::Tally;
use std::alloc::AllocError;
use ticket_book::{Summary, Verdict};

impl Told for Verdict {
    ghost use Rattle.report_json.specs.Objects.{verdict_members};

    ghost members = { λ _. verdict_members };

    fn push_members(&self, text: &mut String, _tells_charges: bool) -> Result<(), AllocError> {
        match self {
            Verdict::Run(summary) => push_run(text, summary),
            Verdict::Fault(_) => Ok(()),
        }
    }
}

impl Told for Counted {
    ghost use Rattle.report_json.specs.Objects.{counted_members};

    ghost members = { λ _. counted_members };

    fn push_members(&self, text: &mut String, _tells_charges: bool) -> Result<(), AllocError> {
        match &self.verdict {
            Verdict::Run(summary) => push_counts(text, summary),
            Verdict::Fault(_) => Ok(()),
        }
    }
}

/// Writes that it is a run, and what it did.
fn push_run(text: &mut String, summary: &Summary) -> Result<(), AllocError>
    ensures { OnOk result (string_bytes text.new ≡ string_bytes text.old ++ run_members (summary_view summary.now)) }
{
    push_counts(text, summary)?;
    write!(text, ",\"tasks\":")?;
    push_array(text, summary.tallies.as_slice())
}

/// Writes that it is a run, and how often each thing happened in it.
fn push_counts(text: &mut String, summary: &Summary) -> Result<(), AllocError>
    ensures { OnOk result (string_bytes text.new ≡ string_bytes text.old ++ count_members (summary_view summary.now)) }
{
    let Summary {
        events,
        switches,
        migrations,
        births,
        deaths,
        ..
    } = summary;
    write!(
        text,
        "\"verdict\":\"run\",\"events\":{events},\"switches\":{switches},\"migrations\":{migrations},\"births\":{births},\"deaths\":{deaths}"
    )
}

impl Element for Tally {
    ghost use Rattle.report_json.specs.Objects.{tally_object};

    ghost text_of = { tally_object };

    fn push(&self, text: &mut String) -> Result<(), AllocError> {
        let Tally {
            pid,
            ran,
            charged,
            picks,
        } = self;
        write!(
            text,
            "{{\"pid\":{pid},\"ran\":\"{ran}\",\"charged\":\"{charged}\",\"picks\":{picks}}}"
        )
    }
}
