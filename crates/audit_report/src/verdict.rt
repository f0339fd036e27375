//! A verdict, as an audit of two texts tells it.
ghost use Rattle.std.specs.Prelude.{◌≡◌, ◌+◌, ◌≤◌, ◌++◌, IsOk, OnOk, length, string_bytes, string_capacity, string_len};
ghost use Rattle.ticket_book.specs.SummaryView.{summary_view};
ghost use Rattle.audit_report.specs.Report.{count_lines, run_lines, tally_line, tally_lines};

use crate::reporting::{push_fault, push_refusal};
use crate::{Finding, Judgement, Streamed};
use audit_input::{Cause, Source};
use cfs_model::{Knobs, Memory};
use itoa::{Buffer, Integer};
use replay_model::{FirstFault, Tally};
use sched_record::Record;
use std::alloc::{AllocError, Global};
use ticket_book::{Summary, Verdict};

/// No more bytes than so many a tally's line has, mostly.
const TALLY_BYTES: usize = 64;

/// No more bytes than so many a tally's line ever has.
pub(crate) const MOST_TALLY_BYTES: usize = 160;

// Writes lines at the end of a text, each with its line feed.
macro_rules! lines {
    ($text:ident; $($line:literal),+) => {{
        $(writeln!($text, $line)?;)+
    }};
}

impl Judgement for Verdict {
    ghost use Rattle.std.specs.Prelude.{false};
    ghost use Rattle.audit_report.specs.Report.{refusal_line, verdict_fault, verdict_lines};
    ghost use Rattle.ticket_book.specs.Verdict.{IsVerdict};

    ghost is_of = { IsVerdict };

    ghost is_least = { false };

    ghost replayed_by = { λ knobs. knobs };

    ghost lines = { λ _. verdict_lines };

    ghost refusal = { refusal_line };

    ghost fault = { verdict_fault };

    fn replayed_by(knobs: Knobs) -> Knobs {
        knobs
    }

    fn is_least() -> bool {
        false
    }

    fn of_finding(
        _alloc: Global,
        finding: Finding,
        _joined: &Record,
        _knobs: Knobs,
    ) -> Result<Verdict, Memory> {
        Ok(Verdict::of_stream(finding))
    }

    fn runs() {}

    fn push(&self, text: &mut String, _tells_charges: bool) -> Result<(), AllocError> {
        match self {
            Verdict::Run(summary) => push_run(text, summary),
            Verdict::Fault(fault) => push_fault(text, fault),
        }
    }

    fn push_refusal(
        text: &mut String,
        source: Source,
        line: u64,
        cause: Cause,
    ) -> Result<(), AllocError> {
        push_refusal(text, source, line, cause)
    }

    fn fault(&self) -> Option<FirstFault> {
        match self {
            Verdict::Run(_) => None,
            Verdict::Fault(fault) => Some(*fault),
        }
    }
}

impl Streamed for Verdict {
    ghost use Rattle.audit_report.specs.Report.{counts_of};

    ghost front = { λ _. counts_of };

    fn of_stream(finding: Finding) -> Verdict {
        match finding {
            Finding::Verdict(verdict) => verdict,
            Finding::Least(_) => unreachable!(),
        }
    }

    fn push_front(&self, text: &mut String, _tells_charges: bool) -> Result<(), AllocError> {
        match self {
            Verdict::Run(summary) => push_counts(text, summary),
            Verdict::Fault(fault) => push_fault(text, fault),
        }
    }

    fn tallies(&self) -> &[Tally] {
        match self {
            Verdict::Run(summary) => summary.tallies.as_slice(),
            Verdict::Fault(_) => &[],
        }
    }
}

/// Writes that it is a run, and what it did.
fn push_run(text: &mut String, summary: &Summary) -> Result<(), AllocError>
    ensures { OnOk result (string_bytes text.new ≡ string_bytes text.old ++ run_lines (summary_view summary.now)) }
{
    push_counts(text, summary)?;
    push_tallies(text, summary.tallies.as_slice())
}

/// Writes that it is a run, and how often each thing happened in it.
pub(crate) fn push_counts(text: &mut String, summary: &Summary) -> Result<(), AllocError>
    ensures { OnOk result (string_bytes text.new ≡ string_bytes text.old ++ count_lines (summary_view summary.now)) }
{
    let Summary {
        events,
        switches,
        migrations,
        births,
        deaths,
        ..
    } = summary;
    lines!(text;
        "run", "events {events}", "switches {switches}", "migrations {migrations}", "births {births}", "deaths {deaths}"
    );
    Ok(())
}

/// Writes each task's tally. All numbers go through one buffer of digits: there may be many tasks, and a format takes
/// twice as long for each.
fn push_tallies(text: &mut String, tallies: &[Tally]) -> Result<(), AllocError>
    ensures { OnOk result (string_bytes text.new ≡ string_bytes text.old ++ tally_lines tallies.now) }
{
    // At once, so that a long text isn't moved as it grows.
    text.reserve(tallies.len().saturating_mul(TALLY_BYTES))?;
    let mut digits = Buffer::new();
    for tally in tallies {
        push_tally(text, tally, &mut digits)?;
    }
    Ok(())
}

/// Writes one task's tally where there is room for the longest one. Takes no memory.
pub(crate) fn put_tally(text: &mut String, tally: &Tally, digits: &mut Buffer)
    requires { string_len text.old + 160 ≤ string_capacity text.old }
    ensures bytes { string_bytes text.new ≡ string_bytes text.old ++ tally_line tally.now }
    ensures room { string_capacity text.old ≤ string_capacity text.new }
{
    match push_tally(text, tally, digits) {
        Ok(()) => {}
        Err(_) => unreachable!(),
    }
}

/// Writes one task's tally.
fn push_tally(text: &mut String, tally: &Tally, digits: &mut Buffer) -> Result<(), AllocError>
    ensures bytes { OnOk result (string_bytes text.new ≡ string_bytes text.old ++ tally_line tally.now) }
    ensures room { string_capacity text.old ≤ string_capacity text.new }
    ensures fits { string_len text.old + 160 ≤ string_capacity text.old → IsOk result }
{
    let Tally {
        ran,
        charged,
        picks,
        pid,
    } = *tally;
    push_line(text, pid, ran, charged, picks, digits)
}

/// Writes the line of a tally, by what it has.
#[inline(always)]
fn push_line(
    text: &mut String,
    pid: u32,
    ran: u128,
    charged: u128,
    picks: u64,
    digits: &mut Buffer,
) -> Result<(), AllocError>
    ensures bytes { OnOk result (string_bytes text.new ≡ string_bytes text.old ++ tally_line (record {
      ran = ran;
      charged = charged;
      picks = picks;
      pid = pid;
    })) }
    ensures room { string_capacity text.old ≤ string_capacity text.new }
    ensures fits { string_len text.old + 160 ≤ string_capacity text.old → IsOk result }
{
    push_number(text, "task ", pid, digits)?;
    push_number(text, " ran ", ran, digits)?;
    push_number(text, " charged ", charged, digits)?;
    push_number(text, " picks ", picks, digits)?;
    text.push_str("\n")
}

/// Writes a number behind these words.
#[inline(always)]
fn push_number<I: Integer>(
    text: &mut String,
    words: &str,
    number: I,
    digits: &mut Buffer,
) -> Result<(), AllocError>
    ensures bytes { OnOk result (string_bytes text.new ≡ string_bytes text.old ++ (words.now ++ I.text number)) }
    ensures len { OnOk result
        (string_len text.new ≡ string_len text.old + (length words.now + length (I.text number))) }
    ensures room { string_capacity text.old ≤ string_capacity text.new }
    ensures fits { string_len text.old + (length words.now + length (I.text number)) ≤ string_capacity text.old
        → IsOk result }
{
    text.push_str(words)?;
    text.push_str(digits.format(number))
}
