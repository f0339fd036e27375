ghost use Rattle.std.specs.Prelude.{◌≡◌, ◌++◌, IfOk, OnOk, string_bytes};
ghost use Rattle.audit_report.specs.Report.{fault_line, least_lines, refusal_line, report_by, report_of};
ghost use Rattle.audit_report.specs.Report.{verdict_lines};

use crate::{Judgement, Outcome};
use audit_input::{Cause, Source};
use cfs_model::Memory;
use least_places::LeastFigures;
use replay_model::FirstFault;
use std::alloc::{AllocError, Global};

/// What is written for an outcome.
pub fn report(alloc: Global, outcome: &Outcome) -> Result<Vec<u8>, Memory>
    ensures { IfOk result (λ text. text.items ≡ report_of verdict_lines outcome.now) }
{
    // No verdict's report tells a drift.
    report_on(alloc, outcome, false)
}

/// What is written for the outcome of a search for the least settings, by whether the companion tells charges: with
/// those it has a line of the drift.
pub fn least_report(
    alloc: Global,
    outcome: &Outcome<LeastFigures>,
    tells_charges: bool,
) -> Result<Vec<u8>, Memory>
    ensures { IfOk result (λ text. text.items ≡ report_of (least_lines tells_charges) outcome.now) }
{
    report_on(alloc, outcome, tells_charges)
}

/// What is written for what was judged, or for a refusal, by whether the companion tells charges.
pub(crate) fn report_on<J: Judgement>(
    alloc: Global,
    outcome: &Outcome<J>,
    tells_charges: bool,
) -> Result<Vec<u8>, Memory>
    ensures { IfOk result (λ text. text.items ≡ report_by J.refusal (J.lines tells_charges) outcome.now) }
{
    let text = text_of(alloc, outcome, tells_charges)?;
    Ok(text.into_bytes())
}

fn text_of<J: Judgement>(
    alloc: Global,
    outcome: &Outcome<J>,
    tells_charges: bool,
) -> Result<String, AllocError>
    ensures { IfOk result (λ text. string_bytes text ≡ report_by J.refusal (J.lines tells_charges) outcome.now) }
{
    let mut text = String::new(alloc);
    match outcome {
        Outcome::Judged(judged) => judged.push(&mut text, tells_charges)?,
        Outcome::Text {
            source,
            line,
            cause,
        } => J::push_refusal(&mut text, *source, *line, *cause)?,
    }
    Ok(text)
}

/// Writes where a fault is, and what it is.
pub(crate) fn push_fault(text: &mut String, fault: &FirstFault) -> Result<(), AllocError>
    ensures { OnOk result (string_bytes text.new ≡ string_bytes text.old ++ fault_line fault.now) }
{
    let FirstFault {
        line,
        cpu,
        pid,
        kind,
    } = *fault;
    let (name, words) = kind.words();
    writeln!(
        text,
        "fault line {line} cpu {cpu} pid {pid} {name}: {words}"
    )
}

/// Writes which text is refused, where and why.
pub(crate) fn push_refusal(
    text: &mut String,
    source: Source,
    line: u64,
    cause: Cause,
) -> Result<(), AllocError>
    ensures { OnOk result (string_bytes text.new ≡ string_bytes text.old ++ refusal_line source line cause) }
{
    let source = source.word();
    let cause = cause.word();
    writeln!(text, "refused {source} line {line} {cause}")
}
