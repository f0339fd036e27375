//! Least settings and their places, as a search over two texts tells them.
ghost use Rattle.std.specs.Prelude.{◌≡◌, ◌++◌, OnOk, Some, string_bytes};
ghost use Rattle.audit_report.specs.Report.{lines_of_settings, place_words, setting_line, setting_lines, told_settings};

use crate::reporting::{push_fault, push_refusal};
use crate::{Finding, Judgement, Streamed};
use audit_input::{Cause, Source};
use cfs_model::{Knobs, Memory, Setting};
use least_places::{LeastFigures, Place, Places};
use replay_model::{FirstFault, Tally};
use sched_record::Record;
use std::alloc::{AllocError, Global};

/// What is told where the companion tells no charges: each setting but the drift.
static WITHOUT_DRIFT: [Setting; 4] = [
    Setting::Granularity,
    Setting::Credit,
    Setting::Debit,
    Setting::Slack,
];

/// The settings that a report has, by whether the companion tells charges.
pub fn told_settings(tells_charges: bool) -> &'static [Setting]
    ensures { result.now ≡ told_settings tells_charges }
{
    if tells_charges {
        &Setting::ALL
    } else {
        &WITHOUT_DRIFT
    }
}

impl Judgement for LeastFigures {
    ghost use Rattle.std.specs.Prelude.{true};
    ghost use Rattle.audit_report.specs.Report.{least_fault, least_lines, refusal_line};
    ghost use Rattle.cfs_model.specs.Least.{greatest_settings};
    ghost use Rattle.least_places.specs.LeastAnswer.{IsLeastAnswer};

    ghost is_of = { λ _. IsLeastAnswer };

    ghost is_least = { true };

    ghost replayed_by = { λ _. greatest_settings };

    ghost lines = { least_lines };

    ghost refusal = { refusal_line };

    ghost fault = { least_fault };

    fn replayed_by(_knobs: Knobs) -> Knobs {
        Knobs::greatest()
    }

    fn is_least() -> bool {
        true
    }

    fn of_finding(
        _alloc: Global,
        finding: Finding,
        _joined: &Record,
        _knobs: Knobs,
    ) -> Result<LeastFigures, Memory> {
        Ok(LeastFigures::of_stream(finding))
    }

    fn runs() {}

    fn push(&self, text: &mut String, tells_charges: bool) -> Result<(), AllocError> {
        match self {
            LeastFigures::Found { knobs, places } => {
                push_settings(text, *knobs, places, tells_charges)
            }
            LeastFigures::Fault(fault) => push_fault(text, fault),
        }
    }

    fn push_refusal(
        text: &mut String,
        source: Source,
        line: u64,
        cause: Cause,
    ) -> Result<(), AllocError> {
        push_refusal(text, source, line, cause)
    }

    fn fault(&self) -> Option<FirstFault> {
        match self {
            LeastFigures::Found { .. } => None,
            LeastFigures::Fault(fault) => Some(*fault),
        }
    }
}

impl Streamed for LeastFigures {
    ghost use Rattle.audit_report.specs.Report.{least_lines};

    ghost front = { least_lines };

    fn of_stream(finding: Finding) -> LeastFigures {
        match finding {
            Finding::Least(figures) => figures,
            Finding::Verdict(_) => unreachable!(),
        }
    }

    fn push_front(&self, text: &mut String, tells_charges: bool) -> Result<(), AllocError> {
        self.push(text, tells_charges)
    }

    fn tallies(&self) -> &[Tally] {
        &[]
    }
}

/// Writes each of the settings that are told, by whether the companion tells charges.
fn push_settings(
    text: &mut String,
    knobs: Knobs,
    places: &Places,
    tells_charges: bool,
) -> Result<(), AllocError>
    ensures { OnOk result
        (string_bytes text.new ≡ string_bytes text.old ++ setting_lines tells_charges knobs places.now) }
{
    push_each(text, knobs, places, told_settings(tells_charges))
}

/// Writes each of these settings.
fn push_each(
    text: &mut String,
    knobs: Knobs,
    places: &Places,
    settings: &[Setting],
) -> Result<(), AllocError>
    ensures { OnOk result
        (string_bytes text.new ≡ string_bytes text.old ++ lines_of_settings knobs places.now settings.now) }
{
    for setting in settings {
        push_setting(text, knobs, places, *setting)?;
    }
    Ok(())
}

/// Writes a setting, and where it is needed first.
fn push_setting(
    text: &mut String,
    knobs: Knobs,
    places: &Places,
    setting: Setting,
) -> Result<(), AllocError>
    ensures { OnOk result
        (string_bytes text.new ≡ string_bytes text.old ++ setting_line knobs places.now setting) }
{
    let name = setting.name();
    let value = knobs.get(setting);
    write!(text, "least {name} {value}")?;
    if let Some(place) = places.get(setting) {
        push_place(text, place)?;
    }
    writeln!(text)
}

/// Writes where a figure is needed first, and whom a picked task was above there.
fn push_place(text: &mut String, place: Place) -> Result<(), AllocError>
    ensures { OnOk result (string_bytes text.new ≡ string_bytes text.old ++ place_words (Some place)) }
{
    let Place {
        line,
        time,
        cpu,
        pid,
        over,
    } = place;
    let seconds = time / 1_000_000_000;
    let nanoseconds = time % 1_000_000_000;
    write!(
        text,
        " line {line} time {seconds}.{nanoseconds:09} cpu {cpu} pid {pid}"
    )?;
    match over {
        Some(over) => write!(text, " over {over}"),
        None => Ok(()),
    }
}
