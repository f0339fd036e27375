//! What is printed of a recording's parts.
ghost use Rattle.std.specs.Prelude.{◌≡◌, ◌++◌, IfOk, OnOk, Some, string_bytes};
ghost use Rattle.audit_report.specs.Report.{line_of, told_settings};
ghost use Rattle.recording_audit.specs.Report.{cut_line, over_line, part_lines, report_lines, stretch_line};
ghost use Rattle.recording_audit.specs.Report.{stretch_words, task_words, values_words, words_of_settings};

use crate::cause_words::CauseWords;
use crate::cut_task::CutTask;
use crate::escaping::push_name;
use crate::part::{Cut, Part, Stretch, Told};
use crate::tally::Tally;
use crate::times::Seconds;
use audit_report::told_settings;
use cfs_model::{Knobs, Setting};
use replay_model::FirstFault;
use std::alloc::{AllocError, Global};

/// A line for each stretch and each cut, and then one of how many events were judged.
pub fn report(alloc: Global, parts: &[Part<'_>]) -> Result<String, AllocError>
    ensures { IfOk result (λ text. string_bytes text ≡ report_lines parts.now) }
{
    let mut text = String::new(alloc);
    let mut tally = Tally::new();
    for part in parts {
        tally.add(&part.told);
        push_part(&mut text, part, tally.stretches)?;
    }
    writeln!(text, "{tally}")?;
    Ok(text)
}

/// What is told of a part; this many stretches have gone by then, the part counted.
fn push_part(text: &mut String, part: &Part<'_>, stretches: u64) -> Result<(), AllocError>
    ensures { OnOk result (string_bytes text.new ≡ string_bytes text.old ++ part_lines stretches part.now) }
{
    let Part { first, last, .. } = *part;
    match &part.told {
        Told::Stretch(stretch) => {
            push_stretch(text, stretches, first, last, stretch)?;
            push_over(text, first, stretch.over)
        }
        Told::Cut(cut) => push_cut(text, first, last, cut),
        Told::Quiet => Ok(()),
    }
}

/// Writes where a stretch is, its least settings, and where its companion's values come from.
fn push_stretch(
    text: &mut String,
    number: u64,
    first: u64,
    last: u64,
    stretch: &Stretch,
) -> Result<(), AllocError>
    ensures { OnOk result
        (string_bytes text.new ≡ string_bytes text.old ++ stretch_line number first last stretch.now) }
{
    push_where(text, number, first, last, stretch)?;
    push_settings(text, stretch.least, stretch.tells_charges)?;
    push_values(text, stretch.tells_charges)?;
    Ok(())
}

/// Writes a stretch's lines, its times and how many events it has.
fn push_where(
    text: &mut String,
    number: u64,
    first: u64,
    last: u64,
    stretch: &Stretch,
) -> Result<(), AllocError>
    ensures { OnOk result
        (string_bytes text.new ≡ string_bytes text.old ++ stretch_words number first last stretch.now) }
{
    let events = stretch.events;
    let (begins, ends) = (Seconds(stretch.begins), Seconds(stretch.ends));
    write!(
        text,
        "stretch {number} lines {first}-{last} times {begins}-{ends} events {events}: run"
    )
}

/// Writes where the companion's values come from, and ends the line: one that states charges has the kernel's.
fn push_values(text: &mut String, tells_charges: bool) -> Result<(), AllocError>
    ensures { OnOk result (string_bytes text.new ≡ string_bytes text.old ++ line_of (values_words tells_charges)) }
{
    if tells_charges {
        writeln!(text, " values kernel")?;
    } else {
        writeln!(text, " values guessed")?;
    }
    Ok(())
}

/// Writes each of the settings that are told, by whether the companion tells charges.
fn push_settings(text: &mut String, knobs: Knobs, tells_charges: bool) -> Result<(), AllocError>
    ensures { OnOk result
        (string_bytes text.new ≡ string_bytes text.old ++ words_of_settings knobs (told_settings tells_charges)) }
{
    push_each(text, knobs, told_settings(tells_charges))
}

/// Writes each of these settings.
fn push_each(text: &mut String, knobs: Knobs, settings: &[Setting]) -> Result<(), AllocError>
    ensures { OnOk result (string_bytes text.new ≡ string_bytes text.old ++ words_of_settings knobs settings.now) }
{
    for setting in settings {
        let name = setting.name();
        let value = knobs.get(*setting);
        write!(text, " {name} {value}")?;
    }
    Ok(())
}

/// Writes what is wrong at the limits in a stretch whose first line has this number, if something is.
fn push_over(text: &mut String, first: u64, over: Option<FirstFault>) -> Result<(), AllocError>
    ensures { OnOk result (string_bytes text.new ≡ string_bytes text.old ++ over_line first over) }
{
    match over {
        Some(fault) => push_fault(text, first, fault),
        None => Ok(()),
    }
}

fn push_fault(text: &mut String, first: u64, fault: FirstFault) -> Result<(), AllocError>
    ensures { OnOk result (string_bytes text.new ≡ string_bytes text.old ++ over_line first (Some fault)) }
{
    let FirstFault {
        line,
        cpu,
        pid,
        kind,
    } = fault;
    let line = first.saturating_add(u64::from(line)).saturating_sub(1);
    let (name, words) = kind.words();
    writeln!(
        text,
        "fault line {line} cpu {cpu} pid {pid} {name}: {words}"
    )
}

/// Writes which lines a cut has, and why.
fn push_cut(text: &mut String, first: u64, last: u64, cut: &Cut) -> Result<(), AllocError>
    ensures { OnOk result (string_bytes text.new ≡ string_bytes text.old ++ cut_line first last cut.now) }
{
    let words = CauseWords(cut.cause);
    if first == last {
        write!(text, "cut line {first} {words}")?;
    } else {
        write!(text, "cut lines {first}-{last} {words}")?;
    }
    push_task(text, &cut.task)?;
    writeln!(text, "")?;
    Ok(())
}

/// Writes the real-time task at whose line a cut was made, where it was made at one's.
fn push_task(text: &mut String, task: &Option<CutTask>) -> Result<(), AllocError>
    ensures { OnOk result (string_bytes text.new ≡ string_bytes text.old ++ task_words task.now) }
{
    let Some(task) = task else {
        return Ok(());
    };
    let pid = task.pid;
    write!(text, ": pid {pid} (")?;
    push_name(text, task.name.as_slice())?;
    write!(text, ")")?;
    Ok(())
}
