//! The lines of waits in a report.
ghost use Rattle.std.specs.Prelude.{◌≡◌, ◌++◌, OnOk, string_bytes};
ghost use Rattle.audit_report.specs.WaitLines.{from_words, longest_line, longest_wait_line, own_wait_words, own_words};
ghost use Rattle.audit_report.specs.WaitLines.{task_line, task_lines, to_words, wait_words, waits_lines};

use std::alloc::AllocError;
use waiting_times::{LongestWait, Moment, TaskWaits, Wait, longest_of};

/// Writes the longest wait of all tasks, and then those of each.
pub(crate) fn push_waits(text: &mut String, waits: &[TaskWaits]) -> Result<(), AllocError>
    ensures { OnOk result (string_bytes text.new ≡ string_bytes text.old ++ waits_lines waits.now) }
{
    push_longest(text, longest_of(waits))?;
    push_tasks(text, waits)?;
    Ok(())
}

/// Writes the longest wait of all tasks.
fn push_longest(text: &mut String, longest: Option<LongestWait>) -> Result<(), AllocError>
    ensures { OnOk result (string_bytes text.new ≡ string_bytes text.old ++ longest_line longest) }
{
    match longest {
        Some(longest) => push_longest_wait(text, longest),
        None => writeln!(text, "longest wait none"),
    }
}

/// Writes the longest wait of all tasks, where there is one.
fn push_longest_wait(text: &mut String, longest: LongestWait) -> Result<(), AllocError>
    ensures { OnOk result (string_bytes text.new ≡ string_bytes text.old ++ longest_wait_line longest) }
{
    let LongestWait { pid, wait } = longest;
    write!(text, "longest wait pid {pid} waited ")?;
    push_wait(text, wait)?;
    writeln!(text, "")?;
    Ok(())
}

/// Writes the waits of each task.
fn push_tasks(text: &mut String, waits: &[TaskWaits]) -> Result<(), AllocError>
    ensures { OnOk result (string_bytes text.new ≡ string_bytes text.old ++ task_lines waits.now) }
{
    for task in waits {
        push_task(text, task)?;
    }
    Ok(())
}

/// Writes the waits of one task.
fn push_task(text: &mut String, task: &TaskWaits) -> Result<(), AllocError>
    ensures { OnOk result (string_bytes text.new ≡ string_bytes text.old ++ task_line task.now) }
{
    let TaskWaits {
        pid,
        times,
        total,
        longest,
    } = *task;
    write!(text, "waits {pid} times {times} total {total}")?;
    push_own(text, longest)?;
    writeln!(text, "")?;
    Ok(())
}

/// Writes the longest wait of one task, if it has any.
fn push_own(text: &mut String, longest: Option<Wait>) -> Result<(), AllocError>
    ensures { OnOk result (string_bytes text.new ≡ string_bytes text.old ++ own_words longest) }
{
    match longest {
        Some(wait) => push_own_wait(text, wait),
        None => Ok(()),
    }
}

/// Writes the longest wait of one task.
fn push_own_wait(text: &mut String, wait: Wait) -> Result<(), AllocError>
    ensures { OnOk result (string_bytes text.new ≡ string_bytes text.old ++ own_wait_words wait) }
{
    write!(text, " longest ")?;
    push_wait(text, wait)?;
    Ok(())
}

/// Writes how long a wait was, and where it began and ended.
fn push_wait(text: &mut String, wait: Wait) -> Result<(), AllocError>
    ensures { OnOk result (string_bytes text.new ≡ string_bytes text.old ++ wait_words wait) }
{
    let duration = wait.duration();
    write!(text, "{duration}")?;
    push_from(text, wait.from)?;
    push_to(text, wait.to)?;
    Ok(())
}

/// Writes where a wait began: at an event's line, or with the recording.
fn push_from(text: &mut String, from: Moment) -> Result<(), AllocError>
    ensures { OnOk result (string_bytes text.new ≡ string_bytes text.old ++ from_words from.line) }
{
    match from.line {
        Some(line) => write!(text, " from line {line}"),
        None => write!(text, " from start"),
    }
}

/// Writes where a wait ended: at an event's line, or with the recording.
fn push_to(text: &mut String, to: Moment) -> Result<(), AllocError>
    ensures { OnOk result (string_bytes text.new ≡ string_bytes text.old ++ to_words to.line) }
{
    match to.line {
        Some(line) => write!(text, " to line {line}"),
        None => write!(text, " to end"),
    }
}
