//! The waits of tasks.
ghost use Rattle.std.specs.Prelude.{◌≡◌, ◌++◌, None, OnOk, Some, string_bytes};
ghost use Rattle.report_json.specs.Json.{number_or_null};
ghost use Rattle.report_json.specs.Objects.{each_member, edge_members, longest_member, own_wait_member};
ghost use Rattle.report_json.specs.Objects.{task_members, total_members, waits_members};

use crate::Told;
use crate::element::{Element, push_array};
use audit_report::WithWaits;
use std::alloc::AllocError;
use waiting_times::{LongestWait, TaskWaits, Wait, longest_of};

impl<J: Told> Told for WithWaits<J> {
    ghost use Rattle.report_json.specs.Objects.{told_waits_members};

    ghost members = { λ tells_charges told. J.members tells_charges told.judged ++ told_waits_members told.waits };

    fn push_members(&self, text: &mut String, tells_charges: bool) -> Result<(), AllocError> {
        self.judged.push_members(text, tells_charges)?;
        match &self.waits {
            Some(waits) => push_waits(text, waits.as_slice()),
            None => Ok(()),
        }
    }
}

/// Writes the longest wait of all tasks, and then those of each.
fn push_waits(text: &mut String, waits: &[TaskWaits]) -> Result<(), AllocError>
    ensures { OnOk result (string_bytes text.new ≡ string_bytes text.old ++ waits_members waits.now) }
{
    push_longest(text, longest_of(waits))?;
    push_each(text, waits)
}

/// Writes the waits of each task.
fn push_each(text: &mut String, waits: &[TaskWaits]) -> Result<(), AllocError>
    ensures { OnOk result (string_bytes text.new ≡ string_bytes text.old ++ each_member waits.now) }
{
    write!(text, ",\"waits\":")?;
    push_array(text, waits)
}

/// Writes the longest wait of all tasks.
fn push_longest(text: &mut String, longest: Option<LongestWait>) -> Result<(), AllocError>
    ensures { OnOk result (string_bytes text.new ≡ string_bytes text.old ++ longest_member longest) }
{
    match longest {
        Some(longest) => push_longest_wait(text, longest),
        None => push_no_wait(text),
    }
}

/// Writes the longest wait of all tasks, where there is one.
fn push_longest_wait(text: &mut String, longest: LongestWait) -> Result<(), AllocError>
    ensures { OnOk result (string_bytes text.new ≡ string_bytes text.old ++ longest_member (Some longest)) }
{
    let LongestWait { pid, wait } = longest;
    let duration = wait.duration();
    write!(text, ",\"longest\":{{\"pid\":{pid},\"waited\":{duration}")?;
    push_edges(text, wait)?;
    write!(text, "}}")
}

impl Element for TaskWaits {
    ghost use Rattle.report_json.specs.Objects.{waits_object};

    ghost text_of = { waits_object };

    fn push(&self, text: &mut String) -> Result<(), AllocError> {
        write!(text, "{{")?;
        push_task(text, self)?;
        write!(text, "}}")
    }
}

/// Writes the waits of one task.
fn push_task(text: &mut String, task: &TaskWaits) -> Result<(), AllocError>
    ensures { OnOk result (string_bytes text.new ≡ string_bytes text.old ++ task_members task.now) }
{
    push_total(text, task)?;
    push_own(text, task.longest)
}

/// Writes how often a task waited, and how long in all.
fn push_total(text: &mut String, task: &TaskWaits) -> Result<(), AllocError>
    ensures { OnOk result (string_bytes text.new ≡ string_bytes text.old ++ total_members task.now) }
{
    let TaskWaits {
        pid,
        times,
        total,
        ..
    } = *task;
    write!(
        text,
        "\"pid\":{pid},\"times\":{times},\"total\":\"{total}\""
    )
}

/// Writes the longest wait of one task, if it has any.
fn push_own(text: &mut String, longest: Option<Wait>) -> Result<(), AllocError>
    ensures { OnOk result (string_bytes text.new ≡ string_bytes text.old ++ own_wait_member longest) }
{
    match longest {
        Some(wait) => push_own_wait(text, wait),
        None => push_no_wait(text),
    }
}

/// Writes the longest wait of one task: how long it was, and where it began and ended.
fn push_own_wait(text: &mut String, wait: Wait) -> Result<(), AllocError>
    ensures { OnOk result (string_bytes text.new ≡ string_bytes text.old ++ own_wait_member (Some wait)) }
{
    let duration = wait.duration();
    write!(text, ",\"longest\":{{\"waited\":{duration}")?;
    push_edges(text, wait)?;
    write!(text, "}}")
}

/// Writes that there is no longest wait.
fn push_no_wait(text: &mut String) -> Result<(), AllocError>
    ensures task { OnOk result (string_bytes text.new ≡ string_bytes text.old ++ own_wait_member None) }
    ensures all { OnOk result (string_bytes text.new ≡ string_bytes text.old ++ longest_member None) }
{
    write!(text, ",\"longest\":null")
}

/// Writes where a wait began and ended.
fn push_edges(text: &mut String, wait: Wait) -> Result<(), AllocError>
    ensures { OnOk result (string_bytes text.new ≡ string_bytes text.old ++ edge_members wait) }
{
    write!(text, ",\"from\":")?;
    push_line(text, wait.from.line)?;
    write!(text, ",\"to\":")?;
    push_line(text, wait.to.line)
}

/// Writes a line's number, or null.
fn push_line(text: &mut String, line: Option<u32>) -> Result<(), AllocError>
    ensures { OnOk result (string_bytes text.new ≡ string_bytes text.old ++ number_or_null line) }
{
    match line {
        Some(line) => write!(text, "{line}"),
        None => write!(text, "null"),
    }
}
