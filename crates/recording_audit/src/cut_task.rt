//! The real-time task at whose line a cut was made.
ghost use Rattle.std.specs.Prelude.{◌≡◌, ◌<◌, ℕ, IfOk, List, length};
ghost use Rattle.cfs_model.specs.Knobs.{KnobsView};
ghost use Rattle.recording_audit.specs.Causes.{IsCauseOf};
ghost use Rattle.recording_audit.specs.Tasks.{IsNamed};

use crate::cut_cause::CutCause;
use cfs_model::Memory;
use ftrace_line::{Line, one_reading, read_line};
use sched_event::{NamedTask, real_time_task};
use std::alloc::Global;
use text_parts::lines::next_line;

/// A real-time or deadline task.
#[derive(Debug, Drop)]
pub struct CutTask {
    pub pid: u32,
    /// As the line has it: of any bytes.
    pub name: Vec<u8>,
}

/// The task for which a cut with this text and this cause was made, where it was made for one.
pub(crate) fn task_of(
    alloc: Global,
    text: &[u8],
    cause: CutCause,
) -> Result<Option<CutTask>, Memory>
    requires { 0 < length text.now }
    ensures { (limits : KnobsView) (before : List ℕ) (events : ℕ) → IsCauseOf limits before text.now events cause
        → IfOk result (IsNamed text.now cause) }
{
    if !cause.is_real_time() {
        return Ok(None);
    }
    one_reading();
    let (line, _) = next_line(text);
    match read_line(line) {
        Ok(Line::Sched(sched)) => match real_time_task(sched) {
            Some(task) => Ok(Some(kept(alloc, task)?)),
            None => Ok(None),
        },
        Ok(Line::Comment) => Ok(None),
        Ok(Line::Lost) => Ok(None),
        Ok(Line::Other) => Ok(None),
        Err(_) => Ok(None),
    }
}

/// A task with a name of its own.
fn kept(alloc: Global, task: NamedTask<'_>) -> Result<CutTask, Memory>
    ensures pid { IfOk result (λ kept. kept.pid ≡ task.entry.pid) }
    ensures name { IfOk result (λ kept. kept.name.items ≡ task.entry.name.now) }
{
    let mut name = Vec::new(alloc);
    name.extend_from_slice(task.name)?;
    Ok(CutTask {
        pid: task.pid,
        name,
    })
}
