ghost use Rattle.std.specs.Prelude.{◌≡◌};
ghost use Rattle.waiting_times.specs.Longest.{later_wait, longest_of};

use crate::{TaskWaits, Wait};

/// The wait of a task.
#[derive(Clone, Copy, Debug, PartialEq, Eq)]
pub struct LongestWait {
    pub pid: u32,
    pub wait: Wait,
}

/// The longest wait of all tasks; of some that are as long that of the first task. None where no task waited.
pub fn longest_of(tasks: &[TaskWaits]) -> Option<LongestWait>
    ensures { result ≡ longest_of tasks.now }
{
    let mut longest = None;
    for task in tasks {
        longest = with_task(longest, task);
    }
    longest
}

/// The longest one, with that of one task more.
fn with_task(longest: Option<LongestWait>, task: &TaskWaits) -> Option<LongestWait>
    ensures { result ≡ later_wait longest task.now.pid task.now.longest }
{
    let Some(wait) = task.longest else {
        return longest;
    };
    let own = LongestWait {
        pid: task.pid,
        wait,
    };
    match longest {
        Some(first) if first.wait.duration() >= wait.duration() => longest,
        _ => Some(own),
    }
}
