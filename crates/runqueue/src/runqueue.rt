ghost use Rattle.runqueue.specs.Entities.{IsQueue, IsQueue-prop};
ghost use Rattle.runqueue.specs.TaskRows.{IsRunnerRow, IsRunnerRow-prop};

use crate::recent_rows::RecentRows;
use crate::sched_entity::SchedEntity;
use crate::task_rows::TaskRows;
use crate::waiting_tasks::WaitingTasks;

/// Those who stand at the processor, and what the processor keeps.
#[derive(Drop)]
pub struct Runqueue {
    /// Who runs, if somebody does.
    pub(crate) runner: Option<SchedEntity>,
    /// Where the row of who runs is; without meaning where nobody does.
    pub(crate) runner_row: usize,
    /// Everybody by pid; who runs as it stood before.
    pub(crate) tasks: TaskRows,
    /// Where the rows of those who came or ran last are.
    pub(crate) recent: RecentRows,
    /// Those who wait.
    pub(crate) waiting: WaitingTasks,
    /// In virtual nanoseconds.
    pub(crate) floor: i64,
    /// The time of the last charge, in nanoseconds.
    pub(crate) mark: u64,
    pub ghost kept: { IsQueue runner tasks waiting } by { IsQueue-prop runner tasks waiting },
    pub ghost in_row: { IsRunnerRow runner tasks.pids runner_row } by { IsRunnerRow-prop runner tasks.pids runner_row },
}
