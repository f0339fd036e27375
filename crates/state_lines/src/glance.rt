ghost use Rattle.state_lines.specs.Glance.{IsGlanceAt};

use queue_replay::Replay;
use runqueue::{SchedEntity, WaitingTask};

/// How a processor stands between two events, and where the task of one of them does.
#[derive(Clone, Copy, Debug, PartialEq, Eq)]
pub struct Glance {
    /// Who runs, if somebody does.
    pub runner: Option<SchedEntity>,
    /// The event's task, if it stands there.
    pub task: Option<SchedEntity>,
    /// The floor (`min_vruntime`), in virtual nanoseconds.
    pub floor: i64,
    /// The time of the last charge, in nanoseconds.
    pub mark: u64,
    /// How many wait.
    pub waiting: usize,
    /// The least virtual runtime of those who wait, in virtual nanoseconds.
    pub least: Option<i64>,
    /// The first of those who wait.
    pub first: Option<WaitingTask>,
    /// Since when nothing has run there while somebody waited, in nanoseconds; if that is so.
    pub since: Option<u64>,
}

impl Glance {
    /// How a replay's processor stands after the steps made, and where the task of this pid does.
    pub fn of(replay: &Replay, pid: u32) -> Glance
        ensures { IsGlanceAt replay.now pid result }
    {
        let queue = replay.runqueue();
        Glance {
            runner: queue.runner(),
            task: queue.task_at(pid),
            floor: queue.floor(),
            mark: queue.mark(),
            waiting: queue.waiting().len(),
            least: queue.least_waiting(),
            first: queue.waiting().first().copied(),
            since: replay.idled_since(),
        }
    }
}
