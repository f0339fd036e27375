ghost use Rattle.std.specs.Prelude.{◌≡◌, ℕ, nat_eq};
ghost use Rattle.std.specs.List.{IsDistinct};
ghost use Rattle.replay_model.specs.Deeds.{part_after_prev};
ghost use Rattle.replay_model.specs.QueueTests.{IsRunner};
ghost use Rattle.runqueue.specs.Queue.{IsLeastIfWaiting, IsLeastQueued, IsSwitchTask, IsTaskAt, IsTheRunner};
ghost use Rattle.runqueue.specs.Queue.{runqueue_view};
ghost use Rattle.runqueue.specs.Entities.{IsWaitingSet};
ghost use Rattle.runqueue.specs.TaskRows.{IsRunnerRow};

use crate::runqueue::Runqueue;
use crate::sched_entity::SchedEntity;
use crate::task_rows::{listed, listed_newcomer};
use crate::waiting_tasks::WaitingTasks;
use cfs_model::{IDLE_PID, Way};

impl Runqueue {
    /// Who runs, if somebody does.
    pub fn runner(&self) -> Option<SchedEntity>
        ensures { IsTheRunner (runqueue_view self.now) result }
    {
        self.runner
    }

    /// Where the row of who runs is, by the order in which the pids first stood here; without meaning where nobody
    /// runs.
    pub fn runner_row(&self) -> usize
        ensures { IsRunnerRow self.now.runner self.now.tasks.pids result }
    {
        self.runner_row
    }

    /// The pids that have a row, in the order in which they first stood here.
    #[inline(always)]
    pub fn pids(&self) -> &[u32]
        ensures pids { result.now ≡ self.now.tasks.pids }
        ensures apart { IsDistinct nat_eq self.now.tasks.pids }
    {
        self.tasks.pids()
    }

    /// Those who wait.
    pub fn waiting(&self) -> &WaitingTasks
        ensures { IsWaitingSet (runqueue_view self.now).tasks result.now }
    {
        &self.waiting
    }

    /// The least virtual runtime of those who wait.
    #[inline(always)]
    pub fn least_waiting(&self) -> Option<i64>
        ensures { IsLeastIfWaiting (runqueue_view self.now) result }
    {
        match self.waiting.first() {
            Some(first) => Some(first.v),
            None => None,
        }
    }

    /// The least virtual runtime of those who wait, once who runs has gone its way.
    #[inline(always)]
    pub fn least_after(&self, way: Way) -> Option<i64>
        ensures { (prev : ℕ) → ((IsRunner (runqueue_view self.now) prev → ⊥) → ⊥)
            → IsLeastIfWaiting (part_after_prev (runqueue_view self.now) prev way) result }
    {
        match way {
            Way::Stays => self.least_queued(),
            Way::Sleeps | Way::Ends => self.least_waiting(),
        }
    }

    /// The least virtual runtime of those who run or wait.
    #[inline(always)]
    pub(crate) fn least_queued(&self) -> Option<i64>
        ensures { IsLeastQueued (runqueue_view self.now) result }
    {
        match (self.runner, self.least_waiting()) {
            (Some(task), Some(least)) => Some(least.min(task.v)),
            (Some(task), None) => Some(task.v),
            (None, least) => least,
        }
    }

    /// In virtual nanoseconds.
    pub fn floor(&self) -> i64
        ensures { result ≡ (runqueue_view self.now).floor }
    {
        self.floor
    }

    /// The time of the last charge, in nanoseconds.
    pub fn mark(&self) -> u64
        ensures { result ≡ (runqueue_view self.now).mark }
    {
        self.mark
    }

    /// Where the row of a pid is expected, by the order in which the pids first stood here. Whoever is given it looks
    /// whether the row is there, so nothing rests on it.
    #[inline(always)]
    pub fn row_of(&self, pid: u32) -> usize {
        self.recent.expected(pid)
    }

    /// The task of this pid, if it stands here.
    pub fn task_at(&self, pid: u32) -> Option<SchedEntity>
        ensures { IsTaskAt (runqueue_view self.now) pid result }
    {
        self.task_near(self.row_of(pid), pid)
    }

    /// The same, where its row is expected at an index.
    #[inline(always)]
    pub fn task_near(&self, expected: usize, pid: u32) -> Option<SchedEntity>
        ensures { IsTaskAt (runqueue_view self.now) pid result }
    {
        match self.runner {
            Some(task) => {
                if task.pid == pid {
                    Some(task)
                } else {
                    listed(&self.tasks, expected, pid)
                }
            }
            None => listed(&self.tasks, expected, pid),
        }
    }

    /// The same of a pid that mostly never stood here: no row is looked at where it would be expected.
    pub fn newcomer_at(&self, pid: u32) -> Option<SchedEntity>
        ensures { IsTaskAt (runqueue_view self.now) pid result }
    {
        match self.runner {
            Some(task) => {
                if task.pid == pid {
                    Some(task)
                } else {
                    listed_newcomer(&self.tasks, pid)
                }
            }
            None => listed_newcomer(&self.tasks, pid),
        }
    }

    /// The task of a pid that a switch names, if it stands here; none of pid 0. Its row is expected at an index.
    #[inline(always)]
    pub fn switch_task(&self, expected: usize, pid: u32) -> Option<SchedEntity>
        ensures { IsSwitchTask (runqueue_view self.now) pid result }
    {
        if pid == IDLE_PID {
            None
        } else {
            self.task_near(expected, pid)
        }
    }
}
