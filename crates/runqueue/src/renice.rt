ghost use Rattle.std.specs.Prelude.{◌≡◌, ◌≢◌, None, option_map};
ghost use Rattle.replay_model.specs.Deeds.{with_entity};
ghost use Rattle.replay_model.specs.Part.{Entity};
ghost use Rattle.runqueue.specs.Queue.{IsReniced, nice_listed, runqueue_view};
ghost use Rattle.runqueue.specs.Entities.{reniced_task};

use crate::runqueue::Runqueue;
use crate::sched_entity::SchedEntity;
use crate::task_rows::{listed, write_over};
use cfs_model::Nice;

impl Runqueue {
    /// The task of this pid has this nice value from now on, if it stands here; what the map had of it is answered.
    /// Takes no memory.
    pub fn renice(&mut self, pid: u32, nice: Nice) -> Option<Nice>
        ensures before { result ≡ nice_listed self.old pid }
        ensures reniced { IsReniced pid nice self.old self.new }
        ensures part { runqueue_view self.new
            ≡ with_entity (runqueue_view self.old) pid
            (option_map (λ (s : Entity). record s { nice = nice }) ((runqueue_view self.old).tasks pid)) }
        ensures strange { result ≡ None → (runqueue_view self.old).tasks pid ≡ None }
        ensures stands { result ≢ None → (runqueue_view self.old).tasks pid ≢ None }
    {
        let row = self.row_of(pid);
        let mut task = listed(&self.tasks, row, pid)?;
        let before = task.nice;
        task.nice = nice;
        write_over(&mut self.tasks, row, pid, task);
        self.runner = reniced_runner(self.runner, pid, nice);
        Some(before)
    }
}

/// Who runs, with this nice value if it is the task of this pid.
fn reniced_runner(runner: Option<SchedEntity>, pid: u32, nice: Nice) -> Option<SchedEntity>
    ensures { result ≡ option_map (reniced_task pid nice) runner }
{
    let mut task = runner?;
    if task.pid == pid {
        task.nice = nice;
    }
    Some(task)
}
