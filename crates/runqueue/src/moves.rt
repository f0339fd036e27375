ghost use Rattle.std.specs.Prelude.{◌≡◌, ℕ, [], None, Some, IfOk, OnOk, OnErr, map};
ghost use Rattle.std.specs.List.{AllPairs};
ghost use Rattle.cfs_model.specs.declared.task.Place.TheVariants.{Run};
ghost use Rattle.cfs_model.specs.declared.act.Way.TheVariants.{Stays, Sleeps, Ends};
ghost use Rattle.replay_model.specs.AfterDeed.{part_after_next, wakes};
ghost use Rattle.replay_model.specs.Deeds.{part_after_prev, with_entity};
ghost use Rattle.replay_model.specs.Part.{IsIn, NobodyIn};
ghost use Rattle.replay_model.specs.PartWords.{start_part};
ghost use Rattle.replay_model.specs.QueueTests.{IsRunner};
ghost use Rattle.runqueue.specs.Tasks.{entity_of, RisesByPid};
ghost use Rattle.runqueue.specs.Queue.{HoldsSame, IsSwitchTask, IsTaskAt, runqueue_view};
ghost use Rattle.runqueue.specs.TaskRows.{with_pid};

use crate::recent_rows::RecentRows;
use crate::runqueue::Runqueue;
use crate::sched_entity::SchedEntity;
use crate::task_rows::{put, take_out, write_over, write_row};
use crate::waiting_task::WaitingTask;
use crate::waiting_tasks::WaitingTasks;
use cfs_model::{Claim, IDLE_PID, Memory, Place, Task, Way};
use pid_table::PidTable;
use std::alloc::Global;

impl Runqueue {
    /// Nobody.
    pub fn empty(alloc: Global, floor: i64, mark: u64) -> Runqueue
        ensures part { runqueue_view result ≡ start_part [] floor mark }
        ensures pids { result.tasks.pids ≡ [] }
    {
        Runqueue {
            runner: None,
            runner_row: 0,
            tasks: PidTable::new(alloc),
            recent: RecentRows::none(),
            waiting: WaitingTasks::new(alloc),
            floor,
            mark,
        }
    }

    /// The runqueue of these tasks: their pids rise, and at most one of them runs.
    pub fn of_tasks(
        alloc: Global,
        tasks: &[Task],
        floor: i64,
        mark: u64,
    ) -> Result<Runqueue, Memory>
        requires rise { RisesByPid tasks.now }
        requires one { AllPairs (λ t u. t.place ≡ Run → u.place ≡ Run → ⊥) tasks.now }
        ensures part { IfOk result (λ queue. runqueue_view queue ≡ start_part tasks.now floor mark) }
        ensures pids { IfOk result (λ queue. queue.tasks.pids ≡ map (λ task. task.pid) tasks.now) }
    {
        let mut queue = Runqueue::empty(alloc, floor, mark);
        for task in tasks {
            queue.add(SchedEntity::of(*task))?;
        }
        Ok(queue)
    }

    /// Who runs waits, rests or is gone. Where memory is wanted nothing changes.
    #[inline(always)]
    pub fn put_prev(&mut self, way: Way) -> Result<(), Memory>
        ensures part { OnOk result
            ((prev : ℕ) → ((IsRunner (runqueue_view self.old) prev → ⊥) → ⊥)
            → runqueue_view self.new ≡ part_after_prev (runqueue_view self.old) prev way) }
        ensures nobody { OnOk result (NobodyIn (runqueue_view self.new) Run) }
        ensures pids { self.new.tasks.pids ≡ self.old.tasks.pids }
        ensures same { OnErr result (HoldsSame self.old self.new) }
    {
        let Some(task) = self.runner else {
            return Ok(());
        };
        match way {
            Way::Stays => self.put_back(task),
            Way::Sleeps => {
                self.put_to_rest(task);
                Ok(())
            }
            Way::Ends => {
                self.end(task);
                Ok(())
            }
        }
    }

    /// Who runs waits. Where memory is wanted nothing changes.
    #[inline(always)]
    fn put_back(&mut self, runner: SchedEntity) -> Result<(), Memory>
        requires { self.old.runner ≡ Some runner }
        ensures part { OnOk result
            ((prev : ℕ) → ((IsRunner (runqueue_view self.old) prev → ⊥) → ⊥)
            → runqueue_view self.new ≡ part_after_prev (runqueue_view self.old) prev Stays) }
        ensures nobody { OnOk result (NobodyIn (runqueue_view self.new) Run) }
        ensures pids { self.new.tasks.pids ≡ self.old.tasks.pids }
        ensures same { OnErr result (HoldsSame self.old self.new) }
    {
        self.waiting.insert(WaitingTask {
            v: runner.v,
            pid: runner.pid,
        })?;
        let mut task = runner;
        task.place = Place::Wait;
        self.runner = None;
        write_row(&mut self.tasks, self.runner_row, Some(task));
        Ok(())
    }

    /// Who runs rests.
    #[inline(always)]
    fn put_to_rest(&mut self, runner: SchedEntity)
        requires { self.old.runner ≡ Some runner }
        ensures part { (prev : ℕ) → ((IsRunner (runqueue_view self.old) prev → ⊥) → ⊥)
            → runqueue_view self.new ≡ part_after_prev (runqueue_view self.old) prev Sleeps }
        ensures nobody { NobodyIn (runqueue_view self.new) Run }
        ensures pids { self.new.tasks.pids ≡ self.old.tasks.pids }
    {
        let mut task = runner;
        task.place = Place::Rest;
        self.runner = None;
        write_row(&mut self.tasks, self.runner_row, Some(task));
    }

    /// Who runs is gone.
    #[inline(always)]
    fn end(&mut self, runner: SchedEntity)
        requires { self.old.runner ≡ Some runner }
        ensures part { (prev : ℕ) → ((IsRunner (runqueue_view self.old) prev → ⊥) → ⊥)
            → runqueue_view self.new ≡ part_after_prev (runqueue_view self.old) prev Ends }
        ensures nobody { NobodyIn (runqueue_view self.new) Run }
        ensures pids { self.new.tasks.pids ≡ self.old.tasks.pids }
    {
        self.runner = None;
        write_row(&mut self.tasks, self.runner_row, None);
    }

    /// The next task of a switch runs, as it stands here. Its row is expected at an index.
    #[inline(always)]
    pub fn set_next(&mut self, next: u32, task: Option<SchedEntity>, expected: usize)
        requires nobody { NobodyIn (runqueue_view self.old) Run }
        requires task { IsSwitchTask (runqueue_view self.old) next task }
        ensures part { runqueue_view self.new ≡ part_after_next (runqueue_view self.old) next }
        ensures pids { self.new.tasks.pids ≡ self.old.tasks.pids }
    {
        if next == IDLE_PID {
            return;
        }
        if let Some(task) = task {
            let Some(row) = self.tasks.index_near(expected, next) else {
                unreachable!();
            };
            let waited = WaitingTask {
                v: task.v,
                pid: next,
            };
            self.waiting.remove(waited);
            let mut runner = task;
            runner.pid = next;
            runner.place = Place::Run;
            self.runner = Some(runner);
            self.runner_row = row;
            self.recent.remember(next, row);
        }
    }

    /// The task of this pid, which doesn't run, stands here no more.
    pub fn remove(&mut self, pid: u32)
        requires { IsIn (runqueue_view self.old) Run pid → ⊥ }
        ensures part { runqueue_view self.new ≡ with_entity (runqueue_view self.old) pid None }
        ensures pids { self.new.tasks.pids ≡ self.old.tasks.pids }
    {
        let expected = self.row_of(pid);
        if let Some(task) = take_out(&mut self.tasks, expected, pid) {
            self.waiting.remove(WaitingTask { v: task.v, pid });
        }
    }

    /// The task of this pid, as it stands here, waits at the claimed virtual runtime, if it rests. Its row is expected
    /// at an index. Where memory is wanted nothing changes.
    #[inline(always)]
    pub fn wake(
        &mut self,
        pid: u32,
        task: Option<SchedEntity>,
        claim: Claim,
        expected: usize,
    ) -> Result<(), Memory>
        requires { IsTaskAt (runqueue_view self.old) pid task }
        ensures part { OnOk result (runqueue_view self.new ≡ wakes (runqueue_view self.old) pid (Some claim)) }
        ensures pids { self.new.tasks.pids ≡ self.old.tasks.pids }
        ensures same { OnErr result (HoldsSame self.old self.new) }
    {
        let Some(task) = task else {
            return Ok(());
        };
        match task.place {
            Place::Run | Place::Wait => Ok(()),
            Place::Rest => {
                self.waiting.insert(WaitingTask { v: claim.v, pid })?;
                let mut woken = task;
                woken.pid = pid;
                woken.place = Place::Wait;
                woken.v = claim.v;
                write_over(&mut self.tasks, expected, pid, woken);
                Ok(())
            }
        }
    }

    /// One more task stands here. Where memory is wanted nothing changes.
    pub fn add(&mut self, task: SchedEntity) -> Result<(), Memory>
        requires apart { (runqueue_view self.old).tasks task.pid ≡ None }
        requires alone { task.place ≡ Run → NobodyIn (runqueue_view self.old) Run }
        ensures part { OnOk result
            (runqueue_view self.new ≡ with_entity (runqueue_view self.old) task.pid (Some (entity_of task))) }
        ensures pids { OnOk result (self.new.tasks.pids ≡ with_pid task.pid self.old.tasks.pids) }
        ensures same { OnErr result (HoldsSame self.old self.new) }
    {
        self.tasks.make_room()?;
        let pid = task.pid;
        match task.place {
            Place::Run => {
                self.runner_row = put(&mut self.tasks, pid, &task);
                self.recent.remember(pid, self.runner_row);
                self.runner = Some(task);
                Ok(())
            }
            Place::Wait => {
                self.waiting.insert(WaitingTask { v: task.v, pid })?;
                let row = put(&mut self.tasks, pid, &task);
                self.recent.remember(pid, row);
                Ok(())
            }
            Place::Rest => {
                let row = put(&mut self.tasks, pid, &task);
                self.recent.remember(pid, row);
                Ok(())
            }
        }
    }
}
