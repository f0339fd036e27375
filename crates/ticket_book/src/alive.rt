ghost use Rattle.std.specs.Prelude.{◌≡◌, ℕ, ◌<◌, ◌^◌, true, false, IfOk, OnOk, length};
ghost use Rattle.cfs_model.specs.Machine.{put};
ghost use Rattle.replay_model.specs.Roll.{named, roll_after};
ghost use Rattle.ticket_book.specs.Alive.{alive_view};

use cfs_model::{Entry, Memory, Task};
use std::alloc::Global;

/// Room is made for so many further pids at once.
const FURTHER: usize = 4096;

/// Who is alive: the pids that have begun and not ended. A pid takes a byte, since they are 4194304 at most: each is
/// looked up where it stands, and most recordings have few thousand.
#[derive(Drop)]
pub(crate) struct Alive {
    /// Of each pid, by its number, whether it has begun and not ended since. Those behind the last have never begun.
    lives: Vec<bool>,
}

impl Alive {
    /// Who is alive at the start.
    pub(crate) fn new(alloc: Global, tasks: &[Task]) -> Result<Alive, Memory>
        ensures { IfOk result (λ alive. (pid : ℕ) → alive_view alive pid ≡ named tasks.now pid) }
    {
        let mut alive = Alive {
            lives: Vec::new(alloc),
        };
        for task in tasks {
            alive.begin(task.pid)?;
        }
        Ok(alive)
    }

    /// Whether the pid is alive.
    pub(crate) fn has(&self, pid: u32) -> bool
        ensures { result ≡ alive_view self.now pid }
    {
        match self.lives.get(pid as usize) {
            Some(lives) => *lives,
            None => false,
        }
    }

    /// A birth begins a pid, and a switch away from a task that ends ends it.
    #[inline(always)]
    pub(crate) fn pass(&mut self, event: &Entry) -> Result<(), Memory>
        ensures { OnOk result ((pid : ℕ) → alive_view self.new pid
            ≡ roll_after (alive_view self.old) event.now.act pid) }
    {
        if let Some(pid) = event.act.begun() {
            self.begin(pid)?;
        }
        if let Some(pid) = event.act.ended() {
            self.end(pid);
        }
        Ok(())
    }

    #[inline(always)]
    fn begin(&mut self, pid: u32) -> Result<(), Memory>
        ensures { OnOk result ((q : ℕ) → alive_view self.new q ≡ put (alive_view self.old) pid true q) }
    {
        let index = pid as usize;
        self.reach(index)?;
        self.lives[index] = true;
        Ok(())
    }

    /// Lets there be a place for a pid.
    #[inline(always)]
    fn reach(&mut self, index: usize) -> Result<(), Memory>
        requires { index < 2 ^ 32 }
        ensures same { (q : ℕ) → alive_view self.new q ≡ alive_view self.old q }
        ensures there { OnOk result (index < length self.new.lives.items) }
    {
        if index >= self.lives.len() {
            self.lives.resize(index + FURTHER, false)?;
        }
        Ok(())
    }

    fn end(&mut self, pid: u32)
        ensures { (q : ℕ) → alive_view self.new q ≡ put (alive_view self.old) pid false q }
    {
        let index = pid as usize;
        if index < self.lives.len() {
            self.lives[index] = false;
        }
    }
}
