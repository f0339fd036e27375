ghost use Rattle.std.specs.Prelude.{◌≡◌};
ghost use Rattle.replay_model.specs.ClaimTests.{claimant, IsWrongPutBack, IsNextNotWaiting};
ghost use Rattle.replay_model.specs.Part.{Part};
ghost use Rattle.replay_model.specs.QueueTests.{IsSelfSwitch, IsPrevNotRunning, IsWrongPrio};
ghost use Rattle.queue_replay.specs.FirstTest.{Decides};
ghost use Rattle.runqueue.specs.Queue.{runqueue_view, IsSwitchTask};
ghost use Rattle.queue_replay.specs.Rows.{switch_deed};

use crate::claim_tests::is_at_other;
use crate::queue_tests::{has_other_prio, is_runner, stands_in};
use cfs_model::{Claim, IDLE_PID, Nice, Place, Way};
use runqueue::{Runqueue, SchedEntity};

/// A switch from one task to another, and those of its tests that no other deed has.
#[derive(Clone, Copy)]
pub(crate) struct ContextSwitch {
    pub prev: u32,
    pub prev_nice: Nice,
    pub way: Way,
    pub next: u32,
    pub next_nice: Nice,
}

impl ContextSwitch {
    /// It goes from a task to itself.
    pub fn self_switch(&self) -> Option<u32>
        ensures { Decides result (IsSelfSwitch (switch_deed self.now)) }
    {
        (self.prev == self.next).then_some(self.prev)
    }

    /// The previous task isn't what runs here.
    pub fn prev_not_running(&self, queue: &Runqueue, prev: &Option<SchedEntity>) -> Option<u32>
        requires { IsSwitchTask (runqueue_view queue.now) self.now.prev prev.now }
        ensures { Decides result (IsPrevNotRunning (runqueue_view queue.now) (switch_deed self.now)) }
    {
        if is_runner(queue, self.prev, *prev) {
            None
        } else {
            Some(self.prev)
        }
    }

    /// One of the two tasks stands here with another nice value; the previous one first.
    pub fn wrong_prio(&self, prev: &Option<SchedEntity>, next: &Option<SchedEntity>) -> Option<u32>
        ensures { (part : Part) → IsSwitchTask part self.now.prev prev.now → IsSwitchTask part self.now.next next.now
            → Decides result (IsWrongPrio part (switch_deed self.now)) }
    {
        if has_other_prio(*prev, self.prev, self.prev_nice) {
            Some(self.prev)
        } else if has_other_prio(*next, self.next, self.next_nice) {
            Some(self.next)
        } else {
            None
        }
    }

    /// The pid of which it needs a claim: a previous task that stays.
    pub fn claimant(&self) -> Option<u32>
        ensures { (part : Part) → result ≡ claimant part (switch_deed self.now) }
    {
        match self.way {
            Way::Stays => {
                if self.prev == IDLE_PID {
                    None
                } else {
                    Some(self.prev)
                }
            }
            Way::Sleeps | Way::Ends => None,
        }
    }

    /// A previous task that stays is claimed at another virtual runtime than its own.
    pub fn wrong_put_back(&self, prev: &Option<SchedEntity>, claim: Option<Claim>) -> Option<u32>
        ensures { (part : Part) → IsSwitchTask part self.now.prev prev.now
            → Decides result (IsWrongPutBack part (switch_deed self.now) claim) }
    {
        match self.way {
            Way::Stays => {
                let claim = claim?;
                if self.prev != IDLE_PID && is_at_other(*prev, claim) {
                    Some(self.prev)
                } else {
                    None
                }
            }
            Way::Sleeps | Way::Ends => None,
        }
    }

    /// The next task doesn't wait here.
    pub fn next_not_waiting(&self, next: &Option<SchedEntity>) -> Option<u32>
        ensures { (part : Part) → IsSwitchTask part self.now.next next.now
            → Decides result (IsNextNotWaiting part (switch_deed self.now)) }
    {
        if self.next == IDLE_PID || stands_in(*next, Place::Wait) {
            None
        } else {
            Some(self.next)
        }
    }
}
