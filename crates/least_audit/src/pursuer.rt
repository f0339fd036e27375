ghost use Rattle.std.specs.Prelude.{◌≡◌, ◌+◌, ◌<◌, ◌^◌, OnOk, length};
ghost use Rattle.cfs_model.specs.Least.{larger};
ghost use Rattle.queue_replay.specs.Windowed.{windowed_view};
ghost use Rattle.replay_model.specs.Cut.{steps_at};
ghost use Rattle.replay_model.specs.Needs.{idle_need, only_slack};
ghost use Rattle.sched_record.specs.Window.{window_view};
ghost use Rattle.runqueue.specs.Queue.{runqueue_view};
ghost use Rattle.window_audit.specs.States.{forgotten};
ghost use Rattle.least_audit.specs.Candidates.{idling_of, rise_to, since_of};
ghost use Rattle.least_audit.specs.Pursuit.{FollowsOn, IsFirstWaiting, Pursues};

use crate::rise::{Rise, Rises};
use cfs_model::{Amounts, Memory, Setting};
use queue_replay::WindowedReplay;
use replay_model::Step;
use runqueue::Runqueue;
use sched_record::Window;

/// A step at which what a processor needs of a setting rose.
#[derive(Clone, Copy, Debug)]
pub(crate) struct RiseAt {
    pub cpu: u32,
    pub rise: Rise,
}

/// Since when a processor idled beside a waiting task, in nanoseconds.
#[derive(Clone, Copy, Debug)]
pub(crate) struct Idling {
    pub cpu: u32,
    pub since: u64,
}

/// A processor's replay at the greatest settings, which notes where its needs rise.
#[derive(Drop)]
pub(crate) struct Pursuer {
    pub replay: WindowedReplay,
    /// Of the window at hand.
    pub rises: Rises,
}

impl Pursuer {
    /// Forgets the window before, and goes on by a window's steps. The list is for them; its room is used again.
    pub fn go_through(&mut self, window: &Window, steps: &mut Vec<Step>) -> Result<(), Memory>
        requires few { (windowed_view self.old.replay).made
            + length (steps_at (windowed_view self.old.replay).cpu (window_view window.now)) < 2 ^ 64 }
        ensures { OnOk result (Pursues (forgotten (windowed_view self.old.replay))
            (steps_at (windowed_view self.old.replay).cpu (window_view window.now)) (windowed_view self.new.replay)
            self.new.rises) }
    {
        self.replay.forget();
        window.deal(self.replay.cpu(), steps)?;
        self.rises = Rises::none();
        for step in steps.as_slice() {
            self.follow(step)?;
        }
        Ok(())
    }

    /// Where the processor needs so much of a setting, the step at which its needs rose to that.
    pub fn rise_to(&self, setting: Setting, value: u64) -> Option<RiseAt>
        ensures { result ≡ rise_to setting value (windowed_view self.now.replay) self.now.rises }
    {
        if self.replay.needs().get(setting) != value {
            return None;
        }
        let rise = self.rises.get(setting)?;
        let cpu = self.replay.cpu();
        Some(RiseAt { cpu, rise })
    }

    /// Since when the processor idled, where it needs more of the slack than a bound; else since when it still idles.
    pub fn idling(&self, bound: u64) -> Option<Idling>
        ensures { result ≡ idling_of bound (windowed_view self.now.replay) self.now.rises }
    {
        let since = if self.replay.needs().get(Setting::Slack) > bound {
            since_of(&self.rises.slack)
        } else {
            self.replay.idled_since()
        };
        let cpu = self.replay.cpu();
        match since {
            Some(since) => Some(Idling { cpu, since }),
            None => None,
        }
    }

    /// What the processor needs of each setting behind a window whose last event is at this time, in nanoseconds.
    pub fn needs_at(&self, time: u64) -> Amounts
        ensures { result ≡ larger (windowed_view self.now.replay).needs
            (only_slack (idle_need (windowed_view self.now.replay).state.since time)) }
    {
        let mut needs = self.replay.needs();
        if let Some(since) = self.replay.idled_since() {
            needs.raise(Setting::Slack, time.saturating_sub(since));
        }
        needs
    }

    /// Goes on by a step.
    fn follow(&mut self, step: &Step) -> Result<(), Memory>
        requires { (windowed_view self.old.replay).made + 1 < 2 ^ 64 }
        ensures { OnOk result (FollowsOn (windowed_view self.old.replay) self.old.rises step.now
            (windowed_view self.new.replay) self.new.rises) }
    {
        let before = self.replay.needs();
        let since = self.replay.idled_since();
        self.replay.go_through(&[*step])?;
        let over = first_waiting(self.replay.runqueue());
        let rise = Rise {
            step: *step,
            since,
            over,
        };
        self.rises = self.rises.with(before, self.replay.needs(), &rise);
        Ok(())
    }
}

/// The least of those who wait at a processor, if anybody does.
fn first_waiting(queue: &Runqueue) -> Option<u32>
    ensures { IsFirstWaiting (runqueue_view queue.now) result }
{
    match queue.waiting().first() {
        Some(task) => Some(task.pid),
        None => None,
    }
}

/// Since when a processor had idled at a step, where there was one.
fn since_of(rise: &Option<Rise>) -> Option<u64>
    ensures { result ≡ since_of rise.now }
{
    match rise {
        Some(rise) => rise.since,
        None => None,
    }
}
