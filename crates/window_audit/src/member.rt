ghost use Rattle.std.specs.Prelude.{◌≡◌, ◌+◌, ◌^◌, ◌<◌, [], false, length, IfOk, OnOk};
ghost use Rattle.replay_model.specs.Cut.{steps_at};
ghost use Rattle.replay_model.specs.Noted.{PageView};
ghost use Rattle.queue_replay.specs.Windowed.{GoesThrough, windowed_view};
ghost use Rattle.sched_record.specs.Window.{AreTouching, window_view};
ghost use Rattle.window_audit.specs.Member.{IsThroughWindow, replay_of};

use cfs_model::Memory;
use queue_replay::{Paged, WindowedReplay};
use replay_model::{Step, StepFault, Tally, Ticket};
use sched_record::Window;
use std::alloc::Global;
use std::slice::from_ref;

/// One processor of an audit in windows.
#[derive(Drop)]
pub(crate) struct Member {
    pub replay: WindowedReplay,
    /// Its steps of the window at hand, where that keeps no indices of its events. Else the first is each of them in
    /// turn.
    pub steps: Vec<Step>,
    /// Whether a growth was refused in it.
    pub wants_memory: bool,
}

impl Member {
    /// One before the first window.
    pub(crate) fn new(alloc: Global, replay: WindowedReplay) -> Member
        ensures { replay_of result ≡ windowed_view replay }
    {
        Member {
            replay,
            steps: Vec::new(alloc),
            wants_memory: false,
        }
    }

    /// Replays the window's steps, and makes the end test at the time and line of its last event.
    pub(crate) fn go_through(&mut self, window: &Window, last_time: u64, last_line: u32)
        requires { (replay_of self.old).made + length (steps_at (replay_of self.old).cpu (window_view window.now))
            < 2 ^ 64 }
        ensures { self.new.wants_memory ≡ false → IsThroughWindow (replay_of self.old)
            (steps_at (replay_of self.old).cpu (window_view window.now)) last_time last_line (replay_of self.new) }
    {
        let answer = self.try_through(window, last_time, last_line);
        self.wants_memory = answer.is_err();
    }

    fn try_through(&mut self, window: &Window, last_time: u64, last_line: u32) -> Result<(), Memory>
        requires { (replay_of self.old).made + length (steps_at (replay_of self.old).cpu (window_view window.now))
            < 2 ^ 64 }
        ensures { OnOk result (IsThroughWindow (replay_of self.old)
            (steps_at (replay_of self.old).cpu (window_view window.now)) last_time last_line (replay_of self.new)) }
    {
        self.replay_steps(window)?;
        self.replay.end_window(last_time, last_line);
        Ok(())
    }

    /// Replays the window's steps, each as soon as it is made, in the place of the one before.
    fn replay_steps(&mut self, window: &Window) -> Result<(), Memory>
        requires { (replay_of self.old).made + length (steps_at (replay_of self.old).cpu (window_view window.now))
            < 2 ^ 64 }
        ensures { OnOk result (GoesThrough (replay_of self.old)
            (steps_at (replay_of self.old).cpu (window_view window.now)) (replay_of self.new)) }
    {
        let cpu = self.replay.cpu();
        let Some(indices) = window.touching(cpu) else {
            return self.replay_dealt(window);
        };
        let [first, ..] = indices else {
            return Ok(());
        };
        if self.steps.is_empty() {
            // Taken apart: the check knows the types of what is named.
            let Step {
                line,
                time,
                deed,
                claim,
                nice,
                charge,
            } = window.step(*first, cpu);
            push(
                &mut self.steps,
                Step {
                    line,
                    time,
                    deed,
                    claim,
                    nice,
                    charge,
                },
            )?;
        }
        replay_each(&mut self.replay, window, indices, &mut self.steps[0])
    }

    /// The same where the window keeps no indices: its steps are dealt first.
    #[cold]
    #[inline(never)]
    fn replay_dealt(&mut self, window: &Window) -> Result<(), Memory>
        requires { (replay_of self.old).made + length (steps_at (replay_of self.old).cpu (window_view window.now))
            < 2 ^ 64 }
        ensures { OnOk result (GoesThrough (replay_of self.old)
            (steps_at (replay_of self.old).cpu (window_view window.now)) (replay_of self.new)) }
    {
        window.deal(self.replay.cpu(), &mut self.steps)?;
        self.replay.go_through(&self.steps)
    }

    /// Empties the lists of its page.
    pub(crate) fn forget(&mut self)
        ensures { replay_of self.new ≡ record (replay_of self.old) {
          state = record ((replay_of self.old).state) {
            page = record ((replay_of self.old).state.page) {
              left = [];
              came = [];
              births = [];
              deaths = [];
            };
          };
        } }
    {
        self.replay.forget();
    }
}

/// Adds an item behind the others of a list.
fn push<T: Drop>(list: &mut Vec<T>, item: T) -> Result<(), Memory>
    ensures { OnOk result (0 < length list.new.items) }
{
    list.push(item)?;
    Ok(())
}

/// Replays the steps of a window's events at these indices, each in the place of the one before.
#[inline(always)]
fn replay_each(
    replay: &mut WindowedReplay,
    window: &Window,
    indices: &[u32],
    step: &mut Step,
) -> Result<(), Memory>
    requires touching { AreTouching (windowed_view replay.old).cpu (window_view window.now) indices.now }
    requires few { (windowed_view replay.old).made
        + length (steps_at (windowed_view replay.old).cpu (window_view window.now)) < 2 ^ 64 }
    ensures { OnOk result (GoesThrough (windowed_view replay.old)
        (steps_at (windowed_view replay.old).cpu (window_view window.now)) (windowed_view replay.new)) }
{
    let cpu = replay.cpu();
    for index in indices {
        window.write_step(*index, cpu, step);
        replay.go_through(from_ref(step))?;
    }
    Ok(())
}

impl Paged for Member {
    ghost page = { λ member. (replay_of member).state.page };

    fn fault(&self) -> Option<StepFault> {
        self.replay.fault()
    }

    fn left(&self) -> &[Ticket] {
        self.replay.left()
    }

    fn came(&self) -> &[Ticket] {
        self.replay.came()
    }

    fn tallies(&self) -> &[Tally] {
        self.replay.tallies()
    }
}
