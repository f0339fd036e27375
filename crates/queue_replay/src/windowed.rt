ghost use Rattle.std.specs.Prelude.{◌≡◌, None};
ghost use Rattle.queue_replay.specs.ReplayState.{IsGoing};

use crate::replay_state::ReplayState;
use crate::row_tallies::RowTallies;
use crate::running::{before_steps, end_window, go_through, state_before};
use cfs_model::{Amounts, Knobs, Memory};
use processor_stream::Stream;
use replay_model::{LifeEvent, Step, StepFault, Tally, Ticket};
use runqueue::Runqueue;
use std::alloc::Global;

/// The replay of one processor by steps that are handed in, window after window, and not kept.
#[derive(Drop)]
pub struct WindowedReplay {
    cpu: u32,
    knobs: Knobs,
    state: ReplayState,
    pub ghost going: { state.draft.fault ≡ None → IsGoing state },
}

impl WindowedReplay {
    ghost use Rattle.std.specs.Prelude.{◌+◌, ◌^◌, ◌<◌, [], IfOk, OnOk, OnErr, length, map};
    ghost use Rattle.replay_model.specs.Cut.{StreamView};
    ghost use Rattle.replay_model.specs.Needs.{only_slack};
    ghost use Rattle.replay_model.specs.Noted.{new_tally};
    ghost use Rattle.replay_model.specs.Page.{IsStartOf, end_page};
    ghost use Rattle.processor_stream.specs.Stream.{stream_view};
    ghost use Rattle.queue_replay.specs.Windowed.{GoesThrough, StopsWithin, windowed_view};
    ghost use Rattle.runqueue.specs.Queue.{runqueue_view};

    /// The replay before its first step, of the processor of a stream, whose steps aren't read.
    pub fn new(alloc: Global, stream: &Stream, knobs: Knobs) -> Result<WindowedReplay, Memory>
        ensures cpu { IfOk result (λ replay. (windowed_view replay).cpu ≡ (stream_view stream.now).cpu) }
        ensures knobs { IfOk result (λ replay. (windowed_view replay).knobs ≡ knobs) }
        ensures made { IfOk result (λ replay. (windowed_view replay).made ≡ 0) }
        ensures start { IfOk result (λ replay. IsStartOf (stream_view stream.now) (windowed_view replay).state) }
        ensures needs { IfOk result (λ replay. (windowed_view replay).needs ≡ only_slack 0) }
    {
        Ok(WindowedReplay {
            cpu: stream.cpu(),
            knobs,
            state: before_steps(alloc, stream)?,
        })
    }

    /// The replay of a processor that goes on from where its runqueue stands, and since when the processor has idled
    /// beside a waiting task, in nanoseconds. It is before its first step: its tallies have nothing of what was before.
    pub fn of_runqueue(
        alloc: Global,
        cpu: u32,
        knobs: Knobs,
        queue: Runqueue,
        since: Option<u64>,
    ) -> Result<WindowedReplay, Memory>
        ensures cpu { IfOk result (λ replay. (windowed_view replay).cpu ≡ cpu) }
        ensures knobs { IfOk result (λ replay. (windowed_view replay).knobs ≡ knobs) }
        ensures made { IfOk result (λ replay. (windowed_view replay).made ≡ 0) }
        ensures part { IfOk result (λ replay. (windowed_view replay).state.part ≡ runqueue_view queue) }
        ensures since { IfOk result (λ replay. (windowed_view replay).state.since ≡ since) }
        ensures fault { IfOk result (λ replay. (windowed_view replay).state.page.fault ≡ None) }
        ensures needs { IfOk result (λ replay. (windowed_view replay).needs ≡ only_slack 0) }
        ensures lists { IfOk result (λ replay. let page = (windowed_view replay).state.page in (page.left ≡ [])
            × (page.came ≡ []) × (page.births ≡ []) × (page.deaths ≡ [])
            × (page.tallies ≡ map new_tally queue.tasks.pids)) }
    {
        let tallies = RowTallies::of_pids(alloc, queue.pids())?;
        Ok(WindowedReplay {
            cpu,
            knobs,
            state: state_before(alloc, queue, since, tallies),
        })
    }

    /// Makes these steps, in their order, up to the first that fails. A step that wants memory isn't made, and none
    /// behind it is.
    #[inline(always)]
    pub fn go_through(&mut self, steps: &[Step]) -> Result<(), Memory>
        requires few { (windowed_view self.old).made + length steps.now < 2 ^ 64 }
        ensures through { OnOk result (GoesThrough (windowed_view self.old) steps.now (windowed_view self.new)) }
        ensures memory { OnErr result (StopsWithin (windowed_view self.old) steps.now (windowed_view self.new)) }
    {
        go_through(&mut self.state, self.cpu, steps, &self.knobs)
    }

    /// The end test, at the time of the last event up to here, in nanoseconds, and its line: whether the processor has
    /// idled for too long by then.
    pub fn end_window(&mut self, last_time: u64, last_line: u32)
        ensures page { (stream : StreamView) → stream.last_time ≡ last_time → stream.last_line ≡ last_line
            → (windowed_view self.new).state.page ≡ end_page (windowed_view self.old).knobs.slack stream (windowed_view
            self.old).state.since
            (windowed_view self.old).state.page.fault (windowed_view self.old).state.page }
        ensures part { (windowed_view self.new).state.part ≡ (windowed_view self.old).state.part }
        ensures since { (windowed_view self.new).state.since ≡ (windowed_view self.old).state.since }
        ensures same { ((windowed_view self.new).cpu ≡ (windowed_view self.old).cpu) × ((windowed_view self.new).knobs
            ≡ (windowed_view self.old).knobs)
            × ((windowed_view self.new).made ≡ (windowed_view self.old).made) × ((windowed_view self.new).needs ≡
            (windowed_view self.old).needs) }
    {
        end_window(&mut self.state, last_time, last_line, self.knobs);
    }

    /// Empties the lists of the page: the tickets, births and deaths of the steps so far.
    pub fn forget(&mut self)
        ensures { windowed_view self.new ≡ record (windowed_view self.old) {
          state = record ((windowed_view self.old).state) {
            page = record ((windowed_view self.old).state.page) {
              left = [];
              came = [];
              births = [];
              deaths = [];
            };
          };
        } }
    {
        self.state.draft.forget();
    }

    /// The processor.
    pub fn cpu(&self) -> u32
        ensures { result ≡ (windowed_view self.now).cpu }
    {
        self.cpu
    }

    /// The first fault, of a step or of an end test.
    pub fn fault(&self) -> Option<StepFault>
        ensures { result ≡ (windowed_view self.now).state.page.fault }
    {
        self.state.draft.fault
    }

    /// The line of the last step that passed, from 1, comments counted; 0 if none did.
    pub fn line(&self) -> u32
        ensures { result ≡ (windowed_view self.now).state.page.line }
    {
        self.state.draft.line
    }

    /// The tickets of the tasks that left since the lists were emptied, in the order of their lines.
    pub fn left(&self) -> &[Ticket]
        ensures { result.now ≡ (windowed_view self.now).state.page.left }
    {
        &self.state.draft.left
    }

    /// The tickets of the tasks that came since then, in the order of their lines.
    pub fn came(&self) -> &[Ticket]
        ensures { result.now ≡ (windowed_view self.now).state.page.came }
    {
        &self.state.draft.came
    }

    /// One for each pid that stood here, in the order in which they first did.
    pub fn tallies(&self) -> &[Tally]
        ensures { result.now ≡ (windowed_view self.now).state.page.tallies }
    {
        self.state.draft.tallies.tallies()
    }

    /// What the steps made need of each setting; where one failed nothing is said of it.
    pub fn needs(&self) -> Amounts
        ensures { result ≡ (windowed_view self.now).needs }
    {
        self.state.needs
    }

    /// Who stands at the processor, after the steps made; a step that failed changed nothing.
    pub fn runqueue(&self) -> &Runqueue
        ensures { runqueue_view result.now ≡ (windowed_view self.now).state.part }
    {
        &self.state.queue
    }
    /// The same, where the replay ends there.
    pub fn into_runqueue(self) -> Runqueue
        ensures { runqueue_view result ≡ (windowed_view self).state.part }
    {
        let WindowedReplay { state, .. } = self;
        let ReplayState { queue, .. } = state;
        queue
    }

    /// Since when nothing has run at the processor while somebody waited, in nanoseconds; if that is so.
    pub fn idled_since(&self) -> Option<u64>
        ensures { result ≡ (windowed_view self.now).state.since }
    {
        self.state.since
    }
}
