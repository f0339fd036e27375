ghost use Rattle.std.specs.Prelude.{◌≡◌, ℕ, Option, length, IfOk, IfErr, OnOk, OnErr};
ghost use Rattle.replay_model.specs.Page.{IsPageOf};
ghost use Rattle.queue_replay.specs.Counting.{page_draft_view};
ghost use Rattle.queue_replay.specs.Made.{IsAt, IsCut, IsPartAfter, GoesOn, state_of};
ghost use Rattle.replay_model.specs.Part.{Part};
ghost use Rattle.runqueue.specs.Queue.{runqueue_view};
ghost use Rattle.processor_stream.specs.Stream.{stream_view};

use crate::page::Page;
use crate::replay_state::ReplayState;
use crate::running::{make_steps, start};
use crate::state::State;
use cfs_model::{Knobs, Memory};
use processor_stream::Stream;
use runqueue::Runqueue;
use std::alloc::Global;
use std::marker::Model;

/// The replay of one processor's stream, under way.
#[derive(Drop)]
pub struct Replay {
    stream: Stream,
    knobs: Knobs,
    state: ReplayState,
}

impl Model for Replay {
    ghost use Rattle.queue_replay.specs.Counting.{page_draft_view};
    ghost use Rattle.queue_replay.specs.Made.{IsAt};
    ghost use Rattle.queue_replay.specs.Replay.{ReplayView};
    ghost use Rattle.processor_stream.specs.Stream.{stream_view};

    ghost Value = { ReplayView };

    ghost view = { λ replay. record {
      stream = stream_view replay.stream;
      knobs = replay.knobs;
      made =
          replay.state.made;
      page = page_draft_view replay.state.draft;
      needs = replay.state.needs;
    } };

    ghost invariant = { λ replay. IsAt (stream_view replay.stream) replay.knobs replay.state };
}

impl Replay {
    /// The replay before its first step; on a stream without steps, after the end test. Where memory is wanted the
    /// stream comes back.
    pub fn new(alloc: Global, stream: Stream, knobs: Knobs) -> Result<Replay, (Stream, Memory)>
        ensures stream { IfOk result (λ replay. replay.stream ≡ stream_view stream) }
        ensures knobs { IfOk result (λ replay. replay.knobs ≡ knobs) }
        ensures made { IfOk result (λ replay. replay.made ≡ 0) }
        ensures page { IfOk result (λ replay. IsPageOf replay.stream replay.knobs replay.made replay.page) }
        ensures back { IfErr result (λ back. back.0 ≡ stream) }
    {
        match start(alloc, &stream, knobs) {
            Ok(state) => Ok(Replay {
                stream,
                knobs,
                state,
            }),
            Err(memory) => Err((stream, memory)),
        }
    }

    /// Makes steps while some are left, none has failed and fewer than so many were made in this call; where then
    /// none is left, the end test. A step that wants memory isn't made; a later call begins with it.
    pub fn go_on(&mut self, steps: u64) -> Result<State, Memory>
        ensures stream { self.new.stream ≡ self.old.stream }
        ensures knobs { self.new.knobs ≡ self.old.knobs }
        ensures page { IsPageOf self.new.stream self.new.knobs self.new.made self.new.page }
        ensures state { IfOk result (λ answer. answer ≡ state_of self.new.page.fault self.new.made
            (length self.new.stream.steps)) }
        ensures made { OnOk result (GoesOn self.old.stream self.old.knobs self.old.made self.old.page steps
            self.new.made self.new.page) }
        ensures memory { OnErr result (IsCut self.old.stream self.old.knobs self.old.made steps self.new.made
            self.new.page) }
    {
        make_steps(&self.stream, self.knobs, &mut self.state, steps)?;
        Ok(self.state())
    }

    fn state(&self) -> State
        ensures { result ≡ state_of self.now.page.fault self.now.made (length self.now.stream.steps) }
    {
        match self.state.draft.fault {
            Some(_) => State::Faulted,
            None => {
                if self.state.made < self.stream.steps().len() {
                    State::Going
                } else {
                    State::Done
                }
            }
        }
    }

    /// Who stands at the processor, after the steps made; a step that failed changed nothing.
    pub fn runqueue(&self) -> &Runqueue
        ensures { (since : Option ℕ) × IsPartAfter self.now.stream self.now.knobs self.now.made
            (runqueue_view result.now) since }
    {
        &self.state.queue
    }

    /// The same, where the replay ends there.
    pub fn into_runqueue(self) -> Runqueue
        ensures { (since : Option ℕ) × IsPartAfter self.stream self.knobs self.made (runqueue_view result) since }
    {
        let Replay { state, .. } = self;
        let ReplayState { queue, .. } = state;
        queue
    }

    /// Since when nothing has run at the processor while somebody waited, in nanoseconds; if that is so.
    pub fn idled_since(&self) -> Option<u64>
        ensures { (part : Part) × IsPartAfter self.now.stream self.now.knobs self.now.made part result }
    {
        self.state.since
    }

    /// The line of the last step that passed, from 1, comments counted; 0 if none did.
    pub fn line(&self) -> u32
        ensures line { result ≡ self.now.page.line }
        ensures page { IsPageOf self.now.stream self.now.knobs self.now.made self.now.page }
    {
        self.state.draft.line
    }

    /// What the replay found so far.
    pub fn page(self) -> Page
        ensures same { result ≡ self }
        ensures is_page { IsPageOf result.stream result.knobs result.made result.page }
    {
        let Replay {
            stream,
            knobs,
            state,
        } = self;
        let ReplayState {
            made,
            needs,
            draft,
            ..
        } = state;
        Page {
            stream,
            knobs,
            made,
            needs,
            found: draft.found(),
        }
    }
}
