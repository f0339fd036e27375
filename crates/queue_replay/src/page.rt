ghost use Rattle.std.specs.Prelude.{◌≡◌, length};
ghost use Rattle.replay_model.specs.Page.{IsPageOf};
ghost use Rattle.queue_replay.specs.Made.{reached_of};
ghost use Rattle.queue_replay.specs.Needing.{HasNeeds};
ghost use Rattle.processor_stream.specs.Stream.{stream_view};

use crate::found::Found;
use crate::tag::{Reached, Tag};
use cfs_model::{Amounts, Knobs};
use processor_stream::Stream;
use replay_model::{LifeEvent, StepFault, Tally, Ticket};
use std::marker::Model;

/// What the replay of one processor found, by its first steps.
#[derive(Debug, Drop)]
pub struct Page {
    pub(crate) stream: Stream,
    pub(crate) knobs: Knobs,
    pub(crate) made: usize,
    pub(crate) needs: Amounts,
    pub(crate) found: Found,
}

impl Model for Page {
    ghost use Rattle.queue_replay.specs.Found.{found_view};
    ghost use Rattle.queue_replay.specs.Needing.{HasNeeds};
    ghost use Rattle.queue_replay.specs.Replay.{ReplayView};
    ghost use Rattle.replay_model.specs.Page.{IsPageOf};
    ghost use Rattle.processor_stream.specs.Stream.{stream_view};

    ghost Value = { ReplayView };

    ghost view = { λ p. record {
      stream = stream_view p.stream;
      knobs = p.knobs;
      made = p.made;
      page = found_view p.found;
      needs = p.needs;
    } };

    ghost invariant = { λ p. IsPageOf (stream_view p.stream) p.knobs p.made (found_view p.found)
        × HasNeeds (stream_view p.stream) p.knobs p.made (found_view p.found) p.needs };
}

impl Page {
    /// The stream that was replayed.
    pub fn stream(&self) -> &Stream
        ensures { stream_view result.now ≡ self.now.stream }
    {
        &self.stream
    }

    /// A law: the page is that of its stream by the steps made, and where it is by all of them and nothing failed, its
    /// needs are the replay's.
    pub fn replayed(&self)
        ensures page { IsPageOf self.now.stream self.now.knobs self.now.made self.now.page }
        ensures needs { HasNeeds self.now.stream self.now.knobs self.now.made self.now.page self.now.needs }
    {
        let _stream = &self.stream;
    }

    /// What its steps need of each setting, and the processor that idles at the record's last time; where a step
    /// failed, or some are left, nothing is said of them.
    pub fn needs(&self) -> Amounts
        ensures { result ≡ self.now.needs }
    {
        self.needs
    }

    /// The settings that it was replayed by.
    pub fn knobs(&self) -> Knobs
        ensures { result ≡ self.now.knobs }
    {
        self.knobs
    }

    /// The number of steps made, one that failed counted.
    pub fn made(&self) -> usize
        ensures { result ≡ self.now.made }
    {
        self.made
    }

    /// The line of the last step that passed, from 1, comments counted; 0 if none did.
    pub fn line(&self) -> u32
        ensures { result ≡ self.now.page.line }
    {
        self.found.line
    }

    /// The first fault, of a step or of the end test.
    pub fn fault(&self) -> Option<StepFault>
        ensures { result ≡ self.now.page.fault }
    {
        self.found.fault
    }

    /// The tickets of the tasks that left, in the order of their lines.
    pub fn left(&self) -> &[Ticket]
        ensures { result.now ≡ self.now.page.left }
    {
        self.found.left.as_slice()
    }

    /// The tickets of the tasks that came, in the order of their lines.
    pub fn came(&self) -> &[Ticket]
        ensures { result.now ≡ self.now.page.came }
    {
        self.found.came.as_slice()
    }

    /// The births, in the order of their lines.
    pub fn births(&self) -> &[LifeEvent]
        ensures { result.now ≡ self.now.page.births }
    {
        self.found.births.as_slice()
    }

    /// The deaths, in the order of their lines.
    pub fn deaths(&self) -> &[LifeEvent]
        ensures { result.now ≡ self.now.page.deaths }
    {
        self.found.deaths.as_slice()
    }

    /// One for each pid that stood here, in the order in which they first did.
    pub fn tallies(&self) -> &[Tally]
        ensures { result.now ≡ self.now.page.tallies }
    {
        self.found.tallies.as_slice()
    }

    /// The processor, and how far the replay went.
    pub fn tag(&self) -> Tag
        ensures cpu { result.cpu ≡ self.now.stream.cpu }
        ensures reached { result.reached ≡ reached_of self.now.page self.now.made (length self.now.stream.steps) }
    {
        Tag {
            cpu: self.stream.cpu(),
            reached: self.reached(),
        }
    }

    fn reached(&self) -> Reached
        ensures { result ≡ reached_of self.now.page self.now.made (length self.now.stream.steps) }
    {
        match self.found.fault {
            Some(fault) => Reached::Faulted(fault.line),
            None => {
                if self.made < self.stream.steps().len() {
                    Reached::Stopped(self.found.line)
                } else {
                    Reached::Done
                }
            }
        }
    }
}
