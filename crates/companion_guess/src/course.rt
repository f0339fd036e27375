use crate::candidate::Candidate;
use crate::draft::Draft;
use crate::learnt::Learnt;
use crate::machine::Machine;
use crate::outset::Outset;
use crate::start::Start;
use crate::wishes::Wishes;
use cfs_model::{Entry, Memory};
use std::alloc::Global;

/// A way through the events by a strategy, from a start.
#[derive(Drop)]
pub(crate) struct Course {
    pub start: Start,
    pub machine: Machine,
}

impl Course {
    /// Before the first event, of a companion that says nothing of events yet.
    pub(crate) fn new(
        alloc: Global,
        outset: &Outset,
        events: &[Entry],
        wishes: &Wishes,
        made: Candidate,
        learnt: Learnt<'_>,
    ) -> Result<Course, Memory> {
        let start = Start::of(alloc, outset, events, wishes, learnt)?;
        let machine = Machine::new(alloc, outset, &start, wishes, made, learnt.known)?;
        Ok(Course { start, machine })
    }

    /// Goes through all events.
    pub(crate) fn go_through(
        &mut self,
        outset: &Outset,
        events: &[Entry],
        learnt: Learnt<'_>,
    ) -> Result<(), Memory> {
        for (index, event) in events.iter().enumerate() {
            self.machine
                .pass(event, index, outset.forecast.is_picked(index), learnt)?;
        }
        self.machine.end();
        Ok(())
    }

    /// Goes through all events, and answers whether what is made is better than a rival. It gives up at the first event
    /// by which it can't be any more: what is needed never falls, and nothing is scored behind an event that fits no
    /// settings.
    pub(crate) fn beats(
        &mut self,
        outset: &Outset,
        events: &[Entry],
        learnt: Learnt<'_>,
        rival: &Candidate,
    ) -> Result<bool, Memory> {
        for (index, event) in events.iter().enumerate() {
            if !self.machine.candidate().is_better_than(rival) {
                return Ok(false);
            }
            self.machine
                .pass(event, index, outset.forecast.is_picked(index), learnt)?;
        }
        self.machine.end();
        Ok(self.machine.candidate().is_better_than(rival))
    }

    /// What the companion says of it.
    pub(crate) fn into_draft(self) -> Draft {
        let Course { start, machine } = self;
        Draft {
            start,
            candidate: machine.into_candidate(),
        }
    }
}
