use crate::candidate::Candidate;
use crate::known::Known;
use crate::learnt::Learnt;
use crate::named::{Heard, Named};
use crate::news::News;
use crate::outset::Outset;
use crate::placement::Placement;
use crate::placements::Placements;
use crate::processor::Processor;
use crate::start::Start;
use crate::task_at::TaskAt;
use crate::tasks::Tasks;
use crate::unsettled::UnsettledPlacings;
use crate::wishes::Wishes;
use cfs_model::{Act, Claim, ClaimSort, Entry, IDLE_PID, Memory, Place, Setting, Task, Way};
use std::alloc::Global;

mod charging;
mod moving;
mod renicing;
mod waking;

/// The machine that the events lead, as far as they can: what breaks a rule changes nothing.
#[derive(Drop)]
pub(crate) struct Machine {
    processors: Vec<Processor>,
    tasks: Tasks,
    wishes: Wishes,
    made: Candidate,
    /// The placements that no print tells.
    unsettled: UnsettledPlacings,
    /// How many prints have been heard.
    heard: usize,
    /// Of the last event, in nanoseconds.
    time: u64,
}

/// An event's line and index, whether its task is the next to be picked, and what is known of its placement.
#[derive(Clone, Copy)]
struct Moment {
    line: u32,
    index: usize,
    is_picked: bool,
    placement: Placement,
    /// Where the row is expected of the task that it picks, wakes or moves.
    row: usize,
    /// The virtual runtime of the task that it wakes, where that rests.
    own: Option<i64>,
}

impl Machine {
    /// Before the first event; of a companion that says nothing of events yet.
    pub(crate) fn new(
        alloc: Global,
        outset: &Outset,
        start: &Start,
        wishes: &Wishes,
        made: Candidate,
        known: &Known,
    ) -> Result<Machine, Memory> {
        let mut machine = Machine {
            processors: Vec::new(alloc),
            tasks: Tasks::new(alloc),
            wishes: *wishes,
            made,
            unsettled: UnsettledPlacings::new(alloc),
            heard: 0,
            time: outset.start,
        };
        machine.set_up(alloc, outset, start, known)?;
        Ok(machine)
    }

    /// Each task stands where it stands at the start.
    fn set_up(
        &mut self,
        alloc: Global,
        outset: &Outset,
        start: &Start,
        known: &Known,
    ) -> Result<(), Memory> {
        for cpu in 0..outset.cpus {
            self.processors
                .push(Processor::new(alloc, start.floor(cpu), outset.start))?;
        }
        for task in start.tasks.as_slice() {
            let unsettled = self.unsettled_at_start(task, outset.start, known)?;
            self.enter(*task, 0, unsettled, known)?;
        }
        for cpu in 0..outset.cpus {
            self.note_idling(cpu);
        }
        Ok(())
    }

    /// What the companion says so far.
    pub(crate) fn candidate(&self) -> &Candidate {
        &self.made
    }

    /// What the companion says.
    pub(crate) fn into_candidate(self) -> Candidate {
        self.made
    }

    /// Tells which placements turned out to be others, and what they have to be.
    pub(crate) fn tell_asked(
        &self,
        known: &mut Known,
        placements: &mut Placements,
    ) -> Result<News, Memory> {
        self.unsettled.tell_asked(known, placements)
    }

    /// No event follows.
    pub(crate) fn end(&mut self) {
        for processor in self.processors.as_slice() {
            self.made.need(Setting::Slack, processor.idled(self.time));
        }
    }

    /// Passes one more event, which stands at this index. The flag tells whether the task that it wakes or bears is the
    /// next to be picked.
    pub(crate) fn pass(
        &mut self,
        event: &Entry,
        index: usize,
        is_picked: bool,
        learnt: Learnt<'_>,
    ) -> Result<(), Memory> {
        let known = learnt.known;
        let row = self.tasks.row_of(moved_by(event.act));
        let standing = self.standing(event.act, row);
        let moment = Moment {
            line: event.line,
            index,
            is_picked,
            placement: learnt.placements.at(index),
            row,
            own: standing.and_then(|standing| standing.own()),
        };
        let (home, dest) = event.act.ends();
        self.time = event.time;
        self.hear(event.line, known);
        if !self.fits(event.act, standing.map(|standing| standing.place)) {
            self.stop_at(moment.line);
        }
        self.need_slack(home);
        if dest != home {
            self.need_slack(dest);
        }
        self.act(event, moment, known)?;
        self.note_idling(home);
        if dest != home {
            self.note_idling(dest);
        }
        Ok(())
    }

    /// What the event does.
    fn act(&mut self, event: &Entry, moment: Moment, known: &Known) -> Result<(), Memory> {
        let act = event.act;
        match act {
            Act::Switch {
                cpu,
                prev,
                prev_nice,
                way,
                next,
                next_nice,
            } => {
                self.charge(moment.line, cpu, event.time)?;
                self.renice(moment.line, cpu, prev, prev_nice)?;
                self.renice(moment.line, cpu, next, next_nice)?;
                self.leave(moment, cpu, prev, way)?;
                self.pick(moment, cpu, next)?;
                self.end_line(moment.line, cpu);
                Ok(())
            }
            Act::Wake { cpu, pid, nice } => {
                self.charge(moment.line, cpu, event.time)?;
                self.renice(moment.line, cpu, pid, nice)?;
                self.wake(moment, cpu, pid)?;
                self.end_line(moment.line, cpu);
                Ok(())
            }
            Act::Born { cpu, pid, nice } => {
                self.charge(moment.line, cpu, event.time)?;
                self.bear(moment, cpu, pid, nice, known)?;
                self.end_line(moment.line, cpu);
                Ok(())
            }
            Act::Shift {
                orig,
                dest,
                pid,
                nice,
            } => {
                self.charge(moment.line, orig, event.time)?;
                self.lift(moment.line, dest, event.time);
                self.renice(moment.line, orig, pid, nice)?;
                self.shift(moment, orig, dest, pid, known)?;
                self.end_line(moment.line, orig);
                Ok(())
            }
        }
    }

    /// The event on this line fits no settings. What was needed up to there stays.
    fn stop_at(&mut self, line: u32) {
        if self.made.stop.is_none() {
            self.end();
            self.made.stop_at(line);
        }
    }

    /// The processor is touched: the slack has to be as long as it idled beside a waiting task.
    fn need_slack(&mut self, cpu: u32) {
        if let Some(processor) = self.processors.get(cpu as usize) {
            self.made.need(Setting::Slack, processor.idled(self.time));
        }
    }

    /// What happens at the processor is over.
    fn note_idling(&mut self, cpu: u32) {
        let time = self.time;
        if let Some(processor) = self.processors.get_mut(cpu as usize) {
            processor.note_idling(time);
        }
    }

    /// Hears what was printed before a line.
    fn hear(&mut self, line: u32, known: &Known) {
        let later = known.prints().as_slice().get(self.heard..).unwrap_or(&[]);
        for print in later {
            if print.line >= line {
                break;
            }
            if let Some(named) = self.tasks.get_mut(print.pid) {
                named.heard = Some(Heard {
                    line: print.line,
                    v: print.v,
                });
            }
            self.heard = self.heard.saturating_add(1);
        }
    }

    /// Where the task is that an event picks, wakes or moves, if it stands at the processor. Its row is expected at an
    /// index.
    fn standing(&self, act: Act, row: usize) -> Option<TaskAt> {
        match act {
            Act::Switch { cpu, next, .. } if next != IDLE_PID => {
                self.processors.get(cpu as usize)?.task(row, next)
            }
            Act::Wake { cpu, pid, .. } => self.processors.get(cpu as usize)?.task(row, pid),
            Act::Shift { orig, pid, .. } => self.processors.get(orig as usize)?.task(row, pid),
            Act::Switch { .. } | Act::Born { .. } => None,
        }
    }

    /// Whether an event fits where the tasks stand; the one that it picks, wakes or moves has this place. Else no
    /// settings mend it.
    fn fits(&self, act: Act, place: Option<Place>) -> bool {
        match act {
            Act::Switch {
                cpu,
                prev,
                way,
                next,
                ..
            } => self
                .processors
                .get(cpu as usize)
                .is_some_and(|here| here.can_switch(prev, way, next, place)),
            Act::Wake { .. } => place.is_some(),
            Act::Born { pid, .. } => self.tasks.get(pid).is_none(),
            Act::Shift { orig, dest, .. } => {
                orig != dest && matches!(place, Some(Place::Wait) | Some(Place::Rest))
            }
        }
    }

    /// A task, named last on this line, comes to its processor.
    fn enter(
        &mut self,
        task: Task,
        line: u32,
        unsettled: Option<usize>,
        known: &Known,
    ) -> Result<(), Memory> {
        let pid = task.pid;
        let mut named = Named {
            cpu: task.cpu,
            row: usize::MAX,
            line,
            since: line,
            nice: task.nice,
            unsettled,
            is_printed: known.names(pid),
            heard: None,
        };
        named.row = self.come(task)?;
        self.tasks.set(pid, named)
    }

    /// A task stands at its processor from now on. Where its row is there.
    fn come(&mut self, task: Task) -> Result<usize, Memory> {
        let cpu = task.cpu;
        match self.processors.get_mut(cpu as usize) {
            Some(processor) => processor.enter(task),
            None => Ok(usize::MAX),
        }
    }

    /// Who runs leaves the processor.
    fn leave(&mut self, moment: Moment, cpu: u32, prev: u32, way: Way) -> Result<(), Memory> {
        let Some(processor) = self.processors.get_mut(cpu as usize) else {
            return Ok(());
        };
        let Some(task) = processor.leave(prev, way)? else {
            return Ok(());
        };
        match way {
            Way::Stays => self.claim(moment.line, prev, task.v, ClaimSort::At)?,
            Way::Sleeps => (),
            Way::Ends => {
                self.tasks.remove(prev);
            }
        }
        Ok(())
    }

    /// A task that waits is picked.
    fn pick(&mut self, moment: Moment, cpu: u32, next: u32) -> Result<(), Memory> {
        if let Some(processor) = self.processors.get_mut(cpu as usize) {
            if let Some(lead) = processor.pick(moment.row, next)? {
                self.made.need(Setting::Granularity, lead);
            }
        }
        Ok(())
    }

    fn claim(&mut self, line: u32, pid: u32, v: i64, sort: ClaimSort) -> Result<(), Memory> {
        self.made.claims.push(Claim { line, pid, v, sort })?;
        Ok(())
    }

    fn floor(&self, cpu: u32) -> i64 {
        self.processors
            .get(cpu as usize)
            .map_or(0, |processor| processor.queue.floor())
    }
}

/// The task that an event picks, wakes, bears or moves.
fn moved_by(act: Act) -> u32 {
    match act {
        Act::Switch { next, .. } => next,
        Act::Wake { pid, .. } | Act::Born { pid, .. } | Act::Shift { pid, .. } => pid,
    }
}
