//! Where the machine places tasks that wake or are born, and what isn't settled of those at the start.

use super::{Machine, Moment};
use crate::known::Known;
use crate::placement::Placement;
use crate::placing::Placing;
use crate::strategy::Strategy;
use crate::unsettled::Unsettled;
use crate::values::{above, below, excess};
use cfs_model::{Claim, ClaimSort, Memory, Nice, Place, Policy, Setting, Task};

impl Machine {
    /// A task that rests at the processor waits there.
    pub(super) fn wake(&mut self, moment: Moment, cpu: u32, pid: u32) -> Result<(), Memory> {
        let Some(own) = moment.own else {
            return Ok(());
        };
        let high = own.max(self.floor(cpu));
        let v = match moment.placement.value() {
            Some(placed) => {
                if placed < own || placed > high {
                    self.ask(pid, placed, own)?;
                }
                placed.min(high).max(own)
            }
            None => self.wake_place(moment, cpu, own),
        };
        let credit = excess(self.floor(cpu), v);
        self.made.need(Setting::Credit, credit);
        self.place_anew(moment, pid, v, own)?;
        let claim = Claim {
            line: moment.line,
            pid,
            v,
            sort: ClaimSort::At,
        };
        if let Some(processor) = self.processors.get_mut(cpu as usize) {
            processor.wake(moment.row, claim)?;
        }
        self.made.claims.push(claim)?;
        Ok(())
    }

    /// Where a woken task is placed at the processor that has this virtual runtime of its own.
    fn wake_place(&self, moment: Moment, cpu: u32, own: i64) -> i64 {
        let floor = self.floor(cpu);
        let low = own.max(below(floor, self.wishes.knobs.credit()));
        let high = own.max(floor);
        match (self.made.strategy, self.processors.get(cpu as usize)) {
            (Strategy::Low, _) => low,
            (Strategy::Picked, _) if moment.is_picked => low,
            (Strategy::Level, Some(processor)) if moment.is_picked => processor.level(low, high),
            // The kernel's credit isn't known, but nobody waits further below the floor than by that.
            (Strategy::Kernel, Some(processor)) if moment.is_picked => processor.level(own, high),
            _ => high,
        }
    }

    /// A task that had a virtual runtime of its own is placed, and has this one then.
    fn place_anew(&mut self, moment: Moment, pid: u32, v: i64, own: i64) -> Result<(), Memory> {
        let Some(named) = self.tasks.get(pid) else {
            return Ok(());
        };
        let unsettled = if named.is_printed {
            let at = Placing::ByEvent(moment.index);
            let before = named.unsettled;
            self.unsettled
                .note(moment.placement, Unsettled { at, v, own, before })?
        } else {
            None
        };
        if let Some(named) = self.tasks.get_mut(pid) {
            named.since = moment.line;
            named.unsettled = unsettled;
        }
        Ok(())
    }

    /// Notes where a task stands at the start, in nanoseconds, unless a print tells it, and answers its index there.
    pub(super) fn unsettled_at_start(
        &mut self,
        task: &Task,
        start: u64,
        known: &Known,
    ) -> Result<Option<usize>, Memory> {
        if !known.names(task.pid) {
            return Ok(None);
        }
        let printed = known.printed_at_start(task, start);
        let unsettled = Unsettled {
            at: Placing::AtStart(task.pid),
            v: task.v,
            own: task.v,
            before: None,
        };
        self.unsettled.note(Placement::of(printed), unsettled)
    }

    /// A new task waits at the processor.
    pub(super) fn bear(
        &mut self,
        moment: Moment,
        cpu: u32,
        pid: u32,
        nice: Nice,
        known: &Known,
    ) -> Result<(), Memory> {
        if self.tasks.get(pid).is_some() {
            return Ok(());
        }
        let v = match moment.placement.value() {
            Some(placed) => placed.max(self.floor(cpu)),
            None => self.birth_place(moment, cpu),
        };
        let debit = excess(v, self.floor(cpu));
        self.made.need(Setting::Debit, debit);
        let task = Task {
            pid,
            nice,
            policy: Policy::Normal,
            cpu,
            place: Place::Wait,
            v,
        };
        let unsettled = self.unsettled_at_birth(moment, pid, v, known)?;
        self.enter(task, moment.line, unsettled, known)?;
        self.claim(moment.line, pid, v, ClaimSort::At)
    }

    /// Notes where a new task is placed, unless a print tells it. It had nothing before.
    fn unsettled_at_birth(
        &mut self,
        moment: Moment,
        pid: u32,
        v: i64,
        known: &Known,
    ) -> Result<Option<usize>, Memory> {
        if !known.names(pid) {
            return Ok(None);
        }
        let unsettled = Unsettled {
            at: Placing::ByEvent(moment.index),
            v,
            own: v,
            before: None,
        };
        self.unsettled.note(moment.placement, unsettled)
    }

    /// Where a new task is placed at the processor.
    fn birth_place(&self, moment: Moment, cpu: u32) -> i64 {
        let low = self.floor(cpu);
        let high = above(low, self.wishes.knobs.debit());
        match (self.made.strategy, self.processors.get(cpu as usize)) {
            (Strategy::Picked, _) if moment.is_picked => low,
            (Strategy::Level | Strategy::Kernel, Some(processor)) if moment.is_picked => {
                processor.level(low, high)
            }
            _ => high,
        }
    }

    /// A task has turned out to have another virtual runtime than it has here.
    pub(super) fn ask(&mut self, pid: u32, wanted: i64, found: i64) -> Result<(), Memory> {
        match self.tasks.get(pid) {
            Some(named) => self.unsettled.ask(named.unsettled, wanted, found),
            None => Ok(()),
        }
    }
}
