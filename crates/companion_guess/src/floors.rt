use crate::known::Known;
use crate::learnt::Learnt;
use crate::outset::Outset;
use crate::placements::Placements;
use crate::values::above;
use crate::wishes::Wishes;
use cfs_model::{Act, Entry, MOST_PROCESSORS, Place};

/// The floor of each processor, where it is known.
#[derive(Clone, Copy)]
pub(crate) struct Floors {
    floors: [Option<i64>; MOST_PROCESSORS],
}

impl Floors {
    /// No floor is known.
    pub(crate) fn unknown() -> Floors {
        Floors {
            floors: [None; MOST_PROCESSORS],
        }
    }

    /// At the start: what the kernel told, as far as the placements bound it. Where it told none, or nobody is placed,
    /// the least virtual runtime of those who run or wait; where nobody does, what the first placement says, or a lower
    /// wakeup. One that lies below who runs or waits lowers nothing: it would hide how low it is.
    pub(crate) fn of(
        outset: &Outset,
        events: &[Entry],
        wishes: &Wishes,
        learnt: Learnt<'_>,
    ) -> Floors {
        let known = learnt.known;
        let mut found = Floors::unknown();
        if known.prints().is_empty() {
            return found;
        }
        let mut bounds = Floors::unknown();
        for (index, event) in events.iter().enumerate() {
            if let Some((cpu, bound)) = bound_of(event.act, index, learnt.placements, wishes) {
                found.begin(cpu, bound);
                bounds.lower(cpu, Some(bound));
                if matches!(event.act, Act::Wake { .. }) {
                    found.lower(cpu, Some(bound));
                }
            }
        }
        found.take_standing(outset, known);
        found.take_told(known.floors(), &bounds);
        found
    }

    /// Takes the least virtual runtime of those who run or wait at the start, where anybody does whose own is known.
    fn take_standing(&mut self, outset: &Outset, known: &Known) {
        let mut standing = Floors::unknown();
        for task in outset.tasks.as_slice() {
            if task.place != Place::Rest {
                standing.lower(task.cpu, known.at_start(task, outset.start));
            }
        }
        for cpu in 0..MOST_PROCESSORS as u32 {
            if let Some(floor) = standing.at(cpu) {
                self.set(cpu, floor);
            }
        }
    }

    /// Takes the floors that were told, as far as each is bounded: since they were told when some events were over,
    /// none is above what the placements say.
    fn take_told(&mut self, told: &Floors, bounds: &Floors) {
        for cpu in 0..MOST_PROCESSORS as u32 {
            if let (Some(told), Some(bound)) = (told.at(cpu), bounds.at(cpu)) {
                self.set(cpu, told.min(bound));
            }
        }
    }

    fn set(&mut self, cpu: u32, v: i64) {
        if let Some(floor) = self.floors.get_mut(cpu as usize) {
            *floor = Some(v);
        }
    }

    /// That of a processor.
    pub(crate) fn at(&self, cpu: u32) -> Option<i64> {
        self.floors.get(cpu as usize).copied().flatten()
    }

    /// The floor isn't above this.
    fn lower(&mut self, cpu: u32, v: Option<i64>) {
        if let (Some(floor), Some(v)) = (self.floors.get_mut(cpu as usize), v) {
            *floor = Some(floor.unwrap_or(v).min(v));
        }
    }

    /// The floor is this, where it isn't known.
    pub(crate) fn begin(&mut self, cpu: u32, v: i64) {
        if let Some(floor) = self.floors.get_mut(cpu as usize) {
            *floor = Some(floor.unwrap_or(v));
        }
    }
}

/// The processor at which the event at an index places a task, and what its floor is at most by that, now and at the
/// start: a task that is woken lies at most the credit below it, and a new one not below.
fn bound_of(
    act: Act,
    index: usize,
    placements: &Placements,
    wishes: &Wishes,
) -> Option<(u32, i64)> {
    match act {
        Act::Wake { cpu, .. } => {
            let v = placements.at(index).value()?;
            Some((cpu, above(v, wishes.knobs.credit())))
        }
        Act::Born { cpu, .. } => Some((cpu, placements.at(index).value()?)),
        Act::Switch { .. } | Act::Shift { .. } => None,
    }
}
