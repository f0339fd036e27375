use cfs_model::{Act, Entry, IDLE_PID, MOST_PROCESSORS, Memory};
use std::alloc::Global;

/// For each event whether the task that it wakes or bears is the next to be picked at its processor.
#[derive(Drop)]
pub(crate) struct Forecast {
    picked: Vec<bool>,
}

impl Forecast {
    pub(crate) fn of(alloc: Global, events: &[Entry]) -> Result<Forecast, Memory> {
        let mut backwards = Vec::with_capacity(alloc, events.len())?;
        let mut next_picks = [IDLE_PID; MOST_PROCESSORS];
        for event in events.iter().rev() {
            backwards.push(is_picked(&mut next_picks, event.act))?;
        }
        backwards.reverse();
        Ok(Forecast { picked: backwards })
    }

    /// Of the event at this place.
    pub(crate) fn is_picked(&self, place: usize) -> bool {
        self.picked.get(place).copied().unwrap_or(false)
    }
}

/// Whether the event's task is the next to be picked, where these are the next to be picked after it.
fn is_picked(next_picks: &mut [u32; MOST_PROCESSORS], act: Act) -> bool {
    match act {
        Act::Switch { cpu, next, .. } => {
            if next != IDLE_PID {
                if let Some(pick) = next_picks.get_mut(cpu as usize) {
                    *pick = next;
                }
            }
            false
        }
        Act::Wake { cpu, pid, .. } | Act::Born { cpu, pid, .. } => {
            next_picks.get(cpu as usize).copied() == Some(pid)
        }
        Act::Shift { .. } => false,
    }
}
