//! Where the events place tasks, as far as the prints tell it.

use crate::next_prints::NextPrints;
use crate::placement::Placement;
use crate::print::Print;
use cfs_model::{Act, Entry, IDLE_PID, Memory, Way};
use std::alloc::Global;

/// Of each event what is known of its placement.
#[derive(Drop)]
pub(crate) struct Placements {
    /// By event; none where nothing is known.
    placements: Vec<Placement>,
}

impl Placements {
    /// As the prints tell them, and what these tell of the start. The events are gone through from the last to the
    /// first, since the next print behind a placement tells it.
    pub(crate) fn of(
        alloc: Global,
        prints: &[Print],
        events: &[Entry],
    ) -> Result<(Placements, NextPrints), Memory> {
        let mut backwards = Vec::with_capacity(alloc, events.len())?;
        let mut next = NextPrints::new(alloc);
        let mut earlier = prints;
        for event in events.iter().rev() {
            earlier = meet_behind(&mut next, earlier, event.line)?;
            backwards.push(placement_by(event.act, &next))?;
            if let Some(pid) = placed_by(event.act) {
                next.part(pid);
            }
        }
        meet_before(&mut next, earlier)?;
        backwards.reverse();
        let placements = Placements {
            placements: backwards,
        };
        Ok((placements, next))
    }

    /// Nothing is known of any.
    pub(crate) fn none(alloc: Global) -> Placements {
        Placements {
            placements: Vec::new(alloc),
        }
    }

    /// Of the event at an index.
    pub(crate) fn at(&self, index: usize) -> Placement {
        self.placements
            .get(index)
            .copied()
            .unwrap_or(Placement::Unknown)
    }

    /// The event at an index has to place its task here. Whether that is news.
    pub(crate) fn ask(&mut self, index: usize, v: i64) -> bool {
        match self.placements.get_mut(index) {
            Some(placement) => {
                let before = *placement;
                *placement = Placement::Asked(v);
                before != Placement::Asked(v)
            }
            None => false,
        }
    }
}

/// Meets the prints behind a line, from the last, and gives those before.
fn meet_behind<'p>(
    next: &mut NextPrints,
    prints: &'p [Print],
    line: u32,
) -> Result<&'p [Print], Memory> {
    let mut earlier = prints;
    for print in prints.iter().rev() {
        if print.line <= line {
            break;
        }
        next.meet(*print)?;
        earlier = &earlier[..earlier.len().saturating_sub(1)];
    }
    Ok(earlier)
}

/// Meets the prints above the first event: a task's last one tells its start, and what ran up to there is in it.
fn meet_before(next: &mut NextPrints, prints: &[Print]) -> Result<(), Memory> {
    for print in prints {
        next.meet(Print {
            runtime: 0,
            ..*print
        })?;
    }
    Ok(())
}

/// The virtual runtime at which an event places its task: the next that is printed, less what the run up to there cost.
fn placement_by(act: Act, next: &NextPrints) -> Placement {
    match act {
        Act::Wake { pid, nice, .. } | Act::Born { pid, nice, .. } | Act::Shift { pid, nice, .. } =>
            { Placement::of(next.of(pid).and_then(|print| print.before(nice))) }
        Act::Switch { .. } => Placement::Unknown,
    }
}

/// The task that an event puts to sleep, ends, bears or moves.
fn placed_by(act: Act) -> Option<u32> {
    match act {
        Act::Switch {
            prev,
            way: Way::Sleeps | Way::Ends,
            ..
        } if prev != IDLE_PID => Some(prev),
        Act::Switch { .. } | Act::Wake { .. } => None,
        Act::Born { pid, .. } | Act::Shift { pid, .. } => Some(pid),
    }
}
