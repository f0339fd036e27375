use cfs_model::{Act, ChargeLine, Claim, Entry, IdleLine, NiceLine};
use recent_past::RecentPast;

/// The event on a line, and what the companion says on it.
#[derive(Clone, Copy)]
pub(crate) struct Event {
    /// The line in the trace.
    pub line: u32,
    /// In nanoseconds.
    pub time: u64,
    pub act: Act,
    pub claim: Option<Claim>,
    pub nice: Option<NiceLine>,
    pub charge: Option<ChargeLine>,
    pub idle: Option<IdleLine>,
}

impl Event {
    /// That on the fault's line, if there is one.
    pub(crate) fn on_line(past: &RecentPast, line: u32) -> Option<Event> {
        let (entry, said) = past.event_on(line)?;
        let Entry { time, act, .. } = entry;
        Some(Event {
            line,
            time,
            act,
            claim: said.claim,
            nice: said.nice,
            charge: said.charge,
            idle: past.idle(),
        })
    }

    /// The processors of a migration from one to another: its origin and its destination.
    pub(crate) fn ends(&self) -> Option<(u32, u32)> {
        let (home, dest) = self.act.ends();
        if home != dest {
            Some((home, dest))
        } else {
            None
        }
    }
}
