ghost use Rattle.std.specs.Prelude.{◌≡◌, ◌<◌};
ghost use Rattle.std.proofs.Props.{props};
ghost use Rattle.cfs_model.specs.Limits.{most_processors};
ghost use Rattle.sched_record.specs.Indices.{AreIndicesOf, indices_touching};
ghost use Rattle.sched_record.specs.Kept.{AreInOrder};

use crate::indices::{Hint, Indices};
use crate::lists::Events;
use cfs_model::{ChargeLine, Claim, Entry, NiceLine};
use std::alloc::Global;
use std::mem::size_of;

// What a trace keeps for an event.
const _: () = prove!(size_of::<Entry>() <= 64);

/// A trace that was read: its events, and where in them those of each processor stand.
#[derive(Debug, Drop)]
pub struct Trace {
    events: Events,
    indices: Indices,
    pub ghost in_order: { AreInOrder events },
    pub ghost indexed: { AreIndicesOf events indices } by { Prim.hlevel props },
}

impl Trace {
    ghost use Rattle.sched_record.specs.Seen.{trace_view};

    /// A trace of these events, which stand at these indices.
    pub(crate) fn new(events: Events, indices: Indices) -> Trace
        requires in_order { AreInOrder events }
        requires indexed { AreIndicesOf events indices }
        ensures { trace_view result ≡ events }
    {
        Trace { events, indices }
    }

    /// The events, in the order of their lines.
    pub fn events(&self) -> &[Entry]
        ensures { result.now ≡ trace_view self.now }
    {
        self.events.as_slice()
    }

    /// The indices in `events` of those that touch a processor.
    pub(crate) fn indices(&self, cpu: u32) -> &[u32]
        requires { cpu < most_processors }
        ensures { result.now ≡ indices_touching cpu (trace_view self.now) }
    {
        self.indices.at(cpu)
    }

    /// Sets the hints: where in these claims, changes of nice values and charges those of the events begin. Takes no
    /// memory.
    pub(crate) fn set_hints(&mut self, claims: &[Claim], nices: &[NiceLine], charges: &[ChargeLine])
        ensures { trace_view self.new ≡ trace_view self.old }
    {
        self.indices
            .set_hints(self.events.as_slice(), claims, nices, charges);
    }

    /// Where that of this event and later ones may begin, in the lists by which the hints were set.
    pub(crate) fn hint(&self, index: u32) -> Hint {
        self.indices.hint(index)
    }

    pub(crate) fn allocator(&self) -> Global {
        self.events.allocator()
    }
}
