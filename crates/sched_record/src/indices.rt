ghost use Rattle.std.specs.Prelude.{◌≡◌, ◌≢◌, ℕ, List, ◌<◌, ◌==◌, [], ◌∷◌, ◌++◌, if◌then◌else◌, length, OnOk, OnErr};
ghost use Rattle.cfs_model.specs.Limits.{most_processors};
ghost use Rattle.sched_record.specs.Indices.{indices_at, touches_cpu};

use crate::on_line::index_from;
use cfs_model::{Act, ChargeLine, Claim, Entry, MOST_PROCESSORS, Memory, NiceLine};
use plain_list::PlainList;
use std::alloc::Global;
use std::marker::Model;
use std::mem::replace;

/// How many events have one hint together. What the companion says of so many is passed over one by one.
const EVENTS_A_HINT: usize = 16;

/// Where in a record's claims, in its changes of nice values and in its charges, those on an event's line or below it
/// begin.
#[derive(Clone, Copy, Debug)]
pub(crate) struct Hint {
    pub(crate) claim: usize,
    pub(crate) nice: usize,
    pub(crate) charge: usize,
}

/// The hint of an event that has none.
const NO_HINT: Hint = Hint {
    claim: 0,
    nice: 0,
    charge: 0,
};

/// For each processor the indices of the events that touch it, so that what a processor sees of a record is found
/// without going over all of it. Processors from `MOST_PROCESSORS` on have none: no record has them.
#[derive(Debug, Drop)]
pub struct Indices {
    /// One a processor, from 0 on, as far as a processor was met.
    lists: Vec<PlainList<u32>>,
    /// For each `EVENTS_A_HINT`th event, from the first on, its hint. Nothing rests on them.
    hints: Vec<Hint>,
}

impl Model for Indices {
    ghost use Rattle.std.specs.Prelude.{ℕ, List};

    ghost Value = { List (List ℕ) };

    ghost view = { λ indices. indices.lists.items };
}

impl Indices {
    /// No index yet. Takes no memory.
    pub(crate) fn new(alloc: Global) -> Indices
        ensures { result ≡ [] }
    {
        Indices {
            lists: Vec::new(alloc),
            hints: Vec::new(alloc),
        }
    }

    /// The indices of the events that touch a processor.
    pub(crate) fn at(&self, cpu: u32) -> &[u32]
        ensures { result.now ≡ indices_at self.now cpu }
    {
        match self.lists.get(cpu as usize) {
            Some(list) => list.as_slice(),
            None => &[],
        }
    }

    /// Sets the hints: where in these claims, changes of nice values and charges those of the events begin. Takes no
    /// memory.
    pub(crate) fn set_hints(
        &mut self,
        events: &[Entry],
        claims: &[Claim],
        nices: &[NiceLine],
        charges: &[ChargeLine],
    )
        ensures { self.new ≡ self.old }
    {
        let mut first = 0;
        let mut last = NO_HINT;
        for hint in self.hints.as_mut_slice() {
            if let Some(event) = events.get(first) {
                last = Hint {
                    claim: index_from(claims, last.claim, event.line),
                    nice: index_from(nices, last.nice, event.line),
                    charge: index_from(charges, last.charge, event.line),
                };
                *hint = last;
            }
            first = first.saturating_add(EVENTS_A_HINT);
        }
    }

    /// The hint of the event at an index.
    pub(crate) fn hint(&self, index: u32) -> Hint {
        match self.hints.get(index as usize / EVENTS_A_HINT) {
            Some(hint) => *hint,
            None => NO_HINT,
        }
    }

    /// Empties each list; what it took it keeps.
    pub(crate) fn clear(&mut self)
        ensures { (cpu : ℕ) → indices_at self.new cpu ≡ [] }
    {
        for list in self.lists.iter_mut() {
            empty(list);
        }
        self.hints.clear();
    }

    /// Adds the index of an event, and the event's hint, which is set later.
    pub(crate) fn add_with_hint(&mut self, act: Act, index: u32) -> Result<(), Memory>
        ensures added { OnOk result ((cpu : ℕ) → cpu < most_processors
            → indices_at self.new cpu ≡ indices_at self.old cpu ++ (if touches_cpu cpu act then index ∷ [] else [])) }
        ensures kept { OnErr result ((cpu : ℕ) → cpu < most_processors
            → indices_at self.new cpu ≡ indices_at self.old cpu) }
    {
        if (index as usize).is_multiple_of(EVENTS_A_HINT) {
            self.hints.push(NO_HINT)?;
        }
        self.add(act, index)
    }

    /// Adds the index of an event to the processors that it touches: to all of them, or to none where a growth is
    /// refused.
    #[inline(always)]
    pub(crate) fn add(&mut self, act: Act, index: u32) -> Result<(), Memory>
        ensures added { OnOk result ((cpu : ℕ) → cpu < most_processors
            → indices_at self.new cpu ≡ indices_at self.old cpu ++ (if touches_cpu cpu act then index ∷ [] else [])) }
        ensures kept { OnErr result ((cpu : ℕ) → cpu < most_processors
            → indices_at self.new cpu ≡ indices_at self.old cpu) }
    {
        let (home, dest) = act.ends();
        self.push_at(home, index)?;
        if dest == home {
            return Ok(());
        }
        self.push_dest(home, dest, index)
    }

    /// Puts an index behind the last of a destination, or takes it off the home's again. Out of line, as few events
    /// move a task.
    #[inline(never)]
    fn push_dest(&mut self, home: u32, dest: u32, index: u32) -> Result<(), Memory>
        ensures added { OnOk result ((other : ℕ) → other < most_processors
            → indices_at self.new other ≡ indices_at self.old other ++ (if dest == other then index ∷ [] else [])) }
        ensures other { OnErr result ((other : ℕ) → other ≢ home
            → indices_at self.new other ≡ indices_at self.old other) }
        ensures home { (before : List ℕ) → indices_at self.old home ≡ before ++ index ∷ []
            → OnErr result (indices_at self.new home ≡ before) }
    {
        let pushed = self.push_at(dest, index);
        if pushed.is_err() {
            self.pop_at(home);
        }
        pushed
    }

    /// Puts an index behind the last of a processor.
    #[inline(always)]
    fn push_at(&mut self, cpu: u32, index: u32) -> Result<(), Memory>
        ensures added { OnOk result ((other : ℕ) → other < most_processors
            → indices_at self.new other ≡ indices_at self.old other ++ (if cpu == other then index ∷ [] else [])) }
        ensures kept { OnErr result ((other : ℕ) → indices_at self.new other ≡ indices_at self.old other) }
    {
        let processor = cpu as usize;
        if processor >= MOST_PROCESSORS {
            return Ok(());
        }
        if processor >= self.lists.len() {
            self.make_lists(processor)?;
        }
        self.lists[processor].push(index)?;
        Ok(())
    }

    /// Adds empty lists up to that of a processor.
    #[inline(never)]
    fn make_lists(&mut self, processor: usize) -> Result<(), Memory>
        ensures made { OnOk result (processor < length self.new) }
        ensures same { (other : ℕ) → indices_at self.new other ≡ indices_at self.old other }
    {
        let alloc = *self.lists.allocator();
        while self.lists.len() <= processor {
            self.lists.push(PlainList::new(alloc))?;
        }
        Ok(())
    }

    /// Takes a processor's last index off, if there is one.
    fn pop_at(&mut self, cpu: u32)
        ensures other { (other : ℕ) → other ≢ cpu → indices_at self.new other ≡ indices_at self.old other }
        ensures here { (before : List ℕ) (index : ℕ) → indices_at self.old cpu ≡ before ++ index ∷ []
            → indices_at self.new cpu ≡ before }
    {
        let processor = cpu as usize;
        if processor < self.lists.len() {
            let _last = self.lists[processor].pop();
        }
    }
}

/// Takes all off; the room for it stays.
fn empty(list: &mut PlainList<u32>)
    ensures { list.new ≡ [] }
{
    let mut items = replace(list, PlainList::new(list.allocator())).into_vec();
    items.clear();
    *list = PlainList::from_vec(items);
}
