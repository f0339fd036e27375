use crate::made::Guessed;
use crate::strategy::Strategy;
use cfs_model::{Amounts, ChargeLine, Claim, Memory, NiceLine, Setting};
use std::alloc::Global;
use std::collections::BTreeMap;

/// What a companion says of the events, as one strategy makes it.
#[derive(Drop)]
pub(crate) struct Candidate {
    pub strategy: Strategy,
    /// What is needed of each setting before an event that fits none.
    pub needs: Amounts,
    /// The first line whose event fits no settings, if there is one. What comes behind it isn't scored.
    pub stop: Option<u32>,
    pub claims: Vec<Claim>,
    /// By line of the trace.
    pub nices: BTreeMap<u32, NiceLine>,
    /// By rising line.
    pub charges: Vec<ChargeLine>,
}

impl Candidate {
    /// Nothing is said yet. There is room for a claim of each of so many events, and for a charge of each where charges
    /// are told: moving long lists as they grow takes a while.
    pub(crate) fn new(
        alloc: Global,
        strategy: Strategy,
        events: usize,
    ) -> Result<Candidate, Memory> {
        let charges = if strategy == Strategy::Kernel {
            events
        } else {
            0
        };
        Ok(Candidate {
            strategy,
            needs: Amounts::none(),
            stop: None,
            claims: Vec::with_capacity(alloc, events)?,
            nices: BTreeMap::new(alloc),
            charges: Vec::with_capacity(alloc, charges)?,
        })
    }

    /// Nothing is said again, with the room that there was.
    pub(crate) fn emptied(self) -> Candidate {
        let mut emptied = self;
        emptied.needs = Amounts::none();
        emptied.stop = None;
        emptied.claims.clear();
        emptied.nices.clear();
        emptied.charges.clear();
        emptied
    }

    /// Whether it is right for more lines than another, or needs less granularity up to the same one; of two that need
    /// the same, the one is better whose strategy is listed first.
    pub(crate) fn is_better_than(&self, other: &Candidate) -> bool {
        let (reach, needed) = (self.reach(), self.granularity());
        let (other_reach, other_needed) = (other.reach(), other.granularity());
        if reach != other_reach {
            return reach > other_reach;
        }
        needed < other_needed || (needed == other_needed && self.strategy < other.strategy)
    }

    /// An event on this line fits no settings.
    pub(crate) fn stop_at(&mut self, line: u32) {
        if self.stop.is_none() {
            self.stop = Some(line);
        }
    }

    /// How it was made.
    pub(crate) fn guessed(&self) -> Guessed {
        Guessed {
            strategy: self.strategy,
            needs: self.needs,
            stop: self.stop,
        }
    }

    /// So much is needed of a setting.
    pub(crate) fn need(&mut self, setting: Setting, amount: u64) {
        if self.stop.is_none() {
            self.needs.raise(setting, amount);
        }
    }

    /// The greatest distance of a picked task from the least waiting one, in virtual nanoseconds.
    pub(crate) fn granularity(&self) -> u64 {
        self.needs.get(Setting::Granularity)
    }

    /// The line before which all events fit some settings.
    fn reach(&self) -> u32 {
        self.stop.unwrap_or(u32::MAX)
    }
}
