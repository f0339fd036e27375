use cfs_model::{Act, Claim, Entry};

/// How a task was placed where it waits.
#[derive(Clone, Copy, Debug)]
pub struct Placing {
    pub claim: Claim,
    /// When, in nanoseconds.
    pub time: u64,
    pub act: Act,
    /// Of a wakeup from rest and of a birth.
    pub beside: Option<Beside>,
}

/// What lies beside the virtual runtime of a task that is placed, in virtual nanoseconds, signed.
#[derive(Clone, Copy, Debug)]
pub struct Beside {
    /// The virtual runtime that the task had before, where it stood there.
    pub own: Option<i64>,
    pub floor: i64,
}

impl Placing {
    /// That by an event with this claim on its line.
    pub(crate) fn of(event: Entry, claim: Claim) -> Placing {
        let Entry { time, act, .. } = event;
        Placing {
            claim,
            time,
            act,
            beside: None,
        }
    }

    /// The processor where the task was placed.
    pub(crate) fn cpu(&self) -> u32 {
        let (_home, dest) = self.act.ends();
        dest
    }

    /// Whether something lies beside it.
    pub(crate) fn is_bounded(&self) -> bool {
        matches!(self.act, Act::Wake { .. } | Act::Born { .. })
    }
}
