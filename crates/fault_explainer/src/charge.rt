use crate::duration::Nanoseconds;
use crate::names::{Named, Names};
use crate::task_words::weight_words;
use cfs_model::weight_of;
use runqueue::{Runqueue, SchedEntity};
use std::fmt;

/// What a running task is charged up to an event, exactly.
#[derive(Clone, Copy)]
pub(crate) struct Charge {
    /// As it stands before the charge.
    pub task: SchedEntity,
    /// How long it ran, in nanoseconds.
    ran: u64,
}

/// A charge in words.
#[derive(Clone, Copy)]
pub(crate) struct NamedCharge<'a> {
    charge: Charge,
    named: Named<'a>,
}

impl Charge {
    /// That of who runs, up to a time in nanoseconds.
    pub(crate) fn at(queue: &Runqueue, time: u64) -> Option<Charge> {
        let task = queue.runner()?;
        let ran = time.saturating_sub(queue.mark());
        Some(Charge { task, ran })
    }

    /// In words, with its task's name.
    pub(crate) fn told_of(self, names: &Names) -> NamedCharge<'_> {
        NamedCharge {
            charge: self,
            named: names.named(self.task.pid),
        }
    }

    /// In virtual nanoseconds, however many they are.
    pub(crate) fn cost(&self) -> i128 {
        let weight = weight_of(self.task.nice, self.task.policy);
        let cost = u128::from(self.ran) * 1024 / u128::from(weight);
        i128::try_from(cost).unwrap_or(i128::MAX)
    }

    /// The virtual runtime after it, in virtual nanoseconds, also where that is out of range.
    pub(crate) fn to(&self) -> i128 {
        i128::from(self.task.v).saturating_add(self.cost())
    }
}

impl fmt::Display for NamedCharge<'_> {
    fn fmt<W: fmt::Write>(&self, f: &mut fmt::Formatter<W>) -> fmt::Result {
        let NamedCharge { charge, named } = self;
        let from = charge.task.v;
        let ran = Nanoseconds(charge.ran);
        let weight_words = weight_words(&charge.task);
        let cost = charge.cost();
        let to = charge.to();
        write!(
            f,
            "{named} ran {ran} at {weight_words}, which costs {cost}: from {from} to {to}"
        )
    }
}
