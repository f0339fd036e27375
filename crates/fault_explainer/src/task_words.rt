use cfs_model::{Nice, Place, Policy, weight_of};
use runqueue::SchedEntity;
use std::fmt;

/// What a task does where it stands.
pub(crate) fn verb(task: &SchedEntity) -> &'static str {
    match task.place {
        Place::Run => "runs",
        Place::Wait => "waits",
        Place::Rest => "rests",
    }
}

/// The words on what a task is charged by: its nice value, its policy and its weight.
#[derive(Clone, Copy)]
pub(crate) struct WeightWords {
    nice: Nice,
    policy: Policy,
}

/// That of a task.
pub(crate) fn weight_words(task: &SchedEntity) -> WeightWords {
    WeightWords {
        nice: task.nice,
        policy: task.policy,
    }
}

impl fmt::Display for WeightWords {
    fn fmt<W: fmt::Write>(&self, f: &mut fmt::Formatter<W>) -> fmt::Result {
        let weight = weight_of(self.nice, self.policy);
        let nice = self.nice.get();
        match self.policy {
            Policy::Normal => write!(f, "nice {nice} (weight {weight})"),
            Policy::Idle => write!(f, "nice {nice}, idle policy (weight {weight})"),
        }
    }
}
