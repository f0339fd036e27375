ghost use Rattle.std.specs.Prelude.{◌≡◌, ⊤, None, IfOk};
ghost use Rattle.replay_model.specs.Deeds.{reniced};
ghost use Rattle.replay_model.specs.declared.step.Deed.TheVariants.{Arrive, Born, Leave, Wake};
ghost use Rattle.replay_model.specs.declared.step.Step.{Step as StepOf};
ghost use Rattle.runqueue.specs.Queue.{runqueue_view};
ghost use Rattle.queue_replay.specs.Rows.{HoldsUnmade, IsTried, NamesMade, switch_deed};

use crate::context_switch::ContextSwitch;
use crate::deeds::{try_arrival, try_birth, try_leave, try_switch, try_wake};
use crate::outcome::Outcome;
use crate::renice::try_step;
use cfs_model::{Knobs, Memory, Nice, Policy};
use replay_model::Step;
use runqueue::Runqueue;

/// What is known of the kind of a step where it is replayed, and how it is tried by that.
pub(crate) trait KnownDeed {
    ghost is_of: { Self → StepOf → Type 0 };

    /// The step is tried on a runqueue that is charged and lifted. Where a test fails, or memory is wanted, the map and
    /// the set hold what they did.
    fn try_on(
        &self,
        queue: &mut Runqueue,
        cpu: u32,
        step: &Step,
        knobs: &Knobs,
    ) -> Result<Outcome, Memory>
        requires { is_of self.now step.now }
        ensures tried { IfOk result (IsTried knobs.now cpu (reniced step.now.nice (runqueue_view queue.old)) step.now
            (runqueue_view queue.new)) }
        ensures same { HoldsUnmade result queue.old queue.new }
        ensures pids { NamesMade result step.now.deed queue.old queue.new };
}

/// Nothing is known.
#[derive(Clone, Copy)]
pub(crate) struct AnyDeed;

impl KnownDeed for AnyDeed {
    ghost is_of = { λ _ _. ⊤ };

    #[inline(always)]
    fn try_on(
        &self,
        queue: &mut Runqueue,
        cpu: u32,
        step: &Step,
        knobs: &Knobs,
    ) -> Result<Outcome, Memory> {
        try_step(queue, cpu, step, knobs)
    }
}

/// It is this switch, and changes no nice value.
impl KnownDeed for ContextSwitch {
    ghost is_of = { λ switch step. (step.nice ≡ None) × (step.deed ≡ switch_deed switch) };

    #[inline(always)]
    fn try_on(
        &self,
        queue: &mut Runqueue,
        _cpu: u32,
        step: &Step,
        knobs: &Knobs,
    ) -> Result<Outcome, Memory> {
        try_switch(queue, step, self, knobs)
    }
}

/// A wakeup that changes no nice value.
#[derive(Clone, Copy)]
pub(crate) struct Wakeup {
    pub pid: u32,
    pub nice: Nice,
}

impl KnownDeed for Wakeup {
    ghost is_of = { λ wakeup step. (step.nice ≡ None) × (step.deed ≡ Wake wakeup.pid wakeup.nice) };

    #[inline(always)]
    fn try_on(
        &self,
        queue: &mut Runqueue,
        _cpu: u32,
        step: &Step,
        knobs: &Knobs,
    ) -> Result<Outcome, Memory> {
        try_wake(queue, step, self.pid, self.nice, knobs)
    }
}

/// A task that is born, where no nice value changes.
#[derive(Clone, Copy)]
pub(crate) struct Birth {
    pub pid: u32,
    pub nice: Nice,
    pub policy: Policy,
}

impl KnownDeed for Birth {
    ghost is_of = { λ birth step. (step.nice ≡ None) × (step.deed ≡ Born birth.pid birth.nice birth.policy) };

    #[inline(always)]
    fn try_on(
        &self,
        queue: &mut Runqueue,
        cpu: u32,
        step: &Step,
        knobs: &Knobs,
    ) -> Result<Outcome, Memory> {
        try_birth(queue, cpu, step, self.pid, self.nice, self.policy, knobs)
    }
}

/// A task that leaves, where no nice value changes.
#[derive(Clone, Copy)]
pub(crate) struct Leaving {
    pub pid: u32,
    pub nice: Nice,
    pub dest: u32,
}

impl KnownDeed for Leaving {
    ghost is_of = { λ leaving step. (step.nice ≡ None)
        × (step.deed ≡ Leave leaving.pid leaving.nice leaving.dest) };

    #[inline(always)]
    fn try_on(
        &self,
        queue: &mut Runqueue,
        cpu: u32,
        step: &Step,
        _knobs: &Knobs,
    ) -> Result<Outcome, Memory> {
        try_leave(queue, cpu, step, self.pid, self.nice, self.dest)
    }
}

/// A task that comes, where no nice value changes.
#[derive(Clone, Copy)]
pub(crate) struct Arrival {
    pub pid: u32,
    pub nice: Nice,
    pub orig: u32,
    pub policy: Policy,
}

impl KnownDeed for Arrival {
    ghost is_of = { λ arrival step. (step.nice ≡ None)
        × (step.deed ≡ Arrive arrival.pid arrival.nice arrival.orig arrival.policy) };

    #[inline(always)]
    fn try_on(
        &self,
        queue: &mut Runqueue,
        cpu: u32,
        step: &Step,
        _knobs: &Knobs,
    ) -> Result<Outcome, Memory> {
        try_arrival(queue, cpu, step, self.pid, self.nice, self.policy)
    }
}
