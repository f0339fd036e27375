ghost use Rattle.std.specs.Prelude.{◌≡◌, ◌≢◌, ℕ, ◌+◌, ◌-◌, ◌^◌, ◌<◌, Some, None, MatchOption, IfSome, IfOk, OnOk};
ghost use Rattle.std.specs.Prelude.{OnErr};
ghost use Rattle.replay_model.specs.Needs.{IsDriftNeed, idle_need};
ghost use Rattle.replay_model.specs.Page.{FailsStep, IsSince, deadline_of, with_fault};
ghost use Rattle.replay_model.specs.QueueTests.{IsIdleTooLong};
ghost use Rattle.cfs_model.specs.declared.kind.Kind.TheVariants.{IdleTooLong};
ghost use Rattle.queue_replay.specs.Counting.{HasDraftRoom};
ghost use Rattle.runqueue.specs.Queue.{runqueue_view};
ghost use Rattle.queue_replay.specs.ReplayState.{IsGoing, IsPassed, IsStepped, IsUndone, failed_charge};
ghost use Rattle.queue_replay.specs.ReplayState.{replay_state_view};

use crate::context_switch::ContextSwitch;
use crate::known_deed::{AnyDeed, Arrival, Birth, KnownDeed, Leaving, Wakeup};
use crate::needs::raise;
use crate::outcome::Outcome;
use crate::page_draft::PageDraft;
use crate::stretch::stretch_between;
use cfs_model::{Amounts, ChargeLine, IDLE_PID, Kind, Knobs, Memory};
use replay_model::{Deed, Step, StepFault};
use runqueue::{ChargeFault, Runqueue};

/// A replay under way.
#[derive(Drop)]
pub(crate) struct ReplayState {
    /// The number of steps made.
    pub made: usize,
    pub queue: Runqueue,
    /// Since when nothing has run here while somebody waited, in nanoseconds; if that is so.
    pub since: Option<u64>,
    /// What the steps made need.
    pub needs: Amounts,
    pub draft: PageDraft,
}

impl ReplayState {
    /// One step: it passes and is made, or its fault is noted. Most kinds of steps have code of their own, in which the
    /// kind isn't asked for again.
    #[inline(always)]
    pub fn step(&mut self, cpu: u32, step: &Step, knobs: &Knobs) -> Result<(), Memory>
        requires going { IsGoing self.old }
        requires few { self.old.made < 2 ^ 64 - 1 }
        ensures made { OnOk result (self.new.made ≡ self.old.made + 1) }
        ensures stepped { OnOk result (IsStepped knobs.now cpu (replay_state_view self.old)
            self.old.needs step.now self.new) }
        ensures memory { OnErr result (IsGoing self.new × (replay_state_view self.new ≡ replay_state_view self.old)
            × (self.new.made ≡ self.old.made) × (self.new.needs ≡ self.old.needs)) }
    {
        match step.deed {
            Deed::Switch { .. } => self.switch(cpu, step, knobs),
            Deed::Wake { .. } => self.wake(cpu, step, knobs),
            Deed::Born { .. } => self.be_born(cpu, step, knobs),
            Deed::Leave { .. } => self.leave(cpu, step, knobs),
            Deed::Arrive { .. } => self.arrive(cpu, step, knobs),
        }
    }

    /// The same, by code for a switch.
    #[inline(never)]
    fn switch(&mut self, cpu: u32, step: &Step, knobs: &Knobs) -> Result<(), Memory>
        requires going { IsGoing self.old }
        requires few { self.old.made < 2 ^ 64 - 1 }
        ensures made { OnOk result (self.new.made ≡ self.old.made + 1) }
        ensures stepped { OnOk result (IsStepped knobs.now cpu (replay_state_view self.old)
            self.old.needs step.now self.new) }
        ensures memory { OnErr result (IsGoing self.new × (replay_state_view self.new ≡ replay_state_view self.old)
            × (self.new.made ≡ self.old.made) × (self.new.needs ≡ self.old.needs)) }
    {
        match (step.nice, step.deed) {
            (
                None,
                Deed::Switch {
                    prev,
                    prev_nice,
                    way,
                    next,
                    next_nice,
                },
            ) => {
                let deed = Deed::Switch {
                    prev,
                    prev_nice,
                    way,
                    next,
                    next_nice,
                };
                let switch = ContextSwitch {
                    prev,
                    prev_nice,
                    way,
                    next,
                    next_nice,
                };
                self.step_of(cpu, step, &deed, &switch, knobs)
            }
            _ => self.any_step(cpu, step, knobs),
        }
    }

    /// The same, by code for a wakeup.
    #[inline(never)]
    fn wake(&mut self, cpu: u32, step: &Step, knobs: &Knobs) -> Result<(), Memory>
        requires going { IsGoing self.old }
        requires few { self.old.made < 2 ^ 64 - 1 }
        ensures made { OnOk result (self.new.made ≡ self.old.made + 1) }
        ensures stepped { OnOk result (IsStepped knobs.now cpu (replay_state_view self.old)
            self.old.needs step.now self.new) }
        ensures memory { OnErr result (IsGoing self.new × (replay_state_view self.new ≡ replay_state_view self.old)
            × (self.new.made ≡ self.old.made) × (self.new.needs ≡ self.old.needs)) }
    {
        match (step.nice, step.deed) {
            (None, Deed::Wake { pid, nice }) => {
                let deed = Deed::Wake { pid, nice };
                self.step_of(cpu, step, &deed, &Wakeup { pid, nice }, knobs)
            }
            _ => self.any_step(cpu, step, knobs),
        }
    }

    /// The same, by code for a birth.
    #[inline(never)]
    fn be_born(&mut self, cpu: u32, step: &Step, knobs: &Knobs) -> Result<(), Memory>
        requires going { IsGoing self.old }
        requires few { self.old.made < 2 ^ 64 - 1 }
        ensures made { OnOk result (self.new.made ≡ self.old.made + 1) }
        ensures stepped { OnOk result (IsStepped knobs.now cpu (replay_state_view self.old)
            self.old.needs step.now self.new) }
        ensures memory { OnErr result (IsGoing self.new × (replay_state_view self.new ≡ replay_state_view self.old)
            × (self.new.made ≡ self.old.made) × (self.new.needs ≡ self.old.needs)) }
    {
        match (step.nice, step.deed) {
            (None, Deed::Born { pid, nice, policy }) => {
                let deed = Deed::Born { pid, nice, policy };
                self.step_of(cpu, step, &deed, &Birth { pid, nice, policy }, knobs)
            }
            _ => self.any_step(cpu, step, knobs),
        }
    }

    /// The same, by code for a task that leaves.
    #[inline(never)]
    fn leave(&mut self, cpu: u32, step: &Step, knobs: &Knobs) -> Result<(), Memory>
        requires going { IsGoing self.old }
        requires few { self.old.made < 2 ^ 64 - 1 }
        ensures made { OnOk result (self.new.made ≡ self.old.made + 1) }
        ensures stepped { OnOk result (IsStepped knobs.now cpu (replay_state_view self.old)
            self.old.needs step.now self.new) }
        ensures memory { OnErr result (IsGoing self.new × (replay_state_view self.new ≡ replay_state_view self.old)
            × (self.new.made ≡ self.old.made) × (self.new.needs ≡ self.old.needs)) }
    {
        match (step.nice, step.deed) {
            (None, Deed::Leave { pid, nice, dest }) => {
                let deed = Deed::Leave { pid, nice, dest };
                self.step_of(cpu, step, &deed, &Leaving { pid, nice, dest }, knobs)
            }
            _ => self.any_step(cpu, step, knobs),
        }
    }

    /// The same, by code for a task that comes.
    #[inline(never)]
    fn arrive(&mut self, cpu: u32, step: &Step, knobs: &Knobs) -> Result<(), Memory>
        requires going { IsGoing self.old }
        requires few { self.old.made < 2 ^ 64 - 1 }
        ensures made { OnOk result (self.new.made ≡ self.old.made + 1) }
        ensures stepped { OnOk result (IsStepped knobs.now cpu (replay_state_view self.old)
            self.old.needs step.now self.new) }
        ensures memory { OnErr result (IsGoing self.new × (replay_state_view self.new ≡ replay_state_view self.old)
            × (self.new.made ≡ self.old.made) × (self.new.needs ≡ self.old.needs)) }
    {
        match (step.nice, step.deed) {
            (
                None,
                Deed::Arrive {
                    pid,
                    nice,
                    orig,
                    policy,
                },
            ) => {
                let deed = Deed::Arrive {
                    pid,
                    nice,
                    orig,
                    policy,
                };
                let arrival = Arrival {
                    pid,
                    nice,
                    orig,
                    policy,
                };
                self.step_of(cpu, step, &deed, &arrival, knobs)
            }
            _ => self.any_step(cpu, step, knobs),
        }
    }

    /// The same, by code for all kinds.
    #[inline(never)]
    fn any_step(&mut self, cpu: u32, step: &Step, knobs: &Knobs) -> Result<(), Memory>
        requires going { IsGoing self.old }
        requires few { self.old.made < 2 ^ 64 - 1 }
        ensures made { OnOk result (self.new.made ≡ self.old.made + 1) }
        ensures stepped { OnOk result (IsStepped knobs.now cpu (replay_state_view self.old)
            self.old.needs step.now self.new) }
        ensures memory { OnErr result (IsGoing self.new × (replay_state_view self.new ≡ replay_state_view self.old)
            × (self.new.made ≡ self.old.made) × (self.new.needs ≡ self.old.needs)) }
    {
        self.step_of(cpu, step, &step.deed, &AnyDeed, knobs)
    }

    /// The same, of a step with this deed, of whose kind so much is known.
    #[inline(always)]
    fn step_of<D: KnownDeed>(
        &mut self,
        cpu: u32,
        step: &Step,
        deed: &Deed,
        known: &D,
        knobs: &Knobs,
    ) -> Result<(), Memory>
        requires deed { deed.now ≡ step.now.deed }
        requires known { D.is_of known.now step.now }
        requires going { IsGoing self.old }
        requires few { self.old.made < 2 ^ 64 - 1 }
        ensures made { OnOk result (self.new.made ≡ self.old.made + 1) }
        ensures stepped { OnOk result (IsStepped knobs.now cpu (replay_state_view self.old)
            self.old.needs step.now self.new) }
        ensures memory { OnErr result (IsGoing self.new × (replay_state_view self.new ≡ replay_state_view self.old)
            × (self.new.made ≡ self.old.made) × (self.new.needs ≡ self.old.needs)) }
    {
        self.draft.make_room(*deed)?;
        self.test_step(cpu, step, deed, known, knobs)
    }

    /// The same, where there is room for what the step adds to the draft.
    #[inline(always)]
    fn test_step<D: KnownDeed>(
        &mut self,
        cpu: u32,
        step: &Step,
        deed: &Deed,
        known: &D,
        knobs: &Knobs,
    ) -> Result<(), Memory>
        requires deed { deed.now ≡ step.now.deed }
        requires known { D.is_of known.now step.now }
        requires going { IsGoing self.old }
        requires few { self.old.made < 2 ^ 64 - 1 }
        requires draft { HasDraftRoom step.now.deed self.old.draft }
        ensures made { OnOk result (self.new.made ≡ self.old.made + 1) }
        ensures stepped { OnOk result (IsStepped knobs.now cpu (replay_state_view self.old)
            self.old.needs step.now self.new) }
        ensures memory { OnErr result (IsUndone self.old self.new) }
    {
        if let Some(deadline) = idle_deadline(self.since, step.time, knobs.slack()) {
            self.fail(StepFault {
                line: step.line,
                kind: Kind::IdleTooLong,
                pid: IDLE_PID,
                deadline: Some(deadline),
            });
            return Ok(());
        }
        let found = self.pass(cpu, step, deed, known, knobs)?;
        if let Some(fault) = found {
            self.fail(fault);
            return Ok(());
        }
        self.made += 1;
        Ok(())
    }

    /// Notes a fault, and counts its step.
    fn fail(&mut self, fault: StepFault)
        requires { self.old.made < 2 ^ 64 - 1 }
        ensures made { self.new.made ≡ self.old.made + 1 }
        ensures noted { replay_state_view self.new ≡ with_fault (replay_state_view self.old) fault }
    {
        self.draft.fault = Some(fault);
        self.made += 1;
    }

    /// The tests of a step but for the first. If it passes them it is made. Else, and where memory is wanted, nothing
    /// changes.
    #[inline(always)]
    fn pass<D: KnownDeed>(
        &mut self,
        cpu: u32,
        step: &Step,
        deed: &Deed,
        known: &D,
        knobs: &Knobs,
    ) -> Result<Option<StepFault>, Memory>
        requires deed { deed.now ≡ step.now.deed }
        requires known { D.is_of known.now step.now }
        requires going { IsGoing self.old }
        requires few { self.old.made < 2 ^ 64 - 1 }
        requires draft { HasDraftRoom step.now.deed self.old.draft }
        requires in_time { (pid : ℕ) → IsIdleTooLong knobs.now.slack self.old.since step.now.time pid → ⊥ }
        ensures made { self.new.made ≡ self.old.made }
        ensures passes { IfOk result (λ found. found ≡ None → IsPassed knobs.now cpu self.old step.now self.new) }
        ensures fails { IfOk result (λ found. IfSome found
            (λ fault. FailsStep knobs.now cpu (replay_state_view self.old) step.now
            (with_fault (replay_state_view self.old) fault))) }
        ensures undone { IfOk result (λ found. found ≢ None → IsUndone self.old self.new) }
        ensures memory { OnErr result (IsUndone self.old self.new) }
    {
        let _pids = self.queue.pids();
        let before = self.queue.unlifted();
        let runner = self.queue.runner();
        let runner_row = self.queue.runner_row();
        let time = step.time.saturating_sub(self.queue.mark());
        if let Err(fault) = self.queue.lift(step.time, step.charge, knobs.drift()) {
            return Ok(Some(failed_charge(step.line, fault)));
        }
        let stretch = stretch_between(runner, self.queue.runner(), time);
        let drift = drift_need(&self.queue, step.charge);
        let made = match known.try_on(&mut self.queue, cpu, step, knobs) {
            Ok(Outcome::Made(made)) => made,
            Ok(Outcome::Failed(fault)) => {
                self.queue.restore(before);
                return Ok(Some(fault));
            }
            Err(memory) => {
                self.queue.restore(before);
                return Err(memory);
            }
        };
        self.draft.note_stretch(stretch, runner_row, self.made);
        self.draft
            .note(step, *deed, made.ticket, &self.queue, self.made);
        let idled = idled_time(self.since, step.time);
        raise(&mut self.needs, *deed, made.need, idled, drift);
        self.since = since_after(self.since, step.time, &self.queue);
        Ok(None)
    }
}

/// The fault on this line of a charge that can't be made.
fn failed_charge(line: u32, fault: ChargeFault) -> StepFault
    ensures { result ≡ failed_charge line fault }
{
    let (kind, pid) = match fault {
        ChargeFault::Range(pid) => (Kind::Range, pid),
        ChargeFault::Told(pid) => (Kind::WrongCharge, pid),
    };
    StepFault {
        line,
        kind,
        pid,
        deadline: None,
    }
}

/// How far a told charge, if there is one, leaves the drift of its task from none, in virtual nanoseconds.
#[inline(always)]
pub(crate) fn drift_need(queue: &Runqueue, charge: Option<ChargeLine>) -> u64
    requires { IfSome charge (λ line. (runqueue_view queue.now).tasks line.pid ≢ None) }
    ensures { IsDriftNeed (runqueue_view queue.now) charge result }
{
    let Some(line) = charge else {
        return 0;
    };
    match queue.task_at(line.pid) {
        Some(task) => task.drift.unsigned_abs(),
        None => unreachable!(),
    }
}

/// For how long the processor has idled beside a waiting task, if it has since a time; in nanoseconds.
pub(crate) fn idled_time(since: Option<u64>, time: u64) -> u64
    ensures { result ≡ idle_need since time }
{
    match since {
        Some(since) => time.saturating_sub(since),
        None => 0,
    }
}

/// Until when the processor could idle beside a waiting task, if it has idled for longer; times in nanoseconds.
pub(crate) fn idle_deadline(since: Option<u64>, time: u64, slack: u64) -> Option<u64>
    ensures passes { result ≡ None → (pid : ℕ) → IsIdleTooLong slack since time pid → ⊥ }
    ensures fails { result ≢ None → IsIdleTooLong slack since time 0 }
    ensures deadline { result ≢ None → result ≡ deadline_of IdleTooLong slack since }
{
    let since = since?;
    if time.saturating_sub(since) > slack {
        Some(since + slack)
    } else {
        None
    }
}

/// Since when nothing runs here beside a waiting task, after an event at this time, in nanoseconds.
#[inline(always)]
pub(crate) fn since_after(before: Option<u64>, time: u64, queue: &Runqueue) -> Option<u64>
    ensures { IsSince before time (runqueue_view queue.now) result }
{
    if queue.runner().is_some() {
        return None;
    }
    match queue.least_waiting() {
        Some(_) => Some(before.unwrap_or(time)),
        None => None,
    }
}
