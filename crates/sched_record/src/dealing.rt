ghost use Rattle.std.specs.Prelude.{◌≡◌, ◌==◌, ℕ, ◌<◌, ◌≤◌, [], length, pos, IfOk, None, Option, slice_index_or};
ghost use Rattle.cfs_model.specs.Claimed.{charge_at, claim_at, nice_at};
ghost use Rattle.cfs_model.specs.declared.policy.Policy.TheVariants.{Normal};
ghost use Rattle.companion_file.specs.Seen.{companion_view};
ghost use Rattle.replay_model.specs.Cut.{cut, tasks_at};
ghost use Rattle.processor_stream.specs.Stream.{stream_view};
ghost use Rattle.replay_model.specs.StepAt.{charge_for, claim_for, deed_at as deed_here, nice_for};
ghost use Rattle.replay_model.specs.StepAt.{step_at as step_here};

use crate::on_line::{index_from, index_near, item_on};
use crate::policies::{has_span, policy_if_idle, span_before};
use crate::record::Record;
use cfs_model::{Act, ChargeLine, Claim, Entry, Memory, NO_LINE, NiceLine, Policy, Task};
use companion_file::{Companion, Tasks};
use processor_stream::{Steps, Stream};
use replay_model::{Deed, Step};
use std::alloc::Global;

impl Record {
    ghost use Rattle.std.specs.Prelude.{◌+◌};
    ghost use Rattle.cfs_model.specs.Claimed.{claimed, policies_before, policy_by};
    ghost use Rattle.cfs_model.specs.Start.{policies_at_start};
    ghost use Rattle.cfs_model.specs.declared.act.Entry.{Entry};
    ghost use Rattle.replay_model.specs.Cut.{steps_at};
    ghost use Rattle.sched_record.specs.Beside.{IsChargeIndex, IsClaimIndex, IsNiceIndex};
    ghost use Rattle.sched_record.specs.RecordView.{policy_of};
    ghost use Rattle.sched_record.specs.Record.{record_view};
    ghost use Rattle.sched_record.specs.Stream.{cut_of};

    /// What one processor sees of the record: its tasks and floor, and the steps of the events that touch it.
    pub fn deal(&self, cpu: u32) -> Result<Stream, Memory>
        requires { cpu < (record_view self.now).cpus }
        ensures { IfOk result (λ stream. stream_view stream ≡ cut_of (record_view self.now) cpu) }
    {
        let alloc = self.allocator();
        let tasks = tasks_of(alloc, self.tasks(), cpu)?;
        let steps = self.steps_of(alloc, cpu)?;
        Ok(Stream::new(
            cpu,
            tasks,
            floor_of(self.floors(), cpu),
            self.start(),
            steps,
            self.last_time(),
            self.last_line(),
        ))
    }

    /// The claim on an event's line, sought from an index in the claims on, and the index for the next event. The walk
    /// begins at index 0.
    pub fn claim_beside(&self, event: usize, from: usize) -> (Option<Claim>, usize)
        requires event { event < length (record_view self.now).events }
        requires from { IsClaimIndex (record_view self.now) event from }
        ensures claim { (entry : Entry) → result.0 ≡ claim_at (record_view self.now).claims
            (slice_index_or (record_view self.now).events event entry).line }
        ensures next { IsClaimIndex (record_view self.now) (event + 1) result.1 }
    {
        let claims = self.claims();
        let line = self.events()[event].line;
        let index = index_from(claims, from, line);
        (item_on(claims, index, line), index)
    }

    /// The change of a nice value on an event's line, sought from an index in the changes on, and the index for the
    /// next event. The walk begins at index 0.
    pub fn nice_beside(&self, event: usize, from: usize) -> (Option<NiceLine>, usize)
        requires event { event < length (record_view self.now).events }
        requires from { IsNiceIndex (record_view self.now) event from }
        ensures nice { (entry : Entry) → result.0 ≡ nice_at (record_view self.now).nices
            (slice_index_or (record_view self.now).events event entry).line }
        ensures next { IsNiceIndex (record_view self.now) (event + 1) result.1 }
    {
        let nices = self.nices();
        let line = self.events()[event].line;
        let index = index_from(nices, from, line);
        (item_on(nices, index, line), index)
    }

    /// The charge that is told on an event's line, sought from an index in the charges on, and the index for the next
    /// event. The walk begins at index 0.
    pub fn charge_beside(&self, event: usize, from: usize) -> (Option<ChargeLine>, usize)
        requires event { event < length (record_view self.now).events }
        requires from { IsChargeIndex (record_view self.now) event from }
        ensures charge { (entry : Entry) → result.0 ≡ charge_at (record_view self.now).charges
            (slice_index_or (record_view self.now).events event entry).line }
        ensures next { IsChargeIndex (record_view self.now) (event + 1) result.1 }
    {
        let charges = self.charges();
        let line = self.events()[event].line;
        let index = index_from(charges, from, line);
        (item_on(charges, index, line), index)
    }

    /// The policy of the task that an event bears or moves. It takes no memory.
    pub fn policy_at(&self, event: usize) -> Policy
        requires { event < length (record_view self.now).events }
        ensures { (entry : Entry) → result ≡ policy_of (record_view self.now)
            (slice_index_or (record_view self.now).events event entry) }
    {
        self.policy_of(&self.events()[event])
    }

    /// The same of an event of the record that is at hand.
    fn policy_of(&self, event: &Entry) -> Policy
        requires { 0 < event.now.line }
        ensures { result ≡ policy_of (record_view self.now) event.now }
    {
        let act = event.act;
        match act {
            Act::Born { pid, .. } => policy_if_idle(has_span(self.spans(), event.line, pid)),
            Act::Shift { pid, .. } => policy_if_idle(self.is_idle_before(event.line, pid)),
            Act::Switch { .. } | Act::Wake { .. } => Policy::Normal,
        }
    }

    /// Whether the task of this pid is of the idle policy as a line of the trace begins: as it was told at its last
    /// birth above the line, or at the start.
    fn is_idle_before(&self, line: u32, pid: u32) -> bool
        requires { 0 < line }
        ensures { let r = record_view self.now in
            policy_by result ≡ policies_before r.idles (policies_at_start r.tasks) r.events line pid }
    {
        let spans = self.spans();
        match span_before(spans, line, pid) {
            Some(index) => {
                let until = spans[index].until;
                until == NO_LINE || line <= until
            }
            None => false,
        }
    }

    /// The steps of the events that touch a processor.
    fn steps_of(&self, alloc: Global, cpu: u32) -> Result<Steps, Memory>
        requires { cpu < (record_view self.now).cpus }
        ensures { let r = record_view self.now in
            IfOk result (λ list. list ≡ steps_at cpu (claimed r.claims r.nices r.charges (policy_of r) r.events)) }
    {
        let trace = self.trace();
        let claims = self.claims();
        let nices = self.nices();
        let charges = self.charges();
        let events = self.events();
        let indices = trace.indices(cpu);
        let mut steps = Vec::with_capacity(alloc, indices.len())?;
        let mut claims_from = 0;
        let mut nices_from = 0;
        let mut charges_from = 0;
        for index in indices {
            let event = events[*index as usize];
            let hint = trace.hint(*index);
            claims_from = index_near(claims, claims_from, hint.claim, event.line);
            nices_from = index_near(nices, nices_from, hint.nice, event.line);
            charges_from = index_near(charges, charges_from, hint.charge, event.line);
            let claimed = item_on(claims, claims_from, event.line);
            let change = item_on(nices, nices_from, event.line);
            let told = item_on(charges, charges_from, event.line);
            let policy = self.policy_of(&event);
            let deed = deed_at(event.act, policy, cpu);
            let claim = claim_for(&deed, claimed);
            let nice = nice_for(&deed, change);
            let charge = charge_for(&deed, told);
            steps.push(Step {
                line: event.line,
                time: event.time,
                deed,
                claim,
                nice,
                charge,
            })?;
        }
        Ok(Steps::from_vec(steps))
    }
}

/// What one processor sees of a start state alone: its tasks and floor, and no steps.
pub fn deal_start(alloc: Global, companion: &Companion, cpu: u32) -> Result<Stream, Memory>
    requires { cpu < (companion_view companion.now).cpus }
    ensures { let start = companion_view companion.now in
        IfOk result (λ stream. stream_view stream ≡ cut start.start start.floors start.tasks [] cpu) }
{
    let tasks = tasks_of(alloc, companion.tasks(), cpu)?;
    let steps = Steps::from_vec(Vec::new(alloc));
    Ok(Stream::new(
        cpu,
        tasks,
        floor_of(companion.floors(), cpu),
        companion.start(),
        steps,
        companion.start(),
        NO_LINE,
    ))
}

/// A processor's floor.
fn floor_of(floors: &[i64], cpu: u32) -> i64
    requires { cpu < length floors.now }
    ensures { result ≡ slice_index_or floors.now cpu (pos 0) }
{
    floors[cpu as usize]
}

/// The tasks that stand at a processor.
fn tasks_of(alloc: Global, tasks: &[Task], cpu: u32) -> Result<Tasks, Memory>
    ensures { IfOk result (λ list. list ≡ tasks_at cpu tasks.now) }
{
    let mut here = Vec::new(alloc);
    for task in tasks {
        if task.cpu == cpu {
            here.push(*task)?;
        }
    }
    Ok(Tasks::from_vec(here))
}

/// An event with the claim, the change of a nice value and the told charge on its line, and the policy of the task that
/// it bears or moves, as a processor that it touches sees it.
#[inline(always)]
pub fn step_at(
    event: Entry,
    claim: Option<Claim>,
    nice: Option<NiceLine>,
    charge: Option<ChargeLine>,
    policy: Policy,
    cpu: u32,
) -> Step
    ensures { result ≡ step_here cpu (record {
      entry = event;
      claim = claim;
      nice = nice;
      charge = charge;
      policy = policy;
    }) }
{
    let deed = deed_at(event.act, policy, cpu);
    Step {
        line: event.line,
        time: event.time,
        deed,
        claim: claim_for(&deed, claim),
        nice: nice_for(&deed, nice),
        charge: charge_for(&deed, charge),
    }
}

/// Writes such a step, of an event on whose line no more is said than the claim that the step has already. Nothing is
/// copied on the way, as there are as many steps as events.
#[inline(always)]
pub(crate) fn write_usual(event: &Entry, cpu: u32, step: &mut Step)
    ensures { step.new ≡ step_here cpu (record {
      entry = event.now;
      claim = step.old.claim;
      nice = None;
      charge = None;
      policy = Normal;
    }) }
{
    step.line = event.line;
    step.time = event.time;
    step.nice = None;
    step.charge = None;
    match event.act {
        Act::Switch {
            prev,
            prev_nice,
            way,
            next,
            next_nice,
            ..
        } => {
            step.deed = Deed::Switch {
                prev,
                prev_nice,
                way,
                next,
                next_nice,
            };
        }
        Act::Wake { pid, nice, .. } => step.deed = Deed::Wake { pid, nice },
        Act::Born { pid, nice, .. } => {
            step.deed = Deed::Born {
                pid,
                nice,
                policy: Policy::Normal,
            };
        }
        Act::Shift {
            orig,
            dest,
            pid,
            nice,
        } => {
            let leaves = orig == cpu;
            if leaves {
                step.deed = Deed::Leave { pid, nice, dest };
                step.claim = None;
            } else {
                step.deed = Deed::Arrive {
                    pid,
                    nice,
                    orig,
                    policy: Policy::Normal,
                };
            }
        }
    }
}

/// What an event does at a processor that it touches, with the policy of who is born or comes.
#[inline(always)]
pub(crate) fn deed_at(act: Act, policy: Policy, cpu: u32) -> Deed
    ensures { result ≡ deed_here cpu policy act }
{
    match act {
        Act::Switch {
            prev,
            prev_nice,
            way,
            next,
            next_nice,
            ..
        } => Deed::Switch {
            prev,
            prev_nice,
            way,
            next,
            next_nice,
        },
        Act::Wake { pid, nice, .. } => Deed::Wake { pid, nice },
        Act::Born { pid, nice, .. } => Deed::Born { pid, nice, policy },
        Act::Shift {
            orig,
            dest,
            pid,
            nice,
        } => {
            if orig == cpu {
                Deed::Leave { pid, nice, dest }
            } else {
                Deed::Arrive {
                    pid,
                    nice,
                    orig,
                    policy,
                }
            }
        }
    }
}

/// The claim of a step: a task that leaves has none.
#[inline(always)]
fn claim_for(deed: &Deed, claim: Option<Claim>) -> Option<Claim>
    ensures { result ≡ claim_for deed.now claim }
{
    match *deed {
        Deed::Leave { .. } => None,
        Deed::Switch { .. } | Deed::Wake { .. } | Deed::Born { .. } | Deed::Arrive { .. } => claim,
    }
}

/// The change of a nice value of a step: a task that comes has none.
#[inline(always)]
fn nice_for(deed: &Deed, change: Option<NiceLine>) -> Option<NiceLine>
    ensures { result ≡ nice_for deed.now change }
{
    match *deed {
        Deed::Arrive { .. } => None,
        Deed::Switch { .. } | Deed::Wake { .. } | Deed::Born { .. } | Deed::Leave { .. } => change,
    }
}

/// The told charge of a step: a task that comes has none.
#[inline(always)]
fn charge_for(deed: &Deed, charge: Option<ChargeLine>) -> Option<ChargeLine>
    ensures { result ≡ charge_for deed.now charge }
{
    match *deed {
        Deed::Arrive { .. } => None,
        Deed::Switch { .. } | Deed::Wake { .. } | Deed::Born { .. } | Deed::Leave { .. } => charge,
    }
}
