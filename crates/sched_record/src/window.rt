ghost use Rattle.std.specs.Prelude.{◌≡◌, ◌==◌, ℕ, ◌<◌, ◌^◌, ◌++◌, [], ◌∷◌, length};
ghost use Rattle.std.specs.Prelude.{if◌then◌else◌, ◌≤◌, IfSome, IsSome, None, OnErr, OnOk, take};
ghost use Rattle.std.specs.List.{list_any};
ghost use Rattle.std.proofs.Props.{props};
ghost use Rattle.cfs_model.specs.Limits.{most_processors};
ghost use Rattle.cfs_model.specs.Touch.{touched};
ghost use Rattle.sched_record.specs.Indices.{AreIndicesOf, indices_at, touches_cpu};

use crate::dealing::{step_at, write_usual};
use crate::indices::Indices;
use crate::sayings::Sayings;
use cfs_model::{Act, ChargeLine, Claim, Entry, MOST_PROCESSORS, Memory, NiceLine, Policy};
use replay_model::Step;
use std::alloc::Global;
use std::slice::from_ref;

/// What the companion says on the line of an event, and the policy of the task that the event bears or moves.
#[derive(Clone, Copy, Debug)]
pub struct Saying {
    pub claim: Option<Claim>,
    pub nice: Option<NiceLine>,
    pub charge: Option<ChargeLine>,
    pub policy: Policy,
}

/// A stretch of a record's events, in the order of their lines, each with what the companion says on its line.
#[derive(Drop)]
pub struct Window {
    /// The stretch's, and behind them those that wait until it is told what is said on their lines.
    events: Vec<Entry>,
    sayings: Sayings,
    /// Where in `events` those of each processor stand, of as many as a `u32` counts.
    indices: Indices,
    pub ghost paired: { length sayings ≤ length events.items },
    ghost indexed: { length sayings < 2 ^ 32
        → AreIndicesOf (take (length sayings) events.items) indices } by { Prim.hlevel props },
}

impl Window {
    ghost use Rattle.std.specs.Prelude.{List, map, slice_index_or};
    ghost use Rattle.cfs_model.specs.Claimed.{Claimed};
    ghost use Rattle.cfs_model.specs.declared.act.Entry.{Entry as Event};
    ghost use Rattle.replay_model.specs.Cut.{steps_at};
    ghost use Rattle.replay_model.specs.StepAt.{step_at as step_here};
    ghost use Rattle.sched_record.specs.Sayings.{claim_alone};
    ghost use Rattle.sched_record.specs.Window.{AreTouching, said_beside, said_of, waiting, window_view};

    /// A window without events.
    pub fn new(alloc: Global) -> Window
        ensures { window_view result ≡ [] }
    {
        Window {
            events: Vec::new(alloc),
            sayings: Sayings::new(alloc),
            indices: Indices::new(alloc),
        }
    }

    /// Adds an event behind the others, with what is said on its line. Those that wait are let go.
    pub fn add(&mut self, event: &Entry, saying: Saying) -> Result<(), Memory>
        ensures added { OnOk result (window_view self.new ≡ window_view self.old ++ said_of event.now saying ∷ []) }
        ensures same { OnErr result (window_view self.new ≡ window_view self.old) }
    {
        self.bring(from_ref(event))?;
        self.say(event, saying)
    }

    /// Lets these events wait, in place of those that did. They come behind the others, one by one, as it is told what
    /// is said on their lines.
    pub fn bring(&mut self, events: &[Entry]) -> Result<(), Memory>
        ensures same { window_view self.new ≡ window_view self.old }
        ensures brought { OnOk result (waiting self.new ≡ events.now) }
    {
        self.events.truncate(self.sayings.len());
        self.events.extend_from_slice(events)?;
        Ok(())
    }

    /// Adds the first event that waits behind the others, with what is said on its line.
    pub fn say(&mut self, event: &Entry, saying: Saying) -> Result<(), Memory>
        requires first { (rest : List Event) × (waiting self.old ≡ event.now ∷ rest) }
        ensures added { OnOk result (window_view self.new ≡ window_view self.old ++ said_of event.now saying ∷ []) }
        ensures rest { (rest : List Event) → waiting self.old ≡ event.now ∷ rest
            → OnOk result (waiting self.new ≡ rest) }
        ensures same { OnErr result (window_view self.new ≡ window_view self.old) }
    {
        let index = self.sayings.len();
        self.sayings.push(saying)?;
        let added = add_index(&mut self.indices, event.act, index);
        if added.is_err() {
            self.sayings.pop();
        }
        added
    }

    /// The same of an event on whose line no more is said than this claim, or nothing.
    #[inline(always)]
    pub fn say_claim(&mut self, event: &Entry, claim: &Claim, is_said: bool) -> Result<(), Memory>
        requires first { (rest : List Event) × (waiting self.old ≡ event.now ∷ rest) }
        ensures added { OnOk result
            (window_view self.new ≡ window_view self.old ++ said_of event.now (claim_alone is_said claim.now) ∷ []) }
        ensures rest { (rest : List Event) → waiting self.old ≡ event.now ∷ rest
            → OnOk result (waiting self.new ≡ rest) }
        ensures same { OnErr result (window_view self.new ≡ window_view self.old) }
    {
        let index = self.sayings.len();
        self.sayings.push_claim(claim, is_said)?;
        let added = add_index(&mut self.indices, event.act, index);
        if added.is_err() {
            self.sayings.pop();
        }
        added
    }

    /// Empties it; what it took it keeps.
    pub fn clear(&mut self)
        ensures { window_view self.new ≡ [] }
    {
        self.events.clear();
        self.sayings.clear();
        self.indices.clear();
    }

    /// The events.
    pub fn events(&self) -> &[Entry]
        ensures { result.now ≡ map (λ event. event.entry) (window_view self.now) }
    {
        &self.events[..self.sayings.len()]
    }

    /// The event at an index, and what is said on its line; none at the end.
    pub fn event_at(&self, index: usize) -> Option<(Entry, Saying)>
        ensures there { IfSome result (λ at. said_of at.0 at.1
            ≡ slice_index_or (window_view self.now) index (said_of at.0 at.1)) }
        ensures none { result ≡ None → length (window_view self.now) ≤ index }
    {
        if index < self.sayings.len() {
            Some((self.events[index], self.sayings.get(index)))
        } else {
            None
        }
    }

    /// Where the events that touch a processor stand among all, in their order; none where no indices are kept: of a
    /// processor that no record has, or of more events than a `u32` counts.
    #[inline(always)]
    pub fn touching(&self, cpu: u32) -> Option<&[u32]>
        ensures touching { IfSome result (λ indices. AreTouching cpu (window_view self.now) indices.now) }
        ensures kept { cpu < most_processors → length (window_view self.now) < 2 ^ 32 → IsSome result }
    {
        if cpu as usize >= MOST_PROCESSORS || self.sayings.len() > u32::MAX as usize {
            return None;
        }
        Some(self.indices.at(cpu))
    }

    /// The step of the event at an index, at a processor that it touches.
    pub fn step(&self, index: u32, cpu: u32) -> Step
        requires { index < length (window_view self.now) }
        ensures { (here : Claimed) → here ≡ slice_index_or (window_view self.now) index here
            → result ≡ step_here cpu here }
    {
        self.step_of(index as usize, cpu)
    }

    /// Writes the same in the place of another step, which is faster where there is one.
    #[inline(always)]
    pub fn write_step(&self, index: u32, cpu: u32, step: &mut Step)
        requires { index < length (window_view self.now) }
        ensures { (here : Claimed) → here ≡ slice_index_or (window_view self.now) index here
            → step.new ≡ step_here cpu here }
    {
        let index = index as usize;
        let said = self.sayings.said_at(index);
        if said.is_more() {
            self.write_whole(index, cpu, step);
            return;
        }
        step.claim = said.claim();
        write_usual(&self.events[index], cpu, step);
    }

    /// The same by a copy of the step, of whatever is said. Out of line, as there are few: room for the copy is made
    /// here alone.
    #[inline(never)]
    fn write_whole(&self, index: usize, cpu: u32, step: &mut Step)
        requires { index < length self.now.sayings }
        ensures { (here : Claimed) → here ≡ slice_index_or (window_view self.now) index here
            → step.new ≡ step_here cpu here }
    {
        *step = self.step_of(index, cpu);
    }

    /// The steps of the events that touch a processor, in place of what the list held.
    pub fn deal(&self, cpu: u32, steps: &mut Vec<Step>) -> Result<(), Memory>
        ensures { OnOk result (steps.new.items ≡ steps_at cpu (window_view self.now)) }
    {
        steps.clear();
        let Some(indices) = self.touching(cpu) else {
            return self.deal_by_all(cpu, steps);
        };
        for index in indices {
            self.push_step(*index as usize, cpu, steps)?;
        }
        Ok(())
    }

    /// Deals by a look at each event, where no indices are kept.
    fn deal_by_all(&self, cpu: u32, steps: &mut Vec<Step>) -> Result<(), Memory>
        requires { steps.old.items ≡ [] }
        ensures { OnOk result (steps.new.items ≡ steps_at cpu (window_view self.now)) }
    {
        for index in 0..self.sayings.len() {
            if touches(self.events[index].act, cpu) {
                self.push_step(index, cpu, steps)?;
            }
        }
        Ok(())
    }

    /// Adds the step of the event at an index, at a processor that it touches.
    fn push_step(&self, index: usize, cpu: u32, steps: &mut Vec<Step>) -> Result<(), Memory>
        requires { index < length self.now.sayings }
        ensures { (here : Claimed) → here ≡ slice_index_or (window_view self.now) index here
            → OnOk result (steps.new.items ≡ steps.old.items ++ step_here cpu here ∷ []) }
    {
        // Taken apart: the check knows the types of what is named.
        let Step {
            line,
            time,
            deed,
            claim,
            nice,
            charge,
        } = self.step_of(index, cpu);
        push(
            steps,
            Step {
                line,
                time,
                deed,
                claim,
                nice,
                charge,
            },
        )
    }

    /// The step of the event at an index of the list of events, at a processor that it touches.
    #[inline(never)]
    fn step_of(&self, index: usize, cpu: u32) -> Step
        requires { index < length self.now.sayings }
        ensures { (here : Claimed) → here ≡ slice_index_or (window_view self.now) index here
            → result ≡ step_here cpu here }
    {
        let event = self.events[index];
        let said = self.sayings.get(index);
        step_at(event, said.claim, said.nice, said.charge, said.policy, cpu)
    }
}

/// Adds an item behind the others of a list.
#[inline(always)]
fn push<T: Drop>(list: &mut Vec<T>, item: T) -> Result<(), Memory>
    ensures { OnOk result (list.new.items ≡ list.old.items ++ item ∷ []) }
{
    list.push(item)?;
    Ok(())
}

/// Adds the index of an event to the processors that it touches, where a `u32` counts so many.
#[inline(always)]
fn add_index(indices: &mut Indices, act: Act, index: usize) -> Result<(), Memory>
    ensures added { index < 2 ^ 32 → OnOk result ((cpu : ℕ) → cpu < most_processors
        → indices_at indices.new cpu ≡ indices_at indices.old cpu ++ (if touches_cpu cpu act then index ∷ [] else [])) }
    ensures kept { OnErr result ((cpu : ℕ) → cpu < most_processors
        → indices_at indices.new cpu ≡ indices_at indices.old cpu) }
{
    if index > u32::MAX as usize {
        return Ok(());
    }
    indices.add(act, index as u32)
}

/// Whether an event touches a processor.
fn touches(act: Act, cpu: u32) -> bool
    ensures { result ≡ list_any (λ other. other == cpu) (touched act) }
{
    let (one, other) = act.ends();
    one == cpu || other == cpu
}
