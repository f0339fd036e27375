//! An auditor that has made its first stretch: what it began with, and what it still does.
ghost use Rattle.std.specs.Prelude.{◌≡◌, ◌↔◌, ◌<◌, ◌≤◌, None, [], length, IfOk, IfErr, IsTrue, OnOk, OnErr};
ghost use Rattle.audit_crew.specs.Own.{AreTaken};
ghost use Rattle.audit_crew.specs.Refusal.{IsToldBy};
ghost use Rattle.audit_crew.specs.Tags.{IsOneTag, IsThrough};
ghost use Rattle.queue_replay.specs.Made.{state_of};
ghost use Rattle.queue_replay.specs.declared.state.State.TheVariants.{Going};
ghost use Rattle.sched_record.specs.Stream.{stream_view};

use crate::reserved_shelf::ReservedShelf;
use crate::{AuditorFault, Gate};
use cfs_model::{Knobs, Memory};
use queue_replay::{Replay, State};
use sched_record::Stream;
use std::alloc::Global;

/// An auditor between two stretches.
#[derive(Drop)]
pub(crate) struct Underway {
    cpu: u32,
    replay: Replay,
    state: State,
    ghost is_state: { state ≡ state_of replay.page.fault replay.made (length replay.stream.steps) },
    ghost within: { replay.made ≤ length replay.stream.steps },
    ghost some: { state ≡ Going → 0 < replay.made },
}

impl Underway {
    /// Enters the gate, makes the first stretch of a stream's replay, and enters again.
    pub(crate) fn begin<G: Gate>(
        alloc: Global,
        gate: &G,
        stream: Stream,
        knobs: Knobs,
        stretch: u64,
    ) -> Result<Underway, Memory>
        requires { 0 < stretch }
        ensures stream { IfOk result (λ begun. begun.replay.stream ≡ stream_view stream) }
        ensures knobs { IfOk result (λ begun. begun.replay.knobs ≡ knobs) }
    {
        let cpu = stream.cpu();
        let mut replay = before_steps(alloc, stream, knobs)?;
        gate.enter(cpu);
        let state = replay.go_on(stretch)?;
        gate.enter(cpu);
        Ok(Underway { cpu, replay, state })
    }

    /// Whether steps are left, none of which has failed.
    pub(crate) fn is_going(&self) -> bool
        ensures { IsTrue result ↔ (self.now.state ≡ Going) }
    {
        matches!(self.state, State::Going)
    }

    /// Makes the stretches that are left, and posts the page.
    pub(crate) fn end<S: ReservedShelf, G: Gate>(
        self,
        shelf: &mut S,
        gate: &G,
        stretch: u64,
    ) -> Result<(), AuditorFault>
        requires stretch { 0 < stretch }
        requires accepted { S.accepted shelf.old ≡ [] }
        requires refused { S.refused shelf.old ≡ None }
        requires taken { AreTaken S.takes self.replay.stream self.replay.knobs }
        ensures posted { OnOk result (IsOneTag self.replay.stream self.replay.knobs (S.told shelf.new)
            (S.accepted shelf.new)) }
        ensures none_refused { OnOk result (S.refused shelf.new ≡ None) }
        ensures kept { OnErr result (S.accepted shelf.new ≡ S.accepted shelf.old) }
        ensures fault { IfErr result (λ fault. IsToldBy
            (S.refused shelf.new) self.replay.stream self.replay.knobs fault) }
    {
        let Underway {
            cpu,
            mut replay,
            state,
        } = self;
        go_through(&mut replay, state, cpu, shelf, gate, stretch)?;
        match shelf.post(replay.page()) {
            Ok(()) => Ok(()),
            Err((page, fault)) => Err(AuditorFault::Refused(page, fault)),
        }
    }
}

/// The replay of a stream before its first step.
fn before_steps(alloc: Global, stream: Stream, knobs: Knobs) -> Result<Replay, Memory>
    ensures stream { IfOk result (λ replay. replay.stream ≡ stream_view stream) }
    ensures knobs { IfOk result (λ replay. replay.knobs ≡ knobs) }
{
    match Replay::new(alloc, stream, knobs) {
        Ok(replay) => Ok(replay),
        Err((_stream, memory)) => Err(memory),
    }
}

/// Makes the steps that are left of a processor's replay, in stretches before which it asks the shelf and after which
/// it enters the gate, until none is left, one fails, or the last is on the line that the shelf told or past it.
fn go_through<S: ReservedShelf, G: Gate>(
    replay: &mut Replay,
    state: State,
    cpu: u32,
    shelf: &mut S,
    gate: &G,
    stretch: u64,
) -> Result<(), Memory>
    requires stretch { 0 < stretch }
    requires is_state { state ≡ state_of replay.old.page.fault replay.old.made (length replay.old.stream.steps) }
    requires within { replay.old.made ≤ length replay.old.stream.steps }
    requires some { state ≡ Going → 0 < replay.old.made }
    ensures stream { replay.new.stream ≡ replay.old.stream }
    ensures knobs { replay.new.knobs ≡ replay.old.knobs }
    ensures through { OnOk result (IsThrough replay.new (S.told shelf.new)) }
    ensures accepted { S.accepted shelf.new ≡ S.accepted shelf.old }
    ensures refused { S.refused shelf.new ≡ S.refused shelf.old }
{
    let mut state = state;
    'stretches: loop {
        match state {
            State::Going => {
                // By the step that passed and not by the next: up to there alone has idling been tested.
                if u64::from(replay.line()) >= shelf.least() {
                    return Ok(());
                }
            }
            State::Done | State::Faulted => return Ok(()),
        }
        state = replay.go_on(stretch)?;
        gate.enter(cpu);
    }
}
