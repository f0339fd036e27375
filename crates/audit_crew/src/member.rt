ghost use Rattle.std.specs.Prelude.{◌≡◌, ◌↔◌, ◌+◌, ◌<◌, ◌≤◌, None, Err, IsSome, is_some, length, IsTrue, IfOk, OnOk};
ghost use Rattle.std.specs.Option.{ForSome, option_to_list};
ghost use Rattle.audit_crew.specs.Ending.{IsBroughtBack};
ghost use Rattle.audit_crew.specs.Own.{IsOwnReplay};
ghost use Rattle.queue_replay.specs.declared.state.State.TheVariants.{Going};
ghost use Rattle.sched_record.specs.Record.{record_view};
ghost use Rattle.sched_record.specs.Stream.{cut_of};

use crate::locked_shelf::LockedShelf;
use crate::shared_book::{CrewLedger, SharedBook};
use crate::underway::Underway;
use crate::{AuditorFault, Gate};
use cfs_model::{Knobs, Memory};
use queue_replay::Tag;
use sched_record::Record;
use std::alloc::Global;
use std::sync::ledger::Share;
use std::sync::{Mutex, Wait};
use ticket_book::PostFault;

/// The number of steps that an auditor of the crew makes from one entry of the gate to the next.
const STRETCH: u64 = 4096;

/// A member of the crew, one for each processor: its auditor between two stretches, and what that brings back to the
/// caller.
#[derive(Drop)]
pub(crate) struct Member<L: CrewLedger> {
    /// Where it made its first stretch, and has to go on.
    underway: Option<Underway>,
    share: Share<L>,
    /// The tag of its page, where that was accepted.
    posted: Option<Tag>,
    /// The tag of its page, where that was refused, and the book's reason.
    refused: Option<(Tag, PostFault)>,
    /// Whether a growth was refused.
    memory: bool,
    ghost part: { share.parts ≡ 1 },
    ghost counted: { share.amount ≡ length (option_to_list posted) },
    ghost free: { IsSome underway → posted ≡ None },
    ghost own: { ForSome underway (λ begun. IsOwnReplay L.knobs L.joined begun.replay) },
}

impl<L: CrewLedger> Member<L> {
    /// One whose auditor hasn't begun.
    pub(crate) fn new(share: Share<L>) -> Member<L>
        requires part { share.parts ≡ 1 }
        requires none { share.amount ≡ 0 }
        ensures free { result.posted ≡ None }
        ensures none_underway { result.underway ≡ None }
    {
        Member {
            underway: None,
            share,
            posted: None,
            refused: None,
            memory: false,
        }
    }

    /// Deals the stream of a processor of the record, and runs its auditor for one stretch, or to its end where no step
    /// is left then.
    pub(crate) fn begin<R: Wait, G: Gate>(
        &mut self,
        rt: &R,
        alloc: Global,
        shared: &Mutex<SharedBook<L>>,
        joined: &Record,
        cpu: u32,
        knobs: Knobs,
        gate: &G,
    )
        requires cpu { cpu < (record_view joined.now).cpus }
        requires joined { L.joined ≡ record_view joined.now }
        requires knobs { L.knobs ≡ knobs }
        requires free { self.old.posted ≡ None }
        requires none_underway { self.old.underway ≡ None }
        ensures going { ForSome self.new.underway (λ begun. (begun.replay.stream ≡ cut_of (record_view joined.now) cpu)
            × (begun.state ≡ Going)) }
        ensures ended { self.new.underway ≡ None → IsBroughtBack (cut_of (record_view joined.now) cpu) knobs
            self.new.posted self.new.refused self.new.memory }
    {
        match deal_and_begin(alloc, joined, cpu, knobs, gate) {
            Ok(begun) if begun.is_going() => self.underway = Some(begun),
            Ok(begun) => self.finish(rt, shared, begun, gate),
            Err(Memory) => self.memory = true,
        }
    }

    /// Whether its auditor has to go on.
    pub(crate) fn is_underway(&self) -> bool
        ensures { result ≡ is_some self.now.underway }
    {
        self.underway.is_some()
    }

    /// Runs its auditor to its end, where it hasn't come to that.
    pub(crate) fn end<R: Wait, G: Gate>(&mut self, rt: &R, shared: &Mutex<SharedBook<L>>, gate: &G)
        ensures over { self.new.underway ≡ None }
        ensures ended { ForSome self.old.underway (λ begun. IsBroughtBack begun.replay.stream begun.replay.knobs
            self.new.posted self.new.refused self.new.memory) }
        ensures kept { self.old.underway ≡ None → (self.new.posted ≡ self.old.posted)
            × (self.new.refused ≡ self.old.refused) × (self.new.memory ≡ self.old.memory) }
    {
        if let Some(begun) = self.underway.take() {
            self.finish(rt, shared, begun, gate);
        }
    }

    /// Runs an auditor to its end over the shared book. A page that comes back is left to the book's closing.
    fn finish<R: Wait, G: Gate>(
        &mut self,
        rt: &R,
        shared: &Mutex<SharedBook<L>>,
        begun: Underway,
        gate: &G,
    )
        requires free { self.old.posted ≡ None }
        requires none_underway { self.old.underway ≡ None }
        requires own { IsOwnReplay L.knobs L.joined begun.replay }
        ensures over { self.new.underway ≡ None }
        ensures ended { IsBroughtBack begun.replay.stream begun.replay.knobs self.new.posted self.new.refused
            self.new.memory }
    {
        let Member {
            share,
            posted,
            refused,
            memory,
            ..
        } = self;
        let mut shelf = LockedShelf::new(rt, shared, share.split_off(1, 0));
        let answer = begun.end(&mut shelf, gate, STRETCH);
        let (back, accepted, came_back) = shelf.leave();
        share.merge(back);
        *posted = accepted;
        *refused = came_back;
        *memory = wants_memory(&answer);
    }

    /// Gives its share of the ledger back, and tells how many pages it posted.
    pub(crate) fn leave(self, all: &mut Share<L>) -> Result<u32, Memory>
        ensures at_most { IfOk result (λ posted. posted ≤ 1) }
        ensures parts { OnOk result (all.new.parts ≡ all.old.parts + 1) }
        ensures amount { IfOk result (λ posted. all.new.amount ≡ all.old.amount + posted) }
    {
        if self.memory {
            return Err(Memory);
        }
        let Member { share, posted, .. } = self;
        all.merge(share);
        Ok(u32::from(posted.is_some()))
    }
}

/// Whether an auditor has no page since a growth was refused.
fn wants_memory(answer: &Result<(), AuditorFault>) -> bool
    ensures { IsTrue result ↔ (answer.now ≡ Err AuditorFault.Memory) }
{
    matches!(answer, Err(AuditorFault::Memory))
}

/// Deals the stream of a processor, and makes the first stretch of its auditor.
fn deal_and_begin<G: Gate>(
    alloc: Global,
    joined: &Record,
    cpu: u32,
    knobs: Knobs,
    gate: &G,
) -> Result<Underway, Memory>
    requires { cpu < (record_view joined.now).cpus }
    ensures own { IfOk result (λ begun. IsOwnReplay knobs (record_view joined.now) begun.replay) }
    ensures dealt { IfOk result (λ begun. begun.replay.stream ≡ cut_of (record_view joined.now) cpu) }
{
    let stream = joined.deal(cpu)?;
    Underway::begin(alloc, gate, stream, knobs, STRETCH)
}
