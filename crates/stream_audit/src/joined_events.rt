ghost use Rattle.std.specs.Prelude.{◌≡◌, ◌++◌, [], List, true, false, None};
ghost use Rattle.std.specs.Prelude.{IfOk, OnOk};
ghost use Rattle.cfs_model.specs.Claimed.{Claimed};
ghost use Rattle.cfs_model.specs.Limits.{no_line};
ghost use Rattle.cfs_model.specs.declared.act.Entry.{Entry as Event};
ghost use Rattle.companion_file.specs.Companion.{CompanionView};
ghost use Rattle.companion_file.specs.Seen.{companion_view};
ghost use Rattle.sched_record.specs.Join.{RecordAnswer};
ghost use Rattle.sched_record.specs.Window.{window_view};
ghost use Rattle.window_joining.specs.Joining.{IsHeadOf, StandBehind, is_refused, joined_answer};
ghost use Rattle.stream_audit.specs.Joined.{AreJoinedSoFar, Comes, IsLast};

use cfs_model::{ChargeLine, Claim, Entry, Memory, NiceLine};
use companion_file::Companion;
use sched_record::{JoinFault, Window};
use std::alloc::Global;
use std::mem::swap;
use window_joining::Joining;

/// The events of a record that come as they are read, with what the companion says of their lines. They are handed on
/// window by window.
#[derive(Drop)]
pub struct JoinedEvents {
    /// The start, with neither claims nor changes of nice values nor charges.
    start: Companion,
    joining: Joining,
    /// Those that weren't handed on yet.
    window: Window,
}

impl JoinedEvents {
    /// Before the first event.
    pub fn new(alloc: Global, start: Companion) -> Result<JoinedEvents, Memory>
        ensures joined { IfOk result (λ joined. (c : CompanionView) → IsHeadOf (companion_view start) c
            → StandBehind no_line c → AreJoinedSoFar c [] [] joined) }
        ensures window { IfOk result (λ joined. window_view joined.window ≡ []) }
    {
        let joining = Joining::new(alloc, &start)?;
        Ok(JoinedEvents {
            joining,
            start,
            window: Window::new(alloc),
        })
    }

    /// Joins the next events with what is held of what the companion says of their lines.
    pub fn join(
        &mut self,
        events: &[Entry],
        claims: &[Claim],
        nices: &[NiceLine],
        charges: &[ChargeLine],
    ) -> Result<(), Memory>
        requires { (c : CompanionView) × (before : List Event) × (handed : List Claimed)
            × Comes c before handed events.now claims.now nices.now charges.now self.old }
        ensures start { self.new.start ≡ self.old.start }
        ensures refused { OnOk result (is_refused self.old.joining ≡ true → is_refused self.new.joining ≡ true) }
        ensures joined { (c : CompanionView) (before : List Event) (handed : List Claimed)
            → Comes c before handed events.now claims.now nices.now charges.now self.old
            → OnOk result (AreJoinedSoFar c (before ++ events.now) handed self.new) }
    {
        let window = &mut self.window;
        self.joining
            .add(&self.start, events, claims, nices, charges, window)
    }

    /// Hands on the events that weren't, in an empty window.
    pub fn hand_on(&mut self, window: &mut Window)
        requires { window_view window.old ≡ [] }
        ensures given { window_view window.new ≡ window_view self.old.window }
        ensures emptied { window_view self.new.window ≡ [] }
        ensures start { self.new.start ≡ self.old.start }
        ensures joining { self.new.joining ≡ self.old.joining }
    {
        swap(&mut self.window, window);
    }

    /// The start, with neither claims nor changes of nice values nor charges.
    pub fn start(&self) -> &Companion
        ensures { result.now ≡ self.now.start }
    {
        &self.start
    }

    /// Whether there is a reason by now why both texts don't go together.
    pub fn is_refused(&self) -> bool
        ensures { result ≡ is_refused self.now.joining }
    {
        self.joining.is_refused()
    }

    /// The rank of that reason, 0 where there is none.
    pub(crate) fn rank(&self) -> u32 {
        self.joining.rank()
    }

    /// Why both texts don't go together, once they were read whole, if they don't.
    pub fn finish(
        &self,
        claims: &[Claim],
        nices: &[NiceLine],
        charges: &[ChargeLine],
    ) -> Option<JoinFault>
        requires { (c : CompanionView) × (events : List Event) × (handed : List Claimed)
            × IsLast c events handed claims.now nices.now charges.now self.now }
        ensures answered { (c : CompanionView) (events : List Event) (handed : List Claimed)
            → IsLast c events handed claims.now nices.now charges.now self.now
            → RecordAnswer events c (joined_answer events c result) }
        ensures calm { result ≡ None → is_refused self.now.joining ≡ false }
    {
        self.joining.finish(&self.start, claims, nices, charges)
    }
}
