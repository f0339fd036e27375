ghost use Rattle.std.specs.Prelude.{◌≡◌, ℕ, ◌<◌};
ghost use Rattle.std.specs.List.{AllPairs};

use crate::between::{between, first_behind, last_on, through};
use crate::hints::Hints;
use crate::look::{Look, look_at};
use crate::policies::Policies;
use crate::refusing::{note_late, note_outside};
use crate::strays::{lesser, stray_in};
use cfs_model::{ChargeLine, Claim, Entry, IdleLine, Memory, NO_LINE, NiceLine, Policy};
use companion_file::Companion;
use sched_record::{JoinCause, JoinFault, Saying, Window};
use std::alloc::Global;

/// Joins the events of a trace with what a companion says on their lines, as both come. Between two events it holds who
/// is of the idle policy, and the least line of each reason to refuse.
#[derive(Drop)]
pub struct Joining {
    policies: Policies,
    hints: Hints,
    /// The last event's; `NO_LINE` before the first.
    line: u32,
    /// That of the first event that touches a processor which the companion doesn't have.
    outside: Option<u32>,
    /// That of the first event, where it comes before the start.
    late: Option<u32>,
    /// The least, up to the last event's, on which the companion says something that no event stands beside.
    stray: Option<u32>,
}

impl Joining {
    ghost use Rattle.std.specs.Prelude.{◌≤◌, ◌++◌, ◌∷◌, [], All, List, IfOk, IfSome, OnOk, IsSome, MatchOption, Some};
    ghost use Rattle.std.specs.Prelude.{true};
    ghost use Rattle.std.specs.Option.{option_to_list};
    ghost use Rattle.cfs_model.specs.Claimed.{Claimed, policy_told, with_claim};
    ghost use Rattle.cfs_model.specs.Limits.{no_line};
    ghost use Rattle.cfs_model.specs.declared.act.Entry.{Entry as Event};
    ghost use Rattle.companion_file.specs.Companion.{CompanionView};
    ghost use Rattle.companion_file.specs.Seen.{companion_view};
    ghost use Rattle.sched_record.specs.Join.{IsLeastOf, RecordAnswer};
    ghost use Rattle.sched_record.specs.Window.{said_of, waiting, window_view};
    ghost use Rattle.window_joining.specs.Joining.{HasJoined, IsHeadOf, IsHeld, StandBehind, edge_from, is_refused};
    ghost use Rattle.window_joining.specs.Joining.{joined_answer};
    ghost use Rattle.window_joining.specs.Joining.{joined_events, rank_of};
    ghost use Rattle.window_joining.specs.Look.{MayLook, news_of, told};
    ghost use Rattle.window_joining.specs.News.{AreRising, IsBehind};
    ghost use Rattle.window_joining.specs.Passing.{Passes};
    ghost use Rattle.window_joining.specs.Policies.{AreUsual, policies_view};

    /// Before the first event. The head of a companion is one without claims, changes of nice values and charges.
    pub fn new(alloc: Global, head: &Companion) -> Result<Joining, Memory>
        ensures { IfOk result (λ joining. (c : CompanionView) → IsHeadOf (companion_view head.now) c
            → StandBehind no_line c → HasJoined joining c []) }
    {
        Ok(Joining {
            policies: Policies::new(alloc, head.idles())?,
            hints: Hints::new(),
            line: NO_LINE,
            outside: None,
            late: None,
            stray: None,
        })
    }

    /// The last event's line, from 1, comments counted; `NO_LINE` before the first.
    pub fn line(&self) -> u32
        ensures { result ≡ self.now.line }
    {
        self.line
    }

    /// Whether there is a reason to refuse by now.
    pub fn is_refused(&self) -> bool
        ensures { result ≡ is_refused self.now }
    {
        self.outside.is_some() || self.late.is_some() || self.stray.is_some()
    }

    /// The rank of the reason to refuse by now, 0 where there is none: one of a higher rank is told in its place.
    pub fn rank(&self) -> u32
        ensures { result ≡ rank_of self.now }
    {
        if self.outside.is_some() {
            3
        } else if self.late.is_some() {
            2
        } else if self.stray.is_some() {
            1
        } else {
            0
        }
    }

    /// Joins the next events, and adds them to a window with what is said on their lines. Of what the companion says,
    /// what stands on lines up to that of the last event before them may be gone.
    pub fn add(
        &mut self,
        head: &Companion,
        events: &[Entry],
        claims: &[Claim],
        nices: &[NiceLine],
        charges: &[ChargeLine],
        window: &mut Window,
    ) -> Result<(), Memory>
        requires rise { AllPairs (λ a b. a.line < b.line) events.now }
        requires later { All (λ event. self.old.line < event.line) events.now }
        requires claims_rise { AllPairs (λ a b. a.line < b.line) claims.now }
        requires nices_rise { AllPairs (λ a b. a.line < b.line) nices.now }
        requires charges_rise { AllPairs (λ a b. a.line < b.line) charges.now }
        ensures joined { OnOk result ((c : CompanionView) (before : List Event) → HasJoined self.old c before
            → IsHeadOf (companion_view head.now) c → IsHeld self.old.line c claims.now nices.now charges.now
            → HasJoined self.new c (before ++ events.now)) }
        ensures window { OnOk result ((c : CompanionView) (before : List Event) → HasJoined self.old c before
            → IsHeadOf (companion_view head.now) c → IsHeld self.old.line c claims.now nices.now charges.now
            → (earlier : List Claimed) → earlier ++ window_view window.old ≡ joined_events c before
            → earlier ++ window_view window.new ≡ joined_events c (before ++ events.now)) }
        ensures rest { OnOk result (waiting window.new ≡ []) }
        ensures refused { OnOk result (is_refused self.old ≡ true → is_refused self.new ≡ true) }
        ensures line { OnOk result (self.new.line ≡ edge_from self.old.line events.now) }
    {
        window.bring(events)?;
        let mut passed = self.passed_claims(head, claims, nices, charges);
        for index in 0..events.len() {
            let event = &events[index];
            passed = self.add_next(passed, head, event, claims, nices, charges, window)?;
        }
        Ok(())
    }

    /// How many claims are passed, where one look at the next may tell what is new of the next event.
    fn passed_claims(
        &self,
        head: &Companion,
        claims: &[Claim],
        nices: &[NiceLine],
        charges: &[ChargeLine],
    ) -> Option<usize>
        requires claims_rise { AllPairs (λ a b. a.line < b.line) claims.now }
        ensures { IfSome result (MayLook (record {
          claims = claims.now;
          nices = nices.now;
          charges = charges.now;
          idles = head.now.idles;
        }) self.now) }
    {
        let more_is_said = !nices.is_empty() || !charges.is_empty() || !head.idles().is_empty();
        if more_is_said || !self.policies.are_usual() {
            return None;
        }
        Some(through(claims, self.hints.claims, self.line))
    }

    /// Joins one more event, the first that waits in a window. Says how many claims are passed then, where one look at
    /// the next may tell what is new of the event behind it, as it may have of this one.
    #[inline(always)]
    fn add_next(
        &mut self,
        passed: Option<usize>,
        head: &Companion,
        event: &Entry,
        claims: &[Claim],
        nices: &[NiceLine],
        charges: &[ChargeLine],
        window: &mut Window,
    ) -> Result<Option<usize>, Memory>
        requires first { (rest : List Event) × (waiting window.old ≡ event.now ∷ rest) }
        requires looks { IfSome passed (MayLook (record {
          claims = claims.now;
          nices = nices.now;
          charges = charges.now;
          idles = head.now.idles;
        }) self.old) }
        requires later { self.old.line < event.now.line }
        requires claims_rise { AllPairs (λ a b. a.line < b.line) claims.now }
        requires nices_rise { AllPairs (λ a b. a.line < b.line) nices.now }
        requires charges_rise { AllPairs (λ a b. a.line < b.line) charges.now }
        ensures joined { OnOk result ((c : CompanionView) (events : List Event) → HasJoined self.old c events
            → IsHeadOf (companion_view head.now) c → IsHeld self.old.line c claims.now nices.now charges.now
            → HasJoined self.new c (events ++ event.now ∷ [])) }
        ensures window { OnOk result ((c : CompanionView) (events : List Event) → HasJoined self.old c events
            → IsHeadOf (companion_view head.now) c → IsHeld self.old.line c claims.now nices.now charges.now
            → (before : List Claimed) → before ++ window_view window.old ≡ joined_events c events
            → before ++ window_view window.new ≡ joined_events c (events ++ event.now ∷ [])) }
        ensures rest { (rest : List Event) → waiting window.old ≡ event.now ∷ rest
            → OnOk result (waiting window.new ≡ rest) }
        ensures looks { IfOk result (λ passed. IfSome passed (MayLook (record {
          claims = claims.now;
          nices = nices.now;
          charges = charges.now;
          idles = head.now.idles;
        }) self.new)) }
        ensures refused { OnOk result (is_refused self.old ≡ true → is_refused self.new ≡ true) }
        ensures line { OnOk result (self.new.line ≡ event.now.line) }
    {
        let Some(next) = passed else {
            self.add_by_lists(head, event, claims, nices, charges, window)?;
            return Ok(None);
        };
        match look_at(claims, next, self.line, event.line) {
            Look::Clear {
                claim,
                is_said,
                passed,
            } => {
                self.add_usual(head, event, claim, is_said, passed, window)?;
                Ok(Some(passed))
            }
            Look::Unclear => {
                self.add_by_lists(head, event, claims, nices, charges, window)?;
                Ok(None)
            }
        }
    }

    /// Adds an event of which no more is new than the claim on its line, if there is one, where nobody is of the idle
    /// policy. There are so many claims up to it.
    #[inline(always)]
    fn add_usual(
        &mut self,
        head: &Companion,
        event: &Entry,
        claim: &Claim,
        is_said: bool,
        claims: usize,
        window: &mut Window,
    ) -> Result<(), Memory>
        requires first { (rest : List Event) × (waiting window.old ≡ event.now ∷ rest) }
        requires usual { AreUsual self.old.policies }
        requires on_line { IfSome (told is_said claim.now) (λ claim. claim.line ≡ event.now.line) }
        ensures said { OnOk result (window_view window.new ≡ window_view window.old
            ++ with_claim (option_to_list (told is_said claim.now)) [] []
            (λ other. policy_told [] (λ line. policies_view self.old.policies) other.line other.act) event.now ∷ []) }
        ensures passed { OnOk result (Passes head.now.cpus head.now.start (news_of (told is_said claim.now)) event.now
            self.old self.new) }
        ensures rest { (rest : List Event) → waiting window.old ≡ event.now ∷ rest
            → OnOk result (waiting window.new ≡ rest) }
        ensures policies { self.new.policies ≡ self.old.policies }
    {
        window.say_claim(event, claim, is_said)?;
        note_outside(&mut self.outside, event, head.cpus());
        note_late(&mut self.late, self.line, event, head.start());
        self.line = event.line;
        self.hints.claims = claims;
        Ok(())
    }

    /// Adds an event by all that is new on the lines up to its own.
    #[inline(never)]
    fn add_by_lists(
        &mut self,
        head: &Companion,
        event: &Entry,
        claims: &[Claim],
        nices: &[NiceLine],
        charges: &[ChargeLine],
        window: &mut Window,
    ) -> Result<(), Memory>
        requires first { (rest : List Event) × (waiting window.old ≡ event.now ∷ rest) }
        requires later { self.old.line < event.now.line }
        requires claims_rise { AllPairs (λ a b. a.line < b.line) claims.now }
        requires nices_rise { AllPairs (λ a b. a.line < b.line) nices.now }
        requires charges_rise { AllPairs (λ a b. a.line < b.line) charges.now }
        ensures joined { OnOk result ((c : CompanionView) (events : List Event) → HasJoined self.old c events
            → IsHeadOf (companion_view head.now) c → IsHeld self.old.line c claims.now nices.now charges.now
            → HasJoined self.new c (events ++ event.now ∷ [])) }
        ensures window { OnOk result ((c : CompanionView) (events : List Event) → HasJoined self.old c events
            → IsHeadOf (companion_view head.now) c → IsHeld self.old.line c claims.now nices.now charges.now
            → (before : List Claimed) → before ++ window_view window.old ≡ joined_events c events
            → before ++ window_view window.new ≡ joined_events c (events ++ event.now ∷ [])) }
        ensures rest { (rest : List Event) → waiting window.old ≡ event.now ∷ rest
            → OnOk result (waiting window.new ≡ rest) }
        ensures refused { OnOk result (is_refused self.old ≡ true → is_refused self.new ≡ true) }
        ensures line { OnOk result (self.new.line ≡ event.now.line) }
    {
        let line = event.line;
        let (claims, claim) = between(claims, self.hints.claims, self.line, line);
        let (nices, nice) = between(nices, self.hints.nices, self.line, line);
        let (charges, charge) = between(charges, self.hints.charges, self.line, line);
        let (idles, idle) = between(head.idles(), self.hints.idles, self.line, line);
        let saying = self.saying(claims, nices, charges, idles, event);
        window.say(event, saying)?;
        self.pass(head, claims, nices, charges, idles, event)?;
        self.hints = Hints {
            claims: claim,
            nices: nice,
            charges: charge,
            idles: idle,
        };
        Ok(())
    }

    /// What is said on an event's line, and the policy of the task that it bears or moves.
    fn saying(
        &self,
        claims: &[Claim],
        nices: &[NiceLine],
        charges: &[ChargeLine],
        idles: &[IdleLine],
        event: &Entry,
    ) -> Saying
        requires rise { AreRising (record {
          claims = claims.now;
          nices = nices.now;
          charges = charges.now;
          idles = idles.now;
        }) }
        requires claims { All (λ claim. claim.line ≤ event.now.line) claims.now }
        requires nices { All (λ change. change.line ≤ event.now.line) nices.now }
        requires charges { All (λ charge. charge.line ≤ event.now.line) charges.now }
        ensures { said_of event.now result ≡ with_claim claims.now nices.now charges.now
            (λ other. policy_told idles.now (λ line. policies_view self.now.policies) other.line other.act) event.now }
    {
        let line = event.line;
        Saying {
            claim: last_on(claims, line),
            nice: last_on(nices, line),
            charge: last_on(charges, line),
            policy: self.policies.told(idles, event),
        }
    }

    /// Goes on over an event, by what is new.
    fn pass(
        &mut self,
        head: &Companion,
        claims: &[Claim],
        nices: &[NiceLine],
        charges: &[ChargeLine],
        idles: &[IdleLine],
        event: &Entry,
    ) -> Result<(), Memory>
        requires { AreRising (record {
          claims = claims.now;
          nices = nices.now;
          charges = charges.now;
          idles = idles.now;
        }) }
        ensures { OnOk result (Passes head.now.cpus head.now.start (record {
          claims = claims.now;
          nices = nices.now;
          charges = charges.now;
          idles = idles.now;
        }) event.now self.old self.new) }
    {
        self.policies.pass(idles, event)?;
        if self.stray.is_none() {
            self.stray = stray_in(claims, nices, charges, idles, event);
        }
        note_outside(&mut self.outside, event, head.cpus());
        note_late(&mut self.late, self.line, event, head.start());
        self.line = event.line;
        Ok(())
    }

    /// The first reason why all events and the whole companion don't go together, if there is one.
    pub fn finish(
        &self,
        head: &Companion,
        claims: &[Claim],
        nices: &[NiceLine],
        charges: &[ChargeLine],
    ) -> Option<JoinFault>
        requires claims_rise { AllPairs (λ a b. a.line < b.line) claims.now }
        requires nices_rise { AllPairs (λ a b. a.line < b.line) nices.now }
        requires charges_rise { AllPairs (λ a b. a.line < b.line) charges.now }
        ensures answered { (c : CompanionView) (events : List Event) → HasJoined self.now c events
            → IsHeadOf (companion_view head.now) c → IsHeld self.now.line c claims.now nices.now charges.now
            → RecordAnswer events c (joined_answer events c result) }
        ensures refused { is_refused self.now ≡ true → IsSome result }
    {
        if let Some(line) = self.outside {
            return Some(fault(line, JoinCause::CpuOutside));
        }
        if let Some(line) = self.late {
            return Some(fault(line, JoinCause::StartLate));
        }
        let line = self.least_stray(head, claims, nices, charges)?;
        Some(fault(line, JoinCause::ClaimNoEvent))
    }

    /// The least line on which the companion says something that no event stands beside.
    fn least_stray(
        &self,
        head: &Companion,
        claims: &[Claim],
        nices: &[NiceLine],
        charges: &[ChargeLine],
    ) -> Option<u32>
        requires claims_rise { AllPairs (λ a b. a.line < b.line) claims.now }
        requires nices_rise { AllPairs (λ a b. a.line < b.line) nices.now }
        requires charges_rise { AllPairs (λ a b. a.line < b.line) charges.now }
        ensures { MatchOption self.now.stray (IsLeastOf (IsBehind self.now.line (record {
          claims = claims.now;
          nices = nices.now;
          charges = charges.now;
          idles = head.now.idles;
        })) result) (λ line. result ≡ Some line) }
    {
        match self.stray {
            Some(line) => Some(line),
            None => self.first_said_behind(head, claims, nices, charges),
        }
    }

    /// The least line below the last event's on which the companion says something.
    fn first_said_behind(
        &self,
        head: &Companion,
        claims: &[Claim],
        nices: &[NiceLine],
        charges: &[ChargeLine],
    ) -> Option<u32>
        requires claims_rise { AllPairs (λ a b. a.line < b.line) claims.now }
        requires nices_rise { AllPairs (λ a b. a.line < b.line) nices.now }
        requires charges_rise { AllPairs (λ a b. a.line < b.line) charges.now }
        ensures { IsLeastOf (IsBehind self.now.line (record {
          claims = claims.now;
          nices = nices.now;
          charges = charges.now;
          idles = head.now.idles;
        })) result }
    {
        let claim = first_behind(claims, self.hints.claims, self.line);
        let change = first_behind(nices, self.hints.nices, self.line);
        let idle = first_behind(head.idles(), self.hints.idles, self.line);
        let charge = first_behind(charges, self.hints.charges, self.line);
        lesser(claim, lesser(change, lesser(idle, charge)))
    }
}

fn fault(line: u32, cause: JoinCause) -> JoinFault
    ensures { result ≡ record { line = line; cause = cause } }
{
    JoinFault {
        line: u64::from(line),
        cause,
    }
}
