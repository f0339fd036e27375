ghost use Rattle.std.specs.Prelude.{◌≡◌, ◌≢◌, ◌<◌, ◌^◌, ℕ, All, IfOk, IfSome, MatchOption, length, map};
ghost use Rattle.std.specs.Bool.{OnFalse, OnTrue};
ghost use Rattle.std.specs.Option.{option_or};
ghost use Rattle.cfs_model.specs.Claimed.{Claimed};
ghost use Rattle.cfs_model.specs.Touch.{touched};
ghost use Rattle.replay_laws.specs.Telling.{IsActCauseOf, IsCauseOf};
ghost use Rattle.replay_model.specs.Tickets.{ticket_at};
ghost use Rattle.ticket_book.specs.Alive.{alive_view};
ghost use Rattle.ticket_book.specs.Told.{Allow, AllowAct, cause_view, view_at};
ghost use Rattle.ticket_book.specs.Walk.{AllowShift, IsPlain, IsShiftCause, NoneFaulty, StandsAt, TicketsRise};
ghost use Rattle.ticket_book.specs.Walk.{born_twice_on, failed_on};

use crate::alive::Alive;
use crate::idling::{first_deadline, late};
use crate::ticket_indices::TicketIndices;
use cfs_model::{Act, Entry, Kind, Memory};
use queue_replay::Paged;
use replay_model::{FirstFault, StepFault, Ticket};
use std::alloc::Global;

/// A walk along a record's events, which asks the pages about each in turn.
#[derive(Drop)]
pub(crate) struct Walk {
    /// That no page has a fault.
    pub faultless: bool,
    /// The first deadline on the pages.
    deadline: Option<u64>,
    /// How far the walk has come in the tickets of the tasks that left, and of those that came.
    left: TicketIndices,
    came: TicketIndices,
}

impl Walk {
    /// The walk before the first event.
    pub(crate) fn new<P: Paged>(alloc: Global, pages: &[P]) -> Result<Walk, Memory>
        ensures { IfOk result (λ walk. (line : ℕ) → StandsAt (map P.page pages.now) line walk) }
    {
        Ok(Walk {
            faultless: have_no_fault(pages),
            deadline: first_deadline(pages),
            left: TicketIndices::new(alloc, pages.len())?,
            came: TicketIndices::new(alloc, pages.len())?,
        })
    }

    /// The first thing that the pages say against the next event.
    pub(crate) fn fault<P: Paged>(
        &mut self,
        pages: &[P],
        alive: &Alive,
        event: &Entry,
    ) -> Option<FirstFault>
        requires few { length pages.now < 2 ^ 32 }
        requires inside { All (λ cpu. cpu < length pages.now) (touched event.now.act) }
        requires rise { TicketsRise (map P.page pages.now) }
        requires stands { StandsAt (map P.page pages.now) event.now.line self.old }
        ensures said { (said : Claimed) → said.entry ≡ event.now → MatchOption result
            (Allow (view_at (map P.page pages.now)) (length pages.now) (alive_view alive.now) said)
            (λ fault. IsCauseOf (view_at (map P.page pages.now)) (length pages.now) (alive_view alive.now) said
            (cause_view fault)) }
        ensures line { IfSome result (λ fault. fault.line ≡ event.now.line) }
        ensures stands { StandsAt (map P.page pages.now) event.now.line self.new }
    {
        if let Some(cpu) = late(pages, self.deadline, event.time) {
            return Some(FirstFault {
                line: event.line,
                cpu: cpu as u32,
                pid: 0,
                kind: Kind::IdleTooLong,
            });
        }
        self.act_fault(pages, alive, event.line, event.act)
    }

    /// The first thing that they say against what it does.
    fn act_fault<P: Paged>(
        &mut self,
        pages: &[P],
        alive: &Alive,
        line: u32,
        act: Act,
    ) -> Option<FirstFault>
        requires inside { All (λ cpu. cpu < length pages.now) (touched act) }
        requires rise { TicketsRise (map P.page pages.now) }
        requires stands { StandsAt (map P.page pages.now) line self.old }
        ensures said { (said : Claimed) → said.entry.line ≡ line → said.entry.act ≡ act → MatchOption result
            (AllowAct (view_at (map P.page pages.now)) (alive_view alive.now) said)
            (λ fault. IsActCauseOf (view_at (map P.page pages.now)) (alive_view alive.now) said act
            (cause_view fault)) }
        ensures line { IfSome result (λ fault. fault.line ≡ line) }
        ensures stands { StandsAt (map P.page pages.now) line self.new }
    {
        match act {
            Act::Switch { cpu, .. } => failed_at(pages, cpu, line),
            Act::Wake { cpu, .. } => failed_at(pages, cpu, line),
            Act::Born { cpu, pid, .. } => birth_fault(pages, alive, cpu, pid, line),
            Act::Shift {
                orig,
                dest,
                pid,
                ..
            } => self.shift_fault(pages, orig, dest, pid, line),
        }
    }

    /// The first thing that they say against a migration.
    fn shift_fault<P: Paged>(
        &mut self,
        pages: &[P],
        orig: u32,
        dest: u32,
        pid: u32,
        line: u32,
    ) -> Option<FirstFault>
        requires orig { orig < length pages.now }
        requires dest { dest < length pages.now }
        requires rise { TicketsRise (map P.page pages.now) }
        requires stands { StandsAt (map P.page pages.now) line self.old }
        ensures said { (event : Claimed) → event.entry.line ≡ line → MatchOption result
            (AllowShift (view_at (map P.page pages.now)) orig dest event)
            (λ fault. IsShiftCause (view_at (map P.page pages.now)) orig dest pid event (cause_view fault)) }
        ensures line { IfSome result (λ fault. fault.line ≡ line) }
        ensures stands { StandsAt (map P.page pages.now) line self.new }
    {
        if let Some(fault) = failed_at(pages, orig, line) {
            return Some(fault);
        }
        if let Some(fault) = failed_at(pages, dest, line) {
            return Some(fault);
        }
        if self.tickets_differ(pages, orig, dest, line) {
            Some(FirstFault {
                line,
                cpu: dest,
                pid,
                kind: Kind::TicketUnequal,
            })
        } else {
            None
        }
    }

    /// Whether the tickets of a migration differ: the one on its origin's page and the one on its destination's.
    fn tickets_differ<P: Paged>(&mut self, pages: &[P], orig: u32, dest: u32, line: u32) -> bool
        requires orig { orig < length pages.now }
        requires dest { dest < length pages.now }
        requires rise { TicketsRise (map P.page pages.now) }
        requires stands { StandsAt (map P.page pages.now) line self.old }
        ensures differ { OnTrue result (ticket_at line (view_at (map P.page pages.now) orig).left ≢ ticket_at line
            (view_at (map P.page pages.now) dest).came) }
        ensures same { OnFalse result (ticket_at line (view_at (map P.page pages.now) orig).left ≡ ticket_at line
            (view_at (map P.page pages.now) dest).came) }
        ensures stands { StandsAt (map P.page pages.now) line self.new }
    {
        let left = pages[orig as usize].left();
        let came = pages[dest as usize].came();
        let leaves = self.left.ticket(orig as usize, left, line);
        let comes = self.came.ticket(dest as usize, came, line);
        differ(leaves, comes)
    }
}

/// Whether no page has a fault.
fn have_no_fault<P: Paged>(pages: &[P]) -> bool
    ensures { OnTrue result (NoneFaulty (map P.page pages.now) (length pages.now)) }
{
    for page in pages {
        if page.fault().is_some() {
            return false;
        }
    }
    true
}

/// Whether no task begins, ends or migrates with what an event does. Against such an event a page can say nothing but
/// its fault.
#[inline(always)]
pub(crate) fn is_plain(act: Act) -> bool
    ensures { OnTrue result (IsPlain act) }
{
    let stays = matches!(act, Act::Switch { .. } | Act::Wake { .. });
    stays & act.ended().is_none()
}

/// The first thing that they say against a birth.
fn birth_fault<P: Paged>(
    pages: &[P],
    alive: &Alive,
    cpu: u32,
    pid: u32,
    line: u32,
) -> Option<FirstFault>
    requires { cpu < length pages.now }
    ensures fault { result ≡ option_or (failed_on cpu line (view_at (map P.page pages.now) cpu).fault)
        (born_twice_on cpu pid line (alive_view alive.now pid)) }
    ensures line { IfSome result (λ fault. fault.line ≡ line) }
{
    if let Some(fault) = failed_at(pages, cpu, line) {
        return Some(fault);
    }
    if alive.has(pid) {
        Some(FirstFault {
            line,
            cpu,
            pid,
            kind: Kind::BornTwice,
        })
    } else {
        None
    }
}

/// The fault on a processor's page, where it is of a test that failed at this line.
fn failed_at<P: Paged>(pages: &[P], cpu: u32, line: u32) -> Option<FirstFault>
    requires { cpu < length pages.now }
    ensures fault { result ≡ failed_on cpu line (view_at (map P.page pages.now) cpu).fault }
    ensures line { IfSome result (λ fault. fault.line ≡ line) }
{
    failed_by(pages[cpu as usize].fault(), cpu, line)
}

/// A fault, where it is of a test that failed at this line.
fn failed_by(fault: Option<StepFault>, cpu: u32, line: u32) -> Option<FirstFault>
    ensures fault { result ≡ failed_on cpu line fault }
    ensures line { IfSome result (λ fault. fault.line ≡ line) }
{
    let fault = fault?;
    if fault.deadline.is_none() && fault.line == line {
        Some(FirstFault {
            line,
            cpu,
            pid: fault.pid,
            kind: fault.kind,
        })
    } else {
        None
    }
}

/// Whether two tickets of a migration differ.
fn differ(leaves: Option<Ticket>, comes: Option<Ticket>) -> bool
    ensures differ { OnTrue result (leaves ≢ comes) }
    ensures same { OnFalse result (leaves ≡ comes) }
{
    leaves != comes
}
