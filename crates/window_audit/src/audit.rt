ghost use Rattle.sched_record.specs.Window.{window_view};
ghost use Rattle.window_audit.specs.Last.{IsLastOf};

use crate::member::Member;
use crate::members::{forget_all, go_through_all, members_of, want_memory};
use cfs_model::{Knobs, Memory};
use companion_file::Companion;
use queue_replay::WindowedReplay;
use replay_model::FirstFault;
use sched_record::Window;
use std::alloc::Global;
use std::thread::Threads;
use tally_laws::tallying;
use ticket_book::{Summary, WindowBook};
use window_laws::{beginnings, window_ends, windows};

/// The audit of a record that comes in windows.
#[derive(Drop)]
pub struct WindowAudit {
    members: Vec<Member>,
    book: WindowBook,
}

impl WindowAudit {
    ghost use Rattle.std.specs.Prelude.{◌≡◌, ℕ, ◌≢◌, [], List, IfOk};
    ghost use Rattle.cfs_model.specs.Claimed.{Claimed};
    ghost use Rattle.companion_file.specs.Seen.{companion_view};
    ghost use Rattle.window_audit.specs.Audit.{Beginning, ComesNext, IsAuditOf, IsSummaryOf, IsToldOf, IsWhole};
    ghost use Rattle.ticket_book.specs.SummaryView.{summary_view};

    /// The audit before the first window, from a start state on.
    pub fn new(alloc: Global, companion: &Companion, knobs: Knobs) -> Result<WindowAudit, Memory>
        ensures { let of = companion_view companion.now in
            IfOk result (IsAuditOf (record {
              knobs = knobs;
              start = of.start;
              floors = of.floors;
              tasks = of.tasks;
              cpus = of.cpus;
            }) []) }
    {
        beginnings();
        Ok(WindowAudit {
            members: members_of(alloc, companion, knobs)?,
            book: WindowBook::new(alloc, companion.tasks())?,
        })
    }

    /// Replays a window's events, by several threads where they are many, and tells the first fault of the events with
    /// it, if there is one. Else the audit has seen them, and keeps where the replays stand. A window has an event.
    pub fn go_through<R: Threads + Sync>(
        &mut self,
        rt: &R,
        alloc: Global,
        window: &Window,
    ) -> Result<Option<FirstFault>, Memory>
        requires some { window_view window.now ≢ [] }
        requires next { (of : Beginning) × (so_far : List Claimed)
            × ComesNext of so_far (window_view window.now) self.old }
        ensures { (of : Beginning) (so_far : List Claimed) → ComesNext of so_far (window_view window.now) self.old
            → IfOk result (λ told. IsToldOf of so_far (window_view window.now) told self.new) }
    {
        let (time, line) = last_of(window);
        go_through_all(rt, &mut self.members, window, time, line);
        if want_memory(&self.members) {
            return Err(Memory);
        }
        windows();
        let told = self.book.close(alloc, &self.members, window.events())?;
        if told.is_none() {
            forget_all(&mut self.members);
        }
        Ok(told)
    }

    /// A processor's replay, where there is one.
    pub fn replay(&self, cpu: u32) -> Option<&WindowedReplay> {
        let member = self.members.get(cpu as usize)?;
        Some(&member.replay)
    }

    /// The summary of the run that all events are, where nothing was told of any window.
    pub fn finish(self) -> Summary
        requires { (of : Beginning) × (events : List Claimed) × IsWhole of events self }
        ensures { (of : Beginning) (events : List Claimed) → IsWhole of events self
            → IsSummaryOf of events (summary_view result) }
    {
        window_ends();
        tallying();
        let WindowAudit { members, book } = self;
        book.summary(&members)
    }
}

/// The time of a window's last event, in nanoseconds, and its line; of a window without events 0.
fn last_of(window: &Window) -> (u64, u32)
    ensures { IsLastOf (window_view window.now) result.0 result.1 }
{
    match window.events().last() {
        Some(event) => (event.time, event.line),
        None => (0, 0),
    }
}
