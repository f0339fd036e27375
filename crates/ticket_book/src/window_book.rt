use crate::Summary;
use crate::alive::Alive;
use crate::event_counts::EventCounts;
use crate::run_sums::{RunSums, name_born};
use crate::walk::{Walk, is_plain};
use cfs_model::{Entry, Memory, Task};
use queue_replay::Paged;
use replay_model::FirstFault;
use std::alloc::Global;

/// The book of a record that comes in windows: what is kept of those so far, beside the replays.
#[derive(Drop)]
pub struct WindowBook {
    alive: Alive,
    sums: RunSums,
}

impl WindowBook {
    ghost use Rattle.std.specs.Prelude.{◌≡◌, ℕ, ◌+◌, ◌^◌, ◌<◌, ◌++◌, All, AllPairs, List, [], None, Ok, IfOk, length};
    ghost use Rattle.std.specs.Prelude.{map};
    ghost use Rattle.cfs_model.specs.Claimed.{Claimed};
    ghost use Rattle.cfs_model.specs.Touch.{touched};
    ghost use Rattle.cfs_model.specs.declared.task.Task.{Task as TaskOf};
    ghost use Rattle.replay_model.specs.Roll.{named, roll_of};
    ghost use Rattle.replay_model.specs.Summary.{tasks_of_run};
    ghost use Rattle.tally_laws.specs.Totals.{summary_by, tallies_below, total_of};
    ghost use Rattle.ticket_book.specs.SummaryView.{summary_view};
    ghost use Rattle.ticket_book.specs.Tallying.{FitsTally};
    ghost use Rattle.ticket_book.specs.Told.{TellFrom, view_at};
    ghost use Rattle.ticket_book.specs.Walk.{TicketsRise};
    ghost use Rattle.ticket_book.specs.WindowBook.{IsBookOf, events_in};

    /// The book before the first window, from these tasks on.
    pub fn new(alloc: Global, tasks: &[Task]) -> Result<WindowBook, Memory>
        ensures { IfOk result (IsBookOf tasks.now []) }
    {
        Ok(WindowBook {
            alive: Alive::new(alloc, tasks)?,
            sums: RunSums::new(alloc, tasks)?,
        })
    }

    /// What the pages of all processors tell of a window's events: the first thing that they say against one, or
    /// nothing, and then the book is that of these events too.
    pub fn close<P: Paged>(
        &mut self,
        alloc: Global,
        pages: &[P],
        events: &[Entry],
    ) -> Result<Option<FirstFault>, Memory>
        requires few { length pages.now < 2 ^ 32 }
        requires inside { All (λ event. All (λ cpu. cpu < length pages.now) (touched event.act)) events.now }
        requires in_order { AllPairs (λ a b. a.line < b.line) events.now }
        requires rise { TicketsRise (map P.page pages.now) }
        requires fit { events_in self.old + length events.now < 2 ^ 64 }
        ensures told { (tasks : List TaskOf) (so_far window : List Claimed)
            → map (λ event. event.entry) window ≡ events.now → IsBookOf tasks so_far self.old
            → IfOk result (TellFrom (view_at (map P.page pages.now)) (length pages.now)
            (roll_of (named tasks) so_far) window) }
        ensures passed { (tasks : List TaskOf) (so_far window : List Claimed)
            → map (λ event. event.entry) window ≡ events.now → IsBookOf tasks so_far self.old
            → result ≡ Ok None → IsBookOf tasks (so_far ++ window) self.new }
    {
        let mut walk = Walk::new(alloc, pages)?;
        let mut counts = EventCounts::NONE;
        for event in events {
            // Most events of most windows are none that anybody has to be asked about.
            if walk.faultless && is_plain(event.act) {
                counts = counts.with_plain(event);
                continue;
            }
            counts = counts.with(event);
            if let Some(fault) = walk.fault(pages, &self.alive, event) {
                return Ok(Some(fault));
            }
            self.alive.pass(event)?;
            name_born(event.act, &mut self.sums.tallies)?;
        }
        self.sums.add(counts, events);
        Ok(None)
    }

    /// The summary of the events so far, by the tallies of all processors.
    pub fn summary<P: Paged>(self, pages: &[P]) -> Summary
        requires { (tasks : List TaskOf) × (so_far : List Claimed) × IsBookOf tasks so_far self
            × All (λ pid. FitsTally (total_of (tallies_below (view_at (map P.page pages.now)) (length pages.now)) pid))
            (tasks_of_run tasks so_far) }
        ensures { (tasks : List TaskOf) (so_far : List Claimed) → IsBookOf tasks so_far self
            → summary_view result ≡ summary_by (tallies_below (view_at (map P.page pages.now)) (length pages.now))
            tasks so_far }
    {
        self.sums.summary(pages)
    }
}
