//! What a run adds up to: its events counted as they come, and the tallies of all its pages added behind the last.
ghost use Rattle.std.specs.Prelude.{◌≡◌, ◌+◌, All, IfOk, OnOk, length, map};
ghost use Rattle.replay_model.specs.Summary.{born_by};
ghost use Rattle.tally_laws.specs.Totals.{tallies_below};
ghost use Rattle.ticket_book.specs.EventCounts.{AreCountsBelow, counts_of};
ghost use Rattle.ticket_book.specs.Naming.{births_in, with_named};
ghost use Rattle.ticket_book.specs.Tallying.{FitsTally, with_tallies};
ghost use Rattle.ticket_book.specs.Told.{view_at};

use crate::Summary;
use crate::event_counts::EventCounts;
use crate::task_sums::add_all;
use cfs_model::{Act, Entry, Memory, Task};
use queue_replay::{Paged, TallyBook};
use std::alloc::Global;

/// The events so far, counted, and the tasks so far, named, in the order in which they were named or born.
#[derive(Drop)]
pub(crate) struct RunSums {
    pub events: u64,
    pub counts: EventCounts,
    pub tallies: TallyBook,
    pub ghost within: { AreCountsBelow (events + 1) counts },
}

impl RunSums {
    ghost use Rattle.std.specs.Prelude.{◌^◌, ◌<◌, ◌++◌, List, []};
    ghost use Rattle.cfs_model.specs.declared.act.Entry.{Entry as EntryOf};
    ghost use Rattle.cfs_model.specs.declared.task.Task.{Task as TaskOf};
    ghost use Rattle.ticket_book.specs.RunSums.{AreSumsOf};
    ghost use Rattle.ticket_book.specs.SummaryView.{summary_view};

    /// Of no events, from these tasks on.
    pub(crate) fn new(alloc: Global, tasks: &[Task]) -> Result<RunSums, Memory>
        ensures { IfOk result (AreSumsOf tasks.now []) }
    {
        let mut tallies = TallyBook::new(alloc);
        name_tasks(tasks, &mut tallies)?;
        Ok(RunSums {
            events: 0,
            counts: EventCounts::NONE,
            tallies,
        })
    }

    /// With these events behind them: these are their counts, and whom they bear is named already.
    pub(crate) fn add(&mut self, counts: EventCounts, events: &[Entry])
        requires fit { self.old.events + length events.now < 2 ^ 64 }
        requires counted { counts ≡ counts_of events.now }
        ensures events { self.new.events ≡ self.old.events + length events.now }
        ensures counts { (before : List EntryOf) → self.old.counts ≡ counts_of before
            → self.new.counts ≡ counts_of (before ++ events.now) }
        ensures named { self.new.tallies ≡ self.old.tallies }
    {
        let all = self.counts.plus(counts);
        self.events += events.len() as u64;
        self.counts = all;
    }

    /// The summary, by the tallies of all processors.
    pub(crate) fn summary<P: Paged>(self, pages: &[P]) -> Summary
        requires { All (λ sum. FitsTally (with_tallies (tallies_below (view_at (map P.page pages.now))
            (length pages.now)) sum)) self.tallies.table.rows }
        ensures { summary_view result ≡ record {
          events = self.events;
          switches = self.counts.switches;
          migrations = self.counts.migrations;
          births = self.counts.births;
          deaths = self.counts.deaths;
          tallies = map (with_tallies (tallies_below (view_at (map P.page pages.now)) (length pages.now)))
              self.tallies.table.rows;
        } }
    {
        let RunSums {
            events,
            counts,
            mut tallies,
            ..
        } = self;
        add_pages(pages, &mut tallies);
        Summary {
            events,
            switches: counts.switches,
            migrations: counts.migrations,
            births: counts.births,
            deaths: counts.deaths,
            tallies: tallies.into_list(),
        }
    }
}

/// Names the tasks of the start state.
fn name_tasks(tasks: &[Task], sums: &mut TallyBook) -> Result<(), Memory>
    ensures { OnOk result (sums.new.table.rows ≡ with_named (map (λ task. task.pid) tasks.now) sums.old.table.rows) }
{
    for task in tasks {
        sums.name(task.pid)?;
    }
    Ok(())
}

/// Names the task that an event gives birth to, if it does.
pub(crate) fn name_born(act: Act, sums: &mut TallyBook) -> Result<(), Memory>
    ensures { OnOk result (sums.new.table.rows ≡ with_named (born_by act) sums.old.table.rows) }
{
    match act.begun() {
        Some(pid) => sums.name(pid),
        None => Ok(()),
    }
}

/// Adds the tallies on the pages, page after page.
fn add_pages<P: Paged>(pages: &[P], sums: &mut TallyBook)
    requires { All (λ sum. FitsTally (with_tallies (tallies_below (view_at (map P.page pages.now)) (length pages.now))
        sum))
        sums.old.table.rows }
    ensures { sums.new.table.rows ≡ map (with_tallies (tallies_below (view_at (map P.page pages.now)) (length
        pages.now)))
        sums.old.table.rows }
{
    for page in pages {
        add_all(sums, page.tallies());
    }
}
