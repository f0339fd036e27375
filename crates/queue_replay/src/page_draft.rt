ghost use Rattle.std.specs.Prelude.{◌≡◌, ℕ, ℤ, ◌+◌, ◌-◌, ◌^◌, ◌<◌, ◌≤◌, [], ◌∷◌, ◌++◌, All, IfSome, OnOk, vec_len};
ghost use Rattle.std.specs.Prelude.{vec_capacity};
ghost use Rattle.replay_model.specs.Noted.{births_of, deaths_of, tallied};
ghost use Rattle.replay_model.specs.declared.step.Deed.{Deed as DeedOf};
ghost use Rattle.replay_model.specs.declared.step.Deed.TheVariants.{Switch};
ghost use Rattle.queue_replay.specs.Counting.{HasDraftRoom, page_draft_view, if_left, if_came};
ghost use Rattle.queue_replay.specs.Found.{found_view};
ghost use Rattle.queue_replay.specs.Indices.{AreApart, pids_of};
ghost use Rattle.queue_replay.specs.Rows.{pids_after};
ghost use Rattle.queue_replay.specs.Stretches.{IsWithin, stretched};

use crate::found::Found;
use crate::lists::{LifeEvents, Tickets};
use crate::row_tallies::RowTallies;
use crate::stretch::Stretch;
use cfs_model::{IDLE_PID, Memory, Way};
use replay_model::{Deed, LifeEvent, Step, StepFault, Ticket};
use runqueue::Runqueue;

/// What the page of a replay will show, so far.
#[derive(Drop)]
pub(crate) struct PageDraft {
    /// The line of the last step that passed, 0 if none did.
    pub line: u32,
    pub fault: Option<StepFault>,
    /// The tickets of the tasks that left, and of those that came.
    pub left: Vec<Ticket>,
    pub came: Vec<Ticket>,
    pub births: Vec<LifeEvent>,
    pub deaths: Vec<LifeEvent>,
    /// One for each pid that stood here, in the order in which they first did.
    pub tallies: RowTallies,
}

impl PageDraft {
    /// What the page shows in the end.
    pub fn found(self) -> Found
        ensures { found_view result ≡ page_draft_view self }
    {
        let PageDraft {
            line,
            fault,
            left,
            came,
            births,
            deaths,
            tallies,
        } = self;
        Found {
            line,
            fault,
            left: Tickets::from_vec(left),
            came: Tickets::from_vec(came),
            births: LifeEvents::from_vec(births),
            deaths: LifeEvents::from_vec(deaths),
            tallies: tallies.into_list(),
        }
    }

    /// Empties the lists of tickets, births and deaths; what they took they keep.
    pub fn forget(&mut self)
        ensures { page_draft_view self.new ≡ record (page_draft_view self.old) {
          left = [];
          came = [];
          births = [];
          deaths = [];
        } }
    {
        self.left.clear();
        self.came.clear();
        self.births.clear();
        self.deaths.clear();
    }

    /// Makes the growths that a deed can need.
    #[inline(always)]
    pub fn make_room(&mut self, deed: Deed) -> Result<(), Memory>
        ensures room { OnOk result (HasDraftRoom deed self.new) }
        ensures same { page_draft_view self.new ≡ page_draft_view self.old }
    {
        match deed {
            Deed::Switch { .. } => self.deaths.reserve(1)?,
            Deed::Wake { .. } => {}
            Deed::Born { .. } => {
                self.births.reserve(1)?;
                self.tallies.make_room()?;
            }
            Deed::Leave { .. } => self.left.reserve(1)?,
            Deed::Arrive { .. } => {
                self.came.reserve(1)?;
                self.tallies.make_room()?;
            }
        }
        Ok(())
    }

    /// Adds a stretch of the runner, if there is one, to its tally, which is expected at an index. Each tally is that
    /// of at most so many steps.
    #[inline(always)]
    pub fn note_stretch(&mut self, stretch: Option<Stretch>, expected: usize, steps: usize)
        requires few { steps < 2 ^ 64 - 1 }
        requires within { All (IsWithin steps) self.old.tallies.list.items }
        requires apart { AreApart self.old.tallies.list.items }
        ensures tallies { self.new.tallies.list.items ≡ stretched stretch self.old.tallies.list.items }
        ensures room { (deed : DeedOf) → HasDraftRoom deed self.old → HasDraftRoom deed self.new }
        ensures same { (self.new.line ≡ self.old.line) × (self.new.fault ≡ self.old.fault)
            × (self.new.left ≡ self.old.left) × (self.new.came ≡ self.old.came) × (self.new.births ≡ self.old.births)
            × (self.new.deaths ≡ self.old.deaths) }
    {
        if let Some(stretch) = stretch {
            self.tallies.add_stretch(stretch, expected, steps);
        }
    }

    /// Notes a step that passed, of this deed, with its ticket if it has one. Takes no memory. The tallies stand by the
    /// rows of the runqueue, but for that of a task that comes. Each is that of at most so many steps.
    #[inline(always)]
    pub fn note(
        &mut self,
        step: &Step,
        deed: Deed,
        ticket: Option<Ticket>,
        queue: &Runqueue,
        steps: usize,
    )
        requires deed { deed ≡ step.now.deed }
        requires room { HasDraftRoom step.now.deed self.old }
        requires few { steps < 2 ^ 64 - 1 }
        requires within { All (λ tally. tally.picks ≤ steps) self.old.tallies.list.items }
        requires by_rows { queue.now.tasks.pids ≡ pids_after step.now.deed (pids_of self.old.tallies.list.items) }
        ensures line { self.new.line ≡ step.now.line }
        ensures fault { self.new.fault ≡ self.old.fault }
        ensures left { self.new.left.items ≡ self.old.left.items ++ if_left step.now.deed ticket }
        ensures came { self.new.came.items ≡ self.old.came.items ++ if_came step.now.deed ticket }
        ensures births { self.new.births.items ≡ self.old.births.items ++ births_of step.now.line step.now.deed }
        ensures deaths { self.new.deaths.items ≡ self.old.deaths.items ++ deaths_of step.now.line step.now.deed }
        ensures tallies { self.new.tallies.list.items ≡ tallied step.now.deed self.old.tallies.list.items }
    {
        self.line = step.line;
        match deed {
            Deed::Switch {
                prev,
                way,
                next,
                ..
            } => {
                self.note_end(step.line, prev, way);
                let _pids = queue.pids();
                if next != IDLE_PID {
                    self.tallies.add_pick(next, queue.runner_row(), steps);
                }
            }
            Deed::Wake { .. } => {}
            Deed::Born { pid, .. } => {
                self.births.push_reserved(LifeEvent {
                    line: step.line,
                    pid,
                });
                self.tallies.add(pid, queue.pids().len());
            }
            Deed::Leave { .. } => {
                if let Some(ticket) = ticket {
                    self.left.push_reserved(ticket);
                }
            }
            Deed::Arrive { pid, .. } => {
                if let Some(ticket) = ticket {
                    self.came.push_reserved(ticket);
                }
                self.tallies.add(pid, queue.pids().len());
            }
        }
    }

    /// Notes the death of a switch's previous task, if it ends.
    #[inline(always)]
    fn note_end(&mut self, line: u32, prev: u32, way: Way)
        requires { vec_len self.old.deaths < vec_capacity self.old.deaths }
        ensures deaths { (prev_nice : ℤ) (next : ℕ) (next_nice : ℤ) → self.new.deaths.items ≡ self.old.deaths.items
            ++ deaths_of line (Switch prev prev_nice way next next_nice) }
        ensures same { (self.new.line ≡ self.old.line) × (self.new.fault ≡ self.old.fault)
            × (self.new.left ≡ self.old.left) × (self.new.came ≡ self.old.came) × (self.new.births ≡ self.old.births)
            × (self.new.tallies ≡ self.old.tallies) }
    {
        match way {
            Way::Stays | Way::Sleeps => {}
            Way::Ends => {
                if prev != IDLE_PID {
                    self.deaths.push_reserved(LifeEvent { line, pid: prev });
                }
            }
        }
    }
}
