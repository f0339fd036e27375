ghost use Rattle.std.specs.Prelude.{◌≡◌, ◌≢◌, ℕ, ◌-◌, ◌^◌, ◌<◌, ◌≤◌, Some, None, IfOk, OnOk, map, get_or, length, All};
ghost use Rattle.std.specs.Prelude.{true};
ghost use Rattle.std.specs.Prelude.{vec_len, vec_capacity};
ghost use Rattle.replay_model.specs.Noted.{new_tally, with_tally};
ghost use Rattle.replay_model.specs.declared.page.Tally.{Tally as TallyOf};
ghost use Rattle.queue_replay.specs.Indices.{AreApart, pids_of};
ghost use Rattle.queue_replay.specs.Stretches.{ran_tally, picked_tally, IsWithin};
ghost use Rattle.runqueue.specs.TaskRows.{with_pid};

use crate::counting::{add_run, new_tally, pick};
use crate::lists::Tallies;
use crate::stretch::Stretch;
use cfs_model::Memory;
use replay_model::Tally;
use std::alloc::Global;

/// What each task did, in a replay under way: its tally stands where its row is at the runqueue.
#[derive(Drop)]
pub(crate) struct RowTallies {
    /// One for each row.
    pub list: Vec<Tally>,
}

impl RowTallies {
    /// A tally for each pid, of one that has done nothing yet.
    pub fn of_pids(alloc: Global, pids: &[u32]) -> Result<RowTallies, Memory>
        ensures { IfOk result (λ tallies. tallies.list.items ≡ map new_tally pids.now) }
    {
        let mut list = Vec::new(alloc);
        for pid in pids {
            list.push(new_tally(*pid))?;
        }
        Ok(RowTallies { list })
    }

    /// The same as a list.
    pub fn into_list(self) -> Tallies
        ensures { result ≡ self.list.items }
    {
        let RowTallies { list } = self;
        Tallies::from_vec(list)
    }

    /// The tallies, in the order of the rows.
    pub fn tallies(&self) -> &[Tally]
        ensures { result.now ≡ self.now.list.items }
    {
        &self.list
    }

    /// Makes the growth that one more tally needs.
    pub fn make_room(&mut self) -> Result<(), Memory>
        ensures room { OnOk result (vec_len self.new.list < vec_capacity self.new.list) }
        ensures same { self.new.list.items ≡ self.old.list.items }
    {
        self.list.reserve(1)?;
        Ok(())
    }

    /// Lets a pid that has a row, which is one of so many by now, have a tally. Takes no memory.
    #[inline(always)]
    pub fn add(&mut self, pid: u32, rows: usize)
        requires room { vec_len self.old.list < vec_capacity self.old.list }
        requires rows { rows ≡ length (with_pid pid (pids_of self.old.list.items)) }
        ensures { self.new.list.items ≡ with_tally pid self.old.list.items }
    {
        if self.list.len() < rows {
            self.list.push_reserved(new_tally(pid));
        }
    }

    /// Adds a stretch of running to the tally of its task, which is expected at an index. Each tally is that of at most
    /// so many steps.
    #[inline(always)]
    pub fn add_stretch(&mut self, stretch: Stretch, expected: usize, steps: usize)
        requires few { steps < 2 ^ 64 - 1 }
        requires within { All (IsWithin steps) self.old.list.items }
        requires apart { AreApart self.old.list.items }
        ensures tallies { self.new.list.items
            ≡ map (ran_tally stretch.pid stretch.time stretch.cost) self.old.list.items }
        ensures room { (vec_len self.new.list ≡ vec_len self.old.list)
            × (vec_capacity self.new.list ≡ vec_capacity self.old.list) }
    {
        if self.stands_at(expected, stretch.pid) {
            add_run(&mut self.list[expected], stretch);
        } else {
            self.add_stretch_by_search(stretch, steps);
        }
    }

    /// The same, where the tally is searched for. What is seldom called keeps no register of the others from them.
    #[cold]
    #[inline(never)]
    fn add_stretch_by_search(&mut self, stretch: Stretch, steps: usize)
        requires few { steps < 2 ^ 64 - 1 }
        requires within { All (IsWithin steps) self.old.list.items }
        requires apart { AreApart self.old.list.items }
        ensures tallies { self.new.list.items
            ≡ map (ran_tally stretch.pid stretch.time stretch.cost) self.old.list.items }
        ensures room { (vec_len self.new.list ≡ vec_len self.old.list)
            × (vec_capacity self.new.list ≡ vec_capacity self.old.list) }
    {
        if let Some(index) = self.search(stretch.pid) {
            add_run(&mut self.list[index], stretch);
        }
    }

    /// Adds a switch to the tally of the pid, which is expected at an index. Each tally is that of at most so many
    /// steps.
    #[inline(always)]
    pub fn add_pick(&mut self, pid: u32, expected: usize, steps: usize)
        requires few { steps < 2 ^ 64 - 1 }
        requires within { All (λ tally. tally.picks ≤ steps) self.old.list.items }
        requires apart { AreApart self.old.list.items }
        ensures { self.new.list.items ≡ map (picked_tally pid) self.old.list.items }
    {
        if self.stands_at(expected, pid) {
            pick(&mut self.list[expected]);
        } else {
            self.add_pick_by_search(pid, steps);
        }
    }

    /// The same, where the tally is searched for.
    #[cold]
    #[inline(never)]
    fn add_pick_by_search(&mut self, pid: u32, steps: usize)
        requires few { steps < 2 ^ 64 - 1 }
        requires within { All (λ tally. tally.picks ≤ steps) self.old.list.items }
        requires apart { AreApart self.old.list.items }
        ensures { self.new.list.items ≡ map (picked_tally pid) self.old.list.items }
    {
        if let Some(index) = self.search(pid) {
            pick(&mut self.list[index]);
        }
    }

    /// Whether the tally at an index is that of the pid.
    #[inline(always)]
    fn stands_at(&self, index: usize, pid: u32) -> bool
        ensures { result ≡ true → (index < length self.now.list.items)
            × ((d : TallyOf) → (get_or self.now.list.items index d).pid ≡ pid) }
    {
        index < self.list.len() && self.list[index].pid == pid
    }

    /// Where the tally of the pid is, if it has one, by a look at one after another.
    fn search(&self, pid: u32) -> Option<usize>
        ensures found { (index : ℕ) → result ≡ Some index → (index < length self.now.list.items)
            × ((d : TallyOf) → (get_or self.now.list.items index d).pid ≡ pid) }
        ensures none { result ≡ None → All (λ tally. tally.pid ≢ pid) self.now.list.items }
    {
        for index in 0..self.list.len() {
            if self.list[index].pid == pid {
                return Some(index);
            }
        }
        None
    }
}
