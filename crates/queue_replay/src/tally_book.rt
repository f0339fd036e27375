ghost use Rattle.std.specs.Prelude.{◌≡◌, ◌≢◌, ℕ, ◌<◌, None, Some, OnOk, OnErr, [], get_or, length, All};
ghost use Rattle.replay_model.specs.Noted.{new_tally, with_tally};
ghost use Rattle.replay_model.specs.declared.page.Tally.{Tally as TallyOf};
ghost use Rattle.queue_replay.specs.Indices.{AreApart, AreOwn, AreOwn-prop};

use crate::counting::new_tally;
use crate::lists::Tallies;
use cfs_model::Memory;
use pid_table::PidTable;
use replay_model::Tally;
use std::alloc::Global;

/// What each task did, found by its pid.
#[derive(Debug, Drop)]
pub struct TallyBook {
    /// One for each pid, in the order in which they were named.
    pub table: PidTable<Tally>,
    pub ghost own: { AreOwn table } by { AreOwn-prop table },
}

impl TallyBook {
    /// No tally.
    pub fn new(alloc: Global) -> TallyBook
        ensures { result.table.rows ≡ [] }
    {
        TallyBook {
            table: PidTable::new(alloc),
        }
    }

    /// Lets the pid have a tally, unless a growth is refused: one that has a tally keeps it.
    pub fn name(&mut self, pid: u32) -> Result<(), Memory>
        ensures named { OnOk result (self.new.table.rows ≡ with_tally pid self.old.table.rows) }
        ensures same { OnErr result (self.new.table.rows ≡ self.old.table.rows) }
    {
        self.make_room()?;
        self.add(pid);
        Ok(())
    }

    /// Makes the growth that one more tally needs.
    fn make_room(&mut self) -> Result<(), Memory>
        ensures room { OnOk result (0 < self.new.table.room) }
        ensures same { self.new.table.rows ≡ self.old.table.rows }
    {
        self.table.make_room()?;
        Ok(())
    }

    /// The tallies, in the order in which their pids were named.
    pub fn into_list(self) -> Tallies
        ensures { result ≡ self.table.rows }
    {
        let TallyBook { table } = self;
        Tallies::from_vec(table.into_rows())
    }

    /// Where the tally of the pid is, if it has one.
    pub fn index_of(&self, pid: u32) -> Option<usize>
        ensures found { (index : ℕ) → result ≡ Some index → (index < length self.now.table.rows)
            × ((d : TallyOf) → (get_or self.now.table.rows index d).pid ≡ pid) }
        ensures none { result ≡ None → All (λ tally. tally.pid ≢ pid) self.now.table.rows }
        ensures apart { AreApart self.now.table.rows }
    {
        self.index_near(usize::MAX, pid)
    }

    /// The same, where the tally is expected at an index.
    #[inline(always)]
    pub fn index_near(&self, expected: usize, pid: u32) -> Option<usize>
        ensures found { (index : ℕ) → result ≡ Some index → (index < length self.now.table.rows)
            × ((d : TallyOf) → (get_or self.now.table.rows index d).pid ≡ pid) }
        ensures none { result ≡ None → All (λ tally. tally.pid ≢ pid) self.now.table.rows }
        ensures apart { AreApart self.now.table.rows }
    {
        self.table.index_near(expected, pid)
    }

    /// Lets the pid have a tally. Takes no memory.
    fn add(&mut self, pid: u32)
        requires { 0 < self.old.table.room }
        ensures { self.new.table.rows ≡ with_tally pid self.old.table.rows }
    {
        match self.table.index_of(pid) {
            Some(_) => {}
            None => self.table.add(pid, new_tally(pid)),
        }
    }
}
