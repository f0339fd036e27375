ghost use Rattle.std.specs.Prelude.{◌≡◌, ◌∷◌, ◌++◌, ◌<◌, [], None, Some, true, IfSome, OnOk, length, slice_get};
ghost use Rattle.std.specs.Borrow.{sem};
ghost use Rattle.pid_table.specs.Marks.{AreMarked};
ghost use Rattle.pid_table.specs.Rows.{AreSound, index_in};

use crate::pid_marks::PidMarks;
use crate::pid_places::PidPlaces;
use std::alloc::{AllocError, Global};
use std::marker::Model;

/// A row for each pid, in the order in which the pids were named. A contract sees the pids and their rows side by side,
/// and whether one more fits.
#[derive(Debug, Drop)]
pub struct PidTable<V> {
    pids: Vec<u32>,
    rows: Vec<V>,
    /// Of the pids that stand here: most that don't are told by these.
    marks: PidMarks,
    /// Where the row of each pid is looked for.
    places: PidPlaces,
}

impl<V> Model for PidTable<V> {
    ghost use Rattle.pid_table.specs.Rows.{Rows, rows_code};
    ghost use Rattle.std.specs.Prelude.{◌-◌, vec_len, vec_capacity};
    ghost use Rattle.pid_table.specs.Places.{IsTable, room_beside};

    ghost Value = { Rows V };

    ghost coded = { rows_code V.code };

    ghost view = { λ t. record {
      pids = t.pids.items;
      rows = t.rows.items;
      room = room_beside t.places (vec_capacity t.pids - vec_len t.pids) (vec_capacity t.rows - vec_len t.rows);
    } };

    ghost invariant = { λ t. IsTable t.pids.items t.rows.items t.marks t.places };
}

impl<V> PidTable<V> {
    ghost use Rattle.pid_table.specs.Lends.{LendsRow};

    /// No row. Takes no memory.
    pub fn new(alloc: Global) -> Self
        ensures pids { result.pids ≡ [] }
        ensures rows { result.rows ≡ [] }
    {
        Self {
            pids: Vec::new(alloc),
            rows: Vec::new(alloc),
            marks: PidMarks::new(alloc),
            places: PidPlaces::new(alloc),
        }
    }

    /// The pids, in the order in which they were named.
    pub fn pids(&self) -> &[u32]
        ensures pids { result.now ≡ self.now.pids }
        ensures sound { AreSound self.now }
    {
        &self.pids
    }

    /// The rows, in the order of their pids.
    pub fn rows(&self) -> &[V]
        ensures rows { result.now ≡ self.now.rows }
        ensures sound { AreSound self.now }
    {
        &self.rows
    }

    /// The rows alone, in the order of their pids.
    pub fn into_rows(self) -> Vec<V>
        ensures { result.items ≡ self.rows }
    {
        let Self { rows, .. } = self;
        rows
    }

    /// Where the row of a pid is, if it has one.
    #[inline(always)]
    pub fn index_of(&self, pid: u32) -> Option<usize>
        ensures index { result ≡ index_in self.now.pids pid }
        ensures within { IfSome result (λ index. index < length self.now.rows) }
        ensures sound { AreSound self.now }
    {
        if !self.marks.may_have(pid) {
            return None;
        }
        self.index_by_place(pid)
    }

    /// The same by the pid's place, whether it is marked or not.
    #[inline(always)]
    fn index_by_place(&self, pid: u32) -> Option<usize>
        ensures index { result ≡ index_in self.now.pids pid }
        ensures within { IfSome result (λ index. index < length self.now.rows) }
        ensures sound { AreSound self.now }
    {
        let place = self.places.place_of(pid) as usize;
        if place == 0 {
            return None;
        }
        if self.stands_at(pid, place - 1) {
            return Some(place - 1);
        }
        self.index_by_search(pid)
    }

    /// The same, where the row is expected at an index: it is looked at first.
    #[inline(always)]
    pub fn index_near(&self, expected: usize, pid: u32) -> Option<usize>
        ensures index { result ≡ index_in self.now.pids pid }
        ensures within { IfSome result (λ index. index < length self.now.rows) }
        ensures sound { AreSound self.now }
    {
        if self.stands_at(pid, expected) {
            return Some(expected);
        }
        self.index_elsewhere(pid)
    }

    /// The same as `index_of` by a call, for where few pids are sought: whoever expects a row at the right index keeps
    /// no register for the others.
    #[cold]
    #[inline(never)]
    fn index_elsewhere(&self, pid: u32) -> Option<usize>
        ensures index { result ≡ index_in self.now.pids pid }
        ensures within { IfSome result (λ index. index < length self.now.rows) }
        ensures sound { AreSound self.now }
    {
        self.index_of(pid)
    }

    /// Whether a pid stands at an index.
    #[inline(always)]
    fn stands_at(&self, pid: u32, index: usize) -> bool
        ensures index { result ≡ true → index_in self.now.pids pid ≡ Some index }
        ensures within { result ≡ true → index < length self.now.rows }
        ensures sound { AreSound self.now }
    {
        index < self.pids.len() && self.pids[index] == pid
    }

    /// The same as `index_of`, by going through all pids: for one whose place another has, which only a pid above 2^22
    /// can come to.
    #[cold]
    #[inline(never)]
    fn index_by_search(&self, pid: u32) -> Option<usize>
        ensures index { result ≡ index_in self.now.pids pid }
        ensures within { IfSome result (λ index. index < length self.now.rows) }
        ensures sound { AreSound self.now }
    {
        self.pids.iter().position(|other| *other == pid)
    }

    /// The row at an index, to be changed.
    pub fn row_mut(&mut self, index: usize) -> &mut V
        requires { index < length self.old.rows }
        ensures* writes_back { sem 𝓛 (LendsRow V.row self.entry index result) }
        ensures value { slice_get self.old.rows index ≡ Some result.now }
    {
        &mut self.rows[index]
    }

    /// Makes room for one more row.
    pub fn make_room(&mut self) -> Result<(), AllocError>
        ensures room { OnOk result (0 < self.new.room) }
        ensures pids { self.new.pids ≡ self.old.pids }
        ensures rows { self.new.rows ≡ self.old.rows }
        ensures sound { AreSound self.new }
    {
        make_marks(&mut self.marks, &self.pids)?;
        self.places.make_room()?;
        self.pids.reserve(1)?;
        self.rows.reserve(1)
    }

    /// Adds a row behind the last, for a pid that has none. Takes no memory.
    pub fn add(&mut self, pid: u32, row: V)
    where
        V: Drop,
        requires room { 0 < self.old.room }
        requires new { index_in self.old.pids pid ≡ None }
        ensures pids { self.new.pids ≡ self.old.pids ++ pid ∷ [] }
        ensures rows { self.new.rows ≡ self.old.rows ++ row ∷ [] }
        ensures sound { AreSound self.new }
    {
        self.marks.mark(pid);
        self.pids.push_reserved(pid);
        self.rows.push_reserved(row);
        let place = self.pids.len().min(u32::MAX as usize);
        self.places.put(pid, place as u32);
    }
}

/// Makes room for marks, where these pids are those that have one. New marks have no pid, so they are for a table that
/// has no row.
fn make_marks(marks: &mut PidMarks, pids: &[u32]) -> Result<(), AllocError>
    requires { AreMarked marks.old pids.now }
    ensures { AreMarked marks.new pids.now }
{
    if pids.is_empty() {
        return marks.make_room();
    }
    Ok(())
}
