//! The rows of a run's tasks, in the order in which the report names them.
ghost use Rattle.std.specs.Prelude.{◌≡◌, ℕ, ◌+◌, [], OnOk, All, map};
ghost use Rattle.waiting_times.specs.Naming.{with_pid};
ghost use Rattle.waiting_times.specs.Rows.{IsRoomy, IsWithin, changed, fresh, picked_row, standing_row, woken_row};
ghost use Rattle.waiting_times.specs.declared.task_row.TaskRow.{TaskRow as RowOf};

use crate::Moment;
use crate::task_row::{Stand, TaskRow};
use cfs_model::Memory;
use pid_table::PidTable;
use std::alloc::Global;

/// A row for each task, found by its pid.
#[derive(Drop)]
pub(crate) struct TaskRows {
    pub table: PidTable<TaskRow>,
}

impl TaskRows {
    /// No row.
    pub fn new(alloc: Global) -> TaskRows
        ensures pids { result.table.pids ≡ [] }
        ensures rows { result.table.rows ≡ [] }
    {
        TaskRows {
            table: PidTable::new(alloc),
        }
    }

    /// Lets the pid have a row: one that has a row keeps it.
    pub fn name(&mut self, pid: u32) -> Result<(), Memory>
        ensures pids { OnOk result (self.new.table.pids ≡ with_pid pid self.old.table.pids) }
        ensures rows { OnOk result (self.old.table.rows ≡ map (λ _. fresh) self.old.table.pids
            → self.new.table.rows ≡ map (λ _. fresh) self.new.table.pids) }
    {
        self.table.make_room()?;
        match self.table.index_of(pid) {
            Some(_) => {}
            None => self.table.add(pid, TaskRow::fresh()),
        }
        Ok(())
    }

    /// The task stands so from now on.
    pub fn put(&mut self, pid: u32, stand: Stand)
        ensures pids { self.new.table.pids ≡ self.old.table.pids }
        ensures rows { (row_of : ℕ → RowOf) → self.old.table.rows ≡ map row_of self.old.table.pids
            → self.new.table.rows ≡ map (changed pid (standing_row stand) row_of) self.old.table.pids }
        ensures within { (n : ℕ) → All (IsWithin n) self.old.table.rows → All (IsWithin n) self.new.table.rows }
        ensures roomy { All IsRoomy self.old.table.rows → All IsRoomy self.new.table.rows }
    {
        if let Some(index) = self.table.index_of(pid) {
            let row = self.table.row_mut(index);
            row.stand = stand;
        }
    }

    /// The task is woken.
    pub fn wake(&mut self, pid: u32, at: Moment)
        ensures pids { self.new.table.pids ≡ self.old.table.pids }
        ensures rows { (row_of : ℕ → RowOf) → self.old.table.rows ≡ map row_of self.old.table.pids
            → self.new.table.rows ≡ map (changed pid (woken_row at) row_of) self.old.table.pids }
        ensures within { (n : ℕ) → All (IsWithin n) self.old.table.rows → All (IsWithin n) self.new.table.rows }
    {
        if let Some(index) = self.table.index_of(pid) {
            let row = self.table.row_mut(index);
            *row = row.woken(at);
        }
    }

    /// The task is picked.
    pub fn pick(&mut self, pid: u32, at: Moment)
        requires { All IsRoomy self.old.table.rows }
        ensures pids { self.new.table.pids ≡ self.old.table.pids }
        ensures rows { (row_of : ℕ → RowOf) → self.old.table.rows ≡ map row_of self.old.table.pids
            → self.new.table.rows ≡ map (changed pid (picked_row at) row_of) self.old.table.pids }
        ensures within { (n : ℕ) → All (IsWithin n) self.old.table.rows → All (IsWithin (n + 1)) self.new.table.rows }
    {
        if let Some(index) = self.table.index_of(pid) {
            let row = self.table.row_mut(index);
            *row = row.picked(at);
        }
    }
}
