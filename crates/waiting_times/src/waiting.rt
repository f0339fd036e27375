//! One walk along a record's events.
ghost use Rattle.std.specs.Prelude.{◌≡◌, ℕ, ◌+◌, All, IfOk, OnOk, map};
ghost use Rattle.cfs_model.specs.Knobs.{KnobsView};
ghost use Rattle.cfs_model.specs.Run.{IsRun};
ghost use Rattle.replay_model.specs.Summary.{born_by, tasks_of_run};
ghost use Rattle.sched_record.specs.Record.{record_view};
ghost use Rattle.waiting_times.specs.Naming.{births_in, with_pids};
ghost use Rattle.waiting_times.specs.Rows.{IsRoomy, IsWithin, acted, along, at_start, fresh, left_by, picked_by};
ghost use Rattle.waiting_times.specs.Rows.{switched, told_along, told_of};
ghost use Rattle.waiting_times.specs.Waits.{AreWaits, first_state, said_events};
ghost use Rattle.waiting_times.specs.declared.task_row.TaskRow.{TaskRow as RowOf};

use crate::rows::TaskRows;
use crate::task_row::Stand;
use crate::{Moment, TaskWaits};
use cfs_model::{Act, Entry, IDLE_PID, Memory, Task, Way};
use sched_record::Record;
use std::alloc::{AllocError, Global};

/// How often and how long each task of a record waited, in the order of the report of a run: the companion's tasks,
/// then those that are born. Where the record's events are no run nothing is said of it.
pub fn waits_of(alloc: Global, joined: &Record) -> Result<Vec<TaskWaits>, Memory>
    // The waits in the states of that run, at whichever settings it is one.
    ensures { (knobs : KnobsView)
        → (run : IsRun knobs (record_view joined.now).start (first_state (record_view joined.now))
        (said_events (record_view joined.now)))
        → IfOk result (λ told. AreWaits (record_view joined.now) run.states told.items) }
{
    Ok(told_by(alloc, joined)?)
}

/// The same by the rows of the tasks.
fn told_by(alloc: Global, joined: &Record) -> Result<Vec<TaskWaits>, Memory>
    ensures { IfOk result (λ told. told.items
        ≡ map (told_along (record_view joined.now)) (tasks_of_run (record_view joined.now).tasks
        (said_events (record_view joined.now)))) }
{
    let mut rows = TaskRows::new(alloc);
    name_tasks(joined.tasks(), &mut rows)?;
    name_born(joined.events(), &mut rows)?;
    put_tasks(joined.tasks(), Moment::edge(joined.start()), &mut rows);
    pass_events(joined.events(), &mut rows);
    Ok(tell(alloc, &rows, Moment::edge(joined.last_time()))?)
}

/// Names the tasks of the start.
fn name_tasks(tasks: &[Task], rows: &mut TaskRows) -> Result<(), Memory>
    ensures pids { OnOk result
        (rows.new.table.pids ≡ with_pids (map (λ task. task.pid) tasks.now) rows.old.table.pids) }
    ensures rows { OnOk result (rows.old.table.rows ≡ map (λ _. fresh) rows.old.table.pids
        → rows.new.table.rows ≡ map (λ _. fresh) rows.new.table.pids) }
{
    for task in tasks {
        rows.name(task.pid)?;
    }
    Ok(())
}

/// Names the tasks that are born.
fn name_born(events: &[Entry], rows: &mut TaskRows) -> Result<(), Memory>
    ensures pids { OnOk result (rows.new.table.pids ≡ with_pids (births_in events.now) rows.old.table.pids) }
    ensures rows { OnOk result (rows.old.table.rows ≡ map (λ _. fresh) rows.old.table.pids
        → rows.new.table.rows ≡ map (λ _. fresh) rows.new.table.pids) }
{
    for event in events {
        name_begun(event.act, rows)?;
    }
    Ok(())
}

/// Names the task that begins with an event, if one does.
fn name_begun(act: Act, rows: &mut TaskRows) -> Result<(), Memory>
    ensures pids { OnOk result (rows.new.table.pids ≡ with_pids (born_by act) rows.old.table.pids) }
    ensures rows { OnOk result (rows.old.table.rows ≡ map (λ _. fresh) rows.old.table.pids
        → rows.new.table.rows ≡ map (λ _. fresh) rows.new.table.pids) }
{
    match act.begun() {
        Some(pid) => rows.name(pid),
        None => Ok(()),
    }
}

/// Puts each task where the start names it.
fn put_tasks(tasks: &[Task], start: Moment, rows: &mut TaskRows)
    ensures pids { rows.new.table.pids ≡ rows.old.table.pids }
    ensures rows { rows.old.table.rows ≡ map (λ _. fresh) rows.old.table.pids
        → rows.new.table.rows ≡ map (at_start start tasks.now fresh) rows.old.table.pids }
    ensures within { (n : ℕ) → All (IsWithin n) rows.old.table.rows → All (IsWithin n) rows.new.table.rows }
{
    for task in tasks {
        rows.put(task.pid, Stand::by(task.place, start));
    }
}

/// Goes along the events.
fn pass_events(events: &[Entry], rows: &mut TaskRows)
    requires { All (IsWithin 0) rows.old.table.rows }
    ensures pids { rows.new.table.pids ≡ rows.old.table.pids }
    ensures rows { (row_of : ℕ → RowOf) → rows.old.table.rows ≡ map row_of rows.old.table.pids
        → rows.new.table.rows ≡ map (λ pid. along pid events.now (row_of pid)) rows.old.table.pids }
    ensures roomy { All IsRoomy rows.new.table.rows }
{
    for event in events {
        pass(event, rows);
    }
}

/// Passes one event.
fn pass(event: &Entry, rows: &mut TaskRows)
    requires { All IsRoomy rows.old.table.rows }
    ensures pids { rows.new.table.pids ≡ rows.old.table.pids }
    ensures rows { (row_of : ℕ → RowOf) → rows.old.table.rows ≡ map row_of rows.old.table.pids
        → rows.new.table.rows ≡ map (λ pid. acted pid event.now (row_of pid)) rows.old.table.pids }
    ensures within { (n : ℕ) → All (IsWithin n) rows.old.table.rows → All (IsWithin (n + 1)) rows.new.table.rows }
{
    let at = Moment::of(event);
    let act = event.act;
    match act {
        Act::Switch {
            prev,
            way,
            next,
            ..
        } => switch(prev, way, next, at, rows),
        Act::Wake { pid, .. } => rows.wake(pid, at),
        Act::Born { pid, .. } => rows.put(pid, Stand::Waits(at)),
        // A task that waits goes on waiting at the other processor.
        Act::Shift { .. } => {}
    }
}

/// A processor goes from one task to another.
fn switch(prev: u32, way: Way, next: u32, at: Moment, rows: &mut TaskRows)
    requires { All IsRoomy rows.old.table.rows }
    ensures pids { rows.new.table.pids ≡ rows.old.table.pids }
    ensures rows { (row_of : ℕ → RowOf) → rows.old.table.rows ≡ map row_of rows.old.table.pids
        → rows.new.table.rows ≡ map (λ pid. switched pid at prev way next (row_of pid)) rows.old.table.pids }
    ensures within { (n : ℕ) → All (IsWithin n) rows.old.table.rows → All (IsWithin (n + 1)) rows.new.table.rows }
{
    leave(prev, way, at, rows);
    pick(next, at, rows);
}

/// A task leaves its processor; pid 0 is none.
fn leave(prev: u32, way: Way, at: Moment, rows: &mut TaskRows)
    ensures pids { rows.new.table.pids ≡ rows.old.table.pids }
    ensures rows { (row_of : ℕ → RowOf) → rows.old.table.rows ≡ map row_of rows.old.table.pids
        → rows.new.table.rows ≡ map (λ pid. left_by pid at way prev (row_of pid)) rows.old.table.pids }
    ensures within { (n : ℕ) → All (IsWithin n) rows.old.table.rows → All (IsWithin n) rows.new.table.rows }
    ensures roomy { All IsRoomy rows.old.table.rows → All IsRoomy rows.new.table.rows }
{
    if prev != IDLE_PID {
        rows.put(prev, Stand::left(way, at));
    }
}

/// A task comes to its processor; pid 0 is none.
fn pick(next: u32, at: Moment, rows: &mut TaskRows)
    requires { All IsRoomy rows.old.table.rows }
    ensures pids { rows.new.table.pids ≡ rows.old.table.pids }
    ensures rows { (row_of : ℕ → RowOf) → rows.old.table.rows ≡ map row_of rows.old.table.pids
        → rows.new.table.rows ≡ map (λ pid. picked_by pid at next (row_of pid)) rows.old.table.pids }
    ensures within { (n : ℕ) → All (IsWithin n) rows.old.table.rows → All (IsWithin (n + 1)) rows.new.table.rows }
{
    if next != IDLE_PID {
        rows.pick(next, at);
    }
}

/// What is told of each task.
fn tell(alloc: Global, rows: &TaskRows, end: Moment) -> Result<Vec<TaskWaits>, AllocError>
    requires { All IsRoomy rows.now.table.rows }
    ensures { IfOk result (λ told. (row_of : ℕ → RowOf) → rows.now.table.rows ≡ map row_of rows.now.table.pids
        → told.items ≡ map (λ pid. told_of end pid (row_of pid)) rows.now.table.pids) }
{
    let pids = rows.table.pids();
    let all = rows.table.rows();
    let mut told = Vec::new(alloc);
    for index in 0..pids.len() {
        told.push(all[index].told(pids[index], end))?;
    }
    Ok(told)
}
