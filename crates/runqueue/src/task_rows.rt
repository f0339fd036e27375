ghost use Rattle.std.specs.Prelude.{◌≡◌, ℕ, ◌<◌, None, Some, IsSome};
ghost use Rattle.pid_table.specs.Rows.{index_in};
ghost use Rattle.runqueue.specs.TaskRows.{KeepsRows, Writes, task_in, with_pid};

use crate::sched_entity::SchedEntity;
use pid_table::PidTable;

/// The tasks of a processor in rows by pid. A row stays when its task goes.
pub(crate) type TaskRows = PidTable<Option<SchedEntity>>;

/// The task that the rows have of a pid, whose row is expected at an index.
#[inline(always)]
pub(crate) fn listed(tasks: &TaskRows, expected: usize, pid: u32) -> Option<SchedEntity>
    ensures { result ≡ task_in tasks.now pid }
{
    match tasks.index_near(expected, pid) {
        Some(row) => tasks.rows()[row],
        None => None,
    }
}

/// The same of a pid that mostly has no row. A row where it would be expected would be in no cache.
#[inline(always)]
pub(crate) fn listed_newcomer(tasks: &TaskRows, pid: u32) -> Option<SchedEntity>
    ensures { result ≡ task_in tasks.now pid }
{
    let Some(row) = tasks.index_of(pid) else {
        return None;
    };
    tasks.rows()[row]
}

/// Writes over what the row at this index has.
#[inline(always)]
pub(crate) fn write_row(tasks: &mut TaskRows, row: usize, task: Option<SchedEntity>)
    requires { (pid : ℕ) × (index_in tasks.old.pids pid ≡ Some row) }
    ensures written { (pid : ℕ) → index_in tasks.old.pids pid ≡ Some row → Writes tasks.old tasks.new pid task }
    ensures pids { tasks.new.pids ≡ tasks.old.pids }
{
    let _pids = tasks.pids();
    *tasks.row_mut(row) = task;
}

/// Writes over the task that the rows have of a pid, whose row is expected at an index.
#[inline(always)]
pub(crate) fn write_over(tasks: &mut TaskRows, expected: usize, pid: u32, task: SchedEntity)
    requires { IsSome (task_in tasks.old pid) }
    ensures written { Writes tasks.old tasks.new pid (Some task) }
    ensures pids { tasks.new.pids ≡ tasks.old.pids }
{
    match tasks.index_near(expected, pid) {
        Some(row) => write_row(tasks, row, Some(task)),
        None => unreachable!(),
    }
}

/// Takes the task of a pid out of its row, which is expected at an index, if the rows have one.
pub(crate) fn take_out(tasks: &mut TaskRows, expected: usize, pid: u32) -> Option<SchedEntity>
    ensures value { result ≡ task_in tasks.old pid }
    ensures gone { Writes tasks.old tasks.new pid None }
    ensures pids { tasks.new.pids ≡ tasks.old.pids }
{
    match tasks.index_near(expected, pid) {
        Some(row) => {
            let task = tasks.rows()[row];
            write_row(tasks, row, None);
            task
        }
        None => None,
    }
}

/// Puts a task into the row of a pid, which is made where there is none, and answers with the row's index. Takes no
/// memory.
pub(crate) fn put(tasks: &mut TaskRows, pid: u32, task: &SchedEntity) -> usize
    requires { 0 < tasks.old.room }
    ensures written { Writes tasks.old tasks.new pid (Some task.now) }
    ensures row { index_in tasks.new.pids pid ≡ Some result }
    ensures pids { tasks.new.pids ≡ with_pid pid tasks.old.pids }
    ensures kept { KeepsRows tasks.old.pids tasks.new.pids }
{
    match tasks.index_of(pid) {
        Some(row) => {
            write_row(tasks, row, Some(*task));
            row
        }
        None => {
            let row = tasks.rows().len();
            tasks.add(pid, Some(*task));
            row
        }
    }
}
