//! Who stands at one processor, and what happens to them: the runqueue of a replay, as the part of a machine.
#![tactic(auto)]

mod charging;
mod lift;
mod moves;
mod readers;
mod recent_rows;
mod renice;
mod runqueue;
mod sched_entity;
mod task_rows;
mod waiting_task;
mod waiting_tasks;

pub use charging::{ChargeFault, charged, told};
pub use lift::Unlifted;
pub use runqueue::Runqueue;
pub use sched_entity::SchedEntity;
pub use waiting_task::WaitingTask;
pub use waiting_tasks::WaitingTasks;
