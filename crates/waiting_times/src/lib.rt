//! How often and how long each task of a run waited for its turn.
#![tactic(auto)]

mod laws;
mod longest_wait;
mod moment;
mod rows;
mod task_row;
mod task_waits;
mod wait;
mod waiting;

pub use laws::one_waiting;
pub use longest_wait::{LongestWait, longest_of};
pub use moment::Moment;
pub use task_waits::TaskWaits;
pub use wait::Wait;
pub use waiting::waits_of;
