//! What one processor sees of a record: its tasks, its floor and its steps.
#![tactic(auto)]

mod steps;
mod stream;
mod stream_eq;

pub use steps::Steps;
pub use stream::Stream;
