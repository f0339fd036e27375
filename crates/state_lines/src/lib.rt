//! How each processor stands at each event of a record, in lines of JSON: read from the runqueue of its replay.
#![tactic(auto)]

mod event_line;
mod glance;
mod json_text;
mod measures;
mod not_written;
mod output;
mod sight;
mod start_line;
mod state_writer;
mod stretch;
mod waits;

pub use glance::Glance;
pub use measures::Measures;
pub use not_written::NotWritten;
pub use sight::{Sight, next_sight};
pub use state_writer::write_states;
pub use stretch::Stretch;
