//! The audit of a recording of any length: both texts come a block at a time, and no event is kept longer than until
//! the next block is read.
#![tactic(auto)]

mod aim;
mod beside;
mod companion_input;
mod course;
mod ending;
mod hearing;
mod intake;
mod joined_events;
mod judge;
mod judging;
mod listener;
mod past;
mod progress;
mod sizes;

pub use aim::Aim;
pub use ending::Ending;
pub use hearing::{Hearing, StreamOutcome};
pub use joined_events::JoinedEvents;
pub use judge::Judge;
pub use judging::judge_stream;
pub use past::{NoPast, Past};
pub use progress::Progress;
pub use sizes::Sizes;
