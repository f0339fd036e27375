//! What the programs of an audit have in common: their words, their inputs, the end of a report, and how they end.
#![tactic(auto)]

mod answer;
mod ending;
mod failure;
mod full_feed;
mod hints;
mod inputs;
mod progress;
mod terminals;
mod words;

pub use answer::{Answer, Front, FrontOf};
pub use ending::Ending;
pub use failure::Failure;
pub use full_feed::FullFeed;
pub use hints::say_hints;
pub use inputs::{Inputs, filled_input, kept_input, open_inputs, watched_input};
pub use progress::{Lengths, Size, WatchedFeed};
pub use terminals::Terminals;
pub use words::{tell, words_of};
