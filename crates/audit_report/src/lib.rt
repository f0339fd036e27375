//! What comes out of an audit: a verdict, the least settings or a refusal, with its report and its status.
#![tactic(auto)]

mod counted;
mod judgement;
mod least_settings;
mod outcome;
mod pieces;
mod reporting;
mod sink;
mod sink_of;
mod status;
mod streamed;
mod verdict;
mod wait_lines;
mod with_waits;
mod writing;

pub use counted::Counted;
pub use judgement::Judgement;
pub use least_places::Finding;
pub use least_settings::told_settings;
pub use outcome::Outcome;
pub use pieces::write_in_pieces;
pub use reporting::{least_report, report};
pub use sink::Sink;
pub use sink_of::SinkOf;
pub use status::Status;
pub use streamed::Streamed;
pub use with_waits::WithWaits;
pub use writing::write_report;
