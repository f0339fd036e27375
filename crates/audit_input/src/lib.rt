//! What goes into an audit: the ends that give its inputs, and the record that two texts are together, or which of
//! them is refused and why. A line of theirs can be had again.
#![tactic(auto)]

mod again;
mod cause;
mod checkpoint;
mod checkpoints;
mod failed;
mod fault;
mod feed;
mod feed_of;
mod keeping;
mod keeping_feed;
mod kept_read;
mod kept_reads;
mod kept_text;
mod line_finding;
mod reading;
mod refused;
mod source;
mod texts;

pub use again::LinesAgain;
pub use cause::Cause;
pub use failed::Failed;
pub use fault::Fault;
pub use feed::Feed;
pub use feed_of::FeedOf;
pub use keeping::Keeping;
pub use keeping_feed::KeepingFeed;
pub use reading::read_all;
pub use refused::Refused;
pub use source::Source;
pub use texts::{record_of, tells_charges};
