//! The book in which the pages of all processors meet, and the verdict that they come to together.
#![tactic(auto)]

mod alive;
mod book;
mod closed;
mod closed_least;
mod closing;
mod cursor;
mod event_counts;
mod fault_by;
mod following;
mod idling;
mod laws;
mod least_closing;
mod least_fault;
mod least_settings;
mod lesser;
mod owning;
mod page_by;
mod post_fault;
mod relying;
mod remaking;
mod run_sums;
mod summary;
mod task_sums;
mod ticket_indices;
mod verdict;
mod walk;
mod window_book;

pub use book::{Book, NO_FAULT};
pub use closed::Closed;
pub use closed_least::ClosedLeast;
pub use fault_by::first_fault_by;
pub use laws::{one_least_answer, one_verdict, whole_pages_left};
pub use least_settings::LeastSettings;
pub use post_fault::PostFault;
pub use remaking::whole_page;
pub use replay_model::{FirstFault, Tally};
pub use summary::Summary;
pub use verdict::Verdict;
pub use window_book::WindowBook;
