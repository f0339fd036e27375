//! The replay of one processor alone: its stream of steps, tested one after another, up to the first that fails.
#![tactic(auto)]

mod claim_tests;
mod claimed;
mod context_switch;
mod counting;
mod deeds;
mod excess;
mod found;
mod known_deed;
mod lists;
mod made_deed;
mod needs;
mod outcome;
mod page;
mod page_draft;
mod paged;
mod queue_tests;
mod renice;
mod replay;
mod replay_state;
mod row_tallies;
mod running;
mod state;
mod step_table;
mod stretch;
mod tag;
mod tally_book;
mod windowed;

pub use lists::{LifeEvents, Tallies, Tickets};
pub use page::Page;
pub use paged::Paged;
pub use replay::Replay;
pub use replay_model::Ticket;
pub use state::State;
pub use stretch::Stretch;
pub use tag::{Reached, Tag};
pub use tally_book::TallyBook;
pub use windowed::WindowedReplay;
