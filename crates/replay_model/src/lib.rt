//! What is seen of a recording from one processor: its part of a machine, its steps, the tests of a step, and the page
//! of a replay. `part_laws`, `replay_laws` and `tally_laws` tie the replays of all processors to a run.
#![tactic(auto)]

mod first_fault;
mod page;
mod step;

pub use first_fault::FirstFault;
pub use page::{LifeEvent, StepFault, Tally, Ticket};
pub use step::{Deed, Step};
