//! Explains the fault of a record, shows a line of a text, and says why it is refused, in lines for people. What it
//! says is no part of what is proved.
#![tactic(auto)]

mod bad_field;
mod bad_head;
mod bad_line;
mod bounds;
mod charge;
mod claim_bounds;
mod companion_lines;
mod duration;
mod escaped;
mod event;
mod event_look;
mod explaining;
mod gap;
mod head;
mod history;
mod limits;
mod mend;
mod names;
mod number_field;
mod odd_byte;
mod origin;
mod pick_bounds;
mod place_bounds;
mod processor;
mod processor_lines;
mod quoting;
mod refusal;
mod scene;
mod task_words;
mod told_charge;

pub use explaining::explanation;
pub use quoting::quoted_line;
pub use refusal::refusal_words;
