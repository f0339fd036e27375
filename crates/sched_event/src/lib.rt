//! The four events of the scheduler: reading the text behind an event's name, and what the event does.
#![tactic(auto)]

mod event;
mod fault;
mod fields;
mod limits;
mod migration;
mod numeral;
mod read;
mod real_time;
mod switch;
mod usual;
mod usual_fields;
mod wakeup;

pub use event::{Event, Migration, Switch, Wakeup};
pub use fault::EventFault;
pub use read::{one_answer, one_reading, read_event};
pub use real_time::{NamedTask, real_time_task};
pub use usual::{UsualEvent, UsualLine, usual_line};
