//! The lines of an ftrace text: comments, lost events, and the heads of events.
#![tactic(auto)]

mod clock;
mod fault;
mod head;
mod kinds;
mod reading;
mod recent_clocks;
mod settled;
mod usual;

pub use fault::LineFault;
pub use kinds::{Line, Sched, Which};
pub use reading::{one_reading, read_line};
pub use recent_clocks::RecentClocks;
pub use settled::is_settled;
pub use usual::{UsualFront, usual_front};
