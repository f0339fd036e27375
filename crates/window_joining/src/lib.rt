//! Joins the events of a trace with what a companion says on their lines, as both come.
#![tactic(auto)]

mod between;
mod hints;
mod joining;
mod laws;
mod look;
mod on_line;
mod policies;
mod refusing;
mod strays;

pub use joining::Joining;
pub use laws::{more_said, together};
