//! Makes a companion for a trace alone. It is a guess at what the kernel did, and is handed out only where it is one
//! for this trace; the auditor judges it.
#![tactic(auto)]

mod hearing;
mod making;
mod not_made;
mod plain;

pub use hearing::{Heard, Hearing, hear_trace};
pub use making::companion_of_trace;
pub use not_made::NotMade;
