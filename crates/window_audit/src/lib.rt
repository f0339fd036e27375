//! The audit of a record that comes in windows: each processor's replay goes on window after window, and between two
//! only where it stands is kept.
#![tactic(auto)]

mod audit;
mod member;
mod members;
mod starting;
mod whole;

pub use audit::WindowAudit;
pub use starting::first_of_threads;
pub use whole::audit_in_windows;
