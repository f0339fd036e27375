//! The least settings of a record that comes in windows, and where each of them is needed first.
#![tactic(auto)]

mod audit;
mod figures;
mod pursuer;
mod pursuers;
mod rise;
mod whole;

pub use audit::LeastAudit;
pub use whole::least_in_windows;
