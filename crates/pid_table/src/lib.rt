//! Rows by pid, in the order in which the pids were named.
#![tactic(auto)]

mod pid_marks;
mod pid_places;
mod pid_table;

pub use pid_table::PidTable;
