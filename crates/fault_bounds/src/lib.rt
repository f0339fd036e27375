//! The two numbers that the rule of a fault compares, by the replays of its processors.
#![tactic(auto)]

mod bound;
mod bounding;
mod charging;
mod distance;
mod found;
mod moment;
mod moved;
mod runner;

pub use bound::Bound;
pub use bounding::bound_of;
