//! What the readers of both texts share: lines, fixed beginnings, numbers in decimal digits, and times.
#![tactic(auto)]

pub mod cutting;
pub mod lines;
pub mod marks;
pub mod numerals;
pub mod packed;
pub mod pieces;
pub mod time;
