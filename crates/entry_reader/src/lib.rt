//! The events of a trace whose lines come some at a time, taken out as they are used.
#![tactic(auto)]

mod bad_line;
mod reader;

pub use reader::EntryReader;
