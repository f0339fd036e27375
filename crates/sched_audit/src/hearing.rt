use crate::{Outcome, Verdict};
use sched_record::Record;

/// What two inputs came to, and what was read of them.
#[derive(Debug, Drop)]
pub struct Hearing<J = Verdict> {
    pub outcome: Outcome<J>,
    pub kept: Kept,
    /// Whether the companion is of version 3, so that the report of least settings tells the drift.
    pub tells_charges: bool,
}

/// What is kept of two inputs.
#[derive(Debug, Drop)]
pub enum Kept {
    /// The record that they are together.
    Record(Record),
    /// The companion's bytes, where a text was refused.
    Companion(Vec<u8>),
}

/// What two inputs of any length came to, of which nothing is kept.
#[derive(Debug, Drop)]
pub struct Heard<J = Verdict> {
    pub outcome: Outcome<J>,
    /// Whether the companion is of version 3.
    pub tells_charges: bool,
}
