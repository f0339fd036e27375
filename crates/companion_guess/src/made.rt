use crate::strategy::Strategy;
use cfs_model::Amounts;

/// A companion that was made.
#[derive(Debug, Drop)]
pub struct Made {
    pub text: Vec<u8>,
    pub guess: Option<Guessed>,
}

/// How a companion was made.
#[derive(Clone, Copy, Debug, PartialEq, Eq)]
pub struct Guessed {
    pub strategy: Strategy,
    /// What the audit needs of each setting, in nanoseconds: for a run, or up to the event that fits none.
    pub needs: Amounts,
    /// The first line of the trace whose event fits no settings, if there is one.
    pub stop: Option<u32>,
}
