use crate::strategy::Strategy;
use cfs_model::{Knobs, Setting};

/// What a companion is made by.
#[derive(Clone, Copy, Debug, PartialEq, Eq)]
pub struct Wishes {
    /// The settings within whose bounds tasks are placed, where it is guessed where.
    pub knobs: Knobs,
    /// The one strategy to follow. None for that of the guesses which needs the least granularity.
    pub strategy: Option<Strategy>,
}

impl Wishes {
    /// The settings that bound where a task is placed; the others change nothing.
    pub const SETTINGS: [Setting; 2] = [Setting::Credit, Setting::Debit];

    /// Whether the kernel's values are wanted, which the trace may print.
    pub fn want_prints(&self) -> bool {
        self.strategy == Some(Strategy::Kernel)
    }
}
