ghost use Rattle.std.specs.Prelude.{◌≡◌};

use crate::fault::{CompanionCause, CompanionFault};

/// A bad line: its number, from 1, comments counted, and why it is bad.
#[derive(Clone, Copy, Debug, PartialEq, Eq)]
pub(crate) struct BadLine {
    pub(crate) line: u64,
    pub(crate) cause: CompanionCause,
}

impl BadLine {
    /// The fault of a text whose first bad line this is.
    pub(crate) fn fault(self) -> CompanionFault
        ensures { result ≡ CompanionFault.Text self.line self.cause }
    {
        CompanionFault::Text {
            line: self.line,
            cause: self.cause,
        }
    }
}
