use std::error::Error;
use std::fmt;

/// Why a word says no amount that an option takes.
#[derive(Clone, Copy, Debug, PartialEq, Eq, Drop)]
pub enum AmountFault {
    /// It says no whole number of nanoseconds.
    Unread,
    /// It says more than the greatest setting: this many nanoseconds.
    Beyond(u128),
}

impl fmt::Display for AmountFault {
    fn fmt<W: fmt::Write>(&self, f: &mut fmt::Formatter<W>) -> fmt::Result {
        match self {
            AmountFault::Unread => f.write_str("no whole number of nanoseconds"),
            AmountFault::Beyond(nanoseconds) => write!(f, "{nanoseconds} ns are too many"),
        }
    }
}

impl Error for AmountFault {}
