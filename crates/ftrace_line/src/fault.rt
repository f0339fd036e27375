/// Why a line of a trace can't be read.
#[derive(Clone, Copy, Debug, PartialEq, Eq, Drop)]
pub enum LineFault {
    /// It is no comment, no line of lost events, and has no plain head.
    BadHead,
    /// The head's processor is above 65535, or its seconds are above 4294967295.
    NumberRange,
}
