use cfs_model::NANOSECONDS_PER_SECOND;
use std::fmt;

/// How many nanoseconds a microsecond has.
const PER_MICROSECOND: u64 = 1000;

/// A time in nanoseconds, printed in seconds as the trace does: with six digits behind the point, or with nine where it
/// is no whole number of microseconds.
#[derive(Clone, Copy)]
pub(crate) struct Seconds(pub u64);

impl fmt::Display for Seconds {
    ghost use Rattle.std.specs.Prelude.{Some};
    ghost use Rattle.recording_audit.specs.Report.{seconds_words};

    ghost output = { λ seconds. Some (seconds_words seconds.0) };

    fn fmt<W: fmt::Write>(&self, f: &mut fmt::Formatter<W>) -> fmt::Result {
        let Seconds(time) = *self;
        let whole = time / NANOSECONDS_PER_SECOND;
        let beyond = time % NANOSECONDS_PER_SECOND;
        if beyond % PER_MICROSECOND == 0 {
            let micros = beyond / PER_MICROSECOND;
            write!(f, "{whole}.{micros:06}")
        } else {
            write!(f, "{whole}.{beyond:09}")
        }
    }
}
