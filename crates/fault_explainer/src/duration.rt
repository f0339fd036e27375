use cfs_model::NANOSECONDS_PER_SECOND;
use std::fmt;

/// A time or a duration, in nanoseconds: shown in these, and behind that in seconds.
#[derive(Clone, Copy)]
pub(crate) struct Nanoseconds(pub u64);

impl fmt::Display for Nanoseconds {
    fn fmt<W: fmt::Write>(&self, f: &mut fmt::Formatter<W>) -> fmt::Result {
        let all = self.0;
        let seconds = all / NANOSECONDS_PER_SECOND;
        let beyond = all % NANOSECONDS_PER_SECOND;
        write!(f, "{all} ({seconds}.{beyond:09} s)")
    }
}
