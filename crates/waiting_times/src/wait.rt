ghost use Rattle.std.specs.Prelude.{◌≡◌};
ghost use Rattle.waiting_times.specs.Waits.{duration, later};

use crate::Moment;

/// A time for which a task waited, on whichever processors.
#[derive(Clone, Copy, Debug, PartialEq, Eq)]
pub struct Wait {
    /// The event that made it wait, or the start.
    pub from: Moment,
    /// The event that ended that, or the end.
    pub to: Moment,
}

impl Wait {
    /// How long it was, in nanoseconds.
    pub fn duration(self) -> u64
        ensures { result ≡ duration self }
    {
        // Times never fall.
        self.to.time.saturating_sub(self.from.time)
    }

    /// The longer one of a first, if there is one, and this; of two that are as long the first.
    pub(crate) fn after(self, first: Option<Wait>) -> Wait
        ensures { result ≡ later duration first self }
    {
        match first {
            Some(first) if first.duration() >= self.duration() => first,
            _ => self,
        }
    }
}
