ghost use Rattle.std.specs.Prelude.{◌≡◌};
ghost use Rattle.waiting_times.specs.Moments.{edge, moment_of};

use cfs_model::Entry;

/// A moment of a recording: its start, an event, or its end.
#[derive(Clone, Copy, Debug, PartialEq, Eq)]
pub struct Moment {
    /// The event's line in the trace, from 1, comments counted. The start and the end have none.
    pub line: Option<u32>,
    /// In nanoseconds.
    pub time: u64,
}

impl Moment {
    /// The start or the end of a recording.
    pub(crate) fn edge(time: u64) -> Moment
        ensures { result ≡ edge time }
    {
        Moment { line: None, time }
    }

    /// The moment of an event.
    pub(crate) fn of(event: &Entry) -> Moment
        ensures { result ≡ moment_of event.now }
    {
        Moment {
            line: Some(event.line),
            time: event.time,
        }
    }
}
