ghost use Rattle.std.specs.Prelude.{◌≡◌, ◌<◌, length};
ghost use Rattle.recording_audit.specs.Parts.{AreTimesOf};

use cfs_model::Entry;

/// How many events there are, and when.
#[derive(Clone, Copy, Debug)]
pub(crate) struct Span {
    pub events: u64,
    /// The time of the first, in nanoseconds; 0 where there is none.
    pub begins: u64,
    /// The time of the last.
    pub ends: u64,
}

impl Span {
    pub(crate) fn of(events: &[Entry]) -> Span
        ensures counted { result.events ≡ length events.now }
        ensures times { 0 < length events.now → AreTimesOf events.now result.begins result.ends }
    {
        let count = events.len();
        if count == 0 {
            return Span {
                events: 0,
                begins: 0,
                ends: 0,
            };
        }
        Span {
            events: count as u64,
            begins: events[0].time,
            ends: events[count - 1].time,
        }
    }
}
