use sched_event::EventFault;
use sched_record::{JoinCause, TraceCause};
use std::fmt;

/// Why no companion is made for a trace, in the auditor's word for it.
#[derive(Clone, Copy)]
pub(crate) enum CauseWord {
    /// A line of the trace is bad.
    Trace(TraceCause),
    /// No companion joins with the trace.
    Join(JoinCause),
}

impl CauseWord {
    /// Whether a recording with such a line can be judged before it and behind it.
    pub(crate) fn cuts_recordings(self) -> bool {
        matches!(
            self,
            CauseWord::Trace(TraceCause::LostEvents | TraceCause::Event(EventFault::RealTime))
        )
    }
}

impl fmt::Display for CauseWord {
    fn fmt<W: fmt::Write>(&self, f: &mut fmt::Formatter<W>) -> fmt::Result {
        match *self {
            CauseWord::Trace(TraceCause::Line(fault)) => write!(f, "{fault:?}"),
            CauseWord::Trace(TraceCause::Event(fault)) => write!(f, "{fault:?}"),
            CauseWord::Trace(other) => write!(f, "{other:?}"),
            CauseWord::Join(cause) => write!(f, "{cause:?}"),
        }
    }
}
