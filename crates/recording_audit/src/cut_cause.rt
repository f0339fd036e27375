ghost use Rattle.std.specs.Bool.{OnFalse};
ghost use Rattle.std.specs.Prelude.{◌≡◌, ◌≢◌, ℕ, List, Some, false};
ghost use Rattle.recording_audit.specs.Causes.{IsKnown, IsUnreadable};
ghost use Rattle.recording_audit.specs.Tasks.{real_time_cut};

use replay_model::FirstFault;
use sched_event::EventFault;
use sched_record::TraceCause;

/// Why lines stand in no stretch.
#[derive(Clone, Copy, Debug, PartialEq, Eq)]
pub enum CutCause {
    /// The auditor refuses the first of these lines.
    Refused(TraceCause),
    /// The last of these lines says that a processor's buffer begins there: before it events are missing.
    BufferStarted,
    /// The line's event is the first that fits no settings; the fault is that of the stretch that was tried, and its
    /// line the one there.
    Fault(FirstFault),
    /// The line's event touches a processor that no companion has.
    CpuOutside,
    /// There are fewer events than a stretch has to have.
    Short,
    /// Tries to find a stretch that begins there were given up.
    Unsettled,
}

impl CutCause {
    /// Whether a stretch may begin behind it. Else the recording can't be read on.
    pub(crate) fn is_passed(self) -> bool
        ensures { OnFalse result ((text : List ℕ) (line : ℕ) → IsKnown text line (Some self)
            → IsUnreadable text line self) }
    {
        match self {
            CutCause::Refused(cause) => is_passed(cause),
            CutCause::CpuOutside => false,
            CutCause::BufferStarted | CutCause::Fault(_) | CutCause::Short | CutCause::Unsettled =>
                true,
        }
    }

    /// Whether the line is a real-time or deadline task's.
    pub(crate) fn is_real_time(self) -> bool
        ensures { result ≡ false → self ≢ real_time_cut }
    {
        matches!(
            self,
            CutCause::Refused(TraceCause::Event(EventFault::RealTime))
        )
    }
}

fn is_passed(cause: TraceCause) -> bool {
    matches!(
        cause,
        TraceCause::Event(EventFault::RealTime) | TraceCause::LostEvents
    )
}
