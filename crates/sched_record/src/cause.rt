use cfs_model::Memory;
use ftrace_line::LineFault;
use sched_event::EventFault;

/// Why a line of a trace is bad, in the order in which one line is tested.
#[derive(Clone, Copy, Debug, PartialEq, Eq)]
pub enum TraceCause {
    /// The line's number is above 2^32 - 1.
    TooManyLines,
    /// The line is neither a comment, nor says that events were lost, nor has an event's head.
    Line(LineFault),
    /// Events were lost before this line, so what follows can't be judged.
    LostEvents,
    /// The text behind the head of one of the four events is refused.
    Event(EventFault),
    /// The event's time is less than that of the event before it.
    TimeBack,
}

/// Why a trace is refused.
#[derive(Clone, Copy, Debug, PartialEq, Eq)]
pub enum TraceFault {
    /// A line is bad, the first such: its number, from 1, comments counted, and why.
    Text { line: u64, cause: TraceCause },
    /// A growth was refused.
    Memory,
}

impl From<Memory> for TraceFault {
    ghost use Rattle.std.specs.Prelude.{◌≡◌};
    ghost use Rattle.sched_record.specs.declared.cause.TraceFault.TheVariants as faults;

    ghost from_gives = { λ _ fault. fault ≡ faults.Memory };

    fn from(_want: Memory) -> TraceFault {
        TraceFault::Memory
    }
}
