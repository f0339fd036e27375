ghost use Rattle.std.specs.Prelude.{◌≡◌};
ghost use Rattle.audit_input.specs.Causes.{trace_cause, companion_cause, join_cause};
ghost use Rattle.audit_input.specs.Words.{cause_word};

use companion_file::CompanionCause;
use ftrace_line::LineFault;
use sched_event::EventFault;
use sched_record::{JoinCause, TraceCause};

/// Why a text is refused.
#[derive(Clone, Copy, Debug, PartialEq, Eq)]
pub enum Cause {
    BadHead,
    NumberRange,
    LostEvents,
    BadFields,
    RealTime,
    PrioRange,
    IdleNamed,
    TimeBack,
    TooManyLines,
    Version,
    Group,
    BadLine,
    Order,
    TwiceNamed,
    TwiceRunning,
    LineOrder,
    NoTask,
    Short,
    CpuOutside,
    StartLate,
    ClaimNoEvent,
}

// The table of causes: each is printed by its own name.
macro_rules! word_of {
    ($cause:expr; $($name:ident)+) => {
        match $cause {
            $(Cause::$name => stringify!($name),)+
        }
    };
}

impl Cause {
    /// Of a trace's first bad line.
    pub(crate) fn of_trace(cause: TraceCause) -> Cause
        ensures { result ≡ trace_cause cause }
    {
        match cause {
            TraceCause::TooManyLines => Cause::TooManyLines,
            TraceCause::Line(LineFault::BadHead) => Cause::BadHead,
            TraceCause::Line(LineFault::NumberRange) => Cause::NumberRange,
            TraceCause::LostEvents => Cause::LostEvents,
            TraceCause::Event(EventFault::BadFields) => Cause::BadFields,
            TraceCause::Event(EventFault::NumberRange) => Cause::NumberRange,
            TraceCause::Event(EventFault::RealTime) => Cause::RealTime,
            TraceCause::Event(EventFault::PrioRange) => Cause::PrioRange,
            TraceCause::Event(EventFault::IdleNamed) => Cause::IdleNamed,
            TraceCause::TimeBack => Cause::TimeBack,
        }
    }

    /// Of a companion's first bad line.
    pub(crate) fn of_companion(cause: CompanionCause) -> Cause
        ensures { result ≡ companion_cause cause }
    {
        match cause {
            CompanionCause::Version => Cause::Version,
            CompanionCause::Group => Cause::Group,
            CompanionCause::BadLine => Cause::BadLine,
            CompanionCause::Order => Cause::Order,
            CompanionCause::NumberRange => Cause::NumberRange,
            CompanionCause::TwiceNamed => Cause::TwiceNamed,
            CompanionCause::TwiceRunning => Cause::TwiceRunning,
            CompanionCause::LineOrder => Cause::LineOrder,
            CompanionCause::NoTask => Cause::NoTask,
            CompanionCause::Short => Cause::Short,
        }
    }

    /// Of two texts that don't go together.
    pub(crate) fn of_joining(cause: JoinCause) -> Cause
        ensures { result ≡ join_cause cause }
    {
        match cause {
            JoinCause::CpuOutside => Cause::CpuOutside,
            JoinCause::StartLate => Cause::StartLate,
            JoinCause::ClaimNoEvent => Cause::ClaimNoEvent,
        }
    }

    /// As a report prints it.
    pub fn word(self) -> &'static str
        ensures { result.now ≡ cause_word self }
    {
        word_of!(self;
            BadHead NumberRange LostEvents BadFields RealTime PrioRange IdleNamed TimeBack TooManyLines
            Version Group BadLine Order TwiceNamed TwiceRunning LineOrder NoTask Short
            CpuOutside StartLate ClaimNoEvent
        )
    }
}
