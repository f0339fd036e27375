ghost use Rattle.std.specs.Prelude.{◌≡◌};
ghost use Rattle.std.specs.Fmt.{WritesOnOk};
ghost use Rattle.recording_audit.specs.Report.{fault_words, meaning_of, refusal_words};

use crate::cut_cause::CutCause;
use cfs_model::Kind;
use ftrace_line::LineFault;
use replay_model::FirstFault;
use sched_event::EventFault;
use sched_record::TraceCause;
use std::fmt;

/// Why a cut was made: the auditor's word for it, and what that means here.
#[derive(Clone, Copy)]
pub struct CauseWords(pub CutCause);

impl fmt::Display for CauseWords {
    ghost use Rattle.std.specs.Prelude.{Some};
    ghost use Rattle.recording_audit.specs.Report.{cause_words};

    ghost output = { λ words. Some (cause_words words.0) };

    fn fmt<W: fmt::Write>(&self, f: &mut fmt::Formatter<W>) -> fmt::Result {
        match self.0 {
            CutCause::Refused(cause) => f.write_str(refusal_words(cause)),
            CutCause::BufferStarted => f.write_str(
                "BufferStarted: before the last of these lines a processor's events are missing",
            ),
            CutCause::Fault(fault) => write_fault(f, fault),
            CutCause::CpuOutside => f.write_str("CpuOutside"),
            CutCause::Short => f.write_str("Short: fewer events than --min-events asks for"),
            CutCause::Unsettled => f.write_str("Unsettled: no stretch was found that begins here"),
        }
    }
}

/// Of a line that is refused.
fn refusal_words(cause: TraceCause) -> &'static str
    ensures { result.now ≡ refusal_words cause }
{
    match cause {
        TraceCause::TooManyLines => "TooManyLines",
        TraceCause::Line(LineFault::BadHead) => "BadHead",
        TraceCause::Line(LineFault::NumberRange) => "NumberRange",
        TraceCause::LostEvents => "LostEvents: a processor's events are missing before this line",
        TraceCause::Event(EventFault::BadFields) => "BadFields",
        TraceCause::Event(EventFault::NumberRange) => "NumberRange",
        TraceCause::Event(EventFault::RealTime) =>
            "RealTime: a real-time or deadline task, whose time is no other task's",
        TraceCause::Event(EventFault::PrioRange) => "PrioRange",
        TraceCause::Event(EventFault::IdleNamed) => "IdleNamed",
        TraceCause::TimeBack => "TimeBack",
    }
}

/// The kind of a fault, where it is, and what it comes from.
fn write_fault<W: fmt::Write>(f: &mut fmt::Formatter<W>, fault: FirstFault) -> fmt::Result
    ensures { WritesOnOk W.write_str_gives f.old result (fault_words fault) f.new }
{
    let FirstFault { cpu, pid, kind, .. } = fault;
    let (name, _) = kind.words();
    let meaning = meaning_of(kind);
    write!(f, "{name}: cpu {cpu} pid {pid}: {meaning}")
}

/// What a fault of this kind at all settings comes from.
fn meaning_of(kind: Kind) -> &'static str
    ensures { result.now ≡ meaning_of kind }
{
    match kind {
        Kind::IdleTooLong | Kind::Range | Kind::WrongCharge => kind.words().1,
        _ => "an event is missing before this line",
    }
}
