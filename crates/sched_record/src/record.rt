ghost use Rattle.std.specs.Prelude.{◌≡◌, All};
ghost use Rattle.companion_file.specs.Seen.{companion_view};
ghost use Rattle.sched_record.specs.Join.{joined_record};
ghost use Rattle.sched_record.specs.Kept.{IsRecordInOrder, companion_part};
ghost use Rattle.sched_record.specs.Policies.{EndsAtBirth};

use crate::ending::end_spans;
use crate::trace::Trace;
use cfs_model::{ChargeLine, Claim, Entry, IdleLine, NO_LINE, NiceLine, Task};
use companion_file::{Companion, IdleSpan};
use std::alloc::Global;

/// A trace and its companion, joined.
#[derive(Debug, Drop)]
pub struct Record {
    trace: Trace,
    companion: Companion,
    pub ghost in_order: { IsRecordInOrder (joined_record trace.events (companion_view companion)) },
    pub ghost spans_end: { All (EndsAtBirth trace.events) companion.spans },
}

impl Record {
    ghost use Rattle.sched_record.specs.Join.{GoTogether};
    ghost use Rattle.sched_record.specs.Record.{record_view, record_last_time, record_last_line};
    ghost use Rattle.sched_record.specs.Seen.{trace_view};

    pub(crate) fn new(trace: Trace, companion: Companion) -> Record
        requires { GoTogether (trace_view trace) (companion_view companion) }
        ensures { record_view result ≡ joined_record (trace_view trace) (companion_view companion) }
    {
        let mut trace = trace;
        let mut companion = companion;
        trace.set_hints(companion.claims(), companion.nices(), companion.charges());
        end_spans(trace.events(), &mut companion);
        Record { trace, companion }
    }

    /// The number of processors: at least 1, and at most `MOST_PROCESSORS`.
    pub fn cpus(&self) -> u32
        ensures { result ≡ (record_view self.now).cpus }
    {
        self.companion.cpus()
    }

    /// The start time, in nanoseconds.
    pub fn start(&self) -> u64
        ensures { result ≡ (record_view self.now).start }
    {
        self.companion.start()
    }

    /// The events, in the order of their lines.
    pub fn events(&self) -> &[Entry]
        ensures { result.now ≡ (record_view self.now).events }
    {
        self.trace.events()
    }

    /// The claims, in the order of their lines.
    pub fn claims(&self) -> &[Claim]
        ensures { result.now ≡ (record_view self.now).claims }
    {
        self.companion.claims()
    }

    /// The changes of nice values, in the order of their lines.
    pub fn nices(&self) -> &[NiceLine]
        ensures { result.now ≡ (record_view self.now).nices }
    {
        self.companion.nices()
    }

    /// Who is of the idle policy, in the order of their lines, and at one line by rising pid.
    pub fn idles(&self) -> &[IdleLine]
        ensures { result.now ≡ (record_view self.now).idles }
    {
        self.companion.idles()
    }

    /// The charges that are told, in the order of their lines.
    pub fn charges(&self) -> &[ChargeLine]
        ensures { result.now ≡ (record_view self.now).charges }
    {
        self.companion.charges()
    }

    /// From which line to which tasks are of the idle policy, by rising pid, and at one pid by rising line.
    pub(crate) fn spans(&self) -> &[IdleSpan]
        ensures { result.now ≡ self.now.companion.spans }
    {
        self.companion.spans()
    }

    /// The tasks of the start state, by rising pid.
    pub fn tasks(&self) -> &[Task]
        ensures { result.now ≡ (record_view self.now).tasks }
    {
        self.companion.tasks()
    }

    /// Each processor's floor at the start, in virtual nanoseconds, signed.
    pub fn floors(&self) -> &[i64]
        ensures { result.now ≡ (record_view self.now).floors }
    {
        self.companion.floors()
    }

    /// The time of the last event, in nanoseconds; the start where there is none.
    pub fn last_time(&self) -> u64
        ensures { result ≡ record_last_time (record_view self.now) }
    {
        self.events()
            .last()
            .map_or(self.start(), |event| event.time)
    }

    /// The line of the last event in the trace, from 1, comments counted; `NO_LINE` where there is none.
    pub fn last_line(&self) -> u32
        ensures { result ≡ record_last_line (record_view self.now) }
    {
        self.events().last().map_or(NO_LINE, |event| event.line)
    }

    /// The companion of the trace.
    pub fn companion(&self) -> &Companion
        ensures { companion_view result.now ≡ companion_part (record_view self.now) }
    {
        &self.companion
    }

    pub(crate) fn trace(&self) -> &Trace
        ensures { result.now ≡ self.now.trace }
    {
        &self.trace
    }

    pub(crate) fn allocator(&self) -> Global {
        self.trace.allocator()
    }
}
