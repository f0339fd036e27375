ghost use Rattle.std.specs.Prelude.{◌≡◌};
ghost use Rattle.companion_file.specs.Order.{IsCompanionInOrder};
ghost use Rattle.companion_file.specs.Spans.{AreSpansOf};

use crate::idle_span::IdleSpan;
use crate::lists::{Charges, Claims, Floors, Idles, Nices, Tasks};
use crate::spans::IdleSpans;
use cfs_model::{ChargeLine, Claim, IdleLine, NiceLine, Task};

/// The start state of a schedule, the virtual runtimes that are claimed of it, the changes of nice values, who is of
/// the idle policy, and the charges that are told.
#[derive(Debug, Drop)]
pub struct Companion {
    cpus: u32,
    start: u64,
    floors: Floors,
    tasks: Tasks,
    claims: Claims,
    nices: Nices,
    idles: Idles,
    charges: Charges,
    // Room that joining fills: where the policy of each idle line ends.
    spans: IdleSpans,
    pub ghost in_order: { IsCompanionInOrder
        (record {
          cpus = cpus;
          start = start;
          floors = floors;
          tasks = tasks;
          claims = claims;
          nices = nices;
          idles = idles;
          charges = charges;
        }) },
    pub ghost spans_told: { AreSpansOf idles spans },
}

impl Companion {
    pub(crate) fn new(
        cpus: u32,
        start: u64,
        floors: Floors,
        tasks: Tasks,
        claims: Claims,
        nices: Nices,
        idles: Idles,
        charges: Charges,
        spans: IdleSpans,
    ) -> Companion
        requires in_order { IsCompanionInOrder (record {
          cpus = cpus;
          start = start;
          floors = floors;
          tasks = tasks;
          claims = claims;
          nices = nices;
          idles = idles;
          charges = charges;
        }) }
        requires spans_told { AreSpansOf idles spans }
        ensures cpus { result.cpus ≡ cpus }
        ensures start { result.start ≡ start }
        ensures floors { result.floors ≡ floors }
        ensures tasks { result.tasks ≡ tasks }
        ensures claims { result.claims ≡ claims }
        ensures nices { result.nices ≡ nices }
        ensures idles { result.idles ≡ idles }
        ensures charges { result.charges ≡ charges }
        ensures spans { result.spans ≡ spans }
    {
        Companion {
            cpus,
            start,
            floors,
            tasks,
            claims,
            nices,
            idles,
            charges,
            spans,
        }
    }

    /// The number of processors: at least 1, and at most `MOST_PROCESSORS`.
    pub fn cpus(&self) -> u32
        ensures { result ≡ self.now.cpus }
    {
        self.cpus
    }

    /// The start, in nanoseconds.
    pub fn start(&self) -> u64
        ensures { result ≡ self.now.start }
    {
        self.start
    }

    /// The floor of each processor, from processor 0 on, in virtual nanoseconds, signed.
    pub fn floors(&self) -> &[i64]
        ensures { result.now ≡ self.now.floors }
    {
        self.floors.as_slice()
    }

    /// The tasks of the start state, by rising pid.
    pub fn tasks(&self) -> &[Task]
        ensures { result.now ≡ self.now.tasks }
    {
        self.tasks.as_slice()
    }

    /// The claims, by rising line of the trace.
    pub fn claims(&self) -> &[Claim]
        ensures { result.now ≡ self.now.claims }
    {
        self.claims.as_slice()
    }

    /// The changes of nice values, by rising line of the trace.
    pub fn nices(&self) -> &[NiceLine]
        ensures { result.now ≡ self.now.nices }
    {
        self.nices.as_slice()
    }

    /// Who is of the idle policy, by rising line of the trace, and at one line by rising pid.
    pub fn idles(&self) -> &[IdleLine]
        ensures { result.now ≡ self.now.idles }
    {
        self.idles.as_slice()
    }

    /// The charges that are told, by rising line of the trace.
    pub fn charges(&self) -> &[ChargeLine]
        ensures { result.now ≡ self.now.charges }
    {
        self.charges.as_slice()
    }

    /// From which line to which tasks are of the idle policy, by rising pid, and at one pid by rising line. None has an
    /// end but those that `end_span` gave one.
    pub fn spans(&self) -> &[IdleSpan]
        ensures { result.now ≡ self.now.spans }
    {
        self.spans.as_slice()
    }
}

impl Companion {
    ghost use Rattle.std.specs.Prelude.{◌≡◌, ◌<◌, length};
    ghost use Rattle.companion_file.specs.Spans.{ended};
    ghost use Rattle.companion_file.specs.Seen.{companion_view};

    /// Ends the span at this index at a line of the trace.
    pub fn end_span(&mut self, index: usize, line: u32)
        requires { index < length self.old.spans }
        ensures spans { self.new.spans ≡ ended self.old.spans index line }
        ensures others { companion_view self.new ≡ companion_view self.old }
    {
        self.spans.end_at(index, line);
    }
}
