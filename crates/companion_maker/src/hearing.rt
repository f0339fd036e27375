//! The trace of an input, for its events and for what it prints of charges.
ghost use Rattle.std.specs.Prelude.{◌≡◌, ◌⊎◌, ◌<◌, ◌≤◌, ℕ, List, true, false, [], Ok, Err, IfOk, IfErr, IsErrOf, OnOk};
ghost use Rattle.std.specs.Io.KnownBytes.{IsAtEnd};
ghost use Rattle.audit_input.specs.Known.{IsCutShort, most_reads};
ghost use Rattle.companion_maker.specs.Hearing.{reads_hearing, hears_none, hears_on};
ghost use Rattle.ftrace_line.specs.Front.{IsTold};
ghost use Rattle.input_blocks.specs.OfTrace.{IsReadFrom};
ghost use Rattle.sched_record.specs.declared.cause.TraceCause.{TraceCause};
ghost use Rattle.sched_record.specs.Reader.{HasRead};
ghost use Rattle.sched_record.specs.Seen.{trace_view};
ghost use Rattle.sched_record.specs.Trace.{LinesAnswer};

use audit_input::{Fault, Feed};
use cfs_model::Memory;
use companion_guess::{Prints, Wishes};
use ftrace_line::is_settled;
use input_blocks::{LineReader, read_to_end};
use sched_record::{Trace, TraceFault, TraceReader};
use std::alloc::Global;

/// What a trace said.
#[derive(Drop)]
pub struct Heard {
    pub trace: Trace,
    /// Nothing where no prints were wanted.
    pub prints: Prints,
}

/// A trace whose lines are read some at a time, for its events and for what they print.
#[derive(Drop)]
pub struct Hearing {
    trace: TraceReader,
    prints: Prints,
    wants_prints: bool,
}

impl Hearing {
    /// Before the first line.
    fn new(alloc: Global, wishes: &Wishes) -> Hearing
        ensures { HasRead result.trace [] }
    {
        Hearing {
            trace: TraceReader::new(alloc),
            prints: Prints::none(alloc),
            wants_prints: wishes.want_prints(),
        }
    }

    /// What was heard, or the first bad line.
    pub fn finish(self) -> Result<Heard, TraceFault>
        ensures heard { (lines : List (List ℕ)) → HasRead self.trace lines
            → IfOk result (λ heard. LinesAnswer lines (Ok (trace_view heard.trace))) }
        ensures refused { (lines : List (List ℕ)) (line : ℕ) (cause : TraceCause) → HasRead self.trace lines
            → IsErrOf result (TraceFault.Text line cause) → LinesAnswer lines (Err (line, cause)) }
        // Nothing grows here.
        ensures memory { IsErrOf result TraceFault.Memory → ⊥ }
    {
        let Hearing { trace, prints, .. } = self;
        Ok(Heard {
            trace: trace.finish()?,
            prints,
        })
    }
}

impl LineReader for Hearing {
    ghost reads = { reads_hearing };

    fn read(&mut self, text: &[u8]) -> Result<(), Memory> {
        if self.wants_prints {
            self.prints.read(text)?;
        }
        self.trace.read(text)
    }

    ghost told = { IsTold };

    fn settles(&self, line: &[u8]) -> bool {
        TraceReader::settled_line();
        is_settled(line)
    }

    ghost reads_none = { hears_none };

    ghost reads_on = { hears_on };
}

/// Hears the trace that an input gives, by reads that ask for at most so many bytes.
pub fn hear_trace<F: Feed>(
    alloc: Global,
    feed: &mut F,
    size: u32,
    wishes: &Wishes,
) -> Result<Hearing, Fault>
    requires some { 0 < size }
    requires fresh { F.calls feed.old ≡ 0 }
    ensures all { IfOk result (λ hearing. IsReadFrom hearing.trace (F.left feed.old)) }
    ensures end { OnOk result (IsAtEnd (F.left feed.new)) }
    ensures ended { OnOk result (F.has_ended feed.new ≡ true) }
    ensures heard { OnOk result (F.has_failed feed.new ≡ false) }
    ensures cut_short { IfErr result (λ e. ((e ≡ Fault.Memory) × (F.has_failed feed.new ≡ false))
        ⊎ ((e ≡ Fault.ReadTrace) × IsCutShort (F.has_failed feed.new) (F.calls feed.new))) }
    ensures bounded { F.calls feed.new ≤ most_reads }
{
    let mut hearing = Hearing::new(alloc, wishes);
    read_to_end(alloc, size, feed, &mut hearing, Fault::ReadTrace)?;
    Ok(hearing)
}
