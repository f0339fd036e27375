//! A trace's reader, a block at a time.
ghost use Rattle.std.specs.Prelude.{◌≡◌, ◌⊎◌, ◌≤◌, true, false, IfErr, IfOk, OnOk};
ghost use Rattle.std.specs.Io.KnownBytes.{IsAtEnd};
ghost use Rattle.audit_input.specs.Known.{IsCutShort, most_reads};
ghost use Rattle.ftrace_line.specs.Front.{IsTold};
ghost use Rattle.input_blocks.specs.OfTrace.{IsReadFrom, ReadsTrace, reads_none, reads_on};

use crate::{LineReader, read_to_end};
use audit_input::{Fault, Feed};
use cfs_model::Memory;
use ftrace_line::is_settled;
use sched_record::TraceReader;
use std::alloc::Global;

/// How many bytes one read asks for, at most.
const CHUNK: u32 = 64 * 1024;

impl LineReader for TraceReader {
    ghost reads = { ReadsTrace };

    fn read(&mut self, text: &[u8]) -> Result<(), Memory> {
        TraceReader::read(self, text)
    }

    ghost told = { IsTold };

    fn settles(&self, line: &[u8]) -> bool {
        TraceReader::settled_line();
        is_settled(line)
    }

    ghost reads_none = { reads_none };

    ghost reads_on = { reads_on };
}

/// Reads the lines of a trace that an input gives, to its end. Where a read fails, or the most reads don't reach the
/// end, `ReadTrace`.
pub fn read_lines<F: Feed>(alloc: Global, feed: &mut F) -> Result<TraceReader, Fault>
    requires { F.calls feed.old ≡ 0 }
    ensures all { IfOk result (λ reader. IsReadFrom reader (F.left feed.old)) }
    ensures end { OnOk result (IsAtEnd (F.left feed.new)) }
    ensures ended { OnOk result (F.has_ended feed.new ≡ true) }
    ensures heard { OnOk result (F.has_failed feed.new ≡ false) }
    ensures cut_short { IfErr result (λ e. ((e ≡ Fault.Memory) × (F.has_failed feed.new ≡ false))
        ⊎ ((e ≡ Fault.ReadTrace) × IsCutShort (F.has_failed feed.new) (F.calls feed.new))) }
    ensures bounded { F.calls feed.new ≤ most_reads }
{
    let mut reader = TraceReader::new(alloc);
    read_to_end(alloc, CHUNK, feed, &mut reader, Fault::ReadTrace)?;
    Ok(reader)
}
