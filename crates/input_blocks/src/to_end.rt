ghost use Rattle.std.specs.Prelude.{◌≡◌, ◌⊎◌, ◌<◌, ◌≤◌, true, false, IfErr, OnOk};
ghost use Rattle.std.specs.Io.KnownBytes.{IsAtEnd};
ghost use Rattle.audit_input.specs.Known.{IsCutShort, most_reads};
ghost use Rattle.input_blocks.specs.Blocks.{ReadsAll};

use crate::{LineBlocks, LineReader};
use audit_input::{Fault, Feed};
use std::alloc::Global;

/// Reads an input to its end, each time so many bytes at most, and passes its lines on to the reader. Where a read
/// fails, or the most reads don't reach the end, this fault.
pub fn read_to_end<F: Feed, L: LineReader>(
    alloc: Global,
    size: u32,
    feed: &mut F,
    reader: &mut L,
    fault: Fault,
) -> Result<(), Fault>
    requires some { 0 < size }
    requires fresh { F.calls feed.old ≡ 0 }
    ensures all { OnOk result (ReadsAll L.reads reader.old reader.new (F.left feed.old)) }
    ensures end { OnOk result (IsAtEnd (F.left feed.new)) }
    ensures ended { OnOk result (F.has_ended feed.new ≡ true) }
    ensures heard { OnOk result (F.has_failed feed.new ≡ false) }
    ensures cut_short { IfErr result (λ e. ((e ≡ Fault.Memory) × (F.has_failed feed.new ≡ false))
        ⊎ ((e ≡ fault) × IsCutShort (F.has_failed feed.new) (F.calls feed.new))) }
    ensures bounded { F.calls feed.new ≤ most_reads }
{
    let mut blocks = LineBlocks::new(alloc, size);
    let mut goes_on = true;
    while goes_on {
        goes_on = blocks.next(feed, reader, fault)?;
    }
    Ok(())
}
