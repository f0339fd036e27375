ghost use Rattle.std.specs.Prelude.{◌≤◌, ◌<◌, ◌^◌};
ghost use Rattle.audit_input.specs.Known.{most_reads};

use crate::block::Block;
use audit_input::{Fault, Feed};
use std::alloc::Global;

/// How many reads are made of one input, at most.
const MOST_READS: u64 = 1 << 32;

/// How many bytes a read asks for whose bytes are let go.
const LET_GO: usize = 4096;

/// The reads that are made of an input.
#[derive(Debug, Drop)]
pub struct BlockSource {
    /// What came and wasn't taken yet.
    pub(crate) block: Block,
    /// How many bytes a read asks for, at most.
    size: u32,
    /// How many reads were made.
    reads: u64,
    /// Whether the last of them gave the end.
    ended: bool,
    ghost some: { 0 < size },
    pub ghost small: { size < 2 ^ 32 },
    pub ghost bounded: { reads ≤ most_reads },
}

impl BlockSource {
    ghost use Rattle.std.specs.Prelude.{◌≡◌, ◌⊎◌, ◌==◌, ◌+◌, ◌++◌, ℕ, List, Option, [], true, false, not};
    ghost use Rattle.std.specs.Prelude.{IfOk, IfErr, OnOk, max};
    ghost use Rattle.std.specs.Io.KnownBytes.{Consumes, IsAtEnd};
    ghost use Rattle.audit_input.specs.Known.{Agrees, IsCutShort};
    ghost use Rattle.input_blocks.specs.Blocks.{HasReadOn, filled};

    /// Of an input of which no read was made; each will ask for at most so many bytes. It takes no memory.
    pub(crate) fn new(alloc: Global, size: u32) -> BlockSource
        requires { 0 < size }
        ensures none { filled result.block ≡ [] }
        ensures reads { result.reads ≡ 0 }
    {
        BlockSource {
            block: Block::new(alloc),
            size,
            reads: 0,
            ended: false,
        }
    }

    /// Reads so many times, one at least, while the input goes on. Says whether it goes on. Where a read fails, or the
    /// most reads were made before, this fault.
    pub fn read_some<F: Feed>(
        &mut self,
        feed: &mut F,
        most: u32,
        fault: Fault,
    ) -> Result<bool, Fault>
        requires unended { F.has_ended feed.old ≡ false }
        requires counted { F.calls feed.old ≡ self.old.reads }
        ensures read { OnOk result (HasReadOn (F.left feed.old) (F.left feed.new) self.old self.new) }
        ensures end { IfOk result (λ goes_on. goes_on ≡ false → IsAtEnd (F.left feed.new)) }
        ensures ended { IfOk result (λ goes_on. F.has_ended feed.new ≡ not goes_on) }
        ensures counted { OnOk result (F.calls feed.new ≡ self.new.reads) }
        ensures read_on { OnOk result (self.old.reads < self.new.reads) }
        ensures no_more { OnOk result (self.new.reads ≤ self.old.reads + max 1 most) }
        ensures so_many { IfOk result (λ goes_on. goes_on ≡ true → self.old.reads + most ≤ self.new.reads) }
        ensures bounded { F.calls feed.new ≤ most_reads }
        ensures heard { OnOk result (F.has_failed feed.new ≡ F.has_failed feed.old) }
        ensures cut_short { IfErr result (λ e. ((e ≡ Fault.Memory) × (F.has_failed feed.new ≡ F.has_failed feed.old))
            ⊎ ((e ≡ fault) × IsCutShort (F.has_failed feed.new) (F.calls feed.new))) }
        ensures never_fewer { self.old.reads ≤ self.new.reads }
        ensures told { OnOk result (F.has_ended feed.new ≡ self.new.ended) }
        ensures wanted { IfErr result (λ e. (e ≡ fault)
            ⊎ ((F.calls feed.new ≡ self.new.reads) × (F.has_ended feed.new ≡ self.new.ended))) }
    {
        let mut goes_on = self.read_once(feed, fault)?;
        let mut left = most;
        while goes_on && left > 1 {
            goes_on = self.read_once(feed, fault)?;
            left -= 1;
        }
        Ok(goes_on)
    }

    /// Reads once, and says whether the input goes on.
    pub(crate) fn read_once<F: Feed>(&mut self, feed: &mut F, fault: Fault) -> Result<bool, Fault>
        requires unended { F.has_ended feed.old ≡ false }
        requires counted { F.calls feed.old ≡ self.old.reads }
        ensures read { OnOk result (HasReadOn (F.left feed.old) (F.left feed.new) self.old self.new) }
        ensures end { IfOk result (λ goes_on. goes_on ≡ false → IsAtEnd (F.left feed.new)) }
        ensures ended { IfOk result (λ goes_on. F.has_ended feed.new ≡ not goes_on) }
        ensures counted { OnOk result (F.calls feed.new ≡ self.new.reads) }
        ensures one_read { OnOk result (self.new.reads ≡ self.old.reads + 1) }
        ensures bounded { F.calls feed.new ≤ most_reads }
        ensures heard { OnOk result (F.has_failed feed.new ≡ F.has_failed feed.old) }
        ensures cut_short { IfErr result (λ e. ((e ≡ Fault.Memory) × (F.has_failed feed.new ≡ F.has_failed feed.old))
            ⊎ ((e ≡ fault) × IsCutShort (F.has_failed feed.new) (F.calls feed.new))) }
        ensures never_fewer { self.old.reads ≤ self.new.reads }
        ensures told { OnOk result (F.has_ended feed.new ≡ self.new.ended) }
        ensures wanted { IfErr result (λ e. (e ≡ fault)
            ⊎ ((F.calls feed.new ≡ self.new.reads) × (F.has_ended feed.new ≡ self.new.ended))) }
    {
        if self.reads == MOST_READS {
            return Err(fault);
        }
        self.ended = false;
        let count = self.block.read(feed, self.size as usize, fault)?;
        self.note(count);
        Ok(count > 0)
    }

    /// Whether the last read gave the end.
    pub fn has_ended(&self) -> bool
        ensures { result ≡ self.now.ended }
    {
        self.ended
    }

    /// Reads to the end, and lets go what comes. Where a read fails, or the most reads don't reach the end, this fault.
    pub fn drain<F: Feed>(&mut self, feed: &mut F, fault: Fault) -> Result<(), Fault>
        requires unended { F.has_ended feed.old ≡ false }
        requires counted { F.calls feed.old ≡ self.old.reads }
        ensures all { (gave : Option (List ℕ)) (done : List ℕ) → Consumes gave (F.left feed.old) done
            → OnOk result ((more : List ℕ) × Agrees gave (done ++ more)) }
        ensures end { OnOk result (IsAtEnd (F.left feed.new)) }
        ensures ended { OnOk result (F.has_ended feed.new ≡ true) }
        ensures bounded { F.calls feed.new ≤ most_reads }
        ensures heard { OnOk result (F.has_failed feed.new ≡ F.has_failed feed.old) }
        // No growth is asked for.
        ensures cut_short { IfErr result (λ e. (e ≡ fault) × IsCutShort (F.has_failed feed.new) (F.calls feed.new)) }
        ensures never_fewer { self.old.reads ≤ self.new.reads }
    {
        let mut count = self.let_go(feed, fault)?;
        while count > 0 {
            count = self.let_go(feed, fault)?;
        }
        Ok(())
    }

    /// Reads once, lets go what comes, and says how many bytes that was. None is the end.
    fn let_go<F: Feed>(&mut self, feed: &mut F, fault: Fault) -> Result<usize, Fault>
        requires unended { F.has_ended feed.old ≡ false }
        requires counted { F.calls feed.old ≡ self.old.reads }
        ensures read { OnOk result ((new : List ℕ) × Consumes (F.left feed.old) (F.left feed.new) new) }
        ensures end { IfOk result (λ count. count ≡ 0 → IsAtEnd (F.left feed.new)) }
        ensures ended { IfOk result (λ count. F.has_ended feed.new ≡ (count == 0)) }
        ensures counted { OnOk result (F.calls feed.new ≡ self.new.reads) }
        ensures one_read { OnOk result (self.new.reads ≡ self.old.reads + 1) }
        ensures bounded { F.calls feed.new ≤ most_reads }
        ensures heard { OnOk result (F.has_failed feed.new ≡ F.has_failed feed.old) }
        ensures cut_short { IfErr result (λ e. (e ≡ fault) × IsCutShort (F.has_failed feed.new) (F.calls feed.new)) }
        ensures never_fewer { self.old.reads ≤ self.new.reads }
    {
        if self.reads == MOST_READS {
            return Err(fault);
        }
        let mut room = [0u8; LET_GO];
        let Ok(count) = feed.read(&mut room) else {
            return Err(fault);
        };
        self.note(count);
        Ok(count)
    }

    /// Notes a read that gave so many bytes.
    fn note(&mut self, count: usize)
        requires { self.old.reads < most_reads }
        ensures reads { self.new.reads ≡ self.old.reads + 1 }
        ensures ended { self.new.ended ≡ (count == 0) }
        ensures block { self.new.block ≡ self.old.block }
        ensures size { self.new.size ≡ self.old.size }
    {
        self.reads += 1;
        self.ended = count == 0;
    }
}
