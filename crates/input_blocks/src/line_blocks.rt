use crate::LineReader;
use crate::block_source::BlockSource;
use crate::passing::Passing;
use audit_input::{Fault, Feed};
use cfs_model::Memory;
use std::alloc::Global;
use std::mem::swap;
use text_parts::lines::lines_after_whole;

/// An input that is read a block at a time. The lines of what was read are passed on to a reader of lines: at once, or
/// while the next blocks are read.
#[derive(Debug, Drop)]
pub struct LineBlocks {
    pub passing: Passing,
    pub source: BlockSource,
}

impl LineBlocks {
    ghost use Rattle.std.specs.Prelude.{◌≡◌, ◌⊎◌, ◌<◌, ◌≤◌, ◌+◌, ℕ, List, Option, [], Ok, true, false, not};
    ghost use Rattle.std.specs.Prelude.{IfErr, IfOk, OnOk, max};
    ghost use Rattle.std.specs.Io.KnownBytes.{IsAtEnd};
    ghost use Rattle.audit_input.specs.Known.{IsCutShort, most_reads};
    ghost use Rattle.input_blocks.specs.Blocks.{ComesTo, IsAmid, IsFresh, filled};

    /// Of an input of which no read was made; each will ask for at most so many bytes. It takes no memory.
    pub fn new(alloc: Global, size: u32) -> LineBlocks
        requires { 0 < size }
        ensures { IsFresh result }
    {
        LineBlocks {
            passing: Passing::new(alloc),
            source: BlockSource::new(alloc, size),
        }
    }

    /// Reads once, passes the lines that have ended on to the reader, and says whether the input goes on. At its end
    /// the last line is passed on. Where the read fails, or the most reads were made before, this fault.
    pub fn next<F: Feed, L: LineReader>(
        &mut self,
        feed: &mut F,
        reader: &mut L,
        fault: Fault,
    ) -> Result<bool, Fault>
        requires unended { F.has_ended feed.old ≡ false }
        requires counted { F.calls feed.old ≡ self.old.source.reads }
        ensures passed { (gave : Option (List ℕ)) (done : List ℕ)
            → IsAmid L.reads gave (F.left feed.old) self.old done
            → IfOk result (λ goes_on. ComesTo L.reads reader.old reader.new gave (F.left feed.new) self.new done
            goes_on) }
        ensures end { IfOk result (λ goes_on. goes_on ≡ false → IsAtEnd (F.left feed.new)) }
        ensures ended { IfOk result (λ goes_on. F.has_ended feed.new ≡ not goes_on) }
        ensures counted { OnOk result (F.calls feed.new ≡ self.new.source.reads) }
        ensures one_read { OnOk result (self.new.source.reads ≡ self.old.source.reads + 1) }
        ensures bounded { F.calls feed.new ≤ most_reads }
        ensures heard { OnOk result (F.has_failed feed.new ≡ F.has_failed feed.old) }
        ensures cut_short { IfErr result (λ e. ((e ≡ Fault.Memory) × (F.has_failed feed.new ≡ F.has_failed feed.old))
            ⊎ ((e ≡ fault) × IsCutShort (F.has_failed feed.new) (F.calls feed.new))) }
        ensures never_fewer { self.old.source.reads ≤ self.new.source.reads }
        ensures told { OnOk result (F.has_ended feed.new ≡ self.new.source.ended) }
        // Where memory is wanted, the blocks tell all the same how the input stands.
        ensures wanted { IfErr result (λ e. (e ≡ fault)
            ⊎ ((F.calls feed.new ≡ self.new.source.reads) × (F.has_ended feed.new ≡ self.new.source.ended))) }
    {
        let goes_on = self.source.read_once(feed, fault)?;
        self.pass_all(reader, goes_on)?;
        Ok(goes_on)
    }

    /// Reads so many times, one at least, while the input goes on, and passes the lines that have ended on to the
    /// reader each time, as `next` does. Says whether the input goes on.
    pub fn next_some<F: Feed, L: LineReader>(
        &mut self,
        feed: &mut F,
        reader: &mut L,
        most: u32,
        fault: Fault,
    ) -> Result<bool, Fault>
        requires unended { F.has_ended feed.old ≡ false }
        requires counted { F.calls feed.old ≡ self.old.source.reads }
        ensures passed { (gave : Option (List ℕ)) (done : List ℕ)
            → IsAmid L.reads gave (F.left feed.old) self.old done
            → IfOk result (λ goes_on. ComesTo L.reads reader.old reader.new gave (F.left feed.new) self.new done
            goes_on) }
        ensures end { IfOk result (λ goes_on. goes_on ≡ false → IsAtEnd (F.left feed.new)) }
        ensures ended { IfOk result (λ goes_on. F.has_ended feed.new ≡ not goes_on) }
        ensures counted { OnOk result (F.calls feed.new ≡ self.new.source.reads) }
        ensures read_on { OnOk result (self.old.source.reads < self.new.source.reads) }
        ensures no_more { OnOk result (self.new.source.reads ≤ self.old.source.reads + max 1 most) }
        ensures so_many { IfOk result (λ goes_on. goes_on ≡ true
            → self.old.source.reads + most ≤ self.new.source.reads) }
        ensures bounded { F.calls feed.new ≤ most_reads }
        ensures heard { OnOk result (F.has_failed feed.new ≡ F.has_failed feed.old) }
        ensures cut_short { IfErr result (λ e. ((e ≡ Fault.Memory) × (F.has_failed feed.new ≡ F.has_failed feed.old))
            ⊎ ((e ≡ fault) × IsCutShort (F.has_failed feed.new) (F.calls feed.new))) }
        ensures never_fewer { self.old.source.reads ≤ self.new.source.reads }
        ensures told { OnOk result (F.has_ended feed.new ≡ self.new.source.ended) }
        // Where memory is wanted, the blocks tell all the same how the input stands.
        ensures wanted { IfErr result (λ e. (e ≡ fault)
            ⊎ ((F.calls feed.new ≡ self.new.source.reads) × (F.has_ended feed.new ≡ self.new.source.ended))) }
    {
        lines_after_whole();
        let mut goes_on = self.next(feed, reader, fault)?;
        let mut left = most;
        while goes_on && left > 1 {
            goes_on = self.next(feed, reader, fault)?;
            left -= 1;
        }
        Ok(goes_on)
    }

    /// Goes on behind a passing and some reads that were made beside it (`Passing::pass`, `BlockSource::read_some`):
    /// what was read is passed on beside the next reads, or now, where the input has ended.
    pub fn turn<L: LineReader>(
        &mut self,
        reader: &mut L,
        passed: Result<(), Memory>,
        read: Result<bool, Fault>,
    ) -> Result<bool, Fault>
        requires { OnOk passed (filled self.old.passing.ahead ≡ []) }
        ensures passed { (gave : Option (List ℕ)) (left : Option (List ℕ)) (done : List ℕ)
            → IsAmid L.reads gave left self.old done → IfOk read (λ goes_on. goes_on ≡ false → IsAtEnd left)
            → IfOk result (λ goes_on. ComesTo L.reads reader.old reader.new gave left self.new done goes_on) }
        ensures same { IfOk result (λ goes_on. (read ≡ Ok goes_on) × (passed ≡ Ok tt)) }
        ensures reads { self.new.source.reads ≡ self.old.source.reads }
        ensures ended { self.new.source.ended ≡ self.old.source.ended }
        ensures told { IfErr result (λ e. IfErr read (λ f. e ≡ f)) }
        ensures wanted { IfErr result (λ e. OnOk read (e ≡ Fault.Memory)) }
    {
        lines_after_whole();
        let goes_on = read?;
        passed?;
        swap(&mut self.passing.ahead, &mut self.source.block);
        if !goes_on {
            self.pass_all(reader, false)?;
        }
        Ok(goes_on)
    }

    /// Passes all on that was read; the last line, too, if the input doesn't go on.
    fn pass_all<L: LineReader>(&mut self, reader: &mut L, goes_on: bool) -> Result<(), Memory>
        ensures passed { (gave : Option (List ℕ)) (left : Option (List ℕ)) (done : List ℕ)
            → IsAmid L.reads gave left self.old done → (goes_on ≡ false → IsAtEnd left)
            → OnOk result (ComesTo L.reads reader.old reader.new gave left self.new done goes_on) }
        ensures reads { self.new.source.reads ≡ self.old.source.reads }
        ensures ended { self.new.source.ended ≡ self.old.source.ended }
    {
        lines_after_whole();
        self.passing.pass(reader)?;
        self.passing.begun.pass(reader, self.source.block.filled())?;
        self.source.block.clear();
        if !goes_on {
            self.passing.begun.pass_last(reader)?;
        }
        Ok(())
    }
}
