ghost use Rattle.std.specs.Prelude.{◌≡◌, ◌⊎◌, ◌<◌, ◌≤◌, ℕ, List, Option, false, [], IfErr, OnOk};
ghost use Rattle.audit_input.specs.Known.{IsCutShort, most_reads};
ghost use Rattle.companion_file.specs.Earlier.{Said, summed};
ghost use Rattle.stream_audit.specs.Companion.{IsCompanionAt, IsFedBy, IsPast, SaysOn};

use audit_input::{Fault, Feed};
use companion_file::CompanionReader;
use input_blocks::LineBlocks;
use std::alloc::Global;

/// A recording's companion, which is read a block at a time.
#[derive(Drop)]
pub(crate) struct CompanionInput {
    blocks: LineBlocks,
    pub reader: CompanionReader,
    /// Whether the input goes on behind what was read.
    goes_on: bool,
}

impl CompanionInput {
    /// Before the first read; each will ask for at most so many bytes.
    pub fn new(alloc: Global, size: u32) -> CompanionInput
        requires { 0 < size }
        ensures at { (gave : Option (List ℕ)) → IsCompanionAt gave gave result (summed []) 0 }
        ensures fed { IsFedBy 0 false false result }
    {
        CompanionInput {
            blocks: LineBlocks::new(alloc, size),
            reader: CompanionReader::new(alloc),
            goes_on: true,
        }
    }

    /// Reads on until nothing more can be said of lines of the trace up to this one.
    pub fn read_past<C: Feed>(&mut self, feed: &mut C, line: u32) -> Result<(), Fault>
        requires { IsFedBy (C.calls feed.old) (C.has_ended feed.old) (C.has_failed feed.old) self.old }
        ensures fed { OnOk result (IsFedBy (C.calls feed.new) (C.has_ended feed.new) (C.has_failed feed.new) self.new) }
        ensures read { (gave : Option (List ℕ)) (said : Said) (edge : ℕ)
            → IsCompanionAt gave (C.left feed.old) self.old said edge
            → OnOk result (SaysOn gave (C.left feed.new) self.old self.new said edge) }
        ensures past { OnOk result ((gave : Option (List ℕ)) (said : Said) (edge : ℕ)
            → IsCompanionAt gave (C.left feed.new) self.new said edge → IsPast line said self.new) }
        ensures bounded { C.calls feed.new ≤ most_reads }
        ensures cut_short { IfErr result (λ e. ((e ≡ Fault.Memory) × (C.has_failed feed.new ≡ false))
            ⊎ ((e ≡ Fault.ReadCompanion) × IsCutShort (C.has_failed feed.new) (C.calls feed.new))) }
    {
        while self.goes_on && !self.reader.reaches_past(line) {
            feed.note_findings(u32::from(self.reader.is_bad()));
            self.goes_on = self
                .blocks
                .next(feed, &mut self.reader, Fault::ReadCompanion)?;
        }
        Ok(())
    }

    /// Reads to the end.
    pub fn read_rest<C: Feed>(&mut self, feed: &mut C) -> Result<(), Fault>
        requires { IsFedBy (C.calls feed.old) (C.has_ended feed.old) (C.has_failed feed.old) self.old }
        ensures fed { OnOk result (IsFedBy (C.calls feed.new) (C.has_ended feed.new) (C.has_failed feed.new) self.new) }
        ensures read { (gave : Option (List ℕ)) (said : Said) (edge : ℕ)
            → IsCompanionAt gave (C.left feed.old) self.old said edge
            → OnOk result (SaysOn gave (C.left feed.new) self.old self.new said edge) }
        ensures done { OnOk result (self.new.goes_on ≡ false) }
        ensures bounded { C.calls feed.new ≤ most_reads }
        ensures cut_short { IfErr result (λ e. ((e ≡ Fault.Memory) × (C.has_failed feed.new ≡ false))
            ⊎ ((e ≡ Fault.ReadCompanion) × IsCutShort (C.has_failed feed.new) (C.calls feed.new))) }
    {
        while self.goes_on {
            feed.note_findings(u32::from(self.reader.is_bad()));
            self.goes_on = self
                .blocks
                .next(feed, &mut self.reader, Fault::ReadCompanion)?;
        }
        Ok(())
    }
}
