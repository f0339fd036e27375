//! A companion's reader, a block at a time.
ghost use Rattle.input_blocks.specs.OfCompanion.{ReadsCompanion, reads_none, reads_on};

use crate::LineReader;
use cfs_model::Memory;
use companion_file::CompanionReader;

impl LineReader for CompanionReader {
    ghost reads = { ReadsCompanion };

    fn read(&mut self, text: &[u8]) -> Result<(), Memory> {
        CompanionReader::read(self, text)
    }

    ghost told = { λ line. ⊥ };

    /// A companion's line is read whole.
    fn settles(&self, _line: &[u8]) -> bool {
        false
    }

    ghost reads_none = { reads_none };

    ghost reads_on = { reads_on };
}
