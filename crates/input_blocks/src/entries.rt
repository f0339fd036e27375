//! The reader of a trace whose events are taken out, a block at a time.
ghost use Rattle.ftrace_line.specs.Front.{IsTold};
ghost use Rattle.input_blocks.specs.OfEntries.{ReadsEntries, reads_none, reads_on};

use crate::LineReader;
use cfs_model::Memory;
use entry_reader::EntryReader;
use ftrace_line::is_settled;

impl LineReader for EntryReader {
    ghost reads = { ReadsEntries };

    fn read(&mut self, text: &[u8]) -> Result<(), Memory> {
        EntryReader::read(self, text)
    }

    ghost told = { IsTold };

    fn settles(&self, line: &[u8]) -> bool {
        EntryReader::settled_line();
        is_settled(line)
    }

    ghost reads_none = { reads_none };

    ghost reads_on = { reads_on };
}
