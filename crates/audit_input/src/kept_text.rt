use crate::Keeping;
use crate::checkpoint::Checkpoint;
use crate::kept_reads::KeptReads;
use crate::line_finding::line_of;
use std::alloc::{AllocError, Global};
use std::io;
use std::io::ErrorKind;

/// What is kept of a text that goes by.
#[derive(Drop)]
pub(crate) struct KeptText {
    alloc: Global,
    keeping: Keeping,
    /// All bytes, where these are kept.
    all: Vec<u8>,
    latest: KeptReads,
    /// How much was found when reads were held last.
    findings: u32,
    /// Those that were the latest then.
    held: KeptReads,
    /// How many lines of the text had ended by then.
    held_lines: u64,
    /// Whether there was no memory for it.
    is_short: bool,
}

impl KeptText {
    /// Before the first read.
    pub(crate) fn new(alloc: Global, keeping: Keeping) -> KeptText {
        KeptText {
            alloc,
            keeping,
            all: Vec::new(alloc),
            latest: KeptReads::new(alloc),
            findings: 0,
            held: KeptReads::new(alloc),
            held_lines: 0,
            is_short: false,
        }
    }

    /// More of the text goes by, which begins here, once so much was found.
    pub(crate) fn pass(&mut self, begins: Checkpoint, bytes: &[u8], findings: u32) {
        if self.is_short || bytes.is_empty() {
            return;
        }
        if self.keep(begins, bytes, findings).is_err() {
            self.is_short = true;
        }
    }

    fn keep(&mut self, begins: Checkpoint, bytes: &[u8], findings: u32) -> Result<(), AllocError> {
        match self.keeping {
            Keeping::Nothing => Ok(()),
            Keeping::Last => {
                self.hold(begins, findings)?;
                self.latest.push(begins, bytes)
            }
            Keeping::All => self.all.extend_from_slice(bytes),
        }
    }

    /// Holds the latest reads, which end here, where more was found than when others were held.
    fn hold(&mut self, end: Checkpoint, findings: u32) -> Result<(), AllocError> {
        if findings > self.findings {
            self.findings = findings;
            self.held_lines = end.lines;
            self.held.copy_from(&self.latest)?;
        }
        Ok(())
    }

    /// The line of this number, from 1, without its line feed, if the text has it; where all is kept, it is sought from
    /// this checkpoint on. None where nothing is kept, and its file is to be asked.
    pub(crate) fn line(
        &self,
        checkpoint: Checkpoint,
        number: u64,
    ) -> Option<io::Result<Option<Vec<u8>>>> {
        match self.keeping {
            Keeping::Nothing => None,
            _ if self.is_short => Some(Err(io::Error::from(ErrorKind::OutOfMemory))),
            Keeping::Last => Some(self.line_of_last(number)),
            Keeping::All => Some(self.line_of_all(checkpoint, number)),
        }
    }

    fn line_of_last(&self, number: u64) -> io::Result<Option<Vec<u8>>> {
        if self.latest.begin_before(number) {
            self.latest.line(self.alloc, number)
        } else if number <= self.held_lines && self.held.begin_before(number) {
            self.held.line(self.alloc, number)
        } else {
            Err(io::Error::from(ErrorKind::NotFound))
        }
    }

    fn line_of_all(&self, checkpoint: Checkpoint, number: u64) -> io::Result<Option<Vec<u8>>> {
        let text = self.all.get(checkpoint.offset as usize..).unwrap_or(&[]);
        line_of(self.alloc, text, number.saturating_sub(checkpoint.lines))
    }
}
