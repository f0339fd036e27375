use crate::checkpoint::Checkpoint;
use crate::kept_read::KeptRead;
use crate::line_finding::line_of;
use std::alloc::{AllocError, Global};
use std::io;
use std::io::Read;
use std::mem::swap;

/// The last reads of a text. While the latest is made, the lines of the one before it are read, the one before that is
/// joined, and the one before that is audited. A line of that one may begin in one more, so there are five.
#[derive(Drop)]
pub(crate) struct KeptReads {
    first: KeptRead,
    second: KeptRead,
    third: KeptRead,
    fourth: KeptRead,
    fifth: KeptRead,
}

impl KeptReads {
    /// Before the first read.
    pub(crate) fn new(alloc: Global) -> KeptReads {
        KeptReads {
            first: KeptRead::empty(alloc),
            second: KeptRead::empty(alloc),
            third: KeptRead::empty(alloc),
            fourth: KeptRead::empty(alloc),
            fifth: KeptRead::empty(alloc),
        }
    }

    /// Keeps one more read, which begins here, and lets go the first.
    pub(crate) fn push(&mut self, begins: Checkpoint, bytes: &[u8]) -> Result<(), AllocError> {
        swap(&mut self.first, &mut self.second);
        swap(&mut self.second, &mut self.third);
        swap(&mut self.third, &mut self.fourth);
        swap(&mut self.fourth, &mut self.fifth);
        self.fifth.take(begins, bytes)
    }

    /// Keeps the same reads as another one.
    pub(crate) fn copy_from(&mut self, other: &KeptReads) -> Result<(), AllocError> {
        self.first.copy_from(&other.first)?;
        self.second.copy_from(&other.second)?;
        self.third.copy_from(&other.third)?;
        self.fourth.copy_from(&other.fourth)?;
        self.fifth.copy_from(&other.fifth)
    }

    /// Whether they begin before the line of this number, from 1.
    pub(crate) fn begin_before(&self, number: u64) -> bool {
        self.first.begins.is_before(number)
    }

    /// The line of this number, before which they begin, if they have it.
    pub(crate) fn line(&self, alloc: Global, number: u64) -> io::Result<Option<Vec<u8>>> {
        let first = self.first.bytes.as_slice();
        let text = first
            .chain(self.second.bytes.as_slice())
            .chain(self.third.bytes.as_slice())
            .chain(self.fourth.bytes.as_slice())
            .chain(self.fifth.bytes.as_slice());
        line_of(alloc, text, number.saturating_sub(self.first.begins.lines))
    }
}
