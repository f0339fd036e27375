ghost use Rattle.std.specs.Prelude.{◌≡◌};

use crate::checkpoint::Checkpoint;
use crate::checkpoints::Checkpoints;
use crate::kept_text::KeptText;
use crate::{Failed, Feed, Keeping};
use std::alloc::Global;
use std::cell::Cell;
use std::io;

/// A feed that keeps what it gives, as far as that is asked for, and checkpoints among its lines.
#[derive(Drop)]
pub struct KeepingFeed<F> {
    feed: F,
    kept: KeptText,
    checkpoints: Checkpoints,
    /// How much was found so far.
    findings: Cell<u32>,
}

impl<F: Feed> KeepingFeed<F> {
    pub fn new(alloc: Global, feed: F, keeping: Keeping) -> KeepingFeed<F>
        ensures { ⟦<KeepingFeed<F> as Feed>⟧.calls result ≡ F.calls feed }
    {
        KeepingFeed {
            feed,
            kept: KeptText::new(alloc, keeping),
            checkpoints: Checkpoints::new(alloc),
            findings: Cell::new(0),
        }
    }

    /// The line of this number, from 1, if the text has it. None where its file is to be asked.
    pub(crate) fn kept_line(&self, number: u64) -> Option<io::Result<Option<Vec<u8>>>> {
        self.kept.line(self.checkpoint_before(number), number)
    }

    /// The last checkpoint before the line of this number, from 1.
    pub(crate) fn checkpoint_before(&self, number: u64) -> Checkpoint {
        self.checkpoints.before(number)
    }

    /// Counts the lines of more that is given, and keeps it.
    fn pass(&mut self, bytes: &[u8])
        ensures { self.new.feed ≡ self.old.feed }
    {
        let begins = self.checkpoints.end();
        self.kept.pass(begins, bytes, self.findings.get());
        self.checkpoints.pass(bytes);
    }
}

impl<F: Feed> Feed for KeepingFeed<F> {
    ghost left = { λ keeping. F.left keeping.feed };

    ghost calls = { λ keeping. F.calls keeping.feed };

    ghost has_failed = { λ keeping. F.has_failed keeping.feed };

    ghost has_ended = { λ keeping. F.has_ended keeping.feed };

    fn read(&mut self, buf: &mut [u8]) -> Result<usize, Failed> {
        match self.feed.read(buf) {
            Ok(count) => {
                self.pass(&buf[..count]);
                Ok(count)
            }
            Err(failed) => Err(failed),
        }
    }

    fn note_findings(&self, count: u32) {
        self.findings.set(count);
    }

    ghost untouched = { λ keeping. F.untouched keeping.feed };
}
