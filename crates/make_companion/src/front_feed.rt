ghost use Rattle.std.specs.Prelude.{◌≡◌};

use audit_input::{Failed, Feed};
use std::alloc::Global;

/// How many bytes of a text hints look at, at most.
const FRONT: usize = 1 << 16;

/// A feed that keeps the front of what it gave, which tells what is likely a mistake.
#[derive(Drop)]
pub(crate) struct FrontFeed<F> {
    feed: F,
    front: Vec<u8>,
}

impl<F: Feed> FrontFeed<F> {
    pub(crate) fn new(alloc: Global, feed: F) -> FrontFeed<F>
        ensures { ⟦<FrontFeed<F> as Feed>⟧.calls result ≡ F.calls feed }
    {
        FrontFeed {
            feed,
            front: Vec::new(alloc),
        }
    }

    /// What it gave first.
    pub(crate) fn front(&self) -> &[u8] {
        self.front.as_slice()
    }

    /// Keeps what belongs to the front. Where a growth is refused less is kept.
    fn keep(&mut self, bytes: &[u8])
        ensures { self.new.feed ≡ self.old.feed }
    {
        let room = FRONT.saturating_sub(self.front.len());
        let _ = self
            .front
            .extend_from_slice(bytes.get(..room).unwrap_or(bytes));
    }
}

impl<F: Feed> Feed for FrontFeed<F> {
    ghost left = { λ fronted. F.left fronted.feed };

    ghost calls = { λ fronted. F.calls fronted.feed };

    ghost has_failed = { λ fronted. F.has_failed fronted.feed };

    ghost has_ended = { λ fronted. F.has_ended fronted.feed };

    fn read(&mut self, buf: &mut [u8]) -> Result<usize, Failed> {
        match self.feed.read(buf) {
            Ok(count) => {
                self.keep(buf.get(..count).unwrap_or(&[]));
                Ok(count)
            }
            Err(failed) => Err(failed),
        }
    }

    ghost untouched = { λ fronted. F.untouched fronted.feed };
}
