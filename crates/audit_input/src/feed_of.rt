ghost use Rattle.std.specs.Prelude.{◌≡◌, ◌≤◌, ◌||◌, false, length, is_err, IfOk};
ghost use Rattle.std.specs.Io.KnownBytes.{ReadConsumes};
ghost use Rattle.audit_input.specs.Known.{one_more};

use crate::{Failed, Feed};
use std::io::Read;

/// A reader of std as a `Feed`: each read is one read of it. Its bytes are known where the reader's are.
#[derive(Drop)]
pub struct FeedOf<R> {
    reader: R,
    calls: u64,
    has_failed: bool,
    has_ended: bool,
    ghost untouched: { calls ≡ 0 → (has_failed ≡ false) × (has_ended ≡ false) },
}

impl<R: Read> FeedOf<R> {
    pub fn new(reader: R) -> FeedOf<R>
        ensures left { ⟦<FeedOf<R> as Feed>⟧.left result ≡ R.remaining reader }
        ensures calls { ⟦<FeedOf<R> as Feed>⟧.calls result ≡ 0 }
        ensures failed { ⟦<FeedOf<R> as Feed>⟧.has_failed result ≡ false }
        ensures ended { ⟦<FeedOf<R> as Feed>⟧.has_ended result ≡ false }
    {
        FeedOf {
            reader,
            calls: 0,
            has_failed: false,
            has_ended: false,
        }
    }
}

impl<R: Read> Feed for FeedOf<R> {
    ghost left = { λ feed. R.remaining feed.reader };

    ghost calls = { λ feed. feed.calls };

    ghost has_failed = { λ feed. feed.has_failed };

    ghost has_ended = { λ feed. feed.has_ended };

    fn read(&mut self, buf: &mut [u8]) -> Result<usize, Failed> {
        self.calls = self.calls.saturating_add(1);
        match self.reader.read(buf) {
            Ok(count) => {
                if count == 0 && !buf.is_empty() {
                    self.has_ended = true;
                }
                Ok(count)
            }
            Err(_) => {
                self.has_failed = true;
                Err(Failed)
            }
        }
    }

    ghost untouched = { λ feed. feed.untouched };
}
