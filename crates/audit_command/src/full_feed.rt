ghost use Rattle.std.specs.Prelude.{◌≡◌, ◌≢◌, ◌≤◌, ◌<◌, ◌+◌, ℕ, List, Some, [], false, length, take, drop, IfOk, OnErr};
ghost use Rattle.std.specs.Io.KnownBytes.{Consumes, IsAtEnd, Keeps};
ghost use Rattle.audit_command.specs.declared.full_feed.Behind.TheVariants.{More, End};

use audit_input::{Failed, Feed};

/// What comes behind the bytes that a feed gave.
#[derive(Clone, Copy, Debug, PartialEq, Eq)]
enum Behind {
    More,
    End,
    Failure,
}

/// A feed each of whose reads goes on until the buffer is full, the feed ends or a read fails: a pipe gives 64 KiB at
/// most, however much is asked for, and what is read at once is audited by threads of its own.
#[derive(Drop)]
pub struct FullFeed<F: Feed> {
    feed: F,
    behind: Behind,
    calls: u64,
    has_failed: bool,
    has_ended: bool,
    ghost goes_on: { behind ≡ More → F.has_ended feed ≡ false },
    ghost at_end: { behind ≡ End → (left : List ℕ) → F.left feed ≡ Some left → left ≡ [] },
    ghost untouched: { calls ≡ 0 → (has_failed ≡ false) × (has_ended ≡ false) },
}

impl<F: Feed> FullFeed<F> {
    /// Of a feed of which no read was made.
    pub fn new(feed: F) -> FullFeed<F>
        requires { F.calls feed ≡ 0 }
        ensures { ⟦<FullFeed<F> as Feed>⟧.calls result ≡ 0 }
    {
        FullFeed {
            feed,
            behind: Behind::More,
            calls: 0,
            has_failed: false,
            has_ended: false,
        }
    }

    /// Reads until the buffer is full, the feed ends or a read fails, and says how many bytes came.
    fn fill(&mut self, buf: &mut [u8]) -> usize
        requires { self.old.behind ≡ More }
        ensures within { result ≤ length buf.new }
        ensures bytes { Consumes (F.left self.old.feed) (F.left self.new.feed) (take result buf.new) }
        ensures behind { result < length buf.new → self.new.behind ≢ More }
        ensures calls { self.new.calls ≡ self.old.calls }
        ensures failed { self.new.has_failed ≡ self.old.has_failed }
        ensures ended { self.new.has_ended ≡ self.old.has_ended }
    {
        let mut filled = 0;
        while filled < buf.len() {
            match read_behind(&mut self.feed, buf, filled) {
                Ok(0) => {
                    self.behind = Behind::End;
                    break;
                }
                Ok(count) => filled += count,
                Err(_) => {
                    self.behind = Behind::Failure;
                    break;
                }
            }
        }
        filled
    }
}

impl<F: Feed> Feed for FullFeed<F> {
    ghost left = { λ full. F.left full.feed };

    ghost calls = { λ full. full.calls };

    ghost has_failed = { λ full. full.has_failed };

    ghost has_ended = { λ full. full.has_ended };

    fn read(&mut self, buf: &mut [u8]) -> Result<usize, Failed> {
        self.calls = self.calls.saturating_add(1);
        let count = match self.behind {
            Behind::More => self.fill(buf),
            Behind::End | Behind::Failure => 0,
        };
        if count == 0 && self.behind == Behind::Failure {
            self.has_failed = true;
            return Err(Failed);
        }
        if count == 0 && !buf.is_empty() {
            self.has_ended = true;
        }
        Ok(count)
    }

    ghost untouched = { λ full. full.untouched };
}

/// Reads once behind what is filled.
fn read_behind<F: Feed>(feed: &mut F, buf: &mut [u8], filled: usize) -> Result<usize, Failed>
    requires unended { F.has_ended feed.old ≡ false }
    requires room { filled < length buf.old }
    ensures length { length buf.new ≡ length buf.old }
    ensures front { take filled buf.new ≡ take filled buf.old }
    ensures fits { IfOk result (λ count. filled + count ≤ length buf.new) }
    ensures read { IfOk result (λ count. Consumes (F.left feed.old) (F.left feed.new)
        (take count (drop filled buf.new))) }
    ensures end { IfOk result (λ count. count ≡ 0 → IsAtEnd (F.left feed.new)) }
    ensures unended { IfOk result (λ count. 0 < count → F.has_ended feed.new ≡ false) }
    ensures kept { OnErr result (Keeps (F.left feed.old) (F.left feed.new)) }
{
    feed.read(&mut buf[filled..])
}
