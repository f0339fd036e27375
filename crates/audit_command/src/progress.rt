//! How far a long text is read, said on standard error where that is a terminal.
ghost use Rattle.std.specs.Prelude.{◌≡◌};

use audit_input::{Failed, Feed};
use given_texts::Input;

/// A text of so many bytes is read without a word.
const QUIET: u64 = 100_000_000;

/// Which text it is whose progress is told, and how long that is; 0 where none is told.
#[derive(Clone, Copy, Debug, PartialEq, Eq)]
pub struct Size {
    name: &'static str,
    bytes: u64,
}

/// Those of both texts.
#[derive(Clone, Copy, Debug, PartialEq, Eq)]
pub struct Lengths {
    pub trace: Size,
    pub companion: Size,
}

impl Lengths {
    /// Of their files.
    pub fn of<F>(trace: &Input<F>, companion: &Input<F>, is_seen: bool) -> Lengths {
        Lengths {
            trace: Size::of("trace", trace, is_seen),
            companion: Size::of("companion", companion, is_seen),
        }
    }
}

impl Size {
    /// Of a file: its progress is told where that is seen, and the file is regular and long.
    fn of<F>(name: &'static str, input: &Input<F>, is_seen: bool) -> Size {
        let length = input.length();
        let bytes = if is_seen && length > QUIET { length } else { 0 };
        Size { name, bytes }
    }

    /// How many percent of it these bytes are, if its progress is told.
    fn percent(self, done: u64) -> Option<u64> {
        if self.bytes == 0 {
            return None;
        }
        let percent = u128::from(done) * 100 / u128::from(self.bytes);
        Some(percent.min(100) as u64)
    }
}

/// A feed that says how far it is read, at each further percent, and wipes that at its end.
#[derive(Drop)]
pub struct WatchedFeed<'a, R, F> {
    rt: &'a R,
    feed: F,
    size: Size,
    done: u64,
    told: u64,
}

impl<'a, R: Eprint, F: Feed> WatchedFeed<'a, R, F> {
    pub fn new(rt: &'a R, feed: F, size: Size) -> WatchedFeed<'a, R, F>
        ensures { ⟦<WatchedFeed<'a, R, F> as Feed>⟧.calls result ≡ F.calls feed }
    {
        WatchedFeed {
            rt,
            feed,
            size,
            done: 0,
            told: 0,
        }
    }

    /// Counts more that is read; none at the end.
    fn pass(&mut self, count: usize)
        ensures { self.new.feed ≡ self.old.feed }
    {
        self.done = self.done.saturating_add(count as u64);
        let Some(percent) = self.size.percent(self.done) else {
            return;
        };
        if count == 0 {
            let _ = eprint!(self.rt; "\r                                 \r");
        } else if percent > self.told {
            let name = self.size.name;
            let _ = eprint!(self.rt; "\rsched_audit: {name} {percent} % read    ");
            self.told = percent;
        }
    }
}

impl<'a, R: Eprint, F: Feed> Feed for WatchedFeed<'a, R, F> {
    ghost left = { λ watched. F.left watched.feed };

    ghost calls = { λ watched. F.calls watched.feed };

    ghost has_failed = { λ watched. F.has_failed watched.feed };

    ghost has_ended = { λ watched. F.has_ended watched.feed };

    fn read(&mut self, buf: &mut [u8]) -> Result<usize, Failed> {
        match self.feed.read(buf) {
            Ok(count) => {
                self.pass(count);
                Ok(count)
            }
            Err(failed) => Err(failed),
        }
    }

    ghost untouched = { λ watched. F.untouched watched.feed };
}
