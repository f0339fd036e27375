use recording_audit::Watch;
use std::time::{Clock, Instant};

/// For how many seconds nothing is told.
const QUIET: u64 = 1;

/// Tells on standard error how far an audit is, where it takes longer than a second.
#[derive(Drop)]
pub(crate) struct Progress<'a, R> {
    rt: &'a R,
    begun: Option<Instant>,
    all: u64,
    done: u64,
    /// The most bytes that were done or tried.
    most: u64,
    told: bool,
}

impl<'a, R: Clock + Eprint> Progress<'a, R> {
    /// Of so many bytes in all; it tells only where that is asked for.
    pub fn new(rt: &'a R, all: u64, tells: bool) -> Progress<'a, R> {
        let begun = if tells { Instant::now(rt).ok() } else { None };
        Progress {
            rt,
            begun,
            all,
            done: 0,
            most: 0,
            told: false,
        }
    }

    /// Tells that it came so far, or how far it was before where that is more.
    fn tell(&mut self, bytes: u64) {
        self.most = self.most.max(bytes);
        let Some(begun) = self.begun else {
            return;
        };
        if let Ok(taken) = begun.elapsed(self.rt) {
            if taken.as_secs() >= QUIET {
                let percent = u128::from(self.most) * 100 / u128::from(self.all.max(1));
                let _ = eprint!(self.rt; "\raudit_recording: {percent} % judged");
                self.told = true;
            }
        }
    }

    /// Wipes what was told.
    pub fn end(&self) {
        if self.told {
            let _ = eprint!(self.rt; "\r                              \r");
        }
    }
}

impl<'a, R: Clock + Eprint> Watch for Progress<'a, R> {
    fn pass(&mut self, bytes: u64) {
        self.done = self.done.saturating_add(bytes);
        self.tell(self.done);
    }

    fn tried(&mut self, bytes: u64) {
        self.tell(self.done.saturating_add(bytes));
    }
}
