ghost use Rattle.std.specs.Prelude.{◌≡◌};

use cfs_model::Knobs;
use companion_guess::Wishes;

/// What is asked of the audit of a recording.
#[derive(Clone, Copy, Debug)]
pub struct Asked<'a> {
    /// By what the companions are made.
    pub wishes: Wishes,
    /// What `sched/debug` told as the recording began.
    pub debug: Option<&'a [u8]>,
    /// The fewest events of a stretch.
    pub least_events: u64,
    /// The settings that no stretch may need more than.
    pub limits: Knobs,
}

impl<'a> Asked<'a> {
    /// The same of a text that begins where the recording does, or of one that stands further behind.
    pub(crate) fn at(&self, begins: bool) -> Asked<'a>
        ensures { result.limits ≡ self.now.limits }
    {
        Asked {
            wishes: self.wishes,
            debug: self.debug.filter(|_debug| begins),
            least_events: self.least_events,
            limits: self.limits,
        }
    }
}
