ghost use Rattle.std.specs.Prelude.{◌≡◌};

use cfs_model::{IdleLine, NO_LINE};

/// From which line on the task of a pid is of the idle policy, and where that ends.
#[derive(Clone, Copy, Debug, PartialEq, Eq)]
pub struct IdleSpan {
    pub pid: u32,
    /// The line in the trace of the birth that begins it, from 1, comments counted; `NO_LINE` for the start.
    pub from: u32,
    /// The line in the trace of the next birth of this pid, which ends it; `NO_LINE` while none is known.
    pub until: u32,
}

impl IdleSpan {
    ghost use Rattle.companion_file.specs.Spans.{span_of};

    /// The span that an idle line begins.
    pub(crate) fn of(idle: IdleLine) -> IdleSpan
        ensures { result ≡ span_of idle }
    {
        IdleSpan {
            pid: idle.pid,
            from: idle.line,
            until: NO_LINE,
        }
    }
}
