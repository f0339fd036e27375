ghost use Rattle.std.specs.Prelude.{◌≡◌, ℕ};

use cfs_model::{ChargeLine, Claim, IdleLine, NiceLine};

/// What a companion says of a line of the trace.
pub(crate) trait OnLine {
    ghost line: { Self → ℕ };

    /// From 1, comments counted; `NO_LINE` for the start.
    fn line(&self) -> u32
        ensures { result ≡ line self.now };
}

impl OnLine for Claim {
    ghost line = { λ claim. claim.line };

    fn line(&self) -> u32 {
        self.line
    }
}

impl OnLine for NiceLine {
    ghost line = { λ change. change.line };

    fn line(&self) -> u32 {
        self.line
    }
}

impl OnLine for ChargeLine {
    ghost line = { λ charge. charge.line };

    fn line(&self) -> u32 {
        self.line
    }
}

impl OnLine for IdleLine {
    ghost line = { λ idle. idle.line };

    fn line(&self) -> u32 {
        self.line
    }
}
