ghost use Rattle.std.specs.Prelude.{◌≡◌};
ghost use Rattle.companion_maker.specs.declared.not_made.NotMade.TheVariants as reasons;

use cfs_model::Memory;
use std::alloc::AllocError;

/// Why no companion was made.
#[derive(Clone, Copy, Debug, PartialEq, Eq)]
pub enum NotMade {
    /// An event touches a processor that no companion has: the line of the first such event.
    CpuOutside { line: u64 },
    /// A growth was refused.
    Memory,
}

impl From<Memory> for NotMade {
    ghost from_gives = { λ _ why. why ≡ reasons.Memory };

    fn from(_want: Memory) -> NotMade {
        NotMade::Memory
    }
}

impl From<AllocError> for NotMade {
    ghost from_gives = { λ _ why. why ≡ reasons.Memory };

    fn from(_want: AllocError) -> NotMade {
        NotMade::Memory
    }
}
