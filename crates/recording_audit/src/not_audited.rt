ghost use Rattle.std.specs.Prelude.{◌≡◌};
ghost use Rattle.recording_audit.specs.Pieces.{numbered_at};

use crate::cut_cause::CutCause;
use cfs_model::Memory;
use std::alloc::AllocError;

/// Why a recording wasn't audited to its end.
#[derive(Clone, Copy, Debug, PartialEq, Eq)]
pub enum NotAudited {
    /// A line can't be read on from: its number, from 1, comments counted, and why.
    Refused { line: u64, cause: CutCause },
    /// A growth was refused.
    Memory,
}

impl NotAudited {
    /// The same at this line.
    pub(crate) fn at(self, number: u64) -> NotAudited
        ensures { result ≡ numbered_at number self }
    {
        match self {
            NotAudited::Refused { cause, .. } => NotAudited::Refused {
                line: number,
                cause,
            },
            NotAudited::Memory => NotAudited::Memory,
        }
    }
}

impl From<Memory> for NotAudited {
    ghost use Rattle.std.specs.Prelude.{◌≡◌};
    ghost use Rattle.recording_audit.specs.declared.not_audited.NotAudited.TheVariants as nots;

    ghost from_gives = { λ _ why. why ≡ nots.Memory };

    fn from(_want: Memory) -> NotAudited {
        NotAudited::Memory
    }
}

impl From<AllocError> for NotAudited {
    ghost use Rattle.std.specs.Prelude.{◌≡◌};
    ghost use Rattle.recording_audit.specs.declared.not_audited.NotAudited.TheVariants as nots;

    ghost from_gives = { λ _ why. why ≡ nots.Memory };

    fn from(_want: AllocError) -> NotAudited {
        NotAudited::Memory
    }
}
