use cfs_model::Memory;
use std::alloc::AllocError;

/// Why the states weren't all written.
#[derive(Clone, Copy, Debug, PartialEq, Eq)]
pub enum NotWritten {
    /// A growth was refused.
    Memory,
    /// A write failed.
    Write,
}

impl From<Memory> for NotWritten {
    ghost use Rattle.std.specs.Prelude.{◌≡◌};
    ghost use Rattle.state_lines.specs.declared.not_written.NotWritten.TheVariants.{Memory};

    ghost from_gives = { λ _ reason. reason ≡ Memory };

    fn from(_refused: Memory) -> NotWritten {
        NotWritten::Memory
    }
}

impl From<AllocError> for NotWritten {
    ghost use Rattle.std.specs.Prelude.{◌≡◌};
    ghost use Rattle.state_lines.specs.declared.not_written.NotWritten.TheVariants.{Memory};

    ghost from_gives = { λ _ reason. reason ≡ Memory };

    fn from(_refused: AllocError) -> NotWritten {
        NotWritten::Memory
    }
}
