ghost use Rattle.std.specs.Prelude.{◌≡◌};
ghost use Rattle.companion_file.specs.declared.fault.Refusal.TheVariants.{Memory};

use std::alloc::{AllocError, AllocFailed};

/// What is wrong with the first bad line of a companion, in the order in which a line is tested; `Short` alone is of no
/// line.
#[derive(Clone, Copy, Debug, PartialEq, Eq)]
pub enum CompanionCause {
    /// The first line names another format or a version of it that isn't known.
    Version,
    /// The line speaks of a control group.
    Group,
    /// The line has none of the shapes.
    BadLine,
    /// The line may not stand here.
    Order,
    /// A number is out of its limits.
    NumberRange,
    /// The task has the pid of the last one.
    TwiceNamed,
    /// A task runs at this processor already.
    TwiceRunning,
    /// The line of the trace that a claim, a change of a nice value, a charge or an idle line names doesn't rise, or at
    /// one line the pids of idle lines don't.
    LineOrder,
    /// The text ends before the floor of the last processor.
    Short,
    /// A task of the start state is to be of the idle policy, and none has this pid.
    NoTask,
}

/// Why a text gave no companion.
#[derive(Clone, Copy, Debug, PartialEq, Eq)]
pub enum CompanionFault {
    /// The first bad line, or the one that is missing.
    Text {
        /// The line of the companion, from 1, comments counted.
        line: u64,
        cause: CompanionCause,
    },
    /// A growth was refused.
    Memory,
}

impl From<AllocError> for CompanionFault {
    ghost use Rattle.std.specs.Prelude.{◌≡◌};
    ghost use Rattle.companion_file.specs.declared.fault.CompanionFault.TheVariants as faults;

    ghost from_gives = { λ _ e. e ≡ faults.Memory };

    fn from(_refused: AllocError) -> CompanionFault {
        CompanionFault::Memory
    }
}

/// Why a line was not taken.
#[derive(Clone, Copy, Debug)]
pub(crate) enum Refusal {
    Bad(CompanionCause),
    /// A growth was refused.
    Memory,
}

impl From<AllocError> for Refusal {
    ghost from_gives = { λ _ e. e ≡ Memory };

    fn from(_refused: AllocError) -> Refusal {
        Refusal::Memory
    }
}

impl<T: Drop> From<AllocFailed<T>> for Refusal {
    ghost from_gives = { λ _ e. e ≡ Memory };

    fn from(_refused: AllocFailed<T>) -> Refusal {
        Refusal::Memory
    }
}

impl Refusal {
    ghost use Rattle.std.specs.Prelude.{◌≡◌};
    ghost use Rattle.companion_file.specs.Draft.{fault_at};

    /// The fault of a text whose line was refused.
    pub(crate) fn at(self, line: u64) -> CompanionFault
        ensures { result ≡ fault_at line self }
    {
        match self {
            Refusal::Bad(cause) => CompanionFault::Text { line, cause },
            Refusal::Memory => CompanionFault::Memory,
        }
    }
}
