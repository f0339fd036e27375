ghost use Rattle.std.specs.Prelude.{◌≡◌};
ghost use Rattle.audit_input.specs.Codes.{code_of_fault};
ghost use Rattle.audit_input.specs.declared.fault.Fault.TheVariants.{Memory};

use cfs_model::Memory as OutOfMemory;
use thiserror::Error;

/// Why an audit came to no report, or to a part of one.
#[derive(Clone, Copy, Debug, PartialEq, Eq, Error)]
pub enum Fault {
    #[error("cannot read the trace")]
    ReadTrace,
    #[error("cannot read the companion")]
    ReadCompanion,
    #[error("cannot write the report")]
    Write,
    #[error("out of memory")]
    Memory,
}

impl Fault {
    /// The exit status of a program.
    pub fn code(self) -> u8
        ensures { result ≡ code_of_fault self }
    {
        match self {
            Fault::ReadTrace | Fault::ReadCompanion | Fault::Write => 3,
            Fault::Memory => 4,
        }
    }
}

impl From<OutOfMemory> for Fault {
    ghost from_gives = { λ _ fault. fault ≡ Memory };

    fn from(_refused: OutOfMemory) -> Fault {
        Fault::Memory
    }
}
