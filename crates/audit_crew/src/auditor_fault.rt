use cfs_model::Memory;
use queue_replay::Page;
use std::error::Error;
use std::fmt;
use ticket_book::PostFault;

/// Why an auditor posted nothing.
#[derive(Debug, Drop)]
pub enum AuditorFault {
    /// A growth was refused.
    Memory,
    /// The shelf refused this page.
    Refused(Page, PostFault),
}

impl fmt::Display for AuditorFault {
    fn fmt<W: fmt::Write>(&self, f: &mut fmt::Formatter<W>) -> fmt::Result {
        match self {
            AuditorFault::Memory => f.write_str("out of memory"),
            AuditorFault::Refused(page, fault) => {
                write!(f, "processor {}: {fault}", page.stream().cpu())
            }
        }
    }
}

impl Error for AuditorFault {}

impl From<Memory> for AuditorFault {
    ghost use Rattle.std.specs.Prelude.{◌≡◌};
    ghost use Rattle.audit_crew.specs.declared.auditor_fault.AuditorFault.TheVariants.{Memory};

    ghost from_gives = { λ _ e. e ≡ Memory };

    fn from(_wanted: Memory) -> AuditorFault {
        AuditorFault::Memory
    }
}
