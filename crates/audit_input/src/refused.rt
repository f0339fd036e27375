use crate::{Cause, Source};
use cfs_model::Memory;
use companion_file::CompanionFault;
use sched_record::{JoinFault, TraceFault};
use thiserror::Error;

/// Why there is no verdict.
#[derive(Clone, Copy, Debug, PartialEq, Eq, Error)]
pub enum Refused {
    #[error("{text} line {line}: {word}", text = .source.word(), word = .cause.word())]
    Text {
        source: Source,
        /// The line in that text, from 1, comments counted; of joining, a line of the trace.
        line: u64,
        cause: Cause,
    },
    #[error("out of memory")]
    Memory,
}

impl From<TraceFault> for Refused {
    ghost use Rattle.std.specs.Prelude.{◌≡◌};
    ghost use Rattle.audit_input.specs.Refusals.{trace_refusal};

    ghost from_gives = { λ fault refused. refused ≡ trace_refusal fault };

    fn from(fault: TraceFault) -> Refused {
        match fault {
            TraceFault::Text { line, cause } => Refused::Text {
                source: Source::Trace,
                line,
                cause: Cause::of_trace(cause),
            },
            TraceFault::Memory => Refused::Memory,
        }
    }
}

impl From<CompanionFault> for Refused {
    ghost use Rattle.std.specs.Prelude.{◌≡◌};
    ghost use Rattle.audit_input.specs.Refusals.{companion_refusal};

    ghost from_gives = { λ fault refused. refused ≡ companion_refusal fault };

    fn from(fault: CompanionFault) -> Refused {
        match fault {
            CompanionFault::Text { line, cause } => Refused::Text {
                source: Source::Companion,
                line,
                cause: Cause::of_companion(cause),
            },
            CompanionFault::Memory => Refused::Memory,
        }
    }
}

impl From<JoinFault> for Refused {
    ghost use Rattle.std.specs.Prelude.{◌≡◌};
    ghost use Rattle.audit_input.specs.Refusals.{join_refusal};

    ghost from_gives = { λ fault refused. refused ≡ join_refusal fault };

    fn from(fault: JoinFault) -> Refused {
        Refused::Text {
            source: Source::Join,
            line: fault.line,
            cause: Cause::of_joining(fault.cause),
        }
    }
}

impl From<Memory> for Refused {
    ghost use Rattle.std.specs.Prelude.{◌≡◌};
    ghost use Rattle.audit_input.specs.declared.refused.Refused.TheVariants as refusals;

    ghost from_gives = { λ _ refused. refused ≡ refusals.Memory };

    fn from(_want: Memory) -> Refused {
        Refused::Memory
    }
}
