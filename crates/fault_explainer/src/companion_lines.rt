use crate::event::Event;
use cfs_model::{ChargeLine, Claim, ClaimSort, IdleLine, NiceLine};
use std::alloc::AllocError;

/// What the companion says on an event's line, as it stands there.
pub(crate) fn push_companion_lines(text: &mut String, event: &Event) -> Result<(), AllocError> {
    push_idle(text, event.idle)?;
    push_charge_line(text, event.charge)?;
    push_nice(text, event.nice)?;
    push_claim(text, event.claim)
}

fn push_idle(text: &mut String, idle: Option<IdleLine>) -> Result<(), AllocError> {
    match idle {
        Some(IdleLine { line, pid }) => writeln!(text, "# companion: idle {line} {pid}"),
        None => Ok(()),
    }
}

fn push_charge_line(text: &mut String, charge: Option<ChargeLine>) -> Result<(), AllocError> {
    match charge {
        Some(ChargeLine { line, pid, v }) => {
            writeln!(text, "# companion: charge {line} {pid} {v}")
        }
        None => Ok(()),
    }
}

fn push_nice(text: &mut String, change: Option<NiceLine>) -> Result<(), AllocError> {
    match change {
        Some(NiceLine { line, pid, nice }) => {
            let nice = nice.get();
            writeln!(text, "# companion: nice {line} {pid} {nice}")
        }
        None => Ok(()),
    }
}

fn push_claim(text: &mut String, claim: Option<Claim>) -> Result<(), AllocError> {
    match claim {
        Some(Claim { line, pid, v, sort }) => {
            let word = word_of(sort);
            writeln!(text, "# companion: {word} {line} {pid} {v}")
        }
        None => writeln!(text, "# companion: no claim on this line"),
    }
}

/// The word that begins a claim's line.
pub(crate) fn word_of(sort: ClaimSort) -> &'static str {
    match sort {
        ClaimSort::At => "at",
        ClaimSort::Pass => "pass",
    }
}
