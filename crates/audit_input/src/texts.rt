ghost use Rattle.std.specs.Prelude.{ℕ, List};
ghost use Rattle.sched_record.specs.Trace.{TraceAnswer};
ghost use Rattle.sched_record.specs.Seen.{Tells};
ghost use Rattle.audit_input.specs.Refusals.{IsTexts};
ghost use Rattle.audit_input.specs.Texts.{TellsCharges};

use crate::Refused;
use companion_file::{read_companion_wide, version_of_text};
use sched_record::{Record, Trace, TraceFault, join};
use std::alloc::Global;
use std::thread::Threads;

/// Reads the companion of a trace that was read, and joins the two. Where the trace was refused, so are both.
pub fn record_of(
    rt: &(impl Threads + Sync),
    alloc: Global,
    trace: Result<Trace, TraceFault>,
    companion: &[u8],
) -> Result<Record, Refused>
    ensures { (text : List ℕ) → Tells trace (TraceAnswer text) → IsTexts text companion.now result }
{
    let trace = trace?;
    let companion = read_companion_wide(rt, alloc, companion)?;
    match join(trace, companion) {
        Ok(record) => Ok(record),
        Err((_trace, _companion, fault)) => Err(fault.into()),
    }
}

/// Whether a companion is of the version that tells charges.
pub fn tells_charges(companion: &[u8]) -> bool
    ensures { TellsCharges companion.now result }
{
    match version_of_text(companion) {
        Some(version) => version == 3,
        None => false,
    }
}
