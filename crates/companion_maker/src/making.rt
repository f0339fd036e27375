ghost use Rattle.std.specs.Prelude.{◌≡◌, ◌↔◌, All, IfOk, IfErr, IsTrue};
ghost use Rattle.cfs_model.specs.Limits.{most_processors};
ghost use Rattle.sched_record.specs.Join.{IsInside};
ghost use Rattle.sched_record.specs.Seen.{trace_view};
ghost use Rattle.companion_maker.specs.Fitting.{ReadsAndJoins, IsNotMadeFor};

use crate::NotMade;
use crate::plain::plain_text;
use cfs_model::{MOST_PROCESSORS, Memory};
use companion_file::{CompanionFault, read_companion_wide};
use companion_guess::{KernelValues, Made, Wishes, guessed};
use sched_record::{Trace, join, outside_line};
use std::alloc::Global;
use std::thread::Threads;

/// A companion for a trace of which these values are known. What was found is read back and joined with the trace;
/// where that should fail, the companion is the plain one, which goes together with every trace.
#[tactic(auto, using(sched_record::proofs::OneRecord::none_outside))]
pub fn companion_of_trace(
    rt: &(impl Threads + Sync),
    alloc: Global,
    trace: Trace,
    values: KernelValues,
    wishes: &Wishes,
) -> Result<Made, NotMade>
    // What is made is a companion, and joins with the trace.
    ensures fits { IfOk result (λ made. ReadsAndJoins (trace_view trace) made.text.items) }
    // It is made for every trace whose processors a companion can have, unless a growth is refused.
    ensures made { All (IsInside most_processors) (trace_view trace) → IfErr result (λ why. why ≡ NotMade.Memory) }
    // Else it is said why: the first event that touches a processor which no companion has.
    ensures outside { IfErr result (IsNotMadeFor (trace_view trace)) }
{
    if let Some(line) = outside_line(trace.events(), MOST_PROCESSORS as u32) {
        return Err(NotMade::CpuOutside {
            line: u64::from(line),
        });
    }
    let made = guessed(rt, alloc, trace.events(), values, wishes)?;
    if go_together(rt, alloc, trace, made.text.as_slice())? {
        Ok(made)
    } else {
        Ok(Made {
            text: plain_text(alloc)?,
            guess: None,
        })
    }
}

/// Whether the text is a companion that goes together with the trace.
fn go_together(
    rt: &(impl Threads + Sync),
    alloc: Global,
    trace: Trace,
    text: &[u8],
) -> Result<bool, Memory>
    ensures { IfOk result (λ fits. IsTrue fits ↔ ReadsAndJoins (trace_view trace) text.now) }
{
    match read_companion_wide(rt, alloc, text) {
        Ok(companion) => Ok(join(trace, companion).is_ok()),
        Err(CompanionFault::Text { .. }) => Ok(false),
        Err(CompanionFault::Memory) => Err(Memory),
    }
}
