ghost use Rattle.std.specs.Prelude.{◌≡◌, ◌<◌, ◌^◌, IfSome, Ok};
ghost use Rattle.cfs_model.specs.Limits.{greatest_pid, greatest_processor};
ghost use Rattle.sched_event.specs.Judging.{number_within, printed_nice};
ghost use Rattle.sched_event.specs.FieldsView.{prio_fields_view};

use crate::fault::EventFault;
use crate::fields::PrioFields;
use crate::numeral::Numeral;
use cfs_model::{GREATEST_PID, GREATEST_PROCESSOR, IDLE_PID, Nice, PrioFault};

/// The prio of nice 0.
const PRIO_MIDDLE: i64 = 120;

/// No fair task has this prio or a larger one.
const PRIO_BEYOND: u64 = 140;

/// The number of a numeral that isn't above the most.
#[inline(always)]
#[tactic(auto, unfolding(crate::specs::Judging::number_within))]
fn number_within(numeral: &Numeral, most: u64) -> Result<u32, EventFault>
    requires { most < 2 ^ 32 }
    ensures { result ≡ number_within most numeral.now.digits.now }
{
    if numeral.value > most {
        return Err(EventFault::NumberRange);
    }
    Ok(numeral.value as u32)
}

/// The pid that a numeral stands for.
#[inline(always)]
pub(crate) fn pid_of(numeral: &Numeral) -> Result<u32, EventFault>
    ensures { result ≡ number_within greatest_pid numeral.now.digits.now }
{
    number_within(numeral, GREATEST_PID)
}

/// The processor that a numeral stands for.
#[inline(always)]
pub(crate) fn cpu_of(numeral: &Numeral) -> Result<u32, EventFault>
    ensures { result ≡ number_within greatest_processor numeral.now.digits.now }
{
    number_within(numeral, GREATEST_PROCESSOR)
}

/// The nice value of a printed prio. That of the idle task isn't looked at: its nice value is 0.
#[inline(always)]
pub(crate) fn nice_of(pid: u32, prio: &PrioFields) -> Result<Nice, EventFault>
    ensures { result ≡ printed_nice pid (prio_fields_view prio.now) }
{
    match fair_nice(pid, prio) {
        Some(nice) => Ok(nice),
        None => any_nice(pid, prio),
    }
}

/// The same where there is one, in few steps: nothing is told of other prios.
#[inline(always)]
#[tactic(auto, unfolding(crate::specs::Judging::printed_nice))]
fn fair_nice(pid: u32, prio: &PrioFields) -> Option<Nice>
    ensures { IfSome result (λ nice. printed_nice pid (prio_fields_view prio.now) ≡ Ok nice) }
{
    if pid == IDLE_PID {
        return Nice::of_prio(PRIO_MIDDLE).ok();
    }
    if prio.minus || prio.numeral.value >= PRIO_BEYOND {
        return None;
    }
    Nice::of_prio(prio.numeral.value as i64).ok()
}

/// The nice value of any printed prio, or what it is refused for, away from the reader of fair prios.
#[inline(never)]
#[tactic(auto, unfolding(crate::specs::Judging::printed_nice))]
fn any_nice(pid: u32, prio: &PrioFields) -> Result<Nice, EventFault>
    ensures { result ≡ printed_nice pid (prio_fields_view prio.now) }
{
    let number = prio.numeral.value.min(PRIO_BEYOND) as i64;
    let printed = if pid == IDLE_PID {
        PRIO_MIDDLE
    } else if prio.minus {
        -number
    } else {
        number
    };
    match Nice::of_prio(printed) {
        Ok(nice) => Ok(nice),
        Err(PrioFault::RealTime) => Err(EventFault::RealTime),
        Err(PrioFault::PrioRange) => Err(EventFault::PrioRange),
    }
}
