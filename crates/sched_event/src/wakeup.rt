ghost use Rattle.text_parts.specs.Reading.{Gives};
ghost use Rattle.sched_event.specs.Reading.{wakeup_at};
ghost use Rattle.sched_event.specs.Judging.{Judges, wakeup_judged};
ghost use Rattle.sched_event.specs.Seen.{wakeup_view};
ghost use Rattle.sched_event.specs.FieldsView.{wakeup_fields_view};

use crate::event::Wakeup;
use crate::fault::EventFault;
use crate::fields::{PrioFields, fields, name, numeral, optional_numeral, prio};
use crate::limits::{cpu_of, nice_of, pid_of};
use crate::numeral::Numeral;
use cfs_model::IDLE_PID;

/// The parts of a wakeup's text.
#[derive(Clone, Copy)]
pub(crate) struct WakeupFields<'a> {
    pub(crate) name: &'a [u8],
    pub(crate) pid: Numeral<'a>,
    pub(crate) prio: PrioFields<'a>,
    pub(crate) success: Option<Numeral<'a>>,
    pub(crate) target: Numeral<'a>,
}

/// The parts of a wakeup's text, where the whole text has them.
#[inline(always)]
#[tactic(auto, unfolding(crate::specs::Reading::wakeup_at))]
pub(crate) fn wakeup_fields(text: &[u8]) -> Option<WakeupFields<'_>>
    ensures { Gives wakeup_fields_view result (wakeup_at text.now) }
{
    let rest = text;
    fields!(rest;
        b"comm=" => task: name,
        b" pid=" => pid: numeral,
        b" prio=" => task_prio: prio,
        b" success=" => success: optional_numeral,
        b" target_cpu=" => target: numeral,
    );
    if !rest.is_empty() {
        return None;
    }
    Some(WakeupFields {
        name: task,
        pid,
        prio: task_prio,
        success,
        target,
    })
}

/// The wakeup of these parts.
#[inline(always)]
#[tactic(auto, unfolding(crate::specs::Judging::wakeup_judged))]
pub(crate) fn wakeup_of<'a>(text: &WakeupFields<'a>) -> Result<Wakeup<'a>, EventFault>
    ensures { Judges wakeup_view result (wakeup_judged (wakeup_fields_view text.now)) }
{
    let pid = pid_of(&text.pid)?;
    let target = cpu_of(&text.target)?;
    let nice = nice_of(pid, &text.prio)?;
    if pid == IDLE_PID {
        return Err(EventFault::IdleNamed);
    }
    Ok(Wakeup {
        name: text.name,
        pid,
        nice,
        target,
    })
}
