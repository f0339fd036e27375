ghost use Rattle.text_parts.specs.Reading.{Gives};
ghost use Rattle.sched_event.specs.Reading.{switch_at};
ghost use Rattle.sched_event.specs.Judging.{Judges, switch_judged};
ghost use Rattle.sched_event.specs.Seen.{switch_view};
ghost use Rattle.sched_event.specs.FieldsView.{switch_fields_view};

use crate::event::Switch;
use crate::fault::EventFault;
use crate::fields::{PrioFields, fields, name, numeral, prio, state};
use crate::limits::{nice_of, pid_of};
use crate::numeral::Numeral;

/// The parts of a switch's text.
#[derive(Clone, Copy)]
pub(crate) struct SwitchFields<'a> {
    pub(crate) prev_name: &'a [u8],
    pub(crate) prev: Numeral<'a>,
    pub(crate) prev_prio: PrioFields<'a>,
    pub(crate) prev_state: &'a [u8],
    pub(crate) next_name: &'a [u8],
    pub(crate) next: Numeral<'a>,
    pub(crate) next_prio: PrioFields<'a>,
}

/// The parts of a switch's text, where the whole text has them.
#[inline(always)]
#[tactic(auto, unfolding(crate::specs::Reading::switch_at))]
pub(crate) fn switch_fields(text: &[u8]) -> Option<SwitchFields<'_>>
    ensures { Gives switch_fields_view result (switch_at text.now) }
{
    let rest = text;
    fields!(rest;
        b"prev_comm=" => prev_name: name,
        b" prev_pid=" => prev: numeral,
        b" prev_prio=" => prev_prio: prio,
        b" prev_state=" => prev_state: state,
        b" ==> next_comm=" => next_name: name,
        b" next_pid=" => next: numeral,
        b" next_prio=" => next_prio: prio,
    );
    if !rest.is_empty() {
        return None;
    }
    Some(SwitchFields {
        prev_name,
        prev,
        prev_prio,
        prev_state,
        next_name,
        next,
        next_prio,
    })
}

/// The switch of these parts, on a line whose head has this processor.
#[inline(always)]
#[tactic(auto, unfolding(crate::specs::Judging::switch_judged))]
pub(crate) fn switch_of<'a>(cpu: u32, text: &SwitchFields<'a>) -> Result<Switch<'a>, EventFault>
    ensures { Judges switch_view result (switch_judged cpu (switch_fields_view text.now)) }
{
    let prev = pid_of(&text.prev)?;
    let next = pid_of(&text.next)?;
    let prev_nice = nice_of(prev, &text.prev_prio)?;
    let next_nice = nice_of(next, &text.next_prio)?;
    Ok(Switch {
        cpu,
        prev_name: text.prev_name,
        prev,
        prev_nice,
        prev_state: text.prev_state,
        next_name: text.next_name,
        next,
        next_nice,
    })
}
