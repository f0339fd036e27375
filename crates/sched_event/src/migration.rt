ghost use Rattle.text_parts.specs.Reading.{Gives};
ghost use Rattle.sched_event.specs.Reading.{migration_at};
ghost use Rattle.sched_event.specs.Judging.{Judges, migration_judged};
ghost use Rattle.sched_event.specs.Seen.{migration_view};
ghost use Rattle.sched_event.specs.FieldsView.{migration_fields_view};

use crate::event::Migration;
use crate::fault::EventFault;
use crate::fields::{PrioFields, fields, name, numeral, prio};
use crate::limits::{cpu_of, nice_of, pid_of};
use crate::numeral::Numeral;
use cfs_model::IDLE_PID;

/// The parts of a migration's text.
#[derive(Clone, Copy)]
pub(crate) struct MigrationFields<'a> {
    pub(crate) name: &'a [u8],
    pub(crate) pid: Numeral<'a>,
    pub(crate) prio: PrioFields<'a>,
    pub(crate) orig: Numeral<'a>,
    pub(crate) dest: Numeral<'a>,
}

/// The parts of a migration's text, where the whole text has them.
#[inline(always)]
#[tactic(auto, unfolding(crate::specs::Reading::migration_at))]
pub(crate) fn migration_fields(text: &[u8]) -> Option<MigrationFields<'_>>
    ensures { Gives migration_fields_view result (migration_at text.now) }
{
    let rest = text;
    fields!(rest;
        b"comm=" => task: name,
        b" pid=" => pid: numeral,
        b" prio=" => task_prio: prio,
        b" orig_cpu=" => orig: numeral,
        b" dest_cpu=" => dest: numeral,
    );
    if !rest.is_empty() {
        return None;
    }
    Some(MigrationFields {
        name: task,
        pid,
        prio: task_prio,
        orig,
        dest,
    })
}

/// The migration of these parts.
#[inline(always)]
#[tactic(auto, unfolding(crate::specs::Judging::migration_judged))]
pub(crate) fn migration_of<'a>(text: &MigrationFields<'a>) -> Result<Migration<'a>, EventFault>
    ensures { Judges migration_view result (migration_judged (migration_fields_view text.now)) }
{
    let pid = pid_of(&text.pid)?;
    let orig = cpu_of(&text.orig)?;
    let dest = cpu_of(&text.dest)?;
    let nice = nice_of(pid, &text.prio)?;
    if pid == IDLE_PID {
        return Err(EventFault::IdleNamed);
    }
    Ok(Migration {
        name: text.name,
        pid,
        nice,
        orig,
        dest,
    })
}
