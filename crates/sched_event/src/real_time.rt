ghost use Rattle.std.specs.Prelude.{◌≡◌, IfSome, IsSome, option_map};
ghost use Rattle.sched_event.specs.Event.{HasRealTimePrio};
ghost use Rattle.sched_event.specs.FieldsView.{prio_fields_view};
ghost use Rattle.sched_event.specs.RealTime.{NamesRealTime};
ghost use Rattle.sched_event.specs.RealTimeReading.{first_of, real_time_of, task_view};
ghost use Rattle.sched_event.specs.Reading.{migration_at, switch_at, text_at, wakeup_at};
ghost use Rattle.sched_event.specs.Texts.{migration, switch, wakeup};

use crate::fault::EventFault;
use crate::fields::PrioFields;
use crate::limits::{nice_of, pid_of};
use crate::migration::migration_fields;
use crate::numeral::Numeral;
use crate::switch::switch_fields;
use crate::wakeup::wakeup_fields;
use ftrace_line::{Sched, Which};

/// A task that a line of the trace names.
#[derive(Clone, Copy, Debug, PartialEq, Eq)]
pub struct NamedTask<'a> {
    pub name: &'a [u8],
    pub pid: u32,
}

/// The first real-time or deadline task that the text behind an event's name names. There is one where the text is
/// refused for such a task.
#[tactic(auto, using(crate::proofs::RealTimes::named_so, crate::proofs::RealTimes::refused_so))]
pub fn real_time_task<'a>(line: Sched<'a>) -> Option<NamedTask<'a>>
    ensures named { IfSome result (λ task. NamesRealTime line.entry.which line.entry.rest.now task.name.now task.pid) }
    ensures refused { HasRealTimePrio line.entry.which line.entry.rest.now → IsSome result }
{
    first_of(line)
}

/// The first such task, by what each event's text is.
fn first_of<'a>(line: Sched<'a>) -> Option<NamedTask<'a>>
    ensures { option_map task_view result ≡ first_of (text_at line.entry.which line.entry.rest.now) }
{
    match line.which {
        Which::Switch => of_switch(line.rest),
        Which::Wakeup => of_wakeup(line.rest),
        Which::WakeupNew => of_wakeup(line.rest),
        Which::MigrateTask => of_migration(line.rest),
    }
}

/// That of a switch's text.
fn of_switch<'a>(rest: &'a [u8]) -> Option<NamedTask<'a>>
    ensures { option_map task_view result ≡ first_of (option_map switch (switch_at rest.now)) }
{
    let text = switch_fields(rest)?;
    match if_real_time(text.prev_name, &text.prev, &text.prev_prio) {
        Some(task) => Some(task),
        None => if_real_time(text.next_name, &text.next, &text.next_prio),
    }
}

/// That of a wakeup's text.
fn of_wakeup<'a>(rest: &'a [u8]) -> Option<NamedTask<'a>>
    ensures { option_map task_view result ≡ first_of (option_map wakeup (wakeup_at rest.now)) }
{
    let text = wakeup_fields(rest)?;
    if_real_time(text.name, &text.pid, &text.prio)
}

/// That of a migration's text.
fn of_migration<'a>(rest: &'a [u8]) -> Option<NamedTask<'a>>
    ensures { option_map task_view result ≡ first_of (option_map migration (migration_at rest.now)) }
{
    let text = migration_fields(rest)?;
    if_real_time(text.name, &text.pid, &text.prio)
}

/// The task of which a text says this, if it is a real-time or deadline task.
fn if_real_time<'a>(
    name: &'a [u8],
    pid: &Numeral<'_>,
    prio: &PrioFields<'_>,
) -> Option<NamedTask<'a>>
    ensures { option_map task_view result ≡ real_time_of (record {
      name = name.now;
      pid = pid.now.digits.now;
      prio = prio_fields_view prio.now;
    }) }
{
    match pid_of(pid) {
        Ok(pid) => match nice_of(pid, prio) {
            Err(EventFault::RealTime) => Some(NamedTask { name, pid }),
            _ => None,
        },
        Err(_) => None,
    }
}
