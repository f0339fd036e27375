ghost use Rattle.std.specs.Prelude.{◌≡◌, ℕ, List, Result, ◌↔◌, IsErrOf};
ghost use Rattle.ftrace_line.specs.declared.kinds.Which.{Which};
ghost use Rattle.sched_event.specs.Texts.{EventText, Reads};
ghost use Rattle.sched_event.specs.Event.{EventView, EventAnswer, HasNoReading, HasNumberOutOfRange, HasRealTimePrio};
ghost use Rattle.sched_event.specs.Event.{HasPrioAboveRange, NamesIdle};
ghost use Rattle.sched_event.specs.Seen.{event_answer_view};
ghost use Rattle.sched_event.specs.declared.fault.EventFault.{EventFault};

use crate::event::Event;
use crate::fault::EventFault;
use crate::migration::{migration_fields, migration_of};
use crate::switch::{switch_fields, switch_of};
use crate::wakeup::{wakeup_fields, wakeup_of};
use ftrace_line::{Sched, Which};

/// Reads the text behind an event's name. An event's names and its state are slices of the line.
pub fn read_event<'a>(line: Sched<'a>) -> Result<Event<'a>, EventFault>
    // What is answered is so: the event that the text says, or the first cause to refuse it.
    ensures answer { EventAnswer line.entry.cpu line.entry.which line.entry.rest.now (event_answer_view result) }
    ensures bad_fields { IsErrOf result EventFault.BadFields ↔ HasNoReading line.entry.which line.entry.rest.now }
    ensures number_range { IsErrOf result EventFault.NumberRange
        ↔ HasNumberOutOfRange line.entry.which line.entry.rest.now }
    ensures real_time { IsErrOf result EventFault.RealTime ↔ HasRealTimePrio line.entry.which line.entry.rest.now }
    ensures prio_range { IsErrOf result EventFault.PrioRange ↔ HasPrioAboveRange line.entry.which line.entry.rest.now }
    ensures idle_named { IsErrOf result EventFault.IdleNamed ↔ NamesIdle line.entry.which line.entry.rest.now }
{
    // Each end returns by itself: an answer that passed through one place for all would be copied there, and each
    // refusal would hold up the reading with the empty fields of its answer.
    match line.which {
        Which::Switch => {
            let Some(text) = switch_fields(line.rest) else {
                return Err(EventFault::BadFields);
            };
            match switch_of(line.cpu, &text) {
                Ok(switch) => return Ok(Event::Switch(switch)),
                Err(fault) => return Err(fault),
            }
        }
        Which::Wakeup => {
            let Some(text) = wakeup_fields(line.rest) else {
                return Err(EventFault::BadFields);
            };
            match wakeup_of(&text) {
                Ok(wakeup) => return Ok(Event::Wakeup(wakeup)),
                Err(fault) => return Err(fault),
            }
        }
        Which::WakeupNew => {
            let Some(text) = wakeup_fields(line.rest) else {
                return Err(EventFault::BadFields);
            };
            match wakeup_of(&text) {
                Ok(wakeup) => return Ok(Event::WakeupNew(wakeup)),
                Err(fault) => return Err(fault),
            }
        }
        Which::MigrateTask => {
            let Some(text) = migration_fields(line.rest) else {
                return Err(EventFault::BadFields);
            };
            match migration_of(&text) {
                Ok(migration) => return Ok(Event::Migration(migration)),
                Err(fault) => return Err(fault),
            }
        }
    }
}

/// A text has at most one reading.
#[tactic(auto, using(crate::proofs::Answering::one_text))]
pub fn one_reading()
    ensures { (which : Which) (rest : List ℕ) (s t : EventText) → Reads which rest s → Reads which rest t → s ≡ t }
{}

/// A text has at most one answer.
#[tactic(auto, using(crate::proofs::Answering::same_answer))]
pub fn one_answer()
    ensures { (cpu : ℕ) (which : Which) (rest : List ℕ) (a b : Result EventView EventFault)
        → EventAnswer cpu which rest a → EventAnswer cpu which rest b → a ≡ b }
{}
