ghost use Rattle.std.specs.Prelude.{◌≡◌, IfSome};
ghost use Rattle.ftrace_line.specs.Line.{IsSched};
ghost use Rattle.sched_event.specs.Act.{act_of};
ghost use Rattle.sched_event.specs.Event.{IsEvent};
ghost use Rattle.sched_event.specs.EventView.{switched};
ghost use Rattle.sched_event.specs.Seen.{event_view, switch_view};
ghost use Rattle.task_names.specs.Names.{CallsInText, CallsTask, SaysEvent};

use crate::head::name_in_head;
use cfs_model::{Act, Entry};
use ftrace_line::{Line, Sched, read_line};
use sched_event::{Event, Switch, read_event};

/// What a line calls a task, in its event or else in its head, if it says this event of a record and names the task.
pub fn name_on<'a>(line: &'a [u8], event: Entry, pid: u32) -> Option<&'a [u8]>
    ensures { IfSome result (λ name. CallsTask line.now event pid name.now) }
{
    match said_on(line, event) {
        Some(said) => match name_in_text(&said, pid) {
            Some(name) => Some(name),
            None => name_in_head(line, pid),
        },
        None => None,
    }
}

/// The event that a line says, if that is this one of a record.
fn said_on<'a>(line: &'a [u8], event: Entry) -> Option<Event<'a>>
    ensures { IfSome result (λ said. SaysEvent line.now event (event_view said)) }
{
    match sched_on(line, event.time) {
        Some(sched) => said_by(sched, event.act),
        None => None,
    }
}

/// The line, behind the head that it has, if that is of this time, in nanoseconds.
fn sched_on<'a>(line: &'a [u8], time: u64) -> Option<Sched<'a>>
    ensures { IfSome result (λ sched. IsSched line.now sched.cpu time sched.which sched.rest.now) }
{
    match read_line(line) {
        Ok(Line::Sched(sched)) => {
            if sched.time == time {
                Some(sched)
            } else {
                None
            }
        }
        _ => None,
    }
}

/// The event that is said behind a head, if it does this.
fn said_by<'a>(sched: Sched<'a>, act: Act) -> Option<Event<'a>>
    ensures { IfSome result (λ said. IsEvent sched.entry.cpu sched.entry.which sched.entry.rest.now (event_view said)
        × (act_of (event_view said) ≡ act)) }
{
    match read_event(sched) {
        Ok(said) => { if said.act() == act { Some(said) } else { None } }
        Err(_) => None,
    }
}

/// What an event's text calls a task, if it names that one.
fn name_in_text<'a>(event: &Event<'a>, pid: u32) -> Option<&'a [u8]>
    ensures { IfSome result (λ name. CallsInText (event_view event.now) pid name.now) }
{
    match event {
        Event::Switch(switch) => name_in_switch(switch, pid),
        Event::Wakeup(wakeup) => own_name(wakeup.pid, wakeup.name, pid),
        Event::WakeupNew(birth) => own_name(birth.pid, birth.name, pid),
        Event::Migration(migration) => own_name(migration.pid, migration.name, pid),
    }
}

/// The same of a switch: of its two tasks the previous one first.
fn name_in_switch<'a>(switch: &Switch<'a>, pid: u32) -> Option<&'a [u8]>
    ensures { IfSome result (λ name. CallsInText (switched (switch_view switch.now)) pid name.now) }
{
    if pid == switch.prev {
        Some(switch.prev_name)
    } else {
        own_name(switch.next, switch.next_name, pid)
    }
}

/// The name of a task, if that is the one of this pid.
fn own_name<'a>(own: u32, name: &'a [u8], pid: u32) -> Option<&'a [u8]>
    ensures { IfSome result (λ given. (pid ≡ own) × (given.now ≡ name.now)) }
{
    if pid == own { Some(name) } else { None }
}
