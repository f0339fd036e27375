//! The place of a figure, by what is wrong first at a nanosecond less.
ghost use Rattle.std.specs.Prelude.{◌≡◌, ◌<◌, IfOk};
ghost use Rattle.cfs_model.specs.Knobs.{value_at};
ghost use Rattle.least_places.specs.Left.{IsOver};
ghost use Rattle.least_places.specs.Place.{IsPlace, one_less, time_on_line};
ghost use Rattle.sched_record.specs.Record.{record_view};
ghost use Rattle.ticket_book.specs.Faultless.{IsFaultOf};
ghost use Rattle.ticket_book.specs.LeastAnswer as settings;
ghost use Rattle.ticket_book.specs.Verdict.{IsFaulty};
ghost use Rattle.ticket_book.specs.declared.least_settings.LeastSettings.TheVariants as leasts;

use crate::Place;
use crate::leaving::over;
use cfs_model::{Entry, Knobs, Memory, Setting, least_settings, prefixes};
use replay_model::FirstFault;
use sched_record::Record;
use std::alloc::Global;

/// These settings, but for a nanosecond less of one.
pub(crate) fn lessened(knobs: Knobs, setting: Setting) -> Knobs
    ensures { result ≡ one_less knobs setting }
{
    match knobs.with(setting, knobs.get(setting).saturating_sub(1)) {
        Some(less) => less,
        None => unreachable!(),
    }
}

/// The place of a figure above 0, by what is wrong first with the record at a nanosecond less.
pub(crate) fn place_by(
    alloc: Global,
    joined: &Record,
    knobs: Knobs,
    setting: Setting,
    fault: Option<FirstFault>,
) -> Result<Place, Memory>
    requires least { settings.IsLeastAnswer (record_view joined.now) (leasts.Found knobs) }
    requires some { 0 < value_at knobs setting }
    requires fault { IsFaultOf (one_less knobs setting) (record_view joined.now) fault }
    ensures { IfOk result (IsPlace (record_view joined.now) knobs setting) }
{
    match fault {
        Some(fault) => {
            let over = over(alloc, joined, knobs, setting, fault.line)?;
            Ok(place_at_fault(joined, knobs, setting, fault, over))
        }
        // With less than the least it is no run.
        None => unreachable!(),
    }
}

/// The place of a figure above 0, by the fault at a nanosecond less and by whom a picked task was above there.
fn place_at_fault(
    joined: &Record,
    knobs: Knobs,
    setting: Setting,
    fault: FirstFault,
    over: Option<u32>,
) -> Place
    requires least { settings.IsLeastAnswer (record_view joined.now) (leasts.Found knobs) }
    requires some { 0 < value_at knobs setting }
    requires fault { IsFaulty (one_less knobs setting) (record_view joined.now) fault }
    requires over { IsOver (record_view joined.now) knobs setting fault.line over }
    ensures { IsPlace (record_view joined.now) knobs setting result }
{
    prefixes();
    least_settings();
    let FirstFault { line, cpu, pid, .. } = fault;
    let time = time_on(joined.events(), line);
    Place {
        line,
        time,
        cpu,
        pid,
        over,
    }
}

/// The time of the first event on a line, in nanoseconds; 0 where there is none.
fn time_on(events: &[Entry], line: u32) -> u64
    ensures { result ≡ time_on_line events.now line }
{
    for event in events {
        if event.line == line {
            return event.time;
        }
    }
    0
}
