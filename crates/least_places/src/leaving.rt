//! Whom a pick leaves waiting, by a replay of its processor up to there.
ghost use Rattle.std.specs.Prelude.{◌≡◌, ◌<◌, IfOk};
ghost use Rattle.least_places.specs.Left.{IsLeftBehind, IsLeftOnLine, IsOver};
ghost use Rattle.least_places.specs.Walks.{steps_to, switched_by, switched_on_line};
ghost use Rattle.sched_record.specs.Record.{record_view};
ghost use Rattle.ticket_book.specs.LeastAnswer as settings;
ghost use Rattle.ticket_book.specs.declared.least_settings.LeastSettings.TheVariants as leasts;

use cfs_model::{Act, Entry, Knobs, Memory, Setting, places, prefixes};
use queue_replay::Replay;
use replay_laws::replays;
use replay_model::Step;
use sched_record::Record;
use std::alloc::Global;

/// Whom the picked task was above, at the place of a granularity among a record's least settings. Other settings'
/// places have nobody.
pub(crate) fn over(
    alloc: Global,
    joined: &Record,
    knobs: Knobs,
    setting: Setting,
    line: u32,
) -> Result<Option<u32>, Memory>
    requires { settings.IsLeastAnswer (record_view joined.now) (leasts.Found knobs) }
    ensures { IfOk result (IsOver (record_view joined.now) knobs setting line) }
{
    match setting {
        Setting::Granularity => left_on_line(alloc, joined, knobs, line),
        Setting::Credit | Setting::Debit | Setting::Slack | Setting::Drift => Ok(None),
    }
}

/// Whom the event on a line leaves waiting: at a switch the least who waits at its processor.
fn left_on_line(
    alloc: Global,
    joined: &Record,
    knobs: Knobs,
    line: u32,
) -> Result<Option<u32>, Memory>
    requires { settings.IsLeastAnswer (record_view joined.now) (leasts.Found knobs) }
    ensures { IfOk result (IsLeftOnLine (record_view joined.now) knobs line) }
{
    match switched_on(joined.events(), line) {
        Some(cpu) => left_behind(alloc, joined, knobs, cpu, line),
        None => Ok(None),
    }
}

/// The processor of the first event on a line, where that is a switch.
fn switched_on(events: &[Entry], line: u32) -> Option<u32>
    ensures { result ≡ switched_on_line events.now line }
{
    for event in events {
        if event.line == line {
            return switched(event.act);
        }
    }
    None
}

/// The processor of a switch.
fn switched(act: Act) -> Option<u32>
    ensures { result ≡ switched_by act }
{
    match act {
        Act::Switch { cpu, .. } => Some(cpu),
        Act::Wake { .. } | Act::Born { .. } | Act::Shift { .. } => None,
    }
}

/// The least of those who wait at a processor behind the event on a line, if anybody does.
fn left_behind(
    alloc: Global,
    joined: &Record,
    knobs: Knobs,
    cpu: u32,
    line: u32,
) -> Result<Option<u32>, Memory>
    requires least { settings.IsLeastAnswer (record_view joined.now) (leasts.Found knobs) }
    requires cpu { cpu < (record_view joined.now).cpus }
    ensures { IfOk result (IsLeftBehind (record_view joined.now) knobs cpu line) }
{
    places();
    prefixes();
    replays();
    let stream = joined.deal(cpu)?;
    let steps = count_to(stream.steps(), line);
    let mut replay = match Replay::new(alloc, stream, knobs) {
        Ok(replay) => replay,
        Err((_, memory)) => return Err(memory),
    };
    replay.go_on(steps)?;
    match replay.runqueue().waiting().first() {
        Some(task) => Ok(Some(task.pid)),
        None => Ok(None),
    }
}

/// The number of steps up to a line and including it.
fn count_to(steps: &[Step], line: u32) -> u64
    ensures { result ≡ steps_to line steps.now }
{
    let mut count = 0;
    for step in steps {
        if step.line > line {
            return count;
        }
        count += 1;
    }
    count
}
