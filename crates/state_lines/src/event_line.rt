//! The line of an event.
use crate::json_text::JsonText;
use crate::measures::Measures;
use crate::sight::{Sight, subject};
use crate::stretch::Stretch;
use cfs_model::{Knobs, Place, Setting, Way};
use replay_model::{Deed, Step};
use runqueue::{SchedEntity, WaitingTask};
use std::alloc::AllocError;

/// Writes the line of an event at a processor, by the settings of the replay. `waited` is how long who is picked had
/// waited, in nanoseconds.
pub(crate) fn push_event(
    text: &mut JsonText,
    cpu: u32,
    sight: &Sight,
    waited: Option<u64>,
    knobs: Knobs,
) -> Result<(), AllocError> {
    push_head(
        text,
        cpu,
        sight.step.line,
        sight.step.time,
        name_of(&sight.step.deed),
    )?;
    let pid = subject(&sight.step.deed);
    text.push_number(",\"pid\":", u64::from(pid))?;
    push_deed(text, &sight.step)?;
    if let Some(task) = sight.after.task {
        push_task(text, &task)?;
    }
    if let Some(stretch) = Stretch::of(sight) {
        push_stretch(text, &stretch)?;
    }
    push_pick(text, sight, waited)?;
    push_queue(text, sight)?;
    let measures = Measures::of(sight);
    push_measures(text, &measures)?;
    push_room(text, &measures, knobs)?;
    text.push("}\n")
}

/// Where and when an event is, and what it does.
pub(crate) fn push_head(
    text: &mut JsonText,
    cpu: u32,
    line: u32,
    time: u64,
    deed: &str,
) -> Result<(), AllocError> {
    text.push_number("{\"cpu\":", u64::from(cpu))?;
    text.push_number(",\"line\":", u64::from(line))?;
    text.push_number(",\"time\":", time)?;
    text.push_word(",\"deed\":\"", deed)
}

fn name_of(deed: &Deed) -> &'static str {
    match deed {
        Deed::Switch { .. } => "switch",
        Deed::Wake { .. } => "wake",
        Deed::Born { .. } => "born",
        Deed::Leave { .. } => "leave",
        Deed::Arrive { .. } => "arrive",
    }
}

/// What a deed has beside its task.
fn push_deed(text: &mut JsonText, step: &Step) -> Result<(), AllocError> {
    match step.deed {
        Deed::Switch { way, next, .. } => {
            text.push_word(",\"way\":\"", word_of_way(way))?;
            text.push_number(",\"next\":", u64::from(next))
        }
        Deed::Leave { dest, .. } => text.push_number(",\"dest\":", u64::from(dest)),
        Deed::Arrive { orig, .. } => text.push_number(",\"orig\":", u64::from(orig)),
        Deed::Wake { .. } | Deed::Born { .. } => Ok(()),
    }
}

fn word_of_way(way: Way) -> &'static str {
    match way {
        Way::Stays => "stays",
        Way::Sleeps => "sleeps",
        Way::Ends => "ends",
    }
}

/// How the event's task stands behind it.
pub(crate) fn push_task(text: &mut JsonText, task: &SchedEntity) -> Result<(), AllocError> {
    text.push_word(",\"place\":\"", word_of_place(task.place))?;
    text.push_signed(",\"nice\":", i64::from(task.nice.get()))?;
    text.push_signed(",\"v\":", task.v)
}

pub(crate) fn word_of_place(place: Place) -> &'static str {
    match place {
        Place::Run => "run",
        Place::Wait => "wait",
        Place::Rest => "rest",
    }
}

/// Who ran up to the event, for how long, from which virtual runtime to which, and the charge.
fn push_stretch(text: &mut JsonText, stretch: &Stretch) -> Result<(), AllocError> {
    let SchedEntity { pid, v, .. } = stretch.task;
    text.push_number(",\"ran\":{\"pid\":", u64::from(pid))?;
    text.push_number(",\"ns\":", stretch.ran)?;
    text.push_signed(",\"from\":", v)?;
    text.push_signed(",\"to\":", stretch.to)?;
    text.push_number(",\"charge\":", stretch.cost())?;
    text.push("}")
}

/// The virtual runtime of who is picked, and how long it had waited.
fn push_pick(text: &mut JsonText, sight: &Sight, waited: Option<u64>) -> Result<(), AllocError> {
    match (sight.step.deed, sight.after.runner) {
        (Deed::Switch { .. }, Some(task)) => {
            text.push_signed(",\"next_v\":", task.v)?;
            text.push_if(",\"waited\":", waited)
        }
        _ => Ok(()),
    }
}

/// The floor, how many wait, and the least of them, behind the event.
fn push_queue(text: &mut JsonText, sight: &Sight) -> Result<(), AllocError> {
    text.push_signed(",\"floor\":", sight.after.floor)?;
    text.push_number(",\"waiting\":", sight.after.waiting as u64)?;
    match sight.after.first {
        Some(first) => push_least(text, first),
        None => Ok(()),
    }
}

/// The least of those who wait.
fn push_least(text: &mut JsonText, first: WaitingTask) -> Result<(), AllocError> {
    text.push_number(",\"least\":{\"pid\":", u64::from(first.pid))?;
    text.push_signed(",\"v\":", first.v)?;
    text.push("}")
}

/// What the event asks of each setting.
fn push_measures(text: &mut JsonText, measures: &Measures) -> Result<(), AllocError> {
    text.push_if(",\"lead\":", measures.lead)?;
    text.push_if(",\"under\":", measures.under)?;
    text.push_if(",\"over\":", measures.over)?;
    text.push_if(",\"idled\":", measures.idled)?;
    text.push_if(",\"drift\":", measures.drift)
}

/// What the event leaves of each setting that it asks of.
fn push_room(text: &mut JsonText, measures: &Measures, knobs: Knobs) -> Result<(), AllocError> {
    let mut before = "\"";
    text.push(",\"room\":{")?;
    for setting in &Setting::ALL {
        if let Some(needed) = measures.needed(*setting) {
            let room = knobs.get(*setting).saturating_sub(needed);
            text.push(before)?;
            text.push(setting.name())?;
            text.push_number("\":", room)?;
            before = ",\"";
        }
    }
    text.push("}")
}
