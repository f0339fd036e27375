//! Least settings and their places.
ghost use Rattle.std.specs.Prelude.{◌≡◌, ◌++◌, OnOk, string_bytes};
ghost use Rattle.audit_report.specs.Report.{told_settings};
ghost use Rattle.report_json.specs.Objects.{members_of_settings, over_member, place_members, setting_member};

use crate::Told;
use audit_report::told_settings;
use cfs_model::{Knobs, Setting};
use least_places::{LeastFigures, Place, Places};
use std::alloc::AllocError;

impl Told for LeastFigures {
    ghost use Rattle.report_json.specs.Objects.{least_members};

    ghost members = { least_members };

    fn push_members(&self, text: &mut String, tells_charges: bool) -> Result<(), AllocError> {
        match self {
            LeastFigures::Found { knobs, places } => {
                write!(text, "\"verdict\":\"least\"")?;
                push_told(text, *knobs, places, tells_charges)
            }
            LeastFigures::Fault(_) => Ok(()),
        }
    }
}

/// Writes each of the settings that are told, by whether the companion tells charges.
fn push_told(
    text: &mut String,
    knobs: Knobs,
    places: &Places,
    tells_charges: bool,
) -> Result<(), AllocError>
    ensures { OnOk result (string_bytes text.new
        ≡ string_bytes text.old ++ members_of_settings knobs places.now (told_settings tells_charges)) }
{
    push_each(text, knobs, places, told_settings(tells_charges))
}

/// Writes each of these settings.
fn push_each(
    text: &mut String,
    knobs: Knobs,
    places: &Places,
    settings: &[Setting],
) -> Result<(), AllocError>
    ensures { OnOk result
        (string_bytes text.new ≡ string_bytes text.old ++ members_of_settings knobs places.now settings.now) }
{
    for setting in settings {
        push_setting(text, knobs, places, *setting)?;
    }
    Ok(())
}

/// Writes a setting, and where it is needed first.
fn push_setting(
    text: &mut String,
    knobs: Knobs,
    places: &Places,
    setting: Setting,
) -> Result<(), AllocError>
    ensures { OnOk result
        (string_bytes text.new ≡ string_bytes text.old ++ setting_member knobs places.now setting) }
{
    let name = setting.name();
    let value = knobs.get(setting);
    write!(text, ",\"{name}\":{{\"least\":{value}")?;
    push_place(text, places.get(setting))?;
    write!(text, "}}")
}

/// Writes where a figure is needed first, if it has a place.
fn push_place(text: &mut String, place: Option<Place>) -> Result<(), AllocError>
    ensures { OnOk result (string_bytes text.new ≡ string_bytes text.old ++ place_members place) }
{
    let Some(place) = place else {
        return Ok(());
    };
    let Place {
        line,
        time,
        cpu,
        pid,
        over,
    } = place;
    write!(
        text,
        ",\"line\":{line},\"time\":{time},\"cpu\":{cpu},\"pid\":{pid}"
    )?;
    push_over(text, over)
}

/// Writes whom a picked task was above, if that is told.
fn push_over(text: &mut String, over: Option<u32>) -> Result<(), AllocError>
    ensures { OnOk result (string_bytes text.new ≡ string_bytes text.old ++ over_member over) }
{
    match over {
        Some(over) => write!(text, ",\"over\":{over}"),
        None => Ok(()),
    }
}
