//! The least settings of a record and their places, by an audit with threads.
ghost use Rattle.std.specs.Prelude.{IfOk};
ghost use Rattle.least_places.specs.LeastAnswer.{IsLeastAnswer};
ghost use Rattle.least_places.specs.Place.{ArePlaces, IsPlaced};
ghost use Rattle.sched_record.specs.Record.{record_view};
ghost use Rattle.ticket_book.specs.Faultless.{AreBehind, AreFaultless};
ghost use Rattle.ticket_book.specs.LeastAnswer as settings;
ghost use Rattle.ticket_book.specs.declared.least_settings.LeastSettings.TheVariants as leasts;

use crate::placing::{lessened, place_by};
use crate::{LeastFigures, Place, Places};
use audit_crew::{Gate, crew};
use cfs_model::{Knobs, Memory, Setting};
use queue_replay::Page;
use sched_record::Record;
use std::alloc::Global;
use std::sync::Wait;
use std::thread::Threads;
use ticket_book::{LeastSettings, first_fault_by};

/// The least settings of a record and their places, by the pages of a crew that passes this gate. For each figure above
/// 0 those processors are replayed once more that need so much, up to their first fault with a nanosecond less.
pub fn least_figures<R: Threads + Wait + Sync, G: Gate>(
    rt: &R,
    alloc: Global,
    joined: &Record,
    gate: &G,
) -> Result<LeastFigures, Memory>
    ensures { IfOk result (IsLeastAnswer (record_view joined.now)) }
{
    let book = crew(rt, alloc, joined, Knobs::greatest(), gate)?.book;
    let (closed, pages) = book.close_least_by_pages(joined)?;
    figures_of(alloc, joined, &closed.least, pages.as_slice())
}

/// A record's least settings with their places, by the pages behind them.
fn figures_of(
    alloc: Global,
    joined: &Record,
    least: &LeastSettings,
    pages: &[Page],
) -> Result<LeastFigures, Memory>
    requires least { settings.IsLeastAnswer (record_view joined.now) least.now }
    requires behind { AreBehind (record_view joined.now) least.now pages.now }
    ensures { IfOk result (IsLeastAnswer (record_view joined.now)) }
{
    match least {
        LeastSettings::Found(knobs) => {
            let places = places_of(alloc, joined, *knobs, pages)?;
            Ok(LeastFigures::Found {
                knobs: *knobs,
                places,
            })
        }
        LeastSettings::Fault(fault) => Ok(LeastFigures::Fault(*fault)),
    }
}

/// The places of a record's least settings.
fn places_of(alloc: Global, joined: &Record, knobs: Knobs, pages: &[Page]) -> Result<Places, Memory>
    requires least { settings.IsLeastAnswer (record_view joined.now) (leasts.Found knobs) }
    requires faultless { AreFaultless (record_view joined.now) pages.now }
    ensures { IfOk result (ArePlaces (record_view joined.now) knobs) }
{
    Ok(Places {
        granularity: place_of(alloc, joined, knobs, pages, Setting::Granularity)?,
        credit: place_of(alloc, joined, knobs, pages, Setting::Credit)?,
        debit: place_of(alloc, joined, knobs, pages, Setting::Debit)?,
        slack: place_of(alloc, joined, knobs, pages, Setting::Slack)?,
        drift: place_of(alloc, joined, knobs, pages, Setting::Drift)?,
    })
}

/// The place of a setting's figure among a record's least settings.
fn place_of(
    alloc: Global,
    joined: &Record,
    knobs: Knobs,
    pages: &[Page],
    setting: Setting,
) -> Result<Option<Place>, Memory>
    requires least { settings.IsLeastAnswer (record_view joined.now) (leasts.Found knobs) }
    requires faultless { AreFaultless (record_view joined.now) pages.now }
    ensures { IfOk result (IsPlaced (record_view joined.now) knobs setting) }
{
    if knobs.get(setting) == 0 {
        return Ok(None);
    }
    let less = lessened(knobs, setting);
    let fault = first_fault_by(alloc, pages, joined, less)?;
    let place = place_by(alloc, joined, knobs, setting, fault)?;
    Ok(Some(place))
}
