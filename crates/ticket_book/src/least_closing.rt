//! The least settings of a record, by its processors' pages at the greatest settings.
ghost use Rattle.std.specs.Prelude.{◌≡◌, IfOk, length};
ghost use Rattle.cfs_model.specs.Least.{greatest_settings};
ghost use Rattle.cfs_model.specs.Knobs.{AreInRange};
ghost use Rattle.replay_model.specs.Needs.{largest};
ghost use Rattle.sched_record.specs.Record.{record_view};
ghost use Rattle.ticket_book.specs.LeastAnswer.{IsLeastAnswer};
ghost use Rattle.ticket_book.specs.NeedsOfPages.{HaveNeeds, needs_at};
ghost use Rattle.ticket_book.specs.Faultless.{AreBehind};
ghost use Rattle.ticket_book.specs.Whole.{AreSufficient};

use crate::LeastSettings;
use crate::closing::told_by;
use cfs_model::{Amounts, Knobs, Memory, least_settings};
use queue_replay::Page;
use replay_laws::{closing, first_faults, needs};
use sched_record::Record;
use std::alloc::Global;

/// The least settings of a record to which pages that suffice, at the greatest settings, come together.
pub(crate) fn least_on(
    alloc: Global,
    pages: &[Page],
    joined: &Record,
) -> Result<LeastSettings, Memory>
    requires { AreSufficient greatest_settings (record_view joined.now) pages.now }
    ensures answer { IfOk result (IsLeastAnswer (record_view joined.now)) }
    ensures behind { IfOk result (λ least. AreBehind (record_view joined.now) least pages.now) }
{
    closing();
    least_settings();
    match told_by(alloc, pages, joined)? {
        Some(fault) => {
            first_faults();
            Ok(LeastSettings::Fault(fault))
        }
        None => {
            needs();
            Ok(LeastSettings::Found(knobs_of(largest_needs(pages))))
        }
    }
}

/// Needs that are in range, as settings.
fn knobs_of(needs: Amounts) -> Knobs
    requires { AreInRange needs }
    ensures { result ≡ needs }
{
    match Knobs::of(needs) {
        Some(knobs) => knobs,
        None => unreachable!(),
    }
}

/// Of each setting the greatest that one of the pages needs.
fn largest_needs(pages: &[Page]) -> Amounts
    ensures largest { result ≡ largest (needs_at pages.now) (length pages.now) }
    ensures have { HaveNeeds pages.now }
{
    let mut largest = Amounts::none();
    for page in pages {
        page.replayed();
        largest = largest.larger(page.needs());
    }
    largest
}
