ghost use Rattle.std.specs.Prelude.{◌≡◌, None, IfOk, length, map};
ghost use Rattle.sched_record.specs.Record.{record_view};
ghost use Rattle.ticket_book.specs.SaidEvents.{events_of};
ghost use Rattle.ticket_book.specs.Told.{Tell, view_at};
ghost use Rattle.ticket_book.specs.Verdict.{IsVerdict};
ghost use Rattle.ticket_book.specs.Walk.{TicketsRise};
ghost use Rattle.ticket_book.specs.Whole.{AreSufficient};
ghost use Rattle.ticket_book.specs.WindowBook.{IsBookOf};

use crate::{Verdict, WindowBook};
use cfs_model::{Knobs, Memory};
use queue_replay::{Page, Paged};
use replay_laws::{closing, first_faults};
use replay_model::FirstFault;
use sched_record::Record;
use std::alloc::Global;
use tally_laws::tallying;

/// The verdict on a record to which pages that suffice come together.
pub(crate) fn verdict_on(
    alloc: Global,
    pages: &[Page],
    joined: &Record,
    knobs: Knobs,
) -> Result<Verdict, Memory>
    requires { AreSufficient knobs (record_view joined.now) pages.now }
    ensures { IfOk result (IsVerdict knobs (record_view joined.now)) }
{
    closing();
    let (book, told) = book_of(alloc, pages, joined)?;
    match told {
        Some(fault) => {
            first_faults();
            Ok(Verdict::Fault(fault))
        }
        None => {
            tallying();
            // No sum is too great: no time is above the last, there are no more events than lines, and the drift is a
            // setting.
            let _last = (joined.last_time(), joined.last_line(), knobs.drift());
            Ok(Verdict::Run(book.summary(pages)))
        }
    }
}

/// What the pages of a record's processors tell of its events: the first thing that they say against one, or nothing.
pub(crate) fn told_by<P: Paged>(
    alloc: Global,
    pages: &[P],
    joined: &Record,
) -> Result<Option<FirstFault>, Memory>
    requires count { length pages.now ≡ (record_view joined.now).cpus }
    requires rise { TicketsRise (map P.page pages.now) }
    ensures { IfOk result (Tell (view_at (map P.page pages.now)) (length pages.now) (record_view joined.now).tasks
        (events_of (record_view joined.now))) }
{
    let (_book, told) = book_of(alloc, pages, joined)?;
    Ok(told)
}

/// What they tell, beside the book of a record, which is closed as one window.
fn book_of<P: Paged>(
    alloc: Global,
    pages: &[P],
    joined: &Record,
) -> Result<(WindowBook, Option<FirstFault>), Memory>
    requires count { length pages.now ≡ (record_view joined.now).cpus }
    requires rise { TicketsRise (map P.page pages.now) }
    ensures told { IfOk result (λ made. Tell (view_at (map P.page pages.now)) (length pages.now)
        (record_view joined.now).tasks (events_of (record_view joined.now)) made.1) }
    ensures passed { IfOk result (λ made. made.1 ≡ None
        → IsBookOf (record_view joined.now).tasks (events_of (record_view joined.now)) made.0) }
{
    let mut book = WindowBook::new(alloc, joined.tasks())?;
    let told = book.close(alloc, pages, joined.events())?;
    Ok((book, told))
}
