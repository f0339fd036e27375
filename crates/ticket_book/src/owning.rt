//! Which of a book's pages are a record's own.
ghost use Rattle.std.specs.Prelude.{◌≡◌, ◌<◌, IfOk, vec_len};
ghost use Rattle.sched_record.specs.Record.{record_view};
ghost use Rattle.sched_record.specs.Stream.{cut_of};
ghost use Rattle.ticket_book.specs.Book.{page_at};
ghost use Rattle.ticket_book.specs.Cursor.{IsCursor, steps_in};
ghost use Rattle.ticket_book.specs.Own.{AreToldOwn, IsToldOwn};

use crate::cursor::Cursor;
use crate::following::cursors_of;
use crate::relying::is_cut_of;
use cfs_model::{Knobs, Memory};
use queue_replay::Page;
use sched_record::Record;
use std::alloc::Global;

/// For each of the record's processors whether the page at its slot is of the record's stream for it, with these
/// settings.
pub(crate) fn own_slots(
    alloc: Global,
    slots: &[Option<Page>],
    joined: &Record,
    knobs: Knobs,
) -> Result<Vec<bool>, Memory>
    ensures count { IfOk result (λ own. vec_len own ≡ (record_view joined.now).cpus) }
    ensures told { IfOk result (λ own. AreToldOwn knobs (record_view joined.now) slots.now own.items) }
{
    let cursors = cursors_of(alloc, slots, joined)?;
    let mut own = Vec::with_capacity(alloc, joined.cpus() as usize)?;
    for cpu in 0..joined.cpus() {
        own.push(is_own_at(slots, joined, cpu, knobs, cursors[cpu as usize]))?;
    }
    Ok(own)
}

/// Whether the page at a processor's slot is of the record's stream for it, with these settings. The cursor is that of
/// the page's stream, with all events dealt.
fn is_own_at(
    slots: &[Option<Page>],
    joined: &Record,
    cpu: u32,
    knobs: Knobs,
    cursor: Cursor,
) -> bool
    requires below { cpu < (record_view joined.now).cpus }
    requires followed { IsCursor (steps_in (page_at slots.now cpu))
        (cut_of (record_view joined.now) cpu).steps cursor }
    ensures { IsToldOwn knobs (record_view joined.now) cpu (page_at slots.now cpu) result }
{
    match slots.get(cpu as usize) {
        Some(Some(page)) => page.knobs() == knobs && is_cut_of(page.stream(), joined, cpu, cursor),
        _ => false,
    }
}
