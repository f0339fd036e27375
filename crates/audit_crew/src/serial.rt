ghost use Rattle.std.specs.Prelude.{◌≡◌, IfOk};
ghost use Rattle.sched_record.specs.Record.{record_view};
ghost use Rattle.ticket_book.specs.OneVerdict.{IsOneVerdict};
ghost use Rattle.ticket_book.specs.Verdict.{IsVerdict};

use cfs_model::{Knobs, Memory};
use sched_record::Record;
use std::alloc::Global;
use ticket_book::{Book, Closed, one_verdict, whole_page};

/// The audit of a record by one thread: each processor's stream is replayed in turn, its page posted, and the book
/// closed. Each suffices, so that none is made again.
pub fn audit_serial(alloc: Global, joined: &Record, knobs: Knobs) -> Result<Closed, Memory>
    ensures verdict { IfOk result (λ closed. IsVerdict knobs (record_view joined.now) closed.verdict) }
    // It tells what every verdict on the record tells, and so what `audit` does.
    ensures one { IfOk result (λ closed. IsOneVerdict knobs (record_view joined.now) closed.verdict) }
    ensures nothing_remade { IfOk result (λ closed. closed.remade ≡ 0) }
{
    one_verdict();
    let mut book = Book::new(alloc, joined.cpus())?;
    for cpu in 0..joined.cpus() {
        let page = whole_page(alloc, joined, cpu, knobs)?;
        // The book takes it: each of the record's processors has a slot there, and this one's is empty.
        let _told = book.post(page);
    }
    book.close_own(joined, knobs)
}
