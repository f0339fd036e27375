//! The audit of a record by threads, one for each of its processors.
ghost use Rattle.std.specs.Prelude.{◌≡◌, ◌≤◌, length, IfOk};
ghost use Rattle.audit_crew.specs.Filled.{filled};
ghost use Rattle.sched_record.specs.Record.{record_view};
ghost use Rattle.ticket_book.specs.BookView.{book_view};
ghost use Rattle.ticket_book.specs.LeastAnswer.{IsLeastAnswer};
ghost use Rattle.ticket_book.specs.OneVerdict.{IsOneVerdict};
ghost use Rattle.ticket_book.specs.Own.{AreOwn};
ghost use Rattle.ticket_book.specs.Verdict.{IsVerdict};

use crate::members::{begin_all, end_all, gather, members_of};
use crate::shared_book::{CrewLedger, SharedBook};
use crate::{Gate, Gathered};
use cfs_model::{Knobs, Memory};
use sched_record::Record;
use std::alloc::Global;
use std::marker::Brand;
use std::sync::ledger::Blank;
use std::sync::{Mutex, Wait};
use std::thread::Threads;
use ticket_book::{Book, Closed, LeastSettings, one_verdict};

/// The audit of a record by a crew: its auditors' pages in one book, which is then closed.
pub fn audit<R: Threads + Wait + Sync, G: Gate>(
    rt: &R,
    alloc: Global,
    joined: &Record,
    knobs: Knobs,
    gate: &G,
) -> Result<Closed, Memory>
    ensures verdict { IfOk result (λ closed. IsVerdict knobs (record_view joined.now) closed.verdict) }
    // It tells what every verdict on the record tells, and so what `audit_serial` does.
    ensures one { IfOk result (λ closed. IsOneVerdict knobs (record_view joined.now) closed.verdict) }
    ensures remade { IfOk result (λ closed. closed.remade ≤ (record_view joined.now).cpus) }
{
    one_verdict();
    crew(rt, alloc, joined, knobs, gate)?
        .book
        .close_own(joined, knobs)
}

/// The least settings of a record by a crew at the greatest: its auditors' pages in one book, which is then closed.
pub fn least_settings<R: Threads + Wait + Sync, G: Gate>(
    rt: &R,
    alloc: Global,
    joined: &Record,
    gate: &G,
) -> Result<LeastSettings, Memory>
    ensures { IfOk result (IsLeastAnswer (record_view joined.now)) }
{
    let gathered = crew(rt, alloc, joined, Knobs::greatest(), gate)?;
    let closed = gathered.book.close_least(joined)?;
    Ok(closed.least)
}

/// Audits each processor of a record in a thread of its own, all at once, and gathers their pages in one book. No
/// auditor makes a second stretch before each has made its first: else one whose stream is dealt early would replay
/// most of it before another could tell of a fault near the beginning. Where a thread can't be started its auditor runs
/// in another, after that one's own.
pub fn crew<R: Threads + Wait + Sync, G: Gate>(
    rt: &R,
    alloc: Global,
    joined: &Record,
    knobs: Knobs,
    gate: &G,
) -> Result<Gathered, Memory>
    ensures slots { IfOk result (λ gathered. length (book_view gathered.book) ≡ (record_view joined.now).cpus) }
    ensures pages { IfOk result (λ gathered. filled (book_view gathered.book) ≡ gathered.posted) }
    ensures own { IfOk result (λ gathered. AreOwn knobs (record_view joined.now) (book_view gathered.book)) }
{
    let blank = Blank::new(u64::from(joined.cpus()));
    crew_of::<Brand, R, G>(rt, alloc, blank, joined, knobs, gate)
}

/// The crew, whose accepted posts this ledger counts.
fn crew_of<L: CrewLedger + Send + Sync, R: Threads + Wait + Sync, G: Gate>(
    rt: &R,
    alloc: Global,
    blank: Blank,
    joined: &Record,
    knobs: Knobs,
    gate: &G,
) -> Result<Gathered, Memory>
    requires name { blank.name ≡ L.name }
    requires parts { blank.parts ≡ L.parts }
    requires one_each { blank.parts ≡ (record_view joined.now).cpus }
    requires joined { L.joined ≡ record_view joined.now }
    requires knobs { L.knobs ≡ knobs }
    ensures slots { IfOk result (λ gathered. length (book_view gathered.book) ≡ L.joined.cpus) }
    ensures pages { IfOk result (λ gathered. filled (book_view gathered.book) ≡ gathered.posted) }
    ensures own { IfOk result (λ gathered. AreOwn L.knobs L.joined (book_view gathered.book)) }
{
    let cpus = joined.cpus();
    let (posts, mut all) = blank.open::<L>();
    let mut members = members_of(alloc, &mut all, cpus)?;
    let shared = Mutex::new(SharedBook::new(Book::new(alloc, cpus)?, posts));
    begin_all(
        rt,
        alloc,
        members.as_mut_slice(),
        &shared,
        joined,
        knobs,
        gate,
    );
    end_all(rt, members.as_mut_slice(), &shared, gate);
    let posted = gather(members, &mut all)?;
    Ok(shared.into_inner().gathered(all, posted))
}
