ghost use Rattle.std.specs.Prelude.{◌≡◌, ◌<◌, ◌≤◌, None, Some, IfOk, IfErr, OnOk, OnErr, replicate, slice_set};
ghost use Rattle.cfs_model.specs.Limits.{most_processors};
ghost use Rattle.ticket_book.specs.Book.{IsBook, line_of_fault, least_line, refusal_in, post_refusal};

use crate::closing::verdict_on;
use crate::least_closing::least_on;
use crate::remaking::{sufficing_own_pages, sufficing_pages};
use crate::{Closed, ClosedLeast, PostFault};
use cfs_model::{Knobs, Memory};
use queue_replay::Page;
use replay_model::StepFault;
use sched_record::Record;
use std::alloc::Global;

/// The line that is told where no page has a fault.
pub const NO_FAULT: u64 = u64::MAX;

/// The pages of a record's processors, at most one for each.
#[derive(Debug, Drop)]
pub struct Book {
    slots: Vec<Option<Page>>,
    least: u64,
    pub ghost kept: { IsBook slots.items least },
}

impl Book {
    ghost use Rattle.cfs_model.specs.Least.{greatest_settings};
    ghost use Rattle.sched_record.specs.Record.{record_view};
    ghost use Rattle.ticket_book.specs.BookView.{book_view};
    ghost use Rattle.ticket_book.specs.Core.{AreLeft};
    ghost use Rattle.ticket_book.specs.Faultless.{AreBehind};
    ghost use Rattle.ticket_book.specs.LeastAnswer.{IsLeastAnswer};
    ghost use Rattle.ticket_book.specs.Own.{AreOwn};
    ghost use Rattle.ticket_book.specs.Remade.{AreRemade};
    ghost use Rattle.ticket_book.specs.Verdict.{IsVerdict};

    /// A book without pages for so many processors, at most `MOST_PROCESSORS`, with the room for all their pages.
    pub fn new(alloc: Global, cpus: u32) -> Result<Book, Memory>
        requires some { 0 < cpus }
        requires at_most { cpus ≤ most_processors }
        ensures { IfOk result (λ book. book_view book ≡ replicate cpus None) }
    {
        let mut slots = Vec::with_capacity(alloc, cpus as usize)?;
        for _cpu in 0..cpus {
            slots.push(None)?;
        }
        Ok(Book {
            slots,
            least: NO_FAULT,
        })
    }

    /// Adds a page, and tells the least line of a fault on the book's pages: `NO_FAULT` where none has one. A page that
    /// is refused comes back. Takes no memory.
    pub fn post(&mut self, page: Page) -> Result<u64, (Page, PostFault)>
        ensures refused { refusal_in result ≡ post_refusal (book_view self.old) page.stream.cpu }
        ensures added { OnOk result (book_view self.new ≡ slice_set (book_view self.old) page.stream.cpu (Some page)) }
        ensures told { IfOk result (λ line. line ≡ least_line (book_view self.new)) }
        ensures back { IfErr result (λ e. e.0 ≡ page) }
        ensures unchanged { OnErr result (self.new ≡ self.old) }
    {
        let cpu = page.stream().cpu();
        if let Some(fault) = self.refusal(cpu) {
            return Err((page, fault));
        }
        self.least = self.least.min(line_of_fault(page.fault()));
        self.slots[cpu as usize] = Some(page);
        Ok(self.least)
    }

    /// Why a page of a processor is refused.
    fn refusal(&self, cpu: u32) -> Option<PostFault>
        ensures { result ≡ post_refusal (book_view self.now) cpu }
    {
        match self.slots.get(cpu as usize) {
            None => Some(PostFault::Outside),
            Some(Some(_)) => Some(PostFault::Twice),
            Some(None) => None,
        }
    }

    /// The least line of a fault on the book's pages, `NO_FAULT` where none has one. Takes no memory.
    pub fn least(&self) -> u64
        ensures { result ≡ least_line (book_view self.now) }
    {
        self.least
    }

    /// The verdict on a record: of the book's pages those that suffice are relied on, and the others are made again.
    /// The book may have been made for another number of processors.
    pub fn close(self, joined: &Record, knobs: Knobs) -> Result<Closed, Memory>
        ensures verdict { IfOk result (λ closed. IsVerdict knobs (record_view joined.now) closed.verdict) }
        ensures remade { IfOk result (λ closed. AreRemade knobs (record_view joined.now)
            (book_view self) closed.remade) }
        ensures nothing_remade { IfOk result (λ closed. AreLeft knobs (record_view joined.now) (book_view self)
            → closed.remade ≡ 0) }
    {
        let alloc = *self.slots.allocator();
        let (pages, remade) = sufficing_pages(alloc, self, joined, knobs)?;
        let verdict = verdict_on(alloc, &pages, joined, knobs)?;
        Ok(Closed { verdict, remade })
    }

    /// The verdict on a record, for a book whose pages are all of the record's own streams, with these settings. None
    /// is compared with the record: those that got far enough are relied on, and the others are made again.
    pub fn close_own(self, joined: &Record, knobs: Knobs) -> Result<Closed, Memory>
        requires own { AreOwn knobs (record_view joined.now) (book_view self) }
        ensures verdict { IfOk result (λ closed. IsVerdict knobs (record_view joined.now) closed.verdict) }
        ensures remade { IfOk result (λ closed. AreRemade knobs (record_view joined.now)
            (book_view self) closed.remade) }
        ensures nothing_remade { IfOk result (λ closed. AreLeft knobs (record_view joined.now) (book_view self)
            → closed.remade ≡ 0) }
        ensures few { IfOk result (λ closed. closed.remade ≤ (record_view joined.now).cpus) }
    {
        let alloc = *self.slots.allocator();
        let (pages, remade) = sufficing_own_pages(alloc, self, joined, knobs)?;
        Ok(Closed {
            verdict: verdict_on(alloc, &pages, joined, knobs)?,
            remade,
        })
    }

    /// The least settings of a record, for a book whose pages are all of the record's own streams, at the greatest
    /// settings: those that got far enough are relied on, and the others are made again, as `close_own` does.
    pub fn close_least(self, joined: &Record) -> Result<ClosedLeast, Memory>
        requires own { AreOwn greatest_settings (record_view joined.now) (book_view self) }
        ensures least { IfOk result (λ closed. IsLeastAnswer (record_view joined.now) closed.least) }
        ensures remade { IfOk result (λ closed. AreRemade greatest_settings (record_view joined.now)
            (book_view self) closed.remade) }
        ensures nothing_remade { IfOk result
            (λ closed. AreLeft greatest_settings (record_view joined.now) (book_view self) → closed.remade ≡ 0) }
        ensures few { IfOk result (λ closed. closed.remade ≤ (record_view joined.now).cpus) }
    {
        let (closed, _pages) = self.close_least_by_pages(joined)?;
        Ok(closed)
    }

    /// The same, with the pages that tell it, one for each processor.
    pub fn close_least_by_pages(self, joined: &Record) -> Result<(ClosedLeast, Vec<Page>), Memory>
        requires own { AreOwn greatest_settings (record_view joined.now) (book_view self) }
        ensures least { IfOk result (λ closed. IsLeastAnswer (record_view joined.now) closed.0.least) }
        ensures behind { IfOk result (λ closed. AreBehind (record_view joined.now) closed.0.least closed.1.items) }
        ensures remade { IfOk result (λ closed. AreRemade greatest_settings (record_view joined.now)
            (book_view self) closed.0.remade) }
        ensures nothing_remade { IfOk result
            (λ closed. AreLeft greatest_settings (record_view joined.now) (book_view self) → closed.0.remade ≡ 0) }
        ensures few { IfOk result (λ closed. closed.0.remade ≤ (record_view joined.now).cpus) }
    {
        let alloc = *self.slots.allocator();
        let (pages, remade) = sufficing_own_pages(alloc, self, joined, Knobs::greatest())?;
        let least = least_on(alloc, &pages, joined)?;
        Ok((ClosedLeast { least, remade }, pages))
    }

    /// The slots of the book's processors.
    pub(crate) fn into_slots(self) -> Vec<Option<Page>>
        ensures { result.items ≡ book_view self }
    {
        self.slots
    }
}

/// The line of a page's fault.
fn line_of_fault(fault: Option<StepFault>) -> u64
    ensures { result ≡ line_of_fault fault }
{
    match fault {
        Some(fault) => u64::from(fault.line),
        None => NO_FAULT,
    }
}
