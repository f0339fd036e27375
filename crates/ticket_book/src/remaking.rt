//! A page for each processor on which a verdict can rest: of a book's pages those that suffice, and the others made
//! again.
ghost use Rattle.std.specs.Prelude.{◌≡◌, ◌≢◌, ℕ, None, Some, ◌<◌, ◌≤◌, IfOk, IfSome, length};
ghost use Rattle.replay_model.specs.Page.{IsPageOf};
ghost use Rattle.sched_record.specs.Record.{record_view};
ghost use Rattle.ticket_book.specs.Book.{page_at};
ghost use Rattle.ticket_book.specs.BookView.{book_view};
ghost use Rattle.ticket_book.specs.Core.{AreLeft};
ghost use Rattle.ticket_book.specs.Own.{AreOwn, AreToldOwn};
ghost use Rattle.ticket_book.specs.Relying.{IsReliable};
ghost use Rattle.ticket_book.specs.Remade.{AreRemade};
ghost use Rattle.ticket_book.specs.Whole.{AreSufficient, IsWholePageOf};

use crate::Book;
use crate::least_fault::least_fault;
use crate::owning::own_slots;
use crate::relying::is_enough;
use cfs_model::{Knobs, Memory};
use queue_replay::{Page, Replay};
use sched_record::Record;
use std::alloc::Global;

/// A page that suffices for each of the record's processors, and how many had to be made again for it.
pub(crate) fn sufficing_pages(
    alloc: Global,
    book: Book,
    joined: &Record,
    knobs: Knobs,
) -> Result<(Vec<Page>, u32), Memory>
    ensures suffice { IfOk result (λ made. AreSufficient knobs (record_view joined.now) made.0.items) }
    ensures remade { IfOk result (λ made. AreRemade knobs (record_view joined.now) (book_view book) made.1) }
    ensures nothing_remade { IfOk result (λ made. AreLeft knobs (record_view joined.now) (book_view book)
        → made.1 ≡ 0) }
{
    let slots = book.into_slots();
    let own = own_slots(alloc, &slots, joined, knobs)?;
    gathered_pages(alloc, slots, &own, joined, knobs)
}

/// The same of a book whose pages are all the record's own, so that none is compared with it.
pub(crate) fn sufficing_own_pages(
    alloc: Global,
    book: Book,
    joined: &Record,
    knobs: Knobs,
) -> Result<(Vec<Page>, u32), Memory>
    requires own { AreOwn knobs (record_view joined.now) (book_view book) }
    ensures suffice { IfOk result (λ made. AreSufficient knobs (record_view joined.now) made.0.items) }
    ensures remade { IfOk result (λ made. AreRemade knobs (record_view joined.now) (book_view book) made.1) }
    ensures nothing_remade { IfOk result (λ made. AreLeft knobs (record_view joined.now) (book_view book)
        → made.1 ≡ 0) }
    ensures few { IfOk result (λ made. made.1 ≤ (record_view joined.now).cpus) }
{
    let own = Vec::from_elem(alloc, true, joined.cpus() as usize)?;
    gathered_pages(alloc, book.into_slots(), &own, joined, knobs)
}

/// The same of a book's slots, where it is told of each whether its page is the record's own.
fn gathered_pages(
    alloc: Global,
    mut slots: Vec<Option<Page>>,
    own: &[bool],
    joined: &Record,
    knobs: Knobs,
) -> Result<(Vec<Page>, u32), Memory>
    requires count { length own.now ≡ (record_view joined.now).cpus }
    requires told { AreToldOwn knobs (record_view joined.now) slots.items own.now }
    ensures suffice { IfOk result (λ made. AreSufficient knobs (record_view joined.now) made.0.items) }
    ensures remade { IfOk result (λ made. AreRemade knobs (record_view joined.now) slots.items made.1) }
    ensures nothing_remade { IfOk result (λ made. AreLeft knobs (record_view joined.now) slots.items → made.1 ≡ 0) }
    ensures few { IfOk result (λ made. made.1 ≤ (record_view joined.now).cpus) }
{
    let least = least_fault(&slots, own);
    let left = slots.as_mut_slice();
    let mut pages = Vec::with_capacity(alloc, joined.cpus() as usize)?;
    let mut remade = 0;
    for cpu in 0..joined.cpus() {
        let slot = take_page(left, cpu);
        let page = match relied_on(slot, own[cpu as usize], least) {
            Some(page) => page,
            None => {
                remade += 1;
                whole_page(alloc, joined, cpu, knobs)?
            }
        };
        pages.push(page)?;
    }
    Ok((pages, remade))
}

/// Takes a processor's page out of its slot.
fn take_page(slots: &mut [Option<Page>], cpu: u32) -> Option<Page>
    ensures page { result ≡ page_at slots.old cpu }
    ensures others { (other : ℕ) → other ≢ cpu → page_at slots.new other ≡ page_at slots.old other }
{
    let slot = cpu as usize;
    if slot < slots.len() {
        slots[slot].take()
    } else {
        None
    }
}

/// The page from a slot, where a verdict can rest on it beside the least line of a fault. It is told whether the page
/// is the record's own.
fn relied_on(slot: Option<Page>, own: bool, least: Option<u64>) -> Option<Page>
    ensures reliable { IfSome result (λ page. IsReliable own least (Some page)) }
    ensures is_page { IfSome result (λ page. IsPageOf page.stream page.knobs page.made page.page) }
    ensures same { IfSome result (λ page. slot ≡ Some page) }
    ensures none { result ≡ None → ¬ IsReliable own least slot }
{
    match slot {
        Some(page) => {
            page.replayed();
            if own && is_enough(&page, least) {
                Some(page)
            } else {
                None
            }
        }
        None => None,
    }
}

/// The page of a record's processor, replayed to its first fault or to the end.
pub fn whole_page(alloc: Global, joined: &Record, cpu: u32, knobs: Knobs) -> Result<Page, Memory>
    requires { cpu < (record_view joined.now).cpus }
    ensures { IfOk result (IsWholePageOf knobs (record_view joined.now) cpu) }
{
    let stream = joined.deal(cpu)?;
    let mut replay = match Replay::new(alloc, stream, knobs) {
        Ok(replay) => replay,
        Err((_stream, memory)) => return Err(memory),
    };
    let _state = replay.go_on(u64::MAX)?;
    Ok(replay.page())
}
