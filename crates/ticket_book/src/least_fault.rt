//! The least line of a fault on those of a book's pages that are a record's own.
ghost use Rattle.std.specs.Prelude.{◌≡◌, length, option_map, if◌then◌else◌};
ghost use Rattle.cfs_model.specs.Knobs.{KnobsView};
ghost use Rattle.sched_record.specs.Record.{RecordView};
ghost use Rattle.ticket_book.specs.Book.{page_at};
ghost use Rattle.ticket_book.specs.Own.{AreToldOwn, own_line};
ghost use Rattle.ticket_book.specs.Relying.{IsLeastFaultLine};

use crate::lesser::lesser;
use queue_replay::Page;

/// The least line of a fault on a record's own pages, where it is told of each slot whether its page is one.
pub(crate) fn least_fault(slots: &[Option<Page>], own: &[bool]) -> Option<u64>
    ensures { (knobs : KnobsView) (r : RecordView) → AreToldOwn knobs r slots.now own.now
        → IsLeastFaultLine knobs r slots.now (length own.now) result }
{
    let mut least = None;
    for (cpu, is_own) in own.iter().enumerate() {
        least = lesser(least, fault_at(slots, cpu, *is_own));
    }
    least
}

/// The line of the fault of the page at a slot, where the page is told to be the record's own and has one.
fn fault_at(slots: &[Option<Page>], cpu: usize, own: bool) -> Option<u64>
    ensures { result ≡ own_line own (page_at slots.now cpu) }
{
    match slots.get(cpu) {
        Some(Some(page)) if own => fault_line(page),
        _ => None,
    }
}

/// The line of a page's fault, where it has one.
fn fault_line(page: &Page) -> Option<u64>
    ensures { result ≡ option_map (λ fault. fault.line) page.now.page.fault }
{
    let fault = page.fault()?;
    Some(u64::from(fault.line))
}
