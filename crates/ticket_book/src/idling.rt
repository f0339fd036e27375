ghost use Rattle.std.specs.Prelude.{◌≡◌, IfNone, IfSome, length, map};
ghost use Rattle.ticket_book.specs.Idling.{IsFirstLate, NoneFirst, NoneLate, deadline_on, is_past};

use crate::lesser::lesser;
use queue_replay::Paged;

/// Until when the page's processor could idle, where its fault is that it idled for longer.
fn deadline_on<P: Paged>(page: &P) -> Option<u64>
    ensures { result ≡ deadline_on (P.page page.now) }
{
    page.fault().and_then(|fault| fault.deadline)
}

/// The first deadline on the pages.
pub(crate) fn first_deadline<P: Paged>(pages: &[P]) -> Option<u64>
    ensures { NoneFirst (map P.page pages.now) result (length pages.now) }
{
    let mut first = None;
    for page in pages {
        first = lesser(first, deadline_on(page));
    }
    first
}

/// The lowest processor whose deadline is before a time, where the first of all is known.
pub(crate) fn late<P: Paged>(pages: &[P], first: Option<u64>, time: u64) -> Option<usize>
    requires { NoneFirst (map P.page pages.now) first (length pages.now) }
    ensures none { IfNone result (NoneLate (map P.page pages.now) time (length pages.now)) }
    ensures found { IfSome result (λ cpu. IsFirstLate (map P.page pages.now) time cpu) }
{
    match first {
        Some(deadline) if deadline < time => first_late(pages, time),
        _ => None,
    }
}

/// The lowest processor whose deadline is before a time.
fn first_late<P: Paged>(pages: &[P], time: u64) -> Option<usize>
    ensures none { IfNone result (NoneLate (map P.page pages.now) time (length pages.now)) }
    ensures found { IfSome result (λ cpu. IsFirstLate (map P.page pages.now) time cpu) }
{
    for (cpu, page) in pages.iter().enumerate() {
        if is_late(page, time) {
            return Some(cpu);
        }
    }
    None
}

/// Whether the page's deadline is before a time.
fn is_late<P: Paged>(page: &P, time: u64) -> bool
    ensures { result ≡ is_past time (deadline_on (P.page page.now)) }
{
    deadline_on(page).is_some_and(|deadline| deadline < time)
}
