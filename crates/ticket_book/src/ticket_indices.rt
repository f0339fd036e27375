ghost use Rattle.std.specs.Prelude.{◌≡◌, ◌+◌, ◌<◌, ◌≤◌, nat_lt, AllPairs, IfOk, drop, length, min, replicate};
ghost use Rattle.std.specs.Prelude.{slice_get, slice_index, take};
ghost use Rattle.std.specs.List.{prefix_len};
ghost use Rattle.replay_model.specs.Tickets.{ticket_at};
ghost use Rattle.ticket_book.specs.TicketIndices.{AreBelow, PassesTo, if_of_line};

use cfs_model::Memory;
use replay_model::Ticket;
use std::alloc::Global;
use std::marker::Model;

/// An index in a list of tickets for each processor. It moves along the list as the lines go up, so that a whole walk
/// goes over each list once.
#[derive(Drop)]
pub(crate) struct TicketIndices {
    items: Vec<usize>,
}

impl Model for TicketIndices {
    ghost use Rattle.std.specs.Prelude.{ℕ, List};

    ghost Value = { List ℕ };

    ghost view = { λ p. p.items.items };
}

impl TicketIndices {
    /// Each at the front.
    pub(crate) fn new(alloc: Global, cpus: usize) -> Result<TicketIndices, Memory>
        ensures { IfOk result (λ indices. indices ≡ replicate cpus 0) }
    {
        let items = vec![in alloc; 0; cpus]?;
        Ok(TicketIndices { items })
    }

    /// The ticket of a line, which is above those passed. The index moves up to it.
    pub(crate) fn ticket(&mut self, cpu: usize, tickets: &[Ticket], line: u32) -> Option<Ticket>
        requires in_bounds { cpu < length self.old }
        requires rise { AllPairs (λ t u. t.line ≤ u.line) tickets.now }
        requires passed { AreBelow line (take (slice_index self.old cpu) tickets.now) }
        ensures found { result ≡ ticket_at line tickets.now }
        ensures passes { PassesTo cpu line tickets.now self.old self.new }
    {
        let index = index_past(tickets, self.items[cpu], line);
        self.items[cpu] = index;
        ticket_on(tickets, index, line)
    }
}

/// The first index from an index on whose ticket isn't below a line.
fn index_past(tickets: &[Ticket], from: usize, line: u32) -> usize
    ensures { result ≡ min from (length tickets.now) + prefix_len (λ t. nat_lt t.line line)
        (drop (min from (length tickets.now)) tickets.now) }
{
    let start = from.min(tickets.len());
    start + count_below(&tickets[start..], line)
}

/// How many tickets a list begins with whose lines are below this one.
#[tactic(auto, using(crate::proofs::FewBelow::few_below))]
fn count_below(tickets: &[Ticket], line: u32) -> usize
    ensures count { result ≡ prefix_len (λ t. nat_lt t.line line) tickets.now }
    ensures within { result ≤ length tickets.now }
{
    tickets
        .iter()
        .take_while(|ticket| ticket.line < line)
        .count()
}

/// The ticket at an index, where it is of this line.
fn ticket_on(tickets: &[Ticket], index: usize, line: u32) -> Option<Ticket>
    ensures { result ≡ if_of_line line (slice_get tickets.now index) }
{
    match tickets.get(index) {
        Some(ticket) if ticket.line == line => Some(*ticket),
        _ => None,
    }
}
