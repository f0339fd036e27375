//! The pages of a record's processors by some settings, from those at the greatest.
ghost use Rattle.std.specs.Prelude.{◌≡◌, ◌<◌, ◌≤◌, ◌↔◌, IfOk, IsTrue, map};
ghost use Rattle.std.specs.Bool.{OnTrue};
ghost use Rattle.std.specs.List.{AllByRecursion};
ghost use Rattle.cfs_model.specs.Knobs.{value_at};
ghost use Rattle.cfs_model.specs.Least.{AtMost};
ghost use Rattle.sched_record.specs.Record.{record_view};
ghost use Rattle.ticket_book.specs.Faultless.{AreFaultless, IsFaultlessPageOf};
ghost use Rattle.ticket_book.specs.PageBy.{by_view, page_view};
ghost use Rattle.ticket_book.specs.Whole.{AreSufficient, IsWholePageOf};

use crate::remaking::whole_page;
use cfs_model::{Amounts, Knobs, Memory, Setting};
use queue_replay::{Page, Paged};
use replay_laws::needs;
use replay_model::{StepFault, Tally, Ticket};
use sched_record::Record;
use std::alloc::Global;

/// The page of a processor by some settings.
#[derive(Drop)]
pub(crate) struct PageBy<'p> {
    /// By the greatest.
    kept: &'p Page,
    /// Replayed by these, where the other would have failed.
    remade: Option<Page>,
}

impl PageBy<'_> {
    fn page(&self) -> &Page
        ensures { result.now.page ≡ page_view self.now }
    {
        match &self.remade {
            Some(page) => page,
            None => self.kept,
        }
    }
}

impl Paged for PageBy<'_> {
    ghost page = { page_view };

    fn fault(&self) -> Option<StepFault> {
        self.page().fault()
    }

    fn left(&self) -> &[Ticket] {
        self.page().left()
    }

    fn came(&self) -> &[Ticket] {
        self.page().came()
    }

    fn tallies(&self) -> &[Tally] {
        self.page().tallies()
    }
}

/// The pages of a record's processors by these settings, each beside the one by the greatest.
pub(crate) fn pages_by<'p>(
    alloc: Global,
    pages: &'p [Page],
    joined: &Record,
    knobs: Knobs,
) -> Result<Vec<PageBy<'p>>, Memory>
    requires { AreFaultless (record_view joined.now) pages.now }
    ensures { IfOk result (λ all. AreSufficient knobs (record_view joined.now) (map (by_view knobs) all.items)) }
{
    let mut all = Vec::with_capacity(alloc, pages.len())?;
    for cpu in 0..joined.cpus() {
        all.push(page_by(alloc, &pages[cpu as usize], joined, cpu, knobs)?)?;
    }
    Ok(all)
}

/// The page of a processor by these settings, beside the one by the greatest.
fn page_by<'p>(
    alloc: Global,
    page: &'p Page,
    joined: &Record,
    cpu: u32,
    knobs: Knobs,
) -> Result<PageBy<'p>, Memory>
    requires cpu { cpu < (record_view joined.now).cpus }
    requires faultless { IsFaultlessPageOf (record_view joined.now) cpu page.now }
    ensures { IfOk result (λ by. IsWholePageOf knobs (record_view joined.now) cpu (by_view knobs by)) }
{
    page.replayed();
    needs();
    let remade = if are_met(page.needs(), knobs, &Setting::ALL) {
        None
    } else {
        Some(whole_page(alloc, joined, cpu, knobs)?)
    };
    Ok(PageBy { kept: page, remade })
}

/// Whether these settings are at least what is needed of them.
fn are_met(needs: Amounts, knobs: Knobs, settings: &[Setting]) -> bool
    ensures { IsTrue result ↔ AllByRecursion (λ which. value_at needs which ≤ value_at knobs which) settings.now }
{
    for setting in settings {
        if needs.get(*setting) > knobs.get(*setting) {
            return false;
        }
    }
    true
}
