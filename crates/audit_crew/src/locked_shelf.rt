ghost use Rattle.std.specs.Prelude.{◌≡◌, None, length};
ghost use Rattle.std.specs.Option.{option_to_list};
ghost use Rattle.audit_crew.specs.Own.{IsOwnReplay};

use crate::reserved_shelf::ReservedShelf;
use crate::shared_book::{CrewLedger, SharedBook};
use queue_replay::{Page, Tag};
use std::sync::ledger::Share;
use std::sync::{Mutex, Wait};
use ticket_book::{NO_FAULT, PostFault};

/// One auditor's shelf: the shared book, which is locked within one call alone, and what the auditor did there.
#[derive(Drop)]
pub(crate) struct LockedShelf<'b, L: CrewLedger, R: Wait> {
    rt: &'b R,
    shared: &'b Mutex<SharedBook<L>>,
    share: Share<L>,
    posted: Option<Tag>,
    told: u64,
    refused: Option<(Tag, PostFault)>,
    ghost part: { share.parts ≡ 1 },
    ghost counted: { share.amount ≡ length (option_to_list posted) },
}

impl<'b, L: CrewLedger, R: Wait> LockedShelf<'b, L, R> {
    /// That of an auditor that has posted nothing.
    pub(crate) fn new(
        rt: &'b R,
        shared: &'b Mutex<SharedBook<L>>,
        share: Share<L>,
    ) -> LockedShelf<'b, L, R>
        requires part { share.parts ≡ 1 }
        requires none { share.amount ≡ 0 }
        ensures posted { result.posted ≡ None }
        ensures refused { result.refused ≡ None }
    {
        LockedShelf {
            rt,
            shared,
            share,
            posted: None,
            told: NO_FAULT,
            refused: None,
        }
    }

    /// The share of the ledger, the tag of the page that was accepted, and that of the one that was refused last, with
    /// the book's reason.
    pub(crate) fn leave(self) -> (Share<L>, Option<Tag>, Option<(Tag, PostFault)>)
        ensures part { result.0.parts ≡ 1 }
        ensures counted { result.0.amount ≡ length (option_to_list result.1) }
        ensures posted { result.1 ≡ self.entry.posted }
        ensures refused { result.2 ≡ self.entry.refused }
    {
        let LockedShelf {
            share,
            posted,
            refused,
            ..
        } = self;
        (share, posted, refused)
    }
}

impl<L: CrewLedger, R: Wait> ReservedShelf for LockedShelf<'_, L, R> {
    ghost accepted = { λ shelf. option_to_list shelf.posted };

    ghost told = { λ shelf. shelf.told };

    ghost refused = { λ shelf. shelf.refused };

    ghost takes = { IsOwnReplay L.knobs L.joined };

    fn post(&mut self, page: Page) -> Result<(), (Page, PostFault)> {
        let tag = page.tag();
        let LockedShelf {
            rt,
            shared,
            share,
            posted,
            refused,
            ..
        } = self;
        let answer = shared.lock(*rt).post(page, share);
        match answer {
            Ok(()) => {
                *posted = Some(tag);
                Ok(())
            }
            Err((page, fault)) => {
                *refused = Some((tag, fault));
                Err((page, fault))
            }
        }
    }

    fn least(&mut self) -> u64 {
        let line = self.shared.lock(self.rt).least();
        self.told = line;
        line
    }
}
