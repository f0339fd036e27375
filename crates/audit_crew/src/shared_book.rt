ghost use Rattle.std.specs.Prelude.{◌≡◌, ◌+◌, ◌<◌, length, IfErr, OnOk, OnErr};
ghost use Rattle.cfs_model.specs.Knobs.{KnobsView};
ghost use Rattle.sched_record.specs.Record.{RecordView};
ghost use Rattle.audit_crew.specs.Filled.{filled};
ghost use Rattle.audit_crew.specs.Own.{IsOwnReplay, no_knobs, no_record};
ghost use Rattle.ticket_book.specs.Book.{least_line};
ghost use Rattle.ticket_book.specs.BookView.{book_view};
ghost use Rattle.ticket_book.specs.Own.{AreOwn};

use crate::Gathered;
use queue_replay::Page;
use std::marker::Brand;
use std::sync::ledger;
use std::sync::ledger::{Ledger, Share};
use ticket_book::{Book, PostFault};

/// Which ledger counts a crew's posts, and of which record and by which settings the pages are.
pub(crate) trait CrewLedger: Ledger {
    ghost joined: { RecordView };

    ghost knobs: { KnobsView };
}

impl CrewLedger for Brand {
    ghost joined = { no_record };

    ghost knobs = { no_knobs };
}

/// What the auditors share under their one lock: the book, and the ledger of the posts that it accepted.
#[derive(Drop)]
pub(crate) struct SharedBook<L: CrewLedger> {
    book: Book,
    posts: ledger::Book<L>,
    ghost slots: { length (book_view book) ≡ L.joined.cpus },
    ghost own: { AreOwn L.knobs L.joined (book_view book) },
    ghost counted: { filled (book_view book) ≡ posts.total },
}

impl<L: CrewLedger> SharedBook<L> {
    /// A book without pages, and its ledger without posts.
    pub(crate) fn new(book: Book, posts: ledger::Book<L>) -> SharedBook<L>
        requires slots { length (book_view book) ≡ L.joined.cpus }
        requires own { AreOwn L.knobs L.joined (book_view book) }
        requires counted { filled (book_view book) ≡ posts.total }
    {
        SharedBook { book, posts }
    }

    /// Posts a page, and counts it where it is accepted.
    pub(crate) fn post(&mut self, page: Page, share: &mut Share<L>) -> Result<(), (Page, PostFault)>
        requires parts { 0 < share.old.parts }
        requires own { IsOwnReplay L.knobs L.joined page }
        ensures parts { share.new.parts ≡ share.old.parts }
        ensures counted { OnOk result (share.new.amount ≡ share.old.amount + 1) }
        ensures uncounted { OnErr result (share.new.amount ≡ share.old.amount) }
        ensures back { IfErr result (λ e. e.0 ≡ page) }
    {
        let SharedBook { book, posts } = self;
        match book.post(page) {
            Ok(_least) => {
                posts.add(share, 1);
                Ok(())
            }
            Err(back) => Err(back),
        }
    }

    /// The least line of a fault on the pages so far.
    pub(crate) fn least(&self) -> u64
        ensures { result ≡ least_line (book_view self.now.book) }
    {
        self.book.least()
    }

    /// What a crew gathered: the book, and the number of its posts, for who has all shares of the ledger again.
    pub(crate) fn gathered(self, mut all: Share<L>, posted: u32) -> Gathered
        requires whole { all.parts ≡ L.parts }
        requires posted { all.amount ≡ posted }
        ensures slots { length (book_view result.book) ≡ L.joined.cpus }
        ensures own { AreOwn L.knobs L.joined (book_view result.book) }
        ensures pages { filled (book_view result.book) ≡ result.posted }
    {
        let SharedBook { book, mut posts } = self;
        posts.audit(&mut all);
        Gathered { book, posted }
    }
}
