//! A shelf for one auditor.

use audit_crew::Shelf;
use queue_replay::{Page, Tag};
use ticket_book::{Book, NO_FAULT, PostFault};

/// A shelf over a book of its own.
#[derive(Drop)]
pub(crate) struct OwnShelf {
    pub book: Book,
    pub posted: Option<Tag>,
    /// What the book answered to the page that it accepted.
    pub answered: Option<u64>,
    told: u64,
    pub refused: Option<(Tag, PostFault)>,
}

impl OwnShelf {
    ghost use Rattle.std.specs.Prelude.{◌≡◌, None};

    pub fn new(book: Book) -> OwnShelf
        ensures posted { result.posted ≡ None }
        ensures refused { result.refused ≡ None }
    {
        OwnShelf {
            book,
            posted: None,
            answered: None,
            told: NO_FAULT,
            refused: None,
        }
    }
}

impl Shelf for OwnShelf {
    ghost use Rattle.std.specs.Option.{option_to_list};

    ghost accepted = { λ shelf. option_to_list shelf.posted };

    ghost told = { λ shelf. shelf.told };

    ghost refused = { λ shelf. shelf.refused };

    fn post(&mut self, page: Page) -> Result<(), (Page, PostFault)> {
        let tag = page.tag();
        match self.book.post(page) {
            Ok(least) => {
                self.posted = Some(tag);
                self.answered = Some(least);
                Ok(())
            }
            Err((page, fault)) => {
                self.refused = Some((tag, fault));
                Err((page, fault))
            }
        }
    }

    fn least(&mut self) -> u64 {
        self.told = self.book.least();
        self.told
    }
}
