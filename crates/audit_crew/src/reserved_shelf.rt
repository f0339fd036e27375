ghost use Rattle.std.specs.Prelude.{◌≡◌, ℕ, ⊤, Option, Some, List, [], ◌∷◌, IfErr, OnOk, OnErr};
ghost use Rattle.audit_crew.specs.Tags.{tag_of};
ghost use Rattle.queue_replay.specs.Replay.{ReplayView};
ghost use Rattle.queue_replay.specs.declared.tag.Tag.{Tag};
ghost use Rattle.ticket_book.specs.declared.post_fault.PostFault.{PostFault};

use crate::Shelf;
use queue_replay::Page;
use ticket_book::PostFault;

/// A shelf that may be kept for some pages alone, as a crew's is for the record's own. Its laws are those of `Shelf`,
/// for the pages that it takes.
pub(crate) trait ReservedShelf {
    /// The tags of the pages that were accepted through it.
    ghost accepted: { Self → List Tag };

    /// The line that its `least` last told; before the first, that of no fault.
    ghost told: { Self → ℕ };

    /// The tag of the page that its `post` last refused, and why.
    ghost refused: { Self → Option (Tag × PostFault) };

    /// The pages that may be posted through it.
    ghost takes: { ReplayView → Type 0 };

    /// Posts a page. One that is refused comes back.
    fn post(&mut self, page: Page) -> Result<(), (Page, PostFault)>
        requires free { accepted self.old ≡ [] }
        requires taken { takes page }
        ensures added { OnOk result (accepted self.new ≡ tag_of page ∷ []) }
        ensures kept { OnErr result (accepted self.new ≡ accepted self.old) }
        ensures back { IfErr result (λ e. e.0 ≡ page) }
        ensures refused { IfErr result (λ e. refused self.new ≡ Some (tag_of page, e.1)) }
        ensures none_refused { OnOk result (refused self.new ≡ refused self.old) }
        ensures told { told self.new ≡ told self.old };

    /// The least line of a fault on the pages of all auditors.
    fn least(&mut self) -> u64
        ensures told { told self.new ≡ result }
        ensures accepted { accepted self.new ≡ accepted self.old }
        ensures refused { refused self.new ≡ refused self.old };
}

/// A shelf is one that takes every page.
impl<S: Shelf> ReservedShelf for S {
    ghost accepted = { S.accepted };

    ghost told = { S.told };

    ghost refused = { S.refused };

    ghost takes = { λ _. ⊤ };

    fn post(&mut self, page: Page) -> Result<(), (Page, PostFault)> {
        Shelf::post(self, page)
    }

    fn least(&mut self) -> u64 {
        Shelf::least(self)
    }
}
