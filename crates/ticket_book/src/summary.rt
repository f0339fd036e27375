use queue_replay::Tallies;

/// What a run did.
#[derive(Debug, Drop)]
pub struct Summary {
    /// The number of the trace's events.
    pub events: u64,
    pub switches: u64,
    pub migrations: u64,
    pub births: u64,
    /// The number of switches away from a task that ends.
    pub deaths: u64,
    /// What each task did, added over all processors: the companion's tasks, then those that were born, in the order of
    /// their births; a task that was there before keeps its place.
    pub tallies: Tallies,
}

impl PartialEq for Summary {
    ghost use Rattle.std.specs.Prelude.{◌≡◌, ◌↔◌, IsTrue};
    ghost use Rattle.std.specs.Cmp.{on_per, partial_equiv_from_equiv};
    ghost use Rattle.ticket_book.specs.Same.{is_same_summary, is_same_summary_equiv};
    ghost use Rattle.ticket_book.specs.SummaryView.{summary_view};

    ghost eq = { λ a b. is_same_summary (summary_view a) (summary_view b) };

    ghost laws = { on_per summary_view (partial_equiv_from_equiv is_same_summary_equiv) };

    /// Whether two summaries say the same. It takes no memory.
    fn eq(&self, other: &Summary) -> bool
        ensures each { result ≡ is_same_summary (summary_view self.now) (summary_view other.now) }
        ensures exact { IsTrue result ↔ (summary_view self.now ≡ summary_view other.now) }
    {
        self.events == other.events
            && self.switches == other.switches
            && self.migrations == other.migrations
            && self.births == other.births
            && self.deaths == other.deaths
            && self.tallies.as_slice() == other.tallies.as_slice()
    }
}

impl Eq for Summary {
    ghost use Rattle.std.specs.Cmp.{on_equiv};
    ghost use Rattle.ticket_book.specs.Same.{is_same_summary_equiv};
    ghost use Rattle.ticket_book.specs.SummaryView.{summary_view};

    ghost laws = { on_equiv summary_view is_same_summary_equiv };
}
