use cfs_model::Nice;

/// Where a task stands, and which lines named and placed it last.
#[derive(Clone, Copy, Debug)]
pub(crate) struct Named {
    pub cpu: u32,
    /// Where its row is in that processor's runqueue.
    pub row: usize,
    /// From 1; 0 before the first.
    pub line: u32,
    /// The line on which it was woken, was born or came here; 0 where it has been here from the start.
    pub since: u32,
    pub nice: Nice,
    /// Its last placement among those that no print tells, where none has told it yet.
    pub unsettled: Option<usize>,
    /// Whether anything is printed of it, at any line.
    pub is_printed: bool,
    /// What was printed of it last.
    pub heard: Option<Heard>,
}

impl Named {
    /// What was printed of it last since it came here.
    pub(crate) fn printed(&self) -> Option<i64> {
        let heard = self.heard?;
        (heard.line > self.since).then_some(heard.v)
    }
}

/// What was printed of a task on a line.
#[derive(Clone, Copy, Debug)]
pub(crate) struct Heard {
    pub line: u32,
    /// In virtual nanoseconds.
    pub v: i64,
}
