/// A place in a text from which its lines can be counted on.
#[derive(Clone, Copy)]
pub(crate) struct Checkpoint {
    /// How many bytes lie before it.
    pub offset: u64,
    /// How many lines end among those.
    pub lines: u64,
}

impl Checkpoint {
    /// The beginning of a text.
    pub(crate) const BEGINNING: Checkpoint = Checkpoint {
        offset: 0,
        lines: 0,
    };

    /// Whether the line of this number, from 1, begins behind it. A place behind so many lines may lie within the next
    /// one.
    pub(crate) fn is_before(self, number: u64) -> bool {
        self.offset == 0 || self.lines.saturating_add(1) < number
    }
}
