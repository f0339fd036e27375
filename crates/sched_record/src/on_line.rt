ghost use Rattle.std.specs.Prelude.{◌≡◌, ◌==◌, ℕ, ◌<◌, ◌≤◌, find, length, slice_index_or};
ghost use Rattle.std.specs.List.{AllPairs};

use cfs_model::{ChargeLine, Claim, Entry, NiceLine};

/// What stands on a line of the trace.
pub(crate) trait OnLine {
    ghost line: { Self → ℕ };

    /// From 1, comments counted.
    fn line(&self) -> u32
        ensures { result ≡ line self.now };
}

impl OnLine for Entry {
    ghost line = { λ event. event.line };

    fn line(&self) -> u32 {
        self.line
    }
}

impl OnLine for Claim {
    ghost line = { λ claim. claim.line };

    fn line(&self) -> u32 {
        self.line
    }
}

impl OnLine for NiceLine {
    ghost line = { λ change. change.line };

    fn line(&self) -> u32 {
        self.line
    }
}

impl OnLine for ChargeLine {
    ghost line = { λ charge. charge.line };

    fn line(&self) -> u32 {
        self.line
    }
}

/// The index of the first item, from an index on, that stands on this line or below it.
pub(crate) fn index_from<T: OnLine>(items: &[T], from: usize, line: u32) -> usize
    requires { from ≤ length items.now }
    ensures within { (from ≤ result) × (result ≤ length items.now) }
    ensures below { (k : ℕ) (d : T) → from ≤ k → k < result → T.line (slice_index_or items.now k d) < line }
    ensures reached { (d : T) → result < length items.now → line ≤ T.line (slice_index_or items.now result d) }
{
    let mut index = from;
    while index < items.len() && items[index].line() < line {
        index += 1;
    }
    index
}

/// The index of the first item, from an index on, that stands on this line or below it. The hint is where to begin, if
/// all items before it stand above the line.
pub(crate) fn index_near<T: OnLine>(items: &[T], from: usize, hint: usize, line: u32) -> usize
    requires within { from ≤ length items.now }
    requires rise { AllPairs (λ a b. T.line a < T.line b) items.now }
    ensures within { (from ≤ result) × (result ≤ length items.now) }
    ensures below { (k : ℕ) (d : T) → from ≤ k → k < result → T.line (slice_index_or items.now k d) < line }
    ensures reached { (d : T) → result < length items.now → line ≤ T.line (slice_index_or items.now result d) }
{
    if from < hint && hint <= items.len() && items[hint - 1].line() < line {
        index_from(items, hint, line)
    } else {
        index_from(items, from, line)
    }
}

/// The item at an index, if it stands on the line.
pub(crate) fn item_on<T: OnLine + Copy>(items: &[T], index: usize, line: u32) -> Option<T>
    requires rise { AllPairs (λ a b. T.line a < T.line b) items.now }
    requires above { (k : ℕ) (d : T) → k < index → T.line (slice_index_or items.now k d) < line }
    requires reached { (d : T) → index < length items.now → line ≤ T.line (slice_index_or items.now index d) }
    ensures { result ≡ find (λ item. T.line item == line) items.now }
{
    if index < items.len() && items[index].line() == line {
        Some(items[index])
    } else {
        None
    }
}
