ghost use Rattle.std.specs.Prelude.{◌≡◌, ℕ, ◌==◌, ◌<◌, ◌≤◌, All, AllPairs, Any, find, length, slice_index_or};
ghost use Rattle.sched_record.specs.Join.{IsLeastOf};
ghost use Rattle.window_joining.specs.Between.{IsCut, IsThrough};

use crate::on_line::OnLine;

/// How many of these items to pass over at least: the hint, where all before it stand on lines up to this one.
fn passed_by<T: OnLine>(items: &[T], hint: usize, line: u32) -> usize
    requires { AllPairs (λ a b. T.line a ≤ T.line b) items.now }
    ensures within { result ≤ length items.now }
    ensures passed { (k : ℕ) (d : T) → k < result → T.line (slice_index_or items.now k d) ≤ line }
{
    if 0 < hint && hint <= items.len() && items[hint - 1].line() <= line {
        hint
    } else {
        0
    }
}

/// The index of the first item, from an index on, that stands below this line.
fn count_from<T: OnLine>(items: &[T], from: usize, line: u32) -> usize
    requires { from ≤ length items.now }
    ensures within { (from ≤ result) × (result ≤ length items.now) }
    ensures passed { (k : ℕ) (d : T) → from ≤ k → k < result → T.line (slice_index_or items.now k d) ≤ line }
    ensures reached { (d : T) → result < length items.now → line < T.line (slice_index_or items.now result d) }
{
    let mut index = from;
    while index < items.len() && items[index].line() <= line {
        index += 1;
    }
    index
}

/// How many of these items stand on lines up to this one. The hint is how many there may be at least.
pub(crate) fn through<T: OnLine>(items: &[T], hint: usize, line: u32) -> usize
    requires { AllPairs (λ a b. T.line a ≤ T.line b) items.now }
    ensures { IsThrough _ T.line items.now line result }
{
    let from = passed_by(items, hint, line);
    through_from(items, from, line)
}

/// The same, where all items before an index stand on such lines.
fn through_from<T: OnLine>(items: &[T], from: usize, line: u32) -> usize
    requires rise { AllPairs (λ a b. T.line a ≤ T.line b) items.now }
    requires within { from ≤ length items.now }
    requires passed { (k : ℕ) (d : T) → k < from → T.line (slice_index_or items.now k d) ≤ line }
    ensures { IsThrough _ T.line items.now line result }
{
    count_from(items, from, line)
}

/// The items that stand on lines above one and up to another, and how many there are up to the last of them.
pub(crate) fn between<T: OnLine>(items: &[T], hint: usize, low: u32, high: u32) -> (&[T], usize)
    requires rise { AllPairs (λ a b. T.line a ≤ T.line b) items.now }
    requires order { low ≤ high }
    ensures { IsCut _ T.line low high items.now result.0.now }
{
    if items.is_empty() {
        return (items, 0);
    }
    let from = through(items, hint, low);
    let to = through_from(items, from, high);
    (&items[from..to], to)
}

/// The line of the first item that stands below this line. The hint is how many there may be at least up to it.
pub(crate) fn first_behind<T: OnLine>(items: &[T], hint: usize, edge: u32) -> Option<u32>
    requires { AllPairs (λ a b. T.line a ≤ T.line b) items.now }
    ensures { IsLeastOf (λ line. (edge < line) × Any (λ item. T.line item ≡ line) items.now) result }
{
    let index = through(items, hint, edge);
    if index < items.len() {
        Some(items[index].line())
    } else {
        None
    }
}

/// The line of the first item, which is the least.
pub(crate) fn first_line<T: OnLine>(items: &[T]) -> Option<u32>
    requires { AllPairs (λ a b. T.line a ≤ T.line b) items.now }
    ensures { IsLeastOf (λ line. Any (λ item. T.line item ≡ line) items.now) result }
{
    match items {
        [] => None,
        [item, ..] => Some(item.line()),
    }
}

/// The item on a line that none is beyond: the last one, if it stands there.
pub(crate) fn last_on<T: OnLine + Copy>(items: &[T], line: u32) -> Option<T>
    requires rise { AllPairs (λ a b. T.line a < T.line b) items.now }
    requires within { All (λ item. T.line item ≤ line) items.now }
    ensures { result ≡ find (λ item. T.line item == line) items.now }
{
    let count = items.len();
    if 0 < count && items[count - 1].line() == line {
        Some(items[count - 1])
    } else {
        None
    }
}
