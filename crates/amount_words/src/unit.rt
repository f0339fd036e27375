ghost use Rattle.std.specs.Prelude.{◌≤◌, IfSome, codes, [], None, Some, if◌then◌else◌, ◌==◌};
ghost use Rattle.text_parts.specs.Reading.{Gives};
ghost use Rattle.amount_words.specs.Amount.{most_zeros, named, power_of, zeros_of};

use text_parts::numerals::numeral_at;
use text_parts::pieces::{after_byte, after_front};

/// The most zeros of a unit, those of the greatest setting.
const MOST_ZEROS: u64 = 12;

/// The zeros of how many nanoseconds a unit is.
#[tactic(auto, unfolding(crate::specs::Amount::zeros_of))]
pub(crate) fn zeros_of(unit: &[u8]) -> Option<u32>
    ensures zeros { Gives (λ n. n) result (zeros_of unit.now) }
    ensures few { IfSome result (λ n. n ≤ most_zeros) }
{
    let name = named(unit, b"", 0)
        .or(named(unit, b"ns", 0))
        .or(named(unit, b"us", 3))
        .or(named(unit, b"ms", 6))
        .or(named(unit, b"s", 9));
    match name {
        Some(zeros) => Some(zeros),
        None => power_of(unit),
    }
}

/// These zeros, where the unit has this name.
fn named(unit: &[u8], name: &[u8], zeros: u32) -> Option<u32>
    ensures zeros { Gives (λ n. n) result (named name.now zeros unit.now) }
    ensures few { IfSome result (λ n. n ≤ zeros) }
{
    if after_front(unit, name)?.is_empty() {
        Some(zeros)
    } else {
        None
    }
}

/// The zeros behind an `e`.
fn power_of(unit: &[u8]) -> Option<u32>
    ensures zeros { Gives (λ n. n) result (power_of unit.now) }
    ensures few { IfSome result (λ n. n ≤ most_zeros) }
{
    let (zeros, rest) = numeral_at(after_byte(unit, b'e')?)?;
    if rest.is_empty() && zeros <= MOST_ZEROS {
        Some(zeros as u32)
    } else {
        None
    }
}
