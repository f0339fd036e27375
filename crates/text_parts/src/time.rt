ghost use Rattle.std.specs.Prelude.{◌≡◌, ℕ, ◌<◌, ◌^◌, min, Some, IfSome, IsSomeAnd, MatchOption};
ghost use Rattle.text_parts.specs.Time.{IsTime};
ghost use Rattle.text_parts.specs.Reading.{Gives, nanoseconds_of, fraction_at, time_at};

use crate::numerals::{MANY, number_by_call, numeral_at};
use crate::packed::{TOGETHER, eight_at};
use crate::pieces::after_byte;

/// A time on the trace's clock.
#[derive(Clone, Copy, Debug, Drop)]
pub struct Time {
    /// Whole seconds, or `MANY` where there are more.
    pub seconds: u64,
    /// The nanoseconds beyond them.
    pub nanoseconds: u64,
    pub ghost below: { nanoseconds < 10 ^ 9 },
}

/// The time that a word is: seconds, a point, and six digits of microseconds or nine of nanoseconds.
pub fn read_time(word: &[u8]) -> Option<Time>
    ensures reads { MatchOption result
        ((seconds nanoseconds : ℕ) → IsTime word.now seconds nanoseconds → ⊥)
        (λ time. (seconds : ℕ) × IsTime word.now seconds time.nanoseconds × (time.seconds ≡ min seconds MANY)) }
    ensures only { (seconds nanoseconds : ℕ) → IsTime word.now seconds nanoseconds →
        IsSomeAnd result (λ time. (time.seconds ≡ min seconds MANY) × (time.nanoseconds ≡ nanoseconds)) }
{
    let (time, rest) = time_at(word)?;
    if rest.is_empty() { Some(time) } else { None }
}

/// The time at the front of a text, and what follows it.
#[inline(always)]
pub fn time_at(text: &[u8]) -> Option<(Time, &[u8])>
    ensures { Gives (λ x. (x.0.seconds, x.0.nanoseconds, x.1.now)) result (time_at text.now) }
{
    let Some((seconds, fraction)) = numeral_at(text) else {
        return None;
    };
    let Some((nanoseconds, rest)) = fraction_at(fraction) else {
        return None;
    };
    Some((
        Time {
            seconds,
            nanoseconds,
        },
        rest,
    ))
}

/// The nanoseconds that a point and the digits behind it stand for, and what follows them.
#[inline(always)]
pub fn fraction_at(text: &[u8]) -> Option<(u64, &[u8])>
    ensures value { Gives (λ x. (x.0, x.1.now)) result (fraction_at text.now) }
    ensures below { IfSome result (λ x. x.0 < 10 ^ 9) }
{
    match microseconds_at(text) {
        Some(found) => Some(found),
        None => any_fraction_at(text),
    }
}

/// The same for six digits, as they stand in nearly all lines.
#[inline(always)]
fn microseconds_at(text: &[u8]) -> Option<(u64, &[u8])>
    ensures value { IfSome result (λ x. fraction_at text.now ≡ Some (x.0, x.1.now)) }
    ensures below { IfSome result (λ x. x.0 < 10 ^ 9) }
{
    let fraction = after_byte(text, b'.')?;
    if fraction.len() < TOGETHER {
        return None;
    }
    let (digits, value) = eight_at(fraction);
    if digits != 6 {
        return None;
    }
    Some((value * 1000, &fraction[6..]))
}

/// The same for any digits.
#[inline(always)]
#[tactic(auto, unfolding(crate::specs::Reading::fraction_at))]
fn any_fraction_at(text: &[u8]) -> Option<(u64, &[u8])>
    ensures value { Gives (λ x. (x.0, x.1.now)) result (fraction_at text.now) }
    ensures below { IfSome result (λ x. x.0 < 10 ^ 9) }
{
    let fraction = number_by_call(after_byte(text, b'.')?);
    let nanoseconds = nanoseconds_of(fraction.digits, fraction.value)?;
    Some((nanoseconds, fraction.rest))
}

/// The nanoseconds that so many digits behind the point stand for.
#[inline(always)]
#[tactic(auto, unfolding(crate::specs::Reading::nanoseconds_of))]
fn nanoseconds_of(digits: usize, value: u64) -> Option<u64>
    requires { value < 10 ^ digits }
    ensures value { Gives (λ n. n) result (nanoseconds_of digits value) }
    ensures below { IfSome result (λ n. n < 10 ^ 9) }
{
    match digits {
        6 => Some(value * 1000),
        9 => Some(value),
        _ => None,
    }
}
