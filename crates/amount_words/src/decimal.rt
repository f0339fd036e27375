ghost use Rattle.std.specs.Prelude.{◌≡◌, ◌≤◌, ◌<◌, ◌^◌, IfSome};
ghost use Rattle.std.specs.List.{list_all};
ghost use Rattle.text_parts.specs.Reading.{Gives};
ghost use Rattle.amount_words.specs.Amount.{amount_of, digits_at, fraction_at, is_zero, most_zeros, part_of};

use crate::unit::zeros_of;
use text_parts::numerals::{digit_count, number_at, numeral_at};
use text_parts::pieces::after_byte;

/// The nanoseconds that a word says, however many they are.
#[tactic(auto, unfolding(crate::specs::Amount::amount_of))]
pub(crate) fn amount_of(word: &[u8]) -> Option<u128>
    ensures { Gives (λ n. n) result (amount_of word.now) }
{
    let (whole, rest) = numeral_at(after_byte(word, b'+').unwrap_or(word))?;
    let (fraction, unit) = fraction_at(rest)?;
    let zeros = zeros_of(unit)?;
    let part = part_of(zeros, fraction)?;
    Some(u128::from(whole) * power_of_ten(zeros) + part)
}

/// The digits behind a point, where there is one, and what follows them.
#[tactic(auto, unfolding(crate::specs::Amount::fraction_at))]
fn fraction_at(text: &[u8]) -> Option<(&[u8], &[u8])>
    ensures { Gives (λ x. (x.0.now, x.1.now)) result (fraction_at text.now) }
{
    match after_byte(text, b'.') {
        Some(behind) => digits_at(behind),
        None => Some((&text[..0], text)),
    }
}

/// One or more digits in front, and what follows them.
#[tactic(auto, unfolding(crate::specs::Amount::digits_at))]
fn digits_at(text: &[u8]) -> Option<(&[u8], &[u8])>
    ensures { Gives (λ x. (x.0.now, x.1.now)) result (digits_at text.now) }
{
    let count = digit_count(text);
    if count == 0 {
        None
    } else {
        Some(text.split_at(count))
    }
}

/// The nanoseconds that digits behind the point are, of a unit with so many zeros.
#[tactic(auto, unfolding(crate::specs::Amount::part_of))]
fn part_of(zeros: u32, digits: &[u8]) -> Option<u128>
    requires { zeros ≤ most_zeros }
    ensures part { Gives (λ n. n) result (part_of zeros digits.now) }
    ensures few { IfSome result (λ n. n < 2 ^ 127) }
{
    let (front, behind) = digits.split_at(digits.len().min(zeros as usize));
    if are_zeros(behind) {
        let missing = zeros - front.len() as u32;
        Some(u128::from(number_at(front).value) * power_of_ten(missing))
    } else {
        None
    }
}

/// Whether all of these digits are zeros.
fn are_zeros(digits: &[u8]) -> bool
    ensures { result ≡ list_all is_zero digits.now }
{
    for digit in digits {
        if *digit != b'0' {
            return false;
        }
    }
    true
}

/// A 1 and so many zeros.
fn power_of_ten(zeros: u32) -> u128
    requires { zeros ≤ most_zeros }
    ensures power { result ≡ 10 ^ zeros }
    ensures few { result ≤ 10 ^ 12 }
{
    10u128.pow(zeros)
}
