ghost use Rattle.std.specs.Prelude.{◌≡◌, ℕ, ◌+◌, ◌*◌, ◌-◌, ◌<◌, ◌≤◌, ◌^◌, true, false, min, length, take};
ghost use Rattle.std.specs.Prelude.{take_while, drop, get_or, [], ◌∷◌, IfSome};
ghost use Rattle.std.specs.List.{prefix_len};
ghost use Rattle.text_parts.specs.Numerals.{is_digit, value_of};
ghost use Rattle.text_parts.specs.Reading.{Gives, numeral_at};

use crate::packed::{TOGETHER, digits_in_front};

/// The value that stands for itself and for all larger ones. No range of this project reaches it.
pub const MANY: u64 = 10 * LIMIT;

/// Behind a value below this one there is room for another digit.
const LIMIT: u64 = 1 << 60;

/// So many digits stand for less than `MANY`: where there are no more, what was added up is their value, with no bound
/// looked at on the way.
const PLAIN_DIGITS: usize = 18;

/// Most numbers have fewer digits. These are looked at with no loop, and with no look at where the text ends.
const FEW_DIGITS: usize = 8;

/// The digits at the front of a text.
#[derive(Clone, Copy, Debug, Drop)]
pub struct Number<'a> {
    /// How many digits there are.
    pub digits: usize,
    /// Their value, or `MANY` where it is larger.
    pub value: u64,
    /// What follows them.
    pub rest: &'a [u8],
}

/// How many digits a text begins with.
#[inline(always)]
pub fn digit_count(text: &[u8]) -> usize
    ensures count { result ≡ prefix_len is_digit text.now }
    ensures within { result ≤ length text.now }
{
    if text.len() >= TOGETHER {
        let count = digits_in_front(text);
        if count < TOGETHER {
            return count;
        }
    }
    long_digit_count(text)
}

/// How many digits stand at the front of some bytes, which are looked at one by one.
#[inline(always)]
#[tactic(auto, using(crate::proofs::Runs::prefix_within))]
fn digits_in(bytes: &[u8]) -> usize
    ensures count { result ≡ prefix_len is_digit bytes.now }
    ensures within { result ≤ length bytes.now }
{
    bytes
        .iter()
        .take_while(|byte| is_digit_byte(**byte))
        .count()
}

/// The digits that a text begins with, their value, and what follows them.
#[inline(always)]
pub fn number_at(text: &[u8]) -> Number<'_>
    ensures digits { result.digits ≡ prefix_len is_digit text.now }
    ensures value { result.value ≡ min (value_of (take_while is_digit text.now)) MANY }
    ensures rest { result.rest.now ≡ drop (prefix_len is_digit text.now) text.now }
    ensures below { result.value < 10 ^ result.digits }
{
    let (digits, value) = digits_at(text);
    Number {
        digits,
        value,
        rest: &text[digits..],
    }
}

/// The same by a call, for places where few numbers stand: the reader of the others stays small.
#[inline(always)]
pub fn number_by_call(text: &[u8]) -> Number<'_>
    ensures digits { result.digits ≡ prefix_len is_digit text.now }
    ensures value { result.value ≡ min (value_of (take_while is_digit text.now)) MANY }
    ensures rest { result.rest.now ≡ drop (prefix_len is_digit text.now) text.now }
    ensures below { result.value < 10 ^ result.digits }
{
    let (digits, value) = further_digits(text, 0, 0);
    Number {
        digits,
        value,
        rest: &text[digits..],
    }
}

/// How many digits a text begins with, and their value.
#[inline(always)]
fn digits_at(text: &[u8]) -> (usize, u64)
    ensures count { result.0 ≡ prefix_len is_digit text.now }
    ensures within { result.0 ≤ length text.now }
    ensures value { result.1 ≡ min (value_of (take_while is_digit text.now)) MANY }
    ensures below { result.1 < 10 ^ result.0 }
{
    if text.len() < FEW_DIGITS {
        return further_digits(text, 0, 0);
    }
    let mut value = 0u64;
    let mut digits = 0;
    while digits < FEW_DIGITS {
        let digit = digit_of(text[digits]);
        if digit > 9 {
            return (digits, value);
        }
        value = value.wrapping_mul(10).wrapping_add(digit);
        digits += 1;
    }
    further_digits(text, digits, value)
}

/// The same where so many digits are read, and this is their value.
#[inline(never)]
pub(crate) fn further_digits(text: &[u8], read: usize, front: u64) -> (usize, u64)
    requires within { read ≤ length text.now }
    requires passed { (k : ℕ) → k < read → is_digit (get_or text.now k 0) ≡ true }
    requires value { front ≡ value_of (take read text.now) }
    requires below { front < 10 ^ read }
    ensures count { result.0 ≡ prefix_len is_digit text.now }
    ensures within { result.0 ≤ length text.now }
    ensures value { result.1 ≡ min (value_of (take_while is_digit text.now)) MANY }
    ensures below { result.1 < 10 ^ result.0 }
{
    let mut value = front;
    let mut digits = read;
    while digits < text.len() && is_digit_byte(text[digits]) {
        value = value.wrapping_mul(10).wrapping_add(digit_of(text[digits]));
        digits += 1;
    }
    if digits > PLAIN_DIGITS {
        return many_digits(text);
    }
    (digits, value)
}

/// The same where there are many digits.
#[cold]
#[inline(never)]
fn many_digits(text: &[u8]) -> (usize, u64)
    ensures count { result.0 ≡ prefix_len is_digit text.now }
    ensures within { result.0 ≤ length text.now }
    ensures value { result.1 ≡ min (value_of (take_while is_digit text.now)) MANY }
    ensures below { result.1 < 10 ^ result.0 }
{
    let digits = digits_in(text);
    (digits, number_of(&text[..digits]))
}

/// How many digits a text begins with, away from the readers of short numbers.
#[cold]
#[inline(never)]
pub(crate) fn long_digit_count(text: &[u8]) -> usize
    ensures count { result ≡ prefix_len is_digit text.now }
    ensures within { result ≤ length text.now }
{
    digits_in(text)
}

/// The value of one or more digits that a text begins with, or `MANY` where it is larger, and what follows them.
#[inline(always)]
#[tactic(auto, unfolding(crate::specs::Reading::numeral_at))]
pub fn numeral_at(text: &[u8]) -> Option<(u64, &[u8])>
    ensures { Gives (λ x. (x.0, x.1.now)) result (numeral_at text.now) }
{
    let number = number_at(text);
    if number.digits == 0 {
        None
    } else {
        Some((number.value, number.rest))
    }
}

/// The value of digits, or `MANY` where it is larger.
#[inline(never)]
fn number_of(digits: &[u8]) -> u64
    ensures { result ≡ min (value_of digits.now) MANY }
{
    let mut value = 0;
    for byte in digits {
        value = with_digit(value, *byte).min(MANY);
    }
    value
}

/// Whether a byte is a decimal digit.
#[inline(always)]
pub fn is_digit_byte(byte: u8) -> bool
    ensures { result ≡ is_digit byte }
{
    byte >= b'0' && byte <= b'9'
}

/// The value of a digit, or more than 9 where the byte is none.
#[inline(always)]
fn digit_of(byte: u8) -> u64
    ensures digit { is_digit byte ≡ true → result ≡ byte - 48 }
    ensures other { result ≤ 9 → is_digit byte ≡ true }
    ensures no_digit { 9 < result → is_digit byte ≡ false }
{
    u64::from(byte).wrapping_sub(u64::from(b'0'))
}

/// The value of three bytes, where all are digits. What has always so many digits is read with no count of them.
#[inline(always)]
pub fn three_digits(first: u8, second: u8, third: u8) -> Option<u64>
    ensures first { IfSome result (λ value. is_digit first ≡ true) }
    ensures second { IfSome result (λ value. is_digit second ≡ true) }
    ensures third { IfSome result (λ value. is_digit third ≡ true) }
    ensures value { IfSome result (λ value. value ≡ value_of (first ∷ second ∷ third ∷ [])) }
    ensures below { IfSome result (λ value. value < 1000) }
{
    let hundreds = digit_of(first);
    let tens = digit_of(second);
    let ones = digit_of(third);
    if hundreds > 9 || tens > 9 || ones > 9 {
        return None;
    }
    Some((hundreds * 10 + tens) * 10 + ones)
}

/// Twice a number, or the greatest. Four times over it takes each number but 0 to 16 and more, with no test.
#[inline(always)]
pub fn doubled(number: u8) -> u8
    ensures { result ≡ min (number + number) 255 }
{
    number.saturating_add(number)
}

/// A value with one more digit behind it.
#[inline(always)]
fn with_digit(value: u64, byte: u8) -> u64
    ensures { min result MANY ≡ min (value * 10 + (byte - 48)) MANY }
{
    if value < LIMIT {
        value * 10 + u64::from(byte.saturating_sub(b'0'))
    } else {
        MANY
    }
}
