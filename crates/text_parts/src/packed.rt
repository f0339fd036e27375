//! Runs of bytes at the front of a text, and numbers: eight bytes are looked at together, with no branch to guess,
//! since numbers have all lengths.

ghost use Rattle.std.specs.Prelude.{◌≡◌, ℕ, ◌+◌, ◌*◌, ◌<◌, ◌≤◌, ◌^◌, length, take, drop, min, map, get_or, true};
ghost use Rattle.std.specs.Prelude.{◌==◌, if◌then◌else◌, not};
ghost use Rattle.std.specs.Bool.{OnTrue};
ghost use Rattle.std.specs.Int.Count.{count_trailing_zeros};
ghost use Rattle.std.specs.List.{prefix_len, take_while};
ghost use Rattle.std.specs.Simd.Lanes.{mask_l, number_l};
ghost use Rattle.text_parts.specs.Numerals.{is_digit, value_of, many};
ghost use Rattle.text_parts.specs.Pieces.{is_space};
ghost use Rattle.text_parts.specs.Packed.{is_above_nine, less_zero, Joins, BeginsWithColumn, BeginsWithDigits};
ghost use Rattle.text_parts.specs.Packed.{BeginsWithRun};
ghost use Rattle.text_parts.specs.Reading.{Gives, numeral_at};

use crate::numerals::further_digits;
use std::simd::prelude::*;

/// So many bytes are looked at together.
pub const TOGETHER: usize = 8;

/// What digits before others are worth, by how many others there are.
pub(crate) const TENS: [u64; TOGETHER] = [
    1, 10, 100, 1_000, 10_000, 100_000, 1_000_000, 10_000_000,
];

/// The same as `numeral_at`, for places where numbers are long.
#[inline(always)]
#[tactic(auto, unfolding(crate::specs::Reading::numeral_at))]
pub fn long_numeral_at(text: &[u8]) -> Option<(u64, &[u8])>
    ensures { Gives (λ x. (x.0, x.1.now)) result (numeral_at text.now) }
{
    let (digits, value) = digits_at(text);
    if digits == 0 {
        None
    } else {
        Some((value, &text[digits..]))
    }
}

/// How many digits a text begins with, and their value, or `MANY` where it is larger.
#[inline(always)]
pub fn digits_at(text: &[u8]) -> (usize, u64)
    ensures count { result.0 ≡ prefix_len is_digit text.now }
    ensures within { result.0 ≤ length text.now }
    ensures value { result.1 ≡ min (value_of (take_while is_digit text.now)) many }
{
    if text.len() < TOGETHER {
        return further_digits(text, 0, 0);
    }
    let (digits, value) = eight_at(text);
    if digits < TOGETHER {
        return (digits, value);
    }
    behind_eight(text, value)
}

/// The same where eight digits are read, and this is their value.
#[inline(always)]
fn behind_eight(text: &[u8], front: u64) -> (usize, u64)
    requires within { 8 ≤ length text.now }
    requires front { BeginsWithDigits text.now 8 front }
    ensures count { result.0 ≡ prefix_len is_digit text.now }
    ensures within { result.0 ≤ length text.now }
    ensures value { result.1 ≡ min (value_of (take_while is_digit text.now)) many }
{
    let rest = &text[TOGETHER..];
    if rest.len() < TOGETHER {
        return further_digits(text, TOGETHER, front);
    }
    let (more, value) = eight_at(rest);
    if more == TOGETHER {
        return further_digits(text, TOGETHER, front);
    }
    (TOGETHER + more, front * TENS[more] + value)
}

/// How many of the first eight bytes of a text are digits at its front.
#[inline(always)]
pub(crate) fn digits_in_front(text: &[u8]) -> usize
    requires { 8 ≤ length text.now }
    ensures { BeginsWithRun is_digit text.now result }
{
    first_set(others(digits_in(text)))
}

/// How many of the first eight bytes of a text are spaces at its front.
#[inline(always)]
pub(crate) fn spaces_in_front(text: &[u8]) -> usize
    requires { 8 ≤ length text.now }
    ensures { BeginsWithRun is_space text.now result }
{
    first_set(no_spaces(u8x8::from_slice(text)))
}

/// Whether the first eight bytes of a text are a column: digits and then spaces, one or more of each. How many are
/// digits is told by no branch, and nothing that is read behind the column waits for it.
#[inline(always)]
pub fn begins_with_column(text: &[u8]) -> bool
    requires { 8 ≤ length text.now }
    ensures { OnTrue result (BeginsWithColumn text.now) }
{
    let digits = digits_in_front(text);
    if digits == 0 || digits == TOGETHER {
        return false;
    }
    if no_spaces(u8x8::from_slice(text)) >> digits != 0 {
        return false;
    }
    true
}

/// Which of eight bytes are no spaces, by a bit for each.
#[inline(always)]
fn no_spaces(bytes: u8x8) -> u64
    ensures { result ≡ mask_l (map (λ byte. not (is_space byte)) bytes) }
{
    bytes.simd_ne(u8x8::splat(b' ')).to_bitmask()
}

/// Which of eight bits is the lowest that is set; 8 where none is.
#[inline(always)]
pub fn first_set(mask: u64) -> usize
    ensures { result ≡ (if mask == 0 then 8 else count_trailing_zeros 64 mask) }
{
    if mask == 0 {
        TOGETHER
    } else {
        mask.trailing_zeros() as usize
    }
}

/// How many of the first eight bytes of a text are digits at its front, and their value.
#[inline(always)]
pub(crate) fn eight_at(text: &[u8]) -> (usize, u64)
    requires { 8 ≤ length text.now }
    ensures { BeginsWithDigits text.now result.0 result.1 }
{
    let digits = digits_in(text);
    let others = others(digits);
    if others == 0 {
        return (TOGETHER, joined(word_of(digits)));
    }
    let count = others.trailing_zeros() as usize;
    if count == 0 {
        return (0, 0);
    }
    // The digits move up to the end of the word, behind zeros.
    (count, joined(word_of(digits) << (64 - 8 * count)))
}

/// The value of the digits at the front of a text, of which there are so many.
#[inline(always)]
pub(crate) fn front_value(text: &[u8], count: usize) -> u64
    requires long { 8 ≤ length text.now }
    requires some { 0 < count }
    requires few { count ≤ 8 }
    requires digits { (k : ℕ) → k < count → is_digit (get_or text.now k 0) ≡ true }
    ensures { result ≡ value_of (take count text.now) }
{
    // The digits move up to the end of the word, behind zeros.
    joined(word_of(digits_in(text)) << (64 - 8 * count))
}

/// The word that the first eight bytes of a text are, the first the lowest.
#[inline(always)]
pub fn first_word(text: &[u8]) -> u64
    requires { 8 ≤ length text.now }
    ensures { result ≡ number_l 256 (take 8 text.now) }
{
    word_of(u8x8::from_slice(text))
}

/// The first eight bytes of a text, less that of the digit 0.
#[inline(always)]
fn digits_in(text: &[u8]) -> u8x8
    requires { 8 ≤ length text.now }
    ensures { result ≡ map less_zero (take 8 text.now) }
{
    u8x8::from_slice(text) - u8x8::splat(b'0')
}

/// Which of eight numbers are no digits, by a bit for each.
#[inline(always)]
fn others(digits: u8x8) -> u64
    ensures { result ≡ mask_l (map is_above_nine digits) }
{
    digits.simd_gt(u8x8::splat(9)).to_bitmask()
}

/// The word that has these bytes, the first the lowest.
#[inline(always)]
fn word_of(bytes: u8x8) -> u64
    ensures { result ≡ number_l 256 bytes }
{
    u64x1::from_le_bytes(bytes).to_array()[0]
}

/// The value of eight digits that are the bytes of a word, the first the lowest.
#[inline(always)]
fn joined(word: u64) -> u64
    ensures { Joins word result }
{
    let pairs = (word.wrapping_mul(2561) >> 8) & 0x00ff_00ff_00ff_00ff;
    let fours = pairs.wrapping_mul(6_553_601);
    ((fours >> 16) & 0xffff) * 10_000 + (fours >> 48)
}
