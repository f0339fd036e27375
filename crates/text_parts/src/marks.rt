//! Numbers one behind another, whose ends are told by one look at 32 bytes: where the next begins isn't known any later
//! for the digits of those before it.

ghost use Rattle.std.specs.Prelude.{◌<◌, ◌≤◌, IfSome, length, take, drop, map};
ghost use Rattle.std.specs.Prelude.{◌≡◌};
ghost use Rattle.std.specs.Simd.Lanes.{mask_l};
ghost use Rattle.text_parts.specs.Marks.{AreMarks, IsNumeralInFront};
ghost use Rattle.text_parts.specs.Packed.{is_above_nine, less_zero};

use crate::packed::{TENS, TOGETHER, front_value};
use std::simd::prelude::*;

/// So many bytes are looked at together.
pub const MARKED: usize = 32;

/// The marks of a text: which of its first 32 bytes are no digits, by a bit for each.
#[inline(always)]
pub fn marks_of(text: &[u8]) -> u64
    requires { 32 ≤ length text.now }
    ensures { AreMarks text.now result }
{
    others(digits_in(text))
}

/// The marks of what follows so many bytes.
#[inline(always)]
pub fn marks_behind(text: &[u8], marks: u64, count: usize) -> u64
    requires marks { AreMarks text.now marks }
    requires count { count < 64 }
    ensures { AreMarks (drop count text.now) result }
{
    let _bytes = text.len();
    marks >> count
}

/// How many digits a text begins with, and their value, where they are eight at most and end among the bytes marked.
#[inline(always)]
pub fn short_numeral(text: &[u8], marks: u64) -> Option<(usize, u64)>
    requires { AreMarks text.now marks }
    ensures { IfSome result (λ x. (x.0 ≤ 8) × IsNumeralInFront text.now x.0 x.1) }
{
    if marks == 0 || text.len() < TOGETHER {
        return None;
    }
    let count = marks.trailing_zeros() as usize;
    if count == 0 || count > TOGETHER {
        return None;
    }
    Some((count, front_value(text, count)))
}

/// The same where they are fifteen at most.
#[inline(always)]
pub fn long_numeral(text: &[u8], marks: u64) -> Option<(usize, u64)>
    requires { AreMarks text.now marks }
    ensures { IfSome result (λ x. (x.0 < 16) × IsNumeralInFront text.now x.0 x.1) }
{
    if marks == 0 || text.len() < 2 * TOGETHER {
        return None;
    }
    let count = marks.trailing_zeros() as usize;
    if count == 0 || count >= 2 * TOGETHER {
        return None;
    }
    if count <= TOGETHER {
        return Some((count, front_value(text, count)));
    }
    let more = count - TOGETHER;
    let front = front_value(text, TOGETHER);
    let value = front * TENS[more] + front_value(&text[TOGETHER..], more);
    Some((count, value))
}

/// The first 32 bytes of a text, less that of the digit 0.
#[inline(always)]
fn digits_in(text: &[u8]) -> u8x32
    requires { 32 ≤ length text.now }
    ensures { result ≡ map less_zero (take 32 text.now) }
{
    u8x32::from_slice(text) - u8x32::splat(b'0')
}

/// Which of 32 numbers are no digits, by a bit for each.
#[inline(always)]
fn others(digits: u8x32) -> u64
    ensures { result ≡ mask_l (map is_above_nine digits) }
{
    digits.simd_gt(u8x32::splat(9)).to_bitmask()
}
