ghost use Rattle.std.specs.Prelude.{◌≡◌, IfSome, Some};
ghost use Rattle.text_parts.specs.Marks.{AreMarks};
ghost use Rattle.text_parts.specs.Reading.{Gives};
ghost use Rattle.companion_file.specs.ShapeReading.{number_field, number_whole, integer_at, integer_field};
ghost use Rattle.companion_file.specs.ShapeReading.{integer_whole, place_field};

use cfs_model::{GREATEST_RUNTIME, Place};
use text_parts::marks::{long_numeral, marks_behind, short_numeral};
use text_parts::numerals::numeral_at;
use text_parts::packed::long_numeral_at;
use text_parts::pieces::after_front;

/// A number above each virtual runtime. Larger ones are read as this one.
const BEYOND: u64 = GREATEST_RUNTIME as u64 + 1;

/// A number and the space behind it.
#[inline(always)]
#[tactic(auto, unfolding(crate::specs::ShapeReading::number_field))]
pub(crate) fn number_field(text: &[u8]) -> Option<(u64, &[u8])>
    ensures { Gives (λ x. (x.0, x.1.now)) result (number_field text.now) }
{
    let (number, rest) = long_numeral_at(text)?;
    let rest = after_front(rest, b" ")?;
    Some((number, rest))
}

/// The same of a short number, by the marks of the text; with the marks of what follows.
#[inline(always)]
pub(crate) fn marked_field(text: &[u8], marks: u64) -> Option<(u64, &[u8], u64)>
    requires { AreMarks text.now marks }
    ensures field { IfSome result (λ x. number_field text.now ≡ Some (x.0, x.1.now)) }
    ensures marks { IfSome result (λ x. AreMarks x.1.now x.2) }
{
    let (digits, number) = short_numeral(text, marks)?;
    if text[digits] != b' ' {
        return None;
    }
    let behind = digits + 1;
    Some((number, &text[behind..], marks_behind(text, marks, behind)))
}

/// A number with nothing behind it.
#[inline(always)]
#[tactic(auto, unfolding(crate::specs::ShapeReading::number_whole))]
pub(crate) fn number_whole(text: &[u8]) -> Option<u64>
    ensures { Gives (λ n. n) result (number_whole text.now) }
{
    let (number, rest) = numeral_at(text)?;
    rest.is_empty().then_some(number)
}

/// An integer, and what follows it.
#[inline(always)]
#[tactic(auto, unfolding(crate::specs::ShapeReading::integer_at))]
pub(crate) fn integer(text: &[u8]) -> Option<(i64, &[u8])>
    ensures { Gives (λ x. (x.0, x.1.now)) result (integer_at text.now) }
{
    match after_front(text, b"-") {
        None => {
            let (number, rest) = long_numeral_at(text)?;
            Some((number.min(BEYOND) as i64, rest))
        }
        Some(digits) => {
            let (number, rest) = long_numeral_at(digits)?;
            Some((-(number.min(BEYOND) as i64), rest))
        }
    }
}

/// The same of one with no sign, by the marks of the text.
#[inline(always)]
pub(crate) fn marked_integer(text: &[u8], marks: u64) -> Option<(i64, &[u8])>
    requires { AreMarks text.now marks }
    ensures { IfSome result (λ x. integer_at text.now ≡ Some (x.0, x.1.now)) }
{
    let (digits, number) = long_numeral(text, marks)?;
    Some((number as i64, &text[digits..]))
}

/// An integer and the space behind it.
#[inline(always)]
#[tactic(auto, unfolding(crate::specs::ShapeReading::integer_field))]
pub(crate) fn integer_field(text: &[u8]) -> Option<(i64, &[u8])>
    ensures { Gives (λ x. (x.0, x.1.now)) result (integer_field text.now) }
{
    let (integer, rest) = integer(text)?;
    let rest = after_front(rest, b" ")?;
    Some((integer, rest))
}

/// An integer with nothing behind it.
#[inline(always)]
#[tactic(auto, unfolding(crate::specs::ShapeReading::integer_whole))]
pub(crate) fn integer_whole(text: &[u8]) -> Option<i64>
    ensures { Gives (λ z. z) result (integer_whole text.now) }
{
    let (integer, rest) = integer(text)?;
    rest.is_empty().then_some(integer)
}

/// A place and the space behind it.
#[inline(always)]
#[tactic(auto, unfolding(crate::specs::ShapeReading::place_field))]
pub(crate) fn place_field(text: &[u8]) -> Option<(Place, &[u8])>
    ensures { Gives (λ x. (x.0, x.1.now)) result (place_field text.now) }
{
    if let Some(rest) = after_front(text, b"run ") {
        Some((Place::Run, rest))
    } else if let Some(rest) = after_front(text, b"wait ") {
        Some((Place::Wait, rest))
    } else if let Some(rest) = after_front(text, b"rest ") {
        Some((Place::Rest, rest))
    } else {
        None
    }
}
