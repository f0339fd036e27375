ghost use Rattle.std.specs.Prelude.{◌≡◌, ◌≢◌, ℕ, ◌+◌, ◌<◌, ◌≤◌, slice_index, length, min, IfSome};
ghost use Rattle.std.specs.List.{prefix_len};
ghost use Rattle.sched_event.specs.Texts.{is_dark};
ghost use Rattle.text_parts.specs.Reading.{Gives};
ghost use Rattle.sched_event.specs.Reading.{run_at, sign_at, last_index, numeral_behind, state_behind, prio_behind};
ghost use Rattle.sched_event.specs.Reading.{name_behind, optional_behind};
ghost use Rattle.sched_event.specs.FieldsView.{pair, numeral_pair, prio_pair, optional_pair};
ghost use Rattle.text_parts.specs.Numerals.{is_digit};

use crate::numeral::Numeral;
use text_parts::numerals::doubled;
use text_parts::packed::digits_at;
use text_parts::pieces::{after_front, begins_with};

/// A printed prio.
#[derive(Clone, Copy)]
pub(crate) struct PrioFields<'a> {
    pub(crate) minus: bool,
    pub(crate) numeral: Numeral<'a>,
}

/// The most bytes that a name has.
pub(crate) const NAME_MAX: usize = 15;

/// The digits that the text begins with, and what follows them.
#[inline(always)]
#[tactic(auto, unfolding(crate::specs::Reading::run_at))]
pub(crate) fn digits<'a>(text: &'a [u8]) -> Option<(Numeral<'a>, &'a [u8])>
    ensures { Gives numeral_pair result (run_at is_digit text.now) }
{
    let (count, value) = digits_at(text);
    if count == 0 {
        return None;
    }
    let (digits, rest) = text.split_at(count);
    Some((Numeral { digits, value }, rest))
}

/// How many bytes stand before the first space.
#[inline(always)]
fn letter_count(text: &[u8]) -> usize
    ensures { result ≡ prefix_len is_dark text.now }
{
    text.iter().take_while(|byte| is_letter(**byte)).count()
}

#[inline(always)]
fn is_letter(byte: u8) -> bool
    ensures { result ≡ is_dark byte }
{
    byte != b' '
}

/// The bytes up to the first space, and what follows them.
#[inline(always)]
#[tactic(auto, unfolding(crate::specs::Reading::run_at))]
fn letters<'a>(text: &'a [u8]) -> Option<(&'a [u8], &'a [u8])>
    ensures { Gives pair result (run_at is_dark text.now) }
{
    let count = letter_count(text);
    if count == 0 {
        return None;
    }
    Some(text.split_at(count))
}

/// Whether the text begins with a minus sign, and what follows it.
#[inline(always)]
#[tactic(auto, unfolding(crate::specs::Reading::sign_at))]
fn sign<'a>(text: &'a [u8]) -> (bool, &'a [u8])
    ensures { (result.0, result.1.now) ≡ sign_at text.now }
{
    match text {
        [b'-', rest @ ..] => (true, rest),
        _ => (false, text),
    }
}

/// The last index up to a limit at which this byte stands, or 0.
#[inline(always)]
fn last_byte(text: &[u8], byte: u8, limit: usize) -> usize
    requires { limit < length text.now }
    ensures within { result ≤ limit }
    ensures none { (index : ℕ) → result < index → index ≤ limit → slice_index text.now index ≢ byte }
{
    if limit == NAME_MAX {
        return usize::from(last_byte_of_sixteen(text, byte));
    }
    let mut index = limit;
    while index > 0 && text[index] != byte {
        index -= 1;
    }
    index
}

/// The last of the first sixteen indices at which this byte stands, or 0. Names have all lengths, so all indices are
/// looked at with no branch to guess.
#[inline(always)]
fn last_byte_of_sixteen(text: &[u8], byte: u8) -> u8
    requires { 15 < length text.now }
    ensures within { result ≤ 15 }
    ensures none { (index : ℕ) → result < index → index ≤ 15 → slice_index text.now index ≢ byte }
{
    let mut last = 0;
    for index in 0..16u8 {
        last = last.max(index_if_same(index, text[usize::from(index)], byte));
    }
    last
}

/// The index where its byte is the one sought, or 0. There is no test: sixteen times the distance of two other bytes is
/// above every index, so that sixteen indices are looked at by a few instructions.
#[inline(always)]
fn index_if_same(index: u8, found: u8, byte: u8) -> u8
    requires { index < 16 }
    ensures same { found ≡ byte → result ≡ index }
    ensures other { found ≢ byte → result ≡ 0 }
{
    let twice = doubled(found.abs_diff(byte));
    index.saturating_sub(doubled(doubled(doubled(twice))))
}

/// The last index within a name's length at which the key stands.
#[inline(always)]
fn last_index(text: &[u8], key: &[u8]) -> Option<usize>
    requires { 0 < length key.now }
    ensures index { result ≡ last_index (min 15 (length text.now)) key.now text.now }
    ensures within { IfSome result (λ index. index ≤ length text.now) }
{
    if text.is_empty() {
        return None;
    }
    let mut limit = NAME_MAX.min(text.len() - 1);
    loop {
        let index = last_byte(text, key[0], limit);
        if begins_with(&text[index..], key) {
            return Some(index);
        }
        if index == 0 {
            return None;
        }
        limit = index - 1;
    }
}

/// The digits behind a key, and what follows them.
#[inline(always)]
#[tactic(auto, unfolding(crate::specs::Reading::numeral_behind))]
pub(crate) fn numeral<'a>(text: &'a [u8], key: &[u8]) -> Option<(Numeral<'a>, &'a [u8])>
    ensures { Gives numeral_pair result (numeral_behind key.now text.now) }
{
    let after = after_front(text, key)?;
    digits(after)
}

/// The letters of a state behind a key, and what follows them.
#[inline(always)]
#[tactic(auto, unfolding(crate::specs::Reading::state_behind))]
pub(crate) fn state<'a>(text: &'a [u8], key: &[u8]) -> Option<(&'a [u8], &'a [u8])>
    ensures { Gives pair result (state_behind key.now text.now) }
{
    let after = after_front(text, key)?;
    letters(after)
}

/// The prio behind a key, and what follows it.
#[inline(always)]
#[tactic(auto, unfolding(crate::specs::Reading::prio_behind))]
pub(crate) fn prio<'a>(text: &'a [u8], key: &[u8]) -> Option<(PrioFields<'a>, &'a [u8])>
    ensures { Gives prio_pair result (prio_behind key.now text.now) }
{
    let after = after_front(text, key)?;
    let (minus, unsigned) = sign(after);
    let (numeral, rest) = digits(unsigned)?;
    Some((PrioFields { minus, numeral }, rest))
}

/// The name behind a key, up to the next key, and the text from that key on.
#[inline(always)]
#[tactic(auto, unfolding(crate::specs::Reading::name_behind))]
pub(crate) fn name<'a>(text: &'a [u8], key: &[u8], next: &[u8]) -> Option<(&'a [u8], &'a [u8])>
    requires { 0 < length next.now }
    ensures { Gives pair result (name_behind key.now next.now text.now) }
{
    let after = after_front(text, key)?;
    let index = last_index(after, next)?;
    Some(after.split_at(index))
}

/// The digits behind a key where they stand there, and what follows them.
#[inline(always)]
#[tactic(auto, unfolding(crate::specs::Reading::optional_behind))]
pub(crate) fn optional_numeral<'a>(text: &'a [u8], key: &[u8]) -> (Option<Numeral<'a>>, &'a [u8])
    ensures { optional_pair result ≡ optional_behind key.now text.now }
{
    match numeral(text, key) {
        Some((digits, rest)) => (Some(digits), rest),
        None => (None, text),
    }
}

/// Reads the keyed fields of a text one behind the other, each by the reader that is named, and leaves `$rest` at
/// what follows them. A name is read up to the key behind it. A prio may be told with its key as it mostly stands
/// there.
macro_rules! fields {
    ($rest:ident;) => {};
    ($rest:ident; $key:literal => $field:ident: name, $next:literal => $($more:tt)*) => {
        let ($field, $rest) = name($rest, $key, $next)?;
        fields!($rest; $next => $($more)*);
    };
    ($rest:ident; $key:literal => $field:ident: optional_numeral, $($more:tt)*) => {
        let ($field, $rest) = optional_numeral($rest, $key);
        fields!($rest; $($more)*);
    };
    ($rest:ident; $key:literal => $field:ident: prio($middle:literal), $($more:tt)*) => {
        let ($field, $rest) = prio($rest, $key, $middle)?;
        fields!($rest; $($more)*);
    };
    ($rest:ident; $key:literal => $field:ident: $reader:ident, $($more:tt)*) => {
        let ($field, $rest) = $reader($rest, $key)?;
        fields!($rest; $($more)*);
    };
}

pub(crate) use fields;
