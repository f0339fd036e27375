//! The fields of a text that goes on behind its line: no line ends in what is read here.

ghost use Rattle.std.specs.Prelude.{◌≡◌, ◌<◌, ◌≤◌, true, length, take, drop, map, nat_le, Some, IfSome};
ghost use Rattle.std.specs.List.{prefix_len};
ghost use Rattle.std.specs.Simd.Lanes.{mask_l};
ghost use Rattle.text_parts.specs.Packed.{BeginsWithRun};
ghost use Rattle.text_parts.specs.Unbroken.{IsUnbroken};
ghost use Rattle.sched_event.specs.Texts.{IsName, IsState};
ghost use Rattle.sched_event.specs.FieldsView.{numeral_pair, prio_pair};
ghost use Rattle.sched_event.specs.Reading.{numeral_behind, prio_behind, run_at};
ghost use Rattle.text_parts.specs.Numerals.{is_digit};
ghost use Rattle.text_parts.specs.Pieces.{begins_with};
ghost use Rattle.text_parts.specs.Reading.{Gives};
ghost use Rattle.sched_event.specs.Usual.{HasField, IsMiddlePrio, is_plain};

use crate::fields::{NAME_MAX, PrioFields, digits, numeral};
use crate::numeral::Numeral;
use std::simd::prelude::*;
use text_parts::packed::{TOGETHER, first_set};
use text_parts::pieces::{after_front, begins_with};

/// The name behind a key, up to the first place where the next key stands, and the text from that key on.
#[inline(always)]
pub(crate) fn name<'a>(text: &'a [u8], key: &[u8], next: &[u8]) -> Option<(&'a [u8], &'a [u8])>
    ensures name { IfSome result (λ x. IsName x.0.now) }
    ensures field { IfSome result (λ x. HasField key.now text.now x.0.now x.1.now) }
    ensures next { IfSome result (λ x. begins_with next.now x.1.now ≡ true) }
{
    let after = after_front(text, key)?;
    let index = name_length(after, next)?;
    Some(after.split_at(index))
}

/// The digits behind a key that stands there, and what follows them.
#[inline(always)]
#[tactic(auto, unfolding(crate::specs::Reading::numeral_behind))]
pub(crate) fn numeral_there<'a>(text: &'a [u8], key: &[u8]) -> Option<(Numeral<'a>, &'a [u8])>
    requires { begins_with key.now text.now ≡ true }
    ensures { Gives numeral_pair result (numeral_behind key.now text.now) }
{
    digits(&text[key.len()..])
}

/// The letters of a state behind a key, and what follows them.
#[inline(always)]
pub(crate) fn state<'a>(text: &'a [u8], key: &[u8]) -> Option<(&'a [u8], &'a [u8])>
    ensures state { IfSome result (λ x. IsState x.0.now) }
    ensures field { IfSome result (λ x. HasField key.now text.now x.0.now x.1.now) }
{
    let after = after_front(text, key)?;
    let count = plain_count(after);
    if count == 0 {
        return None;
    }
    Some(after.split_at(count))
}

/// The prio behind a key, where it has no sign, as that of each fair task, and what follows it. Most tasks have that of
/// nice 0. So the text is held first against the key with that prio and some of what stands behind it.
#[inline(always)]
pub(crate) fn prio<'a>(
    text: &'a [u8],
    key: &[u8],
    middle: &[u8],
) -> Option<(PrioFields<'a>, &'a [u8])>
    requires { IsMiddlePrio key.now middle.now }
    ensures { IfSome result (λ x. prio_behind key.now text.now ≡ Some (prio_pair x)) }
{
    let (numeral, rest) = prio_numeral(text, key, middle)?;
    let minus = false;
    Some((PrioFields { minus, numeral }, rest))
}

/// The digits of a prio behind a key, and what follows them.
#[inline(always)]
fn prio_numeral<'a>(text: &'a [u8], key: &[u8], middle: &[u8]) -> Option<(Numeral<'a>, &'a [u8])>
    requires { IsMiddlePrio key.now middle.now }
    ensures { IfSome result (λ x. numeral_behind key.now text.now ≡ Some (numeral_pair x)) }
{
    if begins_with(text, middle) {
        return Some(middle_numeral(text, key, middle));
    }
    numeral(text, key)
}

/// The digits of the prio that most tasks have, that of nice 0, behind a key, and what follows them.
#[inline(always)]
fn middle_numeral<'a>(text: &'a [u8], key: &[u8], middle: &[u8]) -> (Numeral<'a>, &'a [u8])
    requires middle { IsMiddlePrio key.now middle.now }
    requires there { begins_with middle.now text.now ≡ true }
    ensures { numeral_behind key.now text.now ≡ Some (numeral_pair result) }
{
    let (digits, rest) = text[key.len()..].split_at(3);
    let value = 120;
    (Numeral { digits, value }, rest)
}

/// How many bytes of a name stand before a key.
#[inline(always)]
fn name_length(text: &[u8], next: &[u8]) -> Option<usize>
    ensures short { IfSome result (λ index. index ≤ 15) }
    ensures within { IfSome result (λ index. index ≤ length text.now) }
    ensures unbroken { IfSome result (λ index. IsUnbroken (take index text.now)) }
    ensures next { IfSome result (λ index. begins_with next.now (drop index text.now) ≡ true) }
{
    if text.len() <= NAME_MAX {
        return None;
    }
    let index = first_gap(text);
    if index > NAME_MAX {
        return None;
    }
    if begins_with(&text[index..], next) {
        return Some(index);
    }
    spaced_length(text, index, next)
}

/// The same for a name with spaces, the first of which stands at this index, away from the readers of other names.
#[inline(never)]
fn spaced_length(text: &[u8], first: usize, next: &[u8]) -> Option<usize>
    requires long { 15 < length text.now }
    requires first { first ≤ 15 }
    requires unbroken { IsUnbroken (take first text.now) }
    ensures short { IfSome result (λ index. index ≤ 15) }
    ensures within { IfSome result (λ index. index ≤ length text.now) }
    ensures unbroken { IfSome result (λ index. IsUnbroken (take index text.now)) }
    ensures next { IfSome result (λ index. begins_with next.now (drop index text.now) ≡ true) }
{
    let mut index = first;
    while index <= NAME_MAX {
        if begins_with(&text[index..], next) {
            return Some(index);
        }
        if text[index] != b' ' {
            return None;
        }
        index = next_gap(text, index + 1);
    }
    None
}

/// The first of the first sixteen indices at which a space or a control character stands, or 16. Names have all
/// lengths, so all indices are looked at with no branch to guess.
#[inline(always)]
fn first_gap(text: &[u8]) -> usize
    requires { 15 < length text.now }
    ensures within { result ≤ 16 }
    ensures plain { IsUnbroken (take result text.now) }
{
    let gaps = gaps_of_sixteen(u8x16::from_slice(text));
    if gaps == 0 {
        16
    } else {
        gaps.trailing_zeros() as usize
    }
}

/// Which of sixteen bytes are spaces or control characters, by a bit for each.
#[inline(always)]
fn gaps_of_sixteen(bytes: u8x16) -> u64
    ensures { result ≡ mask_l (map (λ byte. nat_le byte 32) bytes) }
{
    bytes.simd_le(u8x16::splat(b' ')).to_bitmask()
}

/// The next index up to 16 at which a space or a control character stands, or 16.
#[inline(always)]
fn next_gap(text: &[u8], from: usize) -> usize
    requires long { 15 < length text.now }
    requires from { from ≤ 16 }
    requires unbroken { IsUnbroken (take from text.now) }
    ensures later { from ≤ result }
    ensures within { result ≤ 16 }
    ensures unbroken { IsUnbroken (take result text.now) }
{
    let mut index = from;
    while index <= NAME_MAX && text[index] > b' ' {
        index += 1;
    }
    index
}

/// How many bytes stand before the first space or control character. States have one letter or two, so eight bytes are
/// looked at with no branch to guess.
#[inline(always)]
fn plain_count(text: &[u8]) -> usize
    ensures count { result ≡ prefix_len is_plain text.now }
    ensures within { result ≤ length text.now }
{
    if text.len() >= TOGETHER {
        let count = plain_in_front(text);
        if count < TOGETHER {
            return count;
        }
    }
    many_plain(text)
}

/// How many of the first eight bytes stand before a space or a control character.
#[inline(always)]
fn plain_in_front(text: &[u8]) -> usize
    requires { 8 ≤ length text.now }
    ensures { BeginsWithRun is_plain text.now result }
{
    first_set(gaps(u8x8::from_slice(text)))
}

/// Which of eight bytes are spaces or control characters, by a bit for each.
#[inline(always)]
fn gaps(bytes: u8x8) -> u64
    ensures { result ≡ mask_l (map (λ byte. nat_le byte 32) bytes) }
{
    bytes.simd_le(u8x8::splat(b' ')).to_bitmask()
}

/// How many bytes stand before the first space or control character, which are looked at one by one.
#[inline(never)]
#[tactic(auto, using(text_parts::proofs::Runs::prefix_within))]
fn many_plain(text: &[u8]) -> usize
    ensures count { result ≡ prefix_len is_plain text.now }
    ensures within { result ≤ length text.now }
{
    text.iter().take_while(|byte| **byte > b' ').count()
}
