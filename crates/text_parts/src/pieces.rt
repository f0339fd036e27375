ghost use Rattle.std.specs.Prelude.{◌≡◌, ◌≤◌, ◌==◌, ◌∷◌, [], length, drop, if◌then◌else◌, Some, None, IfSome};
ghost use Rattle.std.specs.List.{prefix_len};
ghost use Rattle.text_parts.specs.Numerals.{is_digit};
ghost use Rattle.text_parts.specs.Pieces.{is_space, begins_with};
ghost use Rattle.text_parts.specs.Reading.{Gives, after_text, after_run};

use crate::numerals::digit_count;
use crate::packed::{TOGETHER, spaces_in_front};

/// What follows this byte at the front.
#[inline(always)]
#[tactic(auto, unfolding(crate::specs::Reading::after_text))]
pub fn after_byte(text: &[u8], byte: u8) -> Option<&[u8]>
    ensures { Gives (λ x. x.now) result (after_text (byte ∷ []) text.now) }
{
    match text {
        [first, rest @ ..] if *first == byte => Some(rest),
        _ => None,
    }
}

/// What follows one or more digits.
#[inline(always)]
#[tactic(auto, unfolding(crate::specs::Reading::after_run))]
pub fn after_digits(text: &[u8]) -> Option<&[u8]>
    ensures { Gives (λ x. x.now) result (after_run is_digit text.now) }
{
    beyond(text, digit_count(text))
}

/// What follows one or more spaces.
#[inline(always)]
#[tactic(auto, unfolding(crate::specs::Reading::after_run))]
pub fn after_gap(text: &[u8]) -> Option<&[u8]>
    ensures { Gives (λ x. x.now) result (after_run is_space text.now) }
{
    beyond(text, gap_width(text))
}

/// What follows so many bytes, where there are some.
#[inline(always)]
pub fn beyond(text: &[u8], count: usize) -> Option<&[u8]>
    requires { count ≤ length text.now }
    ensures { Gives (λ x. x.now) result (if count == 0 then None else Some (drop count text.now)) }
{
    if count == 0 {
        None
    } else {
        Some(&text[count..])
    }
}

/// How many spaces a text begins with.
#[inline(always)]
fn gap_width(text: &[u8]) -> usize
    ensures count { result ≡ prefix_len is_space text.now }
    ensures within { result ≤ length text.now }
{
    if text.len() >= TOGETHER {
        let width = spaces_in_front(text);
        if width < TOGETHER {
            return width;
        }
    }
    wide_gap(text)
}

/// How many spaces a text begins with, away from the readers of narrow gaps.
#[inline(never)]
#[tactic(auto, using(crate::proofs::Runs::prefix_within))]
fn wide_gap(text: &[u8]) -> usize
    ensures count { result ≡ prefix_len is_space text.now }
    ensures within { result ≤ length text.now }
{
    text.iter().take_while(|byte| **byte == b' ').count()
}

/// Whether a text begins with these bytes. They are compared eight at a time, so that a front that is a literal costs a
/// few instructions.
#[inline(always)]
pub fn begins_with(text: &[u8], front: &[u8]) -> bool
    ensures { result ≡ begins_with front.now text.now }
{
    if text.len() < front.len() {
        return false;
    }
    let mut same = true;
    for (index, byte) in front.iter().enumerate() {
        if index % 8 == 0 && !same {
            return false;
        }
        same &= text[index] == *byte;
    }
    same
}

/// What follows these bytes at the front.
#[inline(always)]
#[tactic(auto, using(crate::proofs::Fronts::front_missing))]
pub fn after_front<'a>(text: &'a [u8], front: &[u8]) -> Option<&'a [u8]>
    ensures { Gives (λ x. x.now) result (after_text front.now text.now) }
{
    if begins_with(text, front) {
        Some(&text[front.len()..])
    } else {
        None
    }
}
