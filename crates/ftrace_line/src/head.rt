ghost use Rattle.std.specs.Prelude.{◌≡◌, ◌≤◌, ◌∷◌, [], length, codes, Some, IfSome};
ghost use Rattle.std.specs.List.{prefix_len};
ghost use Rattle.ftrace_line.specs.Head.{is_group_byte, is_flag};
ghost use Rattle.text_parts.specs.Reading.{Gives, or_else, after_text, after_run};
ghost use Rattle.ftrace_line.specs.Meaning.{after_name, after_brackets, after_group, processor_at, stamp_at};
ghost use Rattle.ftrace_line.specs.Meaning.{flagged_stamp_at, head_at};

use text_parts::numerals::{is_digit_byte, number_by_call, three_digits};
use text_parts::pieces::{after_byte, after_digits, after_gap, beyond};
use text_parts::time::{Time, time_at};

/// The parts of an event line's head that are looked at, and the event's text behind it.
#[derive(Drop)]
pub(crate) struct HeadParts<'a> {
    /// The processor, or `MANY` where it is larger.
    pub cpu: u64,
    pub time: Time,
    pub text: &'a [u8],
}

/// The head at the front of a line.
#[inline(always)]
#[tactic(auto, unfolding(crate::specs::Meaning::head_at))]
pub(crate) fn head_at(line: &[u8]) -> Option<HeadParts<'_>>
    ensures { Gives
        (λ head. record {
          cpu = head.cpu;
          seconds = head.time.seconds;
          nanoseconds = head.time.nanoseconds;
          text =
              head.text.now;
        })
        result (head_at line.now) }
{
    let pid = after_name(line)?;
    let group = after_gap(after_digits(pid)?)?;
    let (cpu, rest) = processor_at(after_group(group)?)?;
    let clock = after_gap(rest)?;
    let (time, text) = clock_at(clock)?;
    Some(HeadParts { cpu, time, text })
}

/// What follows the space, the fifteen columns of the name, and the `-` behind them.
#[inline(always)]
#[tactic(auto, unfolding(crate::specs::Meaning::after_name))]
pub(crate) fn after_name(line: &[u8]) -> Option<&[u8]>
    ensures { Gives (λ x. x.now) result (after_name line.now) }
{
    if line.len() > 16 && line[0] == b' ' && line[16] == b'-' {
        Some(&line[17..])
    } else {
        None
    }
}

/// What follows the column of thread groups, where it is there.
#[inline(always)]
#[tactic(auto, unfolding(crate::specs::Meaning::after_group))]
pub(crate) fn after_group(text: &[u8]) -> Option<&[u8]>
    ensures { Gives (λ x. x.now) result (after_group text.now) }
{
    match after_brackets(text) {
        Some(rest) => Some(rest),
        None => Some(text),
    }
}

/// What follows a thread group in its brackets.
#[inline(always)]
#[tactic(auto, unfolding(crate::specs::Meaning::after_brackets))]
fn after_brackets(text: &[u8]) -> Option<&[u8]>
    ensures { Gives (λ x. x.now) result (after_brackets text.now) }
{
    let group = after_byte(text, b'(')?;
    let bracket = beyond_group(group)?;
    after_gap(after_byte(bracket, b')')?)
}

/// What follows one or more bytes of a thread group.
#[inline(always)]
#[tactic(auto, unfolding(text_parts::specs::Reading::after_run))]
fn beyond_group(text: &[u8]) -> Option<&[u8]>
    ensures { Gives (λ x. x.now) result (after_run is_group_byte text.now) }
{
    beyond(text, group_width(text))
}

/// How many bytes of a thread group a text begins with.
#[inline(always)]
#[tactic(auto, using(text_parts::proofs::Runs::prefix_within))]
fn group_width(text: &[u8]) -> usize
    ensures count { result ≡ prefix_len is_group_byte text.now }
    ensures within { result ≤ length text.now }
{
    text.iter()
        .take_while(|byte| is_digit_byte(**byte) || **byte == b' ' || **byte == b'-')
        .count()
}

/// The processor in its square brackets, and what follows them. It has three digits or more.
#[inline(always)]
pub(crate) fn processor_at(text: &[u8]) -> Option<(u64, &[u8])>
    ensures { Gives (λ x. (x.0, x.1.now)) result (processor_at text.now) }
{
    match narrow_processor_at(text) {
        Some(found) => Some(found),
        None => wide_processor_at(text),
    }
}

/// The same for a processor of three digits.
#[inline(always)]
fn narrow_processor_at(text: &[u8]) -> Option<(u64, &[u8])>
    ensures { IfSome result (λ x. processor_at text.now ≡ Some (x.0, x.1.now)) }
{
    let [b'[', a, b, c, b']', rest @ ..] = text else {
        return None;
    };
    let cpu = three_digits(*a, *b, *c)?;
    Some((cpu, rest))
}

/// The same for any.
#[inline(always)]
#[tactic(auto, unfolding(crate::specs::Meaning::processor_at))]
fn wide_processor_at(text: &[u8]) -> Option<(u64, &[u8])>
    ensures { Gives (λ x. (x.0, x.1.now)) result (processor_at text.now) }
{
    let number = number_by_call(after_byte(text, b'[')?);
    if number.digits < 3 {
        return None;
    }
    let rest = after_byte(number.rest, b']')?;
    Some((number.value, rest))
}

/// The time and what follows it, behind a word of flags where there is one.
#[inline(always)]
fn clock_at(text: &[u8]) -> Option<(Time, &[u8])>
    ensures { Gives (λ x. (x.0.seconds, x.0.nanoseconds, x.1.now)) result
        (or_else (stamp_at text.now) (flagged_stamp_at text.now)) }
{
    match stamp_at(text) {
        Some(found) => Some(found),
        None => flagged_stamp_at(text),
    }
}

/// A time with its colon and space, and what follows them.
#[inline(always)]
#[tactic(auto, unfolding(crate::specs::Meaning::stamp_at))]
fn stamp_at(text: &[u8]) -> Option<(Time, &[u8])>
    ensures { Gives (λ x. (x.0.seconds, x.0.nanoseconds, x.1.now)) result (stamp_at text.now) }
{
    let (time, rest) = time_at(text)?;
    let text = after_colon(rest)?;
    Some((time, text))
}

/// A word of flags, a time with its colon and space, and what follows them.
#[inline(always)]
#[tactic(auto, unfolding(crate::specs::Meaning::flagged_stamp_at))]
fn flagged_stamp_at(text: &[u8]) -> Option<(Time, &[u8])>
    ensures { Gives (λ x. (x.0.seconds, x.0.nanoseconds, x.1.now)) result (flagged_stamp_at text.now) }
{
    stamp_at(after_gap(beyond_flags(text)?)?)
}

/// What follows one or more bytes of a word of flags.
#[inline(always)]
#[tactic(auto, unfolding(text_parts::specs::Reading::after_run))]
fn beyond_flags(text: &[u8]) -> Option<&[u8]>
    ensures { Gives (λ x. x.now) result (after_run is_flag text.now) }
{
    beyond(text, flags_width(text))
}

/// How many bytes of a word of flags a text begins with.
#[inline(always)]
#[tactic(auto, using(text_parts::proofs::Runs::prefix_within))]
fn flags_width(text: &[u8]) -> usize
    ensures count { result ≡ prefix_len is_flag text.now }
    ensures within { result ≤ length text.now }
{
    text.iter()
        .take_while(|byte| !(**byte == b' ' || **byte == b':'))
        .count()
}

/// What follows a colon and a space.
#[inline(always)]
#[tactic(auto, unfolding(text_parts::specs::Reading::after_text))]
pub(crate) fn after_colon(text: &[u8]) -> Option<&[u8]>
    ensures { Gives (λ x. x.now) result (after_text (codes ": ") text.now) }
{
    match text {
        [b':', b' ', rest @ ..] => Some(rest),
        _ => None,
    }
}
