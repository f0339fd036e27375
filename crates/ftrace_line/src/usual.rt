ghost use Rattle.std.specs.Prelude.{◌<◌, IfSome, length, take};
ghost use Rattle.std.specs.Bool.{OnTrue};
ghost use Rattle.text_parts.specs.Unbroken.{IsUnbroken};
ghost use Rattle.ftrace_line.specs.Usual.{HasName, HasPid, HasHead, HasFront};

use crate::head::{after_colon, after_group, after_name, processor_at};
use crate::kinds::Which;
use crate::reading::{fields_of, kind_of};
use crate::recent_clocks::RecentClocks;
use cfs_model::{GREATEST_PROCESSOR, GREATEST_SECONDS, NANOSECONDS_PER_SECOND};
use text_parts::packed::{TOGETHER, begins_with_column};
use text_parts::pieces::{after_digits, after_gap};
use text_parts::time::fraction_at;

/// The front of a text whose first line is an event's, up to where the event's own text begins.
#[derive(Clone, Copy, Debug, PartialEq, Eq, Drop)]
pub struct UsualFront<'a> {
    /// The processor that the line's head names.
    pub cpu: u32,
    /// In nanoseconds.
    pub time: u64,
    /// One of the four events, or none of them.
    pub which: Option<Which>,
    /// What follows the label of one of the four, or the head of another event, to the end of the text.
    pub rest: &'a [u8],
}

/// A head at the front of a text.
#[derive(Clone, Copy)]
struct UsualHead<'a> {
    cpu: u32,
    time: u64,
    text: &'a [u8],
}

/// The front of a text, where its first line is an event's with no byte that is seldom there: none looks for the end of
/// the line. Nothing is said of other lines.
#[inline(always)]
pub fn usual_front<'a>(text: &'a [u8], clocks: &mut RecentClocks) -> Option<UsualFront<'a>>
    ensures { IfSome result (λ front. HasFront text.now front.cpu front.time front.which front.rest.now) }
{
    let head = usual_head(text, clocks)?;
    match kind_of(head.text) {
        Some(which) => Some(UsualFront {
            cpu: head.cpu,
            time: head.time,
            which: Some(which),
            rest: fields_of(which, head.text),
        }),
        None => Some(UsualFront {
            cpu: head.cpu,
            time: head.time,
            which: None,
            rest: head.text,
        }),
    }
}

/// The head of an event at the front of a text.
#[inline(always)]
fn usual_head<'a>(text: &'a [u8], clocks: &mut RecentClocks) -> Option<UsualHead<'a>>
    ensures { IfSome result (λ head. HasHead text.now head.cpu head.time head.text.now) }
{
    let pid = usual_name(text)?;
    let group = after_pid(pid)?;
    let (cpu, clock) = processor_at(after_group(group)?)?;
    let (seconds, fraction) = clocks.seconds_at(clock)?;
    let (nanoseconds, colon) = fraction_at(fraction)?;
    let text = after_colon(colon)?;
    if cpu > GREATEST_PROCESSOR || seconds > GREATEST_SECONDS {
        return None;
    }
    Some(UsualHead {
        cpu: cpu as u32,
        time: seconds * NANOSECONDS_PER_SECOND + nanoseconds,
        text,
    })
}

/// What follows the columns of the name and the `-` behind them, where no line ends in them.
#[inline(always)]
fn usual_name(text: &[u8]) -> Option<&[u8]>
    ensures { IfSome result (λ rest. HasName text.now rest.now) }
{
    if text.len() < 16 || !is_unbroken(text) {
        return None;
    }
    let rest = after_name(text)?;
    Some(rest)
}

/// Whether no line ends in the first sixteen bytes, which are looked at with no branch.
#[inline(always)]
fn is_unbroken(text: &[u8]) -> bool
    requires { 15 < length text.now }
    ensures { OnTrue result (IsUnbroken (take 16 text.now)) }
{
    let mut unbroken = true;
    for index in 0..16 {
        unbroken &= text[index] != b'\n';
    }
    unbroken
}

/// What follows the digits of the pid and the spaces behind them.
#[inline(always)]
fn after_pid(text: &[u8]) -> Option<&[u8]>
    ensures { IfSome result (λ rest. HasPid text.now rest.now) }
{
    match after_pid_column(text) {
        Some(rest) => Some(rest),
        None => after_any_pid(text),
    }
}

/// The same where they are the column of eight bytes that kernels print. What follows is sought behind eight bytes,
/// whatever is among them, so a processor needn't wait for them.
#[inline(always)]
fn after_pid_column(text: &[u8]) -> Option<&[u8]>
    ensures { IfSome result (λ rest. HasPid text.now rest.now) }
{
    if text.len() <= TOGETHER || !begins_with_column(text) {
        return None;
    }
    let rest = &text[TOGETHER..];
    if rest[0] == b' ' {
        return None;
    }
    Some(rest)
}

/// The same in columns of any width, away from the reader of lines with that one.
#[inline(never)]
fn after_any_pid(text: &[u8]) -> Option<&[u8]>
    ensures { IfSome result (λ rest. HasPid text.now rest.now) }
{
    let gap = after_digits(text)?;
    let rest = after_gap(gap)?;
    Some(rest)
}
