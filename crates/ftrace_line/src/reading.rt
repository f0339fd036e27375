ghost use Rattle.std.specs.Prelude.{◌≡◌, ◌≤◌, length, List, ℕ, ◌↔◌, IsErrOf, Result};
ghost use Rattle.ftrace_line.specs.declared.fault.LineFault.{LineFault as TheFault};
ghost use Rattle.ftrace_line.specs.Line.{LineView, LineAnswer, IsHeadless, IsHeadOutOfRange, label_of};
ghost use Rattle.ftrace_line.specs.Seen.{line_answer_view};
ghost use Rattle.text_parts.specs.Reading.{Gives};
ghost use Rattle.ftrace_line.specs.Meaning.{after_count, after_loss, kind_at, kind_by_name, fields_of, is_end};

use crate::fault::LineFault;
use crate::head::{HeadParts, head_at};
use crate::kinds::{Line, Sched, Which};
use cfs_model::{GREATEST_PROCESSOR, GREATEST_SECONDS, NANOSECONDS_PER_SECOND};
use text_parts::lines::is_comment;
use text_parts::pieces::{after_digits, after_front, begins_with};

/// What a line of a trace means. The line is given without its line feed.
///
/// The format is ftrace's plain one: a comment is empty or begins with `#`; a line of lost events is `CPU:0 [LOST
/// EVENTS]` or `CPU:0 [LOST 12 EVENTS]`; an event stands behind a head.
pub fn read_line<'a>(line: &'a [u8]) -> Result<Line<'a>, LineFault>
    ensures answers { LineAnswer line.now (line_answer_view result) }
    ensures bad { IsErrOf result LineFault.BadHead ↔ IsHeadless line.now }
    ensures range { IsErrOf result LineFault.NumberRange ↔ IsHeadOutOfRange line.now }
{
    if is_comment(line) {
        return Ok(Line::Comment);
    }
    if is_lost(line) {
        return Ok(Line::Lost);
    }
    let Some(head) = head_at(line) else {
        return Err(LineFault::BadHead);
    };
    if head.cpu > GREATEST_PROCESSOR || head.time.seconds > GREATEST_SECONDS {
        return Err(LineFault::NumberRange);
    }
    let Some(which) = kind_of(head.text) else {
        return Ok(Line::Other);
    };
    Ok(Line::Sched(Sched {
        cpu: head.cpu as u32,
        time: head.time.seconds * NANOSECONDS_PER_SECOND + head.time.nanoseconds,
        which,
        rest: fields_of(which, head.text),
    }))
}

/// A line has at most one meaning, and that or one fault.
pub fn one_reading()
    ensures { (line : List ℕ) (a b : Result LineView TheFault) → LineAnswer line a → LineAnswer line b → a ≡ b }
{}

/// Whether a line says that a processor lost events.
#[inline(always)]
#[tactic(auto, using(text_parts::proofs::Fronts::front_missing), unfolding(crate::specs::Meaning::after_loss))]
fn is_lost(line: &[u8]) -> bool
    ensures { result ≡ is_end (after_loss line.now) }
{
    if !begins_with(line, b"CPU:") {
        return false;
    }
    match after_loss(line) {
        Some([]) => true,
        _ => false,
    }
}

/// What follows the words on lost events.
#[cold]
#[inline(never)]
#[tactic(auto, unfolding(crate::specs::Meaning::after_loss))]
fn after_loss(line: &[u8]) -> Option<&[u8]>
    ensures { Gives (λ x. x.now) result (after_loss line.now) }
{
    let loss = after_digits(after_front(line, b"CPU:")?)?;
    match after_front(loss, b" [LOST EVENTS]") {
        Some(rest) => Some(rest),
        None => after_count(loss),
    }
}

/// What follows the words on a number of lost events.
#[tactic(auto, unfolding(crate::specs::Meaning::after_count))]
fn after_count(text: &[u8]) -> Option<&[u8]>
    ensures { Gives (λ x. x.now) result (after_count text.now) }
{
    let words = after_digits(after_front(text, b" [LOST ")?)?;
    after_front(words, b" EVENTS]")
}

/// Which of the four events a text is.
#[inline(always)]
pub(crate) fn kind_of(text: &[u8]) -> Option<Which>
    ensures { result ≡ kind_at text.now }
{
    // What all four begin with is compared by itself, and only once.
    match after_front(text, b"sched_") {
        Some(name) => kind_by_name(name),
        None => None,
    }
}

/// Which of the four events has a name that begins a text, but for what all four begin with.
#[inline(always)]
fn kind_by_name(text: &[u8]) -> Option<Which>
    ensures { result ≡ kind_by_name text.now }
{
    if begins_with(text, b"switch: ") {
        return Some(Which::Switch);
    }
    if begins_with(text, b"wakeup: ") {
        return Some(Which::Wakeup);
    }
    if begins_with(text, b"wakeup_new: ") {
        return Some(Which::WakeupNew);
    }
    if begins_with(text, b"migrate_task: ") {
        return Some(Which::MigrateTask);
    }
    None
}

/// The fields of an event: what stands behind its label.
#[inline(always)]
pub(crate) fn fields_of(which: Which, text: &[u8]) -> &[u8]
    requires { length (label_of which) ≤ length text.now }
    ensures { result.now ≡ fields_of which text.now }
{
    match which {
        Which::Switch => &text[b"sched_switch: ".len()..],
        Which::Wakeup => &text[b"sched_wakeup: ".len()..],
        Which::WakeupNew => &text[b"sched_wakeup_new: ".len()..],
        Which::MigrateTask => &text[b"sched_migrate_task: ".len()..],
    }
}
