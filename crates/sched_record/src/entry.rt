ghost use Rattle.std.specs.Prelude.{◌≡◌, ℕ, ◌<◌, ◌≤◌, ◌∷◌, List, length, IfSome, MatchOption, Ok};
ghost use Rattle.std.specs.List.{before_first};
ghost use Rattle.text_parts.specs.Lines.{is_line_feed, lines_of};
ghost use Rattle.ftrace_line.specs.Line.{LineAnswer, other};
ghost use Rattle.sched_event.specs.Usual.{SaysAct};
ghost use Rattle.sched_record.specs.Said.{LineSays};

use crate::cause::TraceCause;
use cfs_model::{Entry, GREATEST_LINE};
use ftrace_line::{Line, RecentClocks, read_line};
use sched_event::{UsualEvent, read_event, usual_line};
use text_parts::lines::next_line;

/// What the first line of a text says, and what follows that line. The number of the line counts from 1, comments
/// included.
#[inline(always)]
pub fn next_entry<'a>(
    number: u64,
    text: &'a [u8],
    clocks: &mut RecentClocks,
) -> (Result<Option<Entry>, TraceCause>, &'a [u8])
    requires { 0 < length text.now }
    ensures says { LineSays number (before_first is_line_feed text.now) result.0 }
    ensures lines { lines_of text.now ≡ before_first is_line_feed text.now ∷ lines_of result.1.now }
    ensures shorter { length result.1.now < length text.now }
{
    match usual_entry(number, text, clocks) {
        Some((said, rest)) => (Ok(said), rest),
        None => careful_entry(number, text),
    }
}

/// The same for a line of the usual form, and nothing for others. Such a line isn't refused, so that a reader of many
/// lines has less to tell apart.
#[inline(always)]
pub fn usual_entry<'a>(
    number: u64,
    text: &'a [u8],
    clocks: &mut RecentClocks,
) -> Option<(Option<Entry>, &'a [u8])>
    ensures says { IfSome result (λ x. LineSays number (before_first is_line_feed text.now) (Ok x.0)) }
    ensures lines { IfSome result (λ x. lines_of text.now ≡ before_first is_line_feed text.now ∷ lines_of x.1.now) }
    ensures shorter { IfSome result (λ x. length x.1.now < length text.now) }
{
    if number > GREATEST_LINE {
        return None;
    }
    match usual_line(text, clocks) {
        Some(usual) => Some((entry_of(number, usual.event), usual.rest)),
        None => None,
    }
}

/// The event that a line says which is read already, if it says one of the four.
#[inline(always)]
fn entry_of(number: u64, said: Option<UsualEvent>) -> Option<Entry>
    requires { number ≤ GREATEST_LINE }
    ensures { (line : List ℕ) → MatchOption said (LineAnswer line (Ok other)) (SaysAct line)
        → LineSays number line (Ok result) }
{
    match said {
        None => None,
        Some(event) => Some(Entry {
            line: number as u32,
            time: event.time,
            act: event.act,
        }),
    }
}

/// The same for any line, away from the readers of usual ones: it looks for the line's end first.
#[inline(never)]
pub fn careful_entry(number: u64, text: &[u8]) -> (Result<Option<Entry>, TraceCause>, &[u8])
    requires { 0 < length text.now }
    ensures says { LineSays number (before_first is_line_feed text.now) result.0 }
    ensures lines { lines_of text.now ≡ before_first is_line_feed text.now ∷ lines_of result.1.now }
    ensures shorter { length result.1.now < length text.now }
{
    let (line, rest) = next_line(text);
    (line_entry(number, line), rest)
}

/// The event that a line says, if it says one. The number of the line counts from 1, comments included.
#[inline(always)]
fn line_entry(number: u64, line: &[u8]) -> Result<Option<Entry>, TraceCause>
    ensures { LineSays number line.now result }
{
    if number > GREATEST_LINE {
        return Err(TraceCause::TooManyLines);
    }
    let sched = match read_line(line) {
        Err(fault) => return Err(TraceCause::Line(fault)),
        Ok(Line::Comment | Line::Other) => return Ok(None),
        Ok(Line::Lost) => return Err(TraceCause::LostEvents),
        Ok(Line::Sched(sched)) => sched,
    };
    let time = sched.time;
    match read_event(sched) {
        Err(fault) => Err(TraceCause::Event(fault)),
        Ok(event) => Ok(Some(Entry {
            line: number as u32,
            time,
            act: event.act(),
        })),
    }
}
