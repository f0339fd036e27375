//! The `at` and the `charge` lines that nearly all lines of a companion are, read from their front on: the end of the
//! line isn't looked for first. Nothing is said of other lines.

ghost use Rattle.std.specs.Prelude.{◌≡◌, codes, IfSome};
ghost use Rattle.companion_file.specs.Usual.{HasFields, HasLine};

use crate::fields::{integer, marked_field, marked_integer, number_field};
use text_parts::lines::line_end;
use text_parts::marks::{MARKED, marks_of};
use text_parts::pieces::after_front;

/// What such a line says, its numbers within their limits or not, and what follows it.
#[derive(Clone, Copy)]
pub(crate) struct UsualLine<'a> {
    /// The line in the trace.
    pub(crate) line: u64,
    pub(crate) pid: u64,
    /// In virtual nanoseconds, signed.
    pub(crate) v: i64,
    /// What follows the line.
    pub(crate) rest: &'a [u8],
}

/// The charge that the first line of a text tells, where that is a `charge` line.
#[inline(always)]
pub(crate) fn usual_charge(text: &[u8]) -> Option<UsualLine<'_>>
    ensures { IfSome result (λ said. HasLine (codes "charge ") text.now said.line said.pid said.v said.rest.now) }
{
    usual_fields(after_front(text, b"charge ")?)
}

/// The same behind the word of either line. Where its numbers end is told by one look, mostly.
#[inline(always)]
pub(crate) fn usual_fields(text: &[u8]) -> Option<UsualLine<'_>>
    ensures { IfSome result (λ said. HasFields text.now said.line said.pid said.v said.rest.now) }
{
    match marked_fields(text) {
        Some(said) => Some(said),
        None => any_fields(text),
    }
}

/// The same where the numbers have no sign, and few digits.
#[inline(always)]
fn marked_fields(text: &[u8]) -> Option<UsualLine<'_>>
    ensures { IfSome result (λ said. HasFields text.now said.line said.pid said.v said.rest.now) }
{
    if text.len() < MARKED {
        return None;
    }
    let marks = marks_of(text);
    let (line, after_line, marks) = marked_field(text, marks)?;
    let (pid, after_pid, marks) = marked_field(after_line, marks)?;
    let (v, after_v) = marked_integer(after_pid, marks)?;
    let rest = line_end(after_v)?;
    Some(UsualLine { line, pid, v, rest })
}

/// The same of all numbers, away from the reader of those.
#[inline(never)]
fn any_fields(text: &[u8]) -> Option<UsualLine<'_>>
    ensures { IfSome result (λ said. HasFields text.now said.line said.pid said.v said.rest.now) }
{
    let (line, after_line) = number_field(text)?;
    let (pid, after_pid) = number_field(after_line)?;
    let (v, after_v) = integer(after_pid)?;
    let rest = line_end(after_v)?;
    Some(UsualLine { line, pid, v, rest })
}
