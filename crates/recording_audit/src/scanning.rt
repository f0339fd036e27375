//! What is looked for in lines, before they are judged.
ghost use Rattle.std.specs.Prelude.{◌↔◌, IsTrue};
ghost use Rattle.text_parts.specs.Lines.{lines_of};
ghost use Rattle.recording_audit.specs.Causes.{EndsByStart, HaveEvents, IsEvent, IsStart};

use ftrace_line::{Line, one_reading, read_line};
use text_parts::lines::{is_comment, next_line};
use text_parts::pieces::begins_with;

const STARTED: &[u8] = b" buffer started ####";

/// With how many comments a text begins.
pub(crate) fn comment_lines(text: &[u8]) -> u64 {
    let mut count = 0u64;
    let mut rest = text;
    while !rest.is_empty() {
        let (line, after) = next_line(rest);
        if !is_comment(line) {
            break;
        }
        count = count.saturating_add(1);
        rest = after;
    }
    count
}

/// How many lines of a text are those of the scheduler's four events.
pub(crate) fn event_count(text: &[u8]) -> u64
    ensures { HaveEvents (lines_of text.now) result }
{
    let mut count = 0u64;
    let mut rest = text;
    while !rest.is_empty() {
        let (line, after) = next_line(rest);
        if is_event(line) {
            count += 1;
        }
        rest = after;
    }
    count
}

/// Whether a line is one of those.
#[tactic(auto, using(crate::proofs::Events::no_event))]
fn is_event(line: &[u8]) -> bool
    ensures { IsTrue result ↔ IsEvent line.now }
{
    one_reading();
    match read_line(line) {
        Ok(Line::Sched(_)) => true,
        Ok(Line::Comment) => false,
        Ok(Line::Lost) => false,
        Ok(Line::Other) => false,
        Err(_) => false,
    }
}

/// The number of the last line that says that a processor's buffer begins there, and 0 where none does.
pub(crate) fn last_start(text: &[u8]) -> u64 {
    let mut last = 0;
    let mut count = 0u64;
    let mut rest = text;
    while !rest.is_empty() {
        let (line, after) = next_line(rest);
        count = count.saturating_add(1);
        if is_start(line) {
            last = count;
        }
        rest = after;
    }
    last
}

/// Whether a line says that a processor's buffer begins there: what was printed there before was overwritten.
fn is_start(line: &[u8]) -> bool
    ensures { IsTrue result → IsStart line.now }
{
    begins_with(line, b"##### CPU ") && line.ends_with(STARTED)
}

/// Whether the last line of a text says so.
pub(crate) fn ends_by_start(text: &[u8]) -> bool
    ensures { IsTrue result → EndsByStart text.now }
{
    let mut rest = text;
    while !rest.is_empty() {
        let (line, after) = next_line(rest);
        if after.is_empty() {
            return is_start(line);
        }
        rest = after;
    }
    false
}
