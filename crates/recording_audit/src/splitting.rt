//! Texts that are cut in two at line ends.
ghost use Rattle.std.specs.Prelude.{◌≡◌, ◌<◌, ◌≤◌, length};
ghost use Rattle.text_parts.specs.Lines.{lines_of};
ghost use Rattle.recording_audit.specs.Splits.{AreSplit};

use text_parts::lines::{lines_after_whole, next_line, whole_lines};

/// The first lines of a text, so many of them, and what follows. It is at least one.
pub(crate) fn split_lines(text: &[u8], count: u64) -> (&[u8], &[u8])
    requires { 0 < length text.now }
    ensures { AreSplit text.now result.0.now result.1.now }
{
    split_near(text, end_of_lines(text, count))
}

/// The whole lines in so many bytes of a text, and what follows; all of it where no line ends there.
pub(crate) fn split_near(text: &[u8], end: usize) -> (&[u8], &[u8])
    requires { 0 < length text.now }
    ensures { AreSplit text.now result.0.now result.1.now }
{
    if end >= text.len() {
        return all_of(text);
    }
    let whole = whole_lines(&text[..end]);
    if whole == 0 {
        return all_of(text);
    }
    lines_after_whole();
    text.split_at(whole)
}

/// All of a text, and nothing behind it.
fn all_of(text: &[u8]) -> (&[u8], &[u8])
    requires { 0 < length text.now }
    ensures { AreSplit text.now result.0.now result.1.now }
{
    text.split_at(text.len())
}

/// How many bytes so many lines take; all where there are no more lines. One line is taken at least.
pub(crate) fn end_of_lines(text: &[u8], count: u64) -> usize {
    let mut rest = text;
    for _ in 0..count.max(1) {
        if rest.is_empty() {
            break;
        }
        let (_line, after) = next_line(rest);
        rest = after;
    }
    text.len().saturating_sub(rest.len())
}

/// How many lines a text has.
pub(crate) fn line_count(text: &[u8]) -> u64
    ensures count { result ≡ length (lines_of text.now) }
    ensures within { result ≤ length text.now }
{
    let mut count = 0u64;
    let mut rest = text;
    while !rest.is_empty() {
        let (_line, after) = next_line(rest);
        rest = after;
        count += 1;
    }
    count
}
