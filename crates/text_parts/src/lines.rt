ghost use Rattle.std.specs.Prelude.{◌≡◌, ◌<◌, ◌≤◌, [], ◌∷◌, ◌++◌, ℕ, List, false, length, take, drop, IfSome};
ghost use Rattle.std.specs.List.{before_first, after_first, list_any};
ghost use Rattle.text_parts.specs.Lines.{is_line_feed, lines_of, IsWhole, is_comment};

use bstr::ByteSlice;

/// The first line of a text without its line feed, and what follows that line.
#[inline(always)]
pub fn next_line(text: &[u8]) -> (&[u8], &[u8])
    ensures line { result.0.now ≡ before_first is_line_feed text.now }
    ensures rest { result.1.now ≡ after_first is_line_feed text.now }
    ensures lines { 0 < length text.now → lines_of text.now ≡ result.0.now ∷ lines_of result.1.now }
    ensures shorter { 0 < length text.now → length result.1.now < length text.now }
{
    match text.find_byte(b'\n') {
        Some(end) => {
            let (line, rest) = text.split_at(end);
            (line, &rest[1..])
        }
        None => (text, &text[text.len()..]),
    }
}

/// What follows the line that ends at the front of a text: by a line feed, or because the text ends.
#[inline(always)]
pub fn line_end(text: &[u8]) -> Option<&[u8]>
    ensures line { IfSome result (λ rest. before_first is_line_feed text.now ≡ []) }
    ensures rest { IfSome result (λ rest. rest.now ≡ after_first is_line_feed text.now) }
{
    match text {
        [] => Some(text),
        [b'\n', rest @ ..] => Some(rest),
        _ => None,
    }
}

/// How many bytes of a text its whole lines take: up to its last line feed, and with it.
#[inline(always)]
pub fn whole_lines(text: &[u8]) -> usize
    ensures within { result ≤ length text.now }
    ensures whole { IsWhole (take result text.now) }
    ensures rest { list_any is_line_feed (drop result text.now) ≡ false }
{
    match text.rfind_byte(b'\n') {
        Some(last) => last + 1,
        None => 0,
    }
}

/// Whether a line is a comment: it is empty, or it begins with `#`.
#[inline(always)]
#[tactic(auto, unfolding(crate::specs::Lines::is_comment))]
pub fn is_comment(line: &[u8]) -> bool
    ensures { result ≡ is_comment line.now }
{
    match line {
        [] => true,
        [first, ..] => *first == b'#',
    }
}

/// A law: the lines of a text that begins with whole lines are theirs, and then those of what follows.
pub fn lines_after_whole()
    ensures { (text more : List ℕ) → IsWhole text → lines_of (text ++ more) ≡ lines_of text ++ lines_of more }
{}
