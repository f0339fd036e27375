//! What a look at a companion's line shows that has none of the shapes.

use crate::escaped::Escaped;
use crate::limits::{Field, Shape, shape_of, word_at};
use crate::odd_byte::column_behind;
use bstr::ByteSlice;
use std::alloc::AllocError;
use text_parts::numerals::is_digit_byte;

/// Says where a line differs for sure from the shape that its first word asks for.
pub(crate) fn push_bad_line(text: &mut String, line: &[u8]) -> Result<(), AllocError> {
    if let Some(before) = second_space(line) {
        return push_second_space(text, column_behind(before));
    }
    match shape_of(line) {
        Some(shape) => push_unlike(text, line, shape),
        None => push_unknown(text, word_at(line)),
    }
}

/// How many bytes stand before a space that has no word before it.
fn second_space(line: &[u8]) -> Option<usize> {
    let before = line.find(b"  ")?;
    Some(before.saturating_add(1))
}

fn push_second_space(text: &mut String, column: usize) -> Result<(), AllocError> {
    writeln!(text, "# column {column}: a second space")
}

fn push_unknown(text: &mut String, word: &[u8]) -> Result<(), AllocError> {
    let word = Escaped(word);
    writeln!(
        text,
        "# column 1: no line behind the first begins with `{word}`"
    )
}

/// Says how many words are wanted, or else which is of another sort.
fn push_unlike(text: &mut String, line: &[u8], shape: &Shape) -> Result<(), AllocError> {
    let given = line.iter().filter(|byte| **byte == b' ').count();
    let wanted = shape.fields.len();
    if given != wanted {
        return push_count(text, shape.word, wanted, given);
    }
    push_odd_word(text, line, shape)
}

fn push_count(
    text: &mut String,
    word: &[u8],
    wanted: usize,
    given: usize,
) -> Result<(), AllocError> {
    let word = Escaped(word);
    let noun = if given == 1 { "word" } else { "words" };
    let verb = if wanted == 1 { "has" } else { "have" };
    writeln!(
        text,
        "# {given} {noun} behind `{word}`: there {verb} to be {wanted}"
    )
}

/// Says which word is the first that is of another sort.
fn push_odd_word(text: &mut String, line: &[u8], shape: &Shape) -> Result<(), AllocError> {
    let mut before = shape.word.len().saturating_add(1);
    for field in shape.fields.iter().copied() {
        let word = word_at(line.get(before..).unwrap_or(&[]));
        if let Some(sort) = missed_sort(word, field) {
            return push_sort(text, column_behind(before), word, sort);
        }
        before = before.saturating_add(word.len()).saturating_add(1);
    }
    Ok(())
}

fn push_sort(text: &mut String, column: usize, word: &[u8], sort: &str) -> Result<(), AllocError> {
    let word = Escaped(word);
    writeln!(text, "# column {column}: `{word}` has to be {sort}")
}

/// What a word has to be, where it isn't that. Of a time only the first byte is looked at.
fn missed_sort(word: &[u8], field: Field) -> Option<&'static str> {
    match field {
        Field::Place => not_if(is_place(word), "run, wait or rest"),
        Field::Time => not_if(begins_with_digit(word), "a time"),
        Field::Number(limits) if limits.least < 0 => not_if(is_integer(word), "a whole number"),
        Field::Number(_) => not_if(are_digits(word), "digits"),
    }
}

fn begins_with_digit(word: &[u8]) -> bool {
    word.first().is_some_and(|byte| is_digit_byte(*byte))
}

/// What a word has to be, unless it is.
fn not_if(is_so: bool, sort: &'static str) -> Option<&'static str> {
    if is_so { None } else { Some(sort) }
}

fn is_place(word: &[u8]) -> bool {
    matches!(word, b"run" | b"wait" | b"rest")
}

/// Digits, perhaps behind a `-`.
fn is_integer(word: &[u8]) -> bool {
    match word {
        [b'-', digits @ ..] => are_digits(digits),
        digits => are_digits(digits),
    }
}

fn are_digits(word: &[u8]) -> bool {
    !word.is_empty() && word.iter().all(|byte| is_digit_byte(*byte))
}
