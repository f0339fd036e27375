//! The numbers of a companion's line, and their limits.

use crate::escaped::Escaped;
use crate::odd_byte::column_behind;
use bstr::ByteSlice;
use cfs_model::{GREATEST_LINE, GREATEST_PID, GREATEST_RUNTIME, GREATEST_SECONDS, MOST_PROCESSORS};
use std::alloc::AllocError;
use text_parts::numerals::number_at;

/// From where to where a number may be.
#[derive(Clone, Copy)]
pub(crate) struct Limits {
    pub name: &'static str,
    pub least: i64,
    pub most: i64,
}

/// What a word of a companion's line is.
#[derive(Clone, Copy)]
pub(crate) enum Field {
    /// Of a time the seconds have limits.
    Time,
    Place,
    Number(Limits),
}

impl Field {
    /// The limits of the number that the word begins with.
    fn limits(self) -> Option<Limits> {
        match self {
            Field::Time => Some(SECONDS),
            Field::Place => None,
            Field::Number(limits) => Some(limits),
        }
    }
}

/// A line that begins with a word, and what stands behind that.
#[derive(Clone, Copy)]
pub(crate) struct Shape {
    pub word: &'static [u8],
    pub fields: &'static [Field],
}

/// A number out of its limits, and how many bytes stand before it.
#[derive(Clone, Copy)]
struct Outside<'a> {
    before: usize,
    word: &'a [u8],
    limits: Limits,
}

const SECONDS: Limits = Limits {
    name: "the seconds",
    least: 0,
    most: GREATEST_SECONDS as i64,
};

const CPUS: Field = Field::Number(Limits {
    name: "cpus",
    least: 1,
    most: MOST_PROCESSORS as i64,
});

const CPU: Field = Field::Number(Limits {
    name: "CPU",
    least: 0,
    most: MOST_PROCESSORS as i64 - 1,
});

const PID: Field = Field::Number(Limits {
    name: "PID",
    least: 1,
    most: GREATEST_PID as i64,
});

const NICE: Field = Field::Number(Limits {
    name: "NICE",
    least: -20,
    most: 19,
});

const LINE: Field = Field::Number(Limits {
    name: "LINE",
    least: 1,
    most: GREATEST_LINE as i64,
});

/// Of an idle line, where 0 is the start.
const LINE_OR_START: Field = Field::Number(Limits {
    name: "LINE",
    least: 0,
    most: GREATEST_LINE as i64,
});

const VALUE: Field = Field::Number(Limits {
    name: "V",
    least: -GREATEST_RUNTIME,
    most: GREATEST_RUNTIME,
});

/// The lines that have numbers.
static SHAPES: [Shape; 9] = [
    Shape {
        word: b"cpus",
        fields: &[CPUS],
    },
    Shape {
        word: b"start",
        fields: &[Field::Time],
    },
    Shape {
        word: b"floor",
        fields: &[CPU, VALUE],
    },
    Shape {
        word: b"task",
        fields: &[PID, NICE, CPU, Field::Place, VALUE],
    },
    Shape {
        word: b"idle",
        fields: &[LINE_OR_START, PID],
    },
    Shape {
        word: b"at",
        fields: &[LINE, PID, VALUE],
    },
    Shape {
        word: b"pass",
        fields: &[LINE, PID, VALUE],
    },
    Shape {
        word: b"nice",
        fields: &[LINE, PID, NICE],
    },
    Shape {
        word: b"charge",
        fields: &[LINE, PID, VALUE],
    },
];

/// Says which number is the first out of its limits. Where none is by itself, it is a processor's beside their count.
pub(crate) fn push_outside_limits(text: &mut String, line: &[u8]) -> Result<(), AllocError> {
    match shape_of(line).and_then(|shape| first_outside(line, shape)) {
        Some(outside) => push_outside(text, outside),
        None => writeln!(text, "# its CPU has to be below cpus"),
    }
}

/// The shape of the lines that begin with a line's first word.
pub(crate) fn shape_of(line: &[u8]) -> Option<&'static Shape> {
    let word = word_at(line);
    SHAPES.iter().find(|shape| shape.word == word)
}

fn push_outside(text: &mut String, outside: Outside<'_>) -> Result<(), AllocError> {
    let column = column_behind(outside.before);
    let word = Escaped(outside.word);
    let Limits { name, least, most } = outside.limits;
    writeln!(
        text,
        "# column {column}: {name} is {word}, and may be {least} to {most}"
    )
}

/// The first number of a line that is out of its limits by itself.
fn first_outside<'a>(line: &'a [u8], shape: &Shape) -> Option<Outside<'a>> {
    let mut before = shape.word.len().saturating_add(1);
    for field in shape.fields.iter().copied() {
        let word = word_at(line.get(before..)?);
        if let Some(limits) = field.limits().filter(|limits| is_outside(word, *limits)) {
            return Some(Outside {
                before,
                word,
                limits,
            });
        }
        before = before.saturating_add(word.len()).saturating_add(1);
    }
    None
}

/// The bytes up to the first space.
pub(crate) fn word_at(text: &[u8]) -> &[u8] {
    match text.find_byte(b' ') {
        Some(length) => text.get(..length).unwrap_or(text),
        None => text,
    }
}

/// Whether a word is a number, and that is out of its limits.
fn is_outside(word: &[u8], limits: Limits) -> bool {
    match number_of(word) {
        Some(number) => number < i128::from(limits.least) || number > i128::from(limits.most),
        None => false,
    }
}

/// The number that a word begins with, with its sign.
fn number_of(word: &[u8]) -> Option<i128> {
    let (minus, digits) = match word {
        [b'-', digits @ ..] => (true, digits),
        digits => (false, digits),
    };
    let number = number_at(digits);
    if number.digits == 0 {
        return None;
    }
    let value = i128::from(number.value);
    Some(if minus { -value } else { value })
}
