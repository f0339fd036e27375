//! The numbers behind the keys of an event's line.

use crate::bad_field::keys_of;
use crate::escaped::Escaped;
use crate::odd_byte::column_behind;
use bstr::ByteSlice;
use ftrace_line::{Line, LineFault, read_line};
use std::alloc::AllocError;
use text_parts::numerals::number_at;

/// How many bytes stand before the pid in a line's head.
const BEFORE_PID: usize = 17;

/// The numbers behind a key that aren't allowed, and why.
#[derive(Clone, Copy)]
struct Outlaw {
    key: &'static [u8],
    least: u64,
    most: u64,
    limit: &'static str,
}

/// A prio below that of every task of CFS.
const PRIO_BELOW: Outlaw = Outlaw {
    key: b"prio=",
    least: 0,
    most: 99,
    limit: "at least 100",
};

/// A prio above that of every task.
const PRIO_ABOVE: Outlaw = Outlaw {
    key: b"prio=",
    least: 140,
    most: u64::MAX,
    limit: "at most 139",
};

const PID_ABOVE: Outlaw = Outlaw {
    key: b"pid=",
    least: 4_194_305,
    most: u64::MAX,
    limit: "at most 4194304",
};

/// The processor of an event's text.
const CPU_ABOVE: Outlaw = Outlaw {
    key: b"_cpu=",
    least: 65_536,
    most: u64::MAX,
    limit: "at most 65535",
};

/// The processor of a head.
const HEAD_CPU_ABOVE: Outlaw = Outlaw {
    key: b"[",
    ..CPU_ABOVE
};

/// A key with its number, and how many bytes stand before it.
#[derive(Clone, Copy)]
struct Field<'a> {
    before: usize,
    text: &'a [u8],
}

/// Says which prio is below that of every task of CFS, where it is the only such one.
pub(crate) fn push_prio_below(text: &mut String, line: &[u8]) -> Result<(), AllocError> {
    push_only(text, line, PRIO_BELOW)
}

/// Says which prio is above that of every task, where it is the only such one.
pub(crate) fn push_prio_above(text: &mut String, line: &[u8]) -> Result<(), AllocError> {
    push_only(text, line, PRIO_ABOVE)
}

/// Says which number of a trace's line is above its limit.
pub(crate) fn push_above_limit(text: &mut String, line: &[u8]) -> Result<(), AllocError> {
    if read_line(line) == Err(LineFault::NumberRange) {
        return push_head_above(text, line);
    }
    push_only(text, line, PID_ABOVE)?;
    push_only(text, line, CPU_ABOVE)
}

/// Says which number of a head is above its limit: the processor in the first square brackets, or else the seconds.
fn push_head_above(text: &mut String, line: &[u8]) -> Result<(), AllocError> {
    match head_field(line).filter(|field| is_at(line, field.before, HEAD_CPU_ABOVE)) {
        Some(field) => push_field(text, field, HEAD_CPU_ABOVE.limit),
        None => writeln!(text, "# the seconds are above 4294967295"),
    }
}

/// The processor of a head, with the bracket before it.
fn head_field(line: &[u8]) -> Option<Field<'_>> {
    let behind = line.get(BEFORE_PID..)?.find(HEAD_CPU_ABOVE.key)?;
    let before = behind.saturating_add(BEFORE_PID);
    field_at(line, before, HEAD_CPU_ABOVE.key)
}

/// Says which number behind a key isn't allowed, where it is the only such one. A key that stands on the line more
/// often than the event has it may be a part of a name.
fn push_only(text: &mut String, line: &[u8], outlaw: Outlaw) -> Result<(), AllocError> {
    if count_of(line, outlaw.key) > fields_of(line, outlaw.key) {
        return Ok(());
    }
    let mut found = (0..line.len()).filter(|before| is_at(line, *before, outlaw));
    match (found.next(), found.next()) {
        (Some(before), None) => push_at(text, line, before, outlaw),
        _ => Ok(()),
    }
}

/// How often a key stands on a line.
fn count_of(line: &[u8], key: &[u8]) -> usize {
    (0..line.len())
        .filter(|before| behind_key(line, *before, key).is_some())
        .count()
}

/// How many fields with this key the event on a line has.
fn fields_of(line: &[u8], key: &[u8]) -> usize {
    match read_line(line) {
        Ok(Line::Sched(sched)) => keys_of(sched.which)
            .iter()
            .filter(|field| field.ends_with(key))
            .count(),
        _ => 0,
    }
}

fn push_at(
    text: &mut String,
    line: &[u8],
    before: usize,
    outlaw: Outlaw,
) -> Result<(), AllocError> {
    match field_at(line, before, outlaw.key) {
        Some(field) => push_field(text, field, outlaw.limit),
        None => Ok(()),
    }
}

fn push_field(text: &mut String, field: Field<'_>, limit: &str) -> Result<(), AllocError> {
    let column = column_behind(field.before);
    let shown = Escaped(field.text);
    writeln!(text, "# column {column}: {shown}: {limit}")
}

/// Whether a number that isn't allowed stands behind its key there.
fn is_at(line: &[u8], before: usize, outlaw: Outlaw) -> bool {
    match value_at(line, before, outlaw.key) {
        Some(value) => outlaw.least <= value && value <= outlaw.most,
        None => false,
    }
}

/// The number behind a key, where they stand there.
fn value_at(line: &[u8], before: usize, key: &[u8]) -> Option<u64> {
    let number = number_at(behind_key(line, before, key)?);
    if number.digits > 0 {
        Some(number.value)
    } else {
        None
    }
}

/// A key and the digits behind it, where they stand there.
fn field_at<'a>(line: &'a [u8], before: usize, key: &[u8]) -> Option<Field<'a>> {
    let digits = number_at(behind_key(line, before, key)?).digits;
    let text = line.get(before..)?.get(..key.len().saturating_add(digits))?;
    Some(Field { before, text })
}

/// What follows a key, where it stands there.
fn behind_key<'a>(line: &'a [u8], before: usize, key: &[u8]) -> Option<&'a [u8]> {
    let text = line.get(before..)?;
    if text.starts_with(key) {
        text.get(key.len()..)
    } else {
        None
    }
}
