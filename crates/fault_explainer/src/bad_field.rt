//! What a look at the text of an event shows that has no reading: a field that isn't there, or a name that is too long.

use crate::escaped::{Escaped, is_printable};
use crate::odd_byte::column_behind;
use bstr::ByteSlice;
use ftrace_line::{Line, Which, read_line};
use std::alloc::AllocError;
use text_parts::numerals::is_digit_byte;

/// The most bytes that a name has.
const NAME_MAX: usize = 15;

/// The keys of a switch, in their order.
static SWITCH_KEYS: [&[u8]; 7] = [
    b"prev_comm=",
    b" prev_pid=",
    b" prev_prio=",
    b" prev_state=",
    b" ==> next_comm=",
    b" next_pid=",
    b" next_prio=",
];

/// The keys of a wakeup.
static WAKEUP_KEYS: [&[u8]; 4] = [b"comm=", b" pid=", b" prio=", b" target_cpu="];

/// The keys of a migration.
static MIGRATION_KEYS: [&[u8]; 5] = [b"comm=", b" pid=", b" prio=", b" orig_cpu=", b" dest_cpu="];

/// The keys of an event.
pub(crate) fn keys_of(which: Which) -> &'static [&'static [u8]] {
    match which {
        Which::Switch => &SWITCH_KEYS,
        Which::Wakeup | Which::WakeupNew => &WAKEUP_KEYS,
        Which::MigrateTask => &MIGRATION_KEYS,
    }
}

/// Says which key stands nowhere on an event's line; else which name has too many bytes, or where no number is. Where a
/// key stands more than once it may be a part of a name, and nothing more is said.
pub(crate) fn push_bad_field(text: &mut String, line: &[u8]) -> Result<(), AllocError> {
    let Ok(Line::Sched(sched)) = read_line(line) else {
        return Ok(());
    };
    let keys = keys_of(sched.which);
    match keys.iter().find(|key| sched.rest.find(**key).is_none()) {
        Some(key) => push_missing_key(text, *key),
        None if keys.iter().all(|key| stands_once(line, *key)) => {
            push_long_names(text, line, sched.rest, keys)?;
            push_odd_number(text, line, keys)
        }
        None => Ok(()),
    }
}

/// Says behind which key no number stands, or that more stands behind the last one.
fn push_odd_number(text: &mut String, line: &[u8], keys: &[&[u8]]) -> Result<(), AllocError> {
    for key in keys.iter().copied() {
        if !key.ends_with(b"comm=") && !key.ends_with(b"state=") && !has_number(line, key) {
            return push_no_number(text, line, key);
        }
    }
    match keys.last() {
        Some(key) => push_behind(text, line, *key),
        None => Ok(()),
    }
}

/// Whether a key stands on a line just once.
fn stands_once(line: &[u8], key: &[u8]) -> bool {
    line.find(key) == line.rfind(key)
}

/// Whether a number stands behind a key.
fn has_number(line: &[u8], key: &[u8]) -> bool {
    match behind(line, key) {
        Some([b'-', digit, ..]) => key.ends_with(b"prio=") && is_digit_byte(*digit),
        Some([digit, ..]) => is_digit_byte(*digit),
        _ => false,
    }
}

/// What stands behind a key.
fn behind<'a>(line: &'a [u8], key: &[u8]) -> Option<&'a [u8]> {
    let place = line.find(key)?;
    line.get(place..)?.get(key.len()..)
}

fn push_no_number(text: &mut String, line: &[u8], key: &[u8]) -> Result<(), AllocError> {
    let before = line.find(key).unwrap_or(0).saturating_add(key.len());
    let column = column_behind(before);
    let key = Escaped(key);
    writeln!(text, "# column {column}: no number behind `{key}`")
}

/// Says that more stands behind the number of the last key.
fn push_behind(text: &mut String, line: &[u8], key: &[u8]) -> Result<(), AllocError> {
    let Some(rest) = behind(line, key) else {
        return Ok(());
    };
    let number = rest.iter().take_while(|byte| is_part(**byte)).count();
    match rest.get(number..) {
        Some([byte, ..]) if is_printable(*byte) => {
            let left = rest.len().saturating_sub(number);
            push_left(text, column_behind(line.len().saturating_sub(left)), left)
        }
        _ => Ok(()),
    }
}

/// A byte of a number.
fn is_part(byte: u8) -> bool {
    byte == b'-' || is_digit_byte(byte)
}

fn push_left(text: &mut String, column: usize, left: usize) -> Result<(), AllocError> {
    writeln!(
        text,
        "# column {column}: the event ends before it; bytes left: {left}"
    )
}

fn push_missing_key(text: &mut String, key: &[u8]) -> Result<(), AllocError> {
    let key = Escaped(key);
    writeln!(text, "# the line has no `{key}`")
}

/// Says which names have too many bytes: no key stands near enough behind them.
fn push_long_names(
    text: &mut String,
    line: &[u8],
    rest: &[u8],
    keys: &[&[u8]],
) -> Result<(), AllocError> {
    for pair in keys.windows(2) {
        if let [key, next] = pair {
            if key.ends_with(b"comm=") {
                push_long_name(text, line, rest, *key, *next)?;
            }
        }
    }
    Ok(())
}

/// Says that a name has too many bytes, where the key behind it stands too far off.
fn push_long_name(
    text: &mut String,
    line: &[u8],
    rest: &[u8],
    key: &[u8],
    next: &[u8],
) -> Result<(), AllocError> {
    match long_name(rest, key, next) {
        Some(name) => {
            let before = line.find(name).unwrap_or(0);
            push_too_long(text, column_behind(before), name)
        }
        None => Ok(()),
    }
}

/// A name of more than the most bytes, up to the key behind it.
fn long_name<'a>(rest: &'a [u8], key: &[u8], next: &[u8]) -> Option<&'a [u8]> {
    let place = rest.find(key)?;
    let name = rest.get(place..)?.get(key.len()..)?;
    let length = name.find(next)?;
    name.get(..length).filter(|name| name.len() > NAME_MAX)
}

fn push_too_long(text: &mut String, column: usize, name: &[u8]) -> Result<(), AllocError> {
    let length = name.len();
    let name = Escaped(name);
    writeln!(
        text,
        "# column {column}: the name {name} has {length} bytes: at most {NAME_MAX}"
    )
}
