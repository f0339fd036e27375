use crate::odd_byte::column_behind;
use bstr::ByteSlice;
use std::alloc::AllocError;
use text_parts::numerals::is_digit_byte;

/// How many bytes stand in front of the `-` before a pid.
const BEFORE_DASH: usize = 16;

/// Says where a line that has no head differs from one for sure: at the end of the name, or by a time without a point.
pub(crate) fn push_bad_head(text: &mut String, line: &[u8]) -> Result<(), AllocError> {
    match line.get(BEFORE_DASH) {
        Some(b'-') => push_clock(text, line),
        Some(_) => writeln!(
            text,
            "# column 17: no -, which stands behind the 16 columns of the name"
        ),
        None => writeln!(
            text,
            "# the line ends before column 17, where a - stands behind the name"
        ),
    }
}

/// Says that the time has no point, where all of it is digits.
fn push_clock(text: &mut String, line: &[u8]) -> Result<(), AllocError> {
    match pointless_time(line) {
        Some(before) => push_pointless(text, column_behind(before)),
        None => Ok(()),
    }
}

fn push_pointless(text: &mut String, column: usize) -> Result<(), AllocError> {
    writeln!(
        text,
        "# column {column}: a time without a point, of a clock that counts: echo local > trace_clock sets another"
    )
}

/// How many bytes stand before a time that is digits alone, behind the processor and before the first colon.
fn pointless_time(line: &[u8]) -> Option<usize> {
    let end = line.find(b": ")?;
    let (head, _) = line.split_at_checked(end)?;
    let digits = head
        .iter()
        .rev()
        .take_while(|byte| is_digit_byte(**byte))
        .count();
    let before = end.checked_sub(digits)?;
    let (front, _) = head.split_at_checked(before)?;
    if digits > 0 && front.ends_with(b" ") && front.contains(&b']') {
        Some(before)
    } else {
        None
    }
}
