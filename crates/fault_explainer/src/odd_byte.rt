use crate::escaped::{Escaped, is_printable};
use std::alloc::AllocError;

/// Says which byte of a line is its first that isn't printable, and where.
pub(crate) fn push_odd_byte(text: &mut String, line: &[u8]) -> Result<(), AllocError> {
    let before = line.iter().take_while(|byte| is_printable(**byte)).count();
    match line.get(before..) {
        Some([b'\r', ..]) => push_carriage_return(text, column_behind(before)),
        Some([byte, ..]) => push_unprintable(text, column_behind(before), *byte),
        _ => Ok(()),
    }
}

/// The column behind so many bytes, from 1.
pub(crate) fn column_behind(bytes: usize) -> usize {
    bytes.saturating_add(1)
}

fn push_carriage_return(text: &mut String, column: usize) -> Result<(), AllocError> {
    writeln!(
        text,
        "# column {column}: a carriage return; tr -d '\\r' removes it"
    )
}

fn push_unprintable(text: &mut String, column: usize, byte: u8) -> Result<(), AllocError> {
    let bytes = [byte];
    let shown = Escaped(&bytes);
    writeln!(
        text,
        "# column {column}: the byte {shown}, which isn't printable"
    )
}
