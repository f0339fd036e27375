use crate::escaped::Escaped;
use cfs_model::Memory;
use std::alloc::{AllocError, Global};

/// The most bytes of a line that are shown.
const MOST_SHOWN: usize = 1000;

/// A line of a text, numbered from 1, without its line feed; none where the text ends before it. What isn't printable
/// is escaped. Of a very long line the beginning is shown.
pub fn quoted_line(alloc: Global, number: u64, line: Option<&[u8]>) -> Result<String, Memory> {
    let mut quote = String::new(alloc);
    match line {
        Some(line) => push_line(&mut quote, number, line)?,
        None => writeln!(quote, "# line {number}: the text ends before it")?,
    }
    Ok(quote)
}

/// As much of a line as is shown, and how long it is where that isn't all.
fn push_line(quote: &mut String, number: u64, line: &[u8]) -> Result<(), AllocError> {
    let length = line.len();
    match line.get(..MOST_SHOWN) {
        Some(front) if length > MOST_SHOWN => {
            let shown = Escaped(front);
            writeln!(quote, "# line {number}: {shown} .. ({length} bytes in all)")
        }
        _ => {
            let shown = Escaped(line);
            writeln!(quote, "# line {number}: {shown}")
        }
    }
}
