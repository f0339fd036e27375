use std::alloc::Global;
use std::io;
use std::io::{BufRead, BufReader, Read};

/// The line of this number, from 1, without its line feed, if what is read has it.
pub(crate) fn line_of<R: Read + Drop>(
    alloc: Global,
    text: R,
    number: u64,
) -> io::Result<Option<Vec<u8>>> {
    next_line_of(alloc, &mut BufReader::new(alloc, text)?, number)
}

/// The same of what a reader still gives. The reader stands behind that line then.
pub(crate) fn next_line_of<R: BufRead>(
    alloc: Global,
    text: &mut R,
    number: u64,
) -> io::Result<Option<Vec<u8>>> {
    for _before in 1..number {
        if text.skip_until(b'\n')? == 0 {
            return Ok(None);
        }
    }
    let mut line = Vec::new(alloc);
    let count = text.read_until(b'\n', &mut line)?;
    if line.last() == Some(&b'\n') {
        line.pop();
    }
    Ok((count > 0).then_some(line))
}
