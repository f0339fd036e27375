use crate::shapes::near_front;
use bstr::ByteSlice;
use text_parts::numerals::numeral_at;
use text_parts::pieces::after_byte;

/// What stands before the two numbers of a trace's header.
const ENTRIES: &[u8] = b"# entries-in-buffer/entries-written: ";

/// Whether the header of a trace says that more was written than the buffer kept: events are lost.
pub fn is_overwritten(front: &[u8]) -> bool {
    match entries(front) {
        Some((kept, written)) => kept != written,
        None => false,
    }
}

/// How many entries the buffer kept, and how many were written. A number that the front ends with may go on.
fn entries(front: &[u8]) -> Option<(u64, u64)> {
    let near = near_front(front);
    let place = near.find(ENTRIES)?;
    let text = near.get(place..)?.get(ENTRIES.len()..)?;
    let (kept, rest) = numeral_at(text)?;
    let (written, rest) = numeral_at(after_byte(rest, b'/')?)?;
    if rest.is_empty() {
        None
    } else {
        Some((kept, written))
    }
}
