use itoa::{Buffer, Integer};

/// How many bytes a line of a companion has at most.
const WIDTH: usize = 80;

/// A line of a companion while it is written, which takes no memory.
#[derive(Clone, Copy)]
pub(crate) struct LineText {
    bytes: [u8; WIDTH],
    length: usize,
}

impl LineText {
    /// An empty line.
    pub(crate) fn new() -> LineText {
        LineText {
            bytes: [0; WIDTH],
            length: 0,
        }
    }

    /// The line begins anew, with this word.
    pub(crate) fn begin(&mut self, word: &str) {
        self.length = 0;
        self.push(word);
    }

    /// More of the line.
    pub(crate) fn push(&mut self, more: &str) {
        let more = more.as_bytes();
        if let Some(room) = self.bytes.get_mut(self.length..) {
            if more.len() <= room.len() {
                let (place, _) = room.split_at_mut(more.len());
                place.copy_from_slice(more);
            }
        }
        self.length = self.length.saturating_add(more.len());
    }

    fn push_byte(&mut self, byte: u8) {
        if let Some(place) = self.bytes.get_mut(self.length) {
            *place = byte;
        }
        self.length = self.length.saturating_add(1);
    }

    /// A number behind a space.
    pub(crate) fn push_number<I: Integer>(&mut self, value: I) {
        let mut digits = Buffer::new();
        self.push_byte(b' ');
        self.push(digits.format(value));
    }

    /// Ends the line, and gives it.
    pub(crate) fn end(&mut self) -> &[u8] {
        self.push_byte(b'\n');
        self.bytes.get(..self.length).unwrap_or(&[])
    }
}
