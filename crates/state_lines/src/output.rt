use crate::NotWritten;
use crate::json_text::JsonText;
use std::alloc::Global;
use std::io::Write;

/// So many bytes are kept before they are written.
const FULL: usize = 1 << 16;

/// A text on its way to a writer.
#[derive(Drop)]
pub(crate) struct Output<W> {
    pub text: JsonText,
    writer: W,
}

impl<W: Write + Drop> Output<W> {
    pub(crate) fn new(alloc: Global, writer: W) -> Output<W> {
        Output {
            text: JsonText::new(alloc),
            writer,
        }
    }

    /// Writes what there is where it is much.
    pub(crate) fn pass(&mut self) -> Result<(), NotWritten> {
        if self.text.len() < FULL {
            return Ok(());
        }
        self.flush()
    }

    /// Writes what there is.
    pub(crate) fn flush(&mut self) -> Result<(), NotWritten> {
        match self.writer.write_all(self.text.as_bytes()) {
            Ok(()) => {
                self.text.clear();
                Ok(())
            }
            Err(_) => Err(NotWritten::Write),
        }
    }
}
