use audit_input::{Feed, KeepingFeed, LinesAgain};
use cfs_model::Memory;
use std::alloc::Global;
use std::io;
use std::io::ErrorKind;
use std::rt::Files;
use task_names::TraceText;

/// A text that went by, of which lines are read again.
#[derive(Drop)]
pub(crate) struct TextAgain<'a, R: Files, F> {
    lines: LinesAgain<'a, R, F>,
}

impl<'a, R: Files, F: Feed> TextAgain<'a, R, F> {
    /// The text that went by in this feed, whose file has this name.
    pub(crate) fn new(
        rt: &'a R,
        alloc: Global,
        name: &'a str,
        text: &'a KeepingFeed<F>,
    ) -> TextAgain<'a, R, F> {
        TextAgain {
            lines: LinesAgain::new(rt, alloc, name, text),
        }
    }

    /// The line of this number, from 1, without its line feed, if the text has it.
    pub(crate) fn line_at(&mut self, number: u64) -> io::Result<Option<Vec<u8>>> {
        self.lines.line(number)
    }
}

impl<R: Files, F: Feed> TraceText for TextAgain<'_, R, F> {
    fn line(&mut self, number: u32) -> Result<Option<Vec<u8>>, Memory> {
        match self.line_at(u64::from(number)) {
            Ok(line) => Ok(line),
            Err(error) if error.kind() == ErrorKind::OutOfMemory => Err(Memory),
            Err(_) => Ok(None),
        }
    }
}
