//! The lines of a text that went by, for who quotes them.
use crate::checkpoint::Checkpoint;
use crate::line_finding::next_line_of;
use crate::{Feed, KeepingFeed};
use std::alloc::Global;
use std::fs::File;
use std::io;
use std::io::{BufReader, Seek, SeekFrom};
use std::rt::Files;

/// A text that went by, of which lines are read again: from what was kept of it, else from its file, which is opened
/// again.
#[derive(Drop)]
pub struct LinesAgain<'a, R: Files, F> {
    rt: &'a R,
    alloc: Global,
    name: &'a str,
    text: &'a KeepingFeed<F>,
    /// The file, where it was read last.
    open: Option<OpenText<R::File>>,
}

/// A file of which the front was read or passed over.
#[derive(Drop)]
struct OpenText<F> {
    reader: BufReader<F>,
    /// How many lines that front has.
    lines: u64,
}

impl<'a, R: Files, F: Feed> LinesAgain<'a, R, F> {
    /// Those of the text that went by in this feed, whose file has this name.
    pub fn new(
        rt: &'a R,
        alloc: Global,
        name: &'a str,
        text: &'a KeepingFeed<F>,
    ) -> LinesAgain<'a, R, F> {
        LinesAgain {
            rt,
            alloc,
            name,
            text,
            open: None,
        }
    }

    /// The line of this number, from 1, without its line feed, if the text has it. Lines that are asked for by
    /// rising number are found soonest.
    pub fn line(&mut self, number: u64) -> io::Result<Option<Vec<u8>>> {
        match self.text.kept_line(number) {
            Some(line) => line,
            None => self.line_of_file(number),
        }
    }

    fn line_of_file(&mut self, number: u64) -> io::Result<Option<Vec<u8>>> {
        let checkpoint = self.text.checkpoint_before(number);
        let mut open = match self.open.take() {
            Some(open) if checkpoint.lines <= open.lines && open.lines < number => open,
            _ => self.opened_at(checkpoint)?,
        };
        let line = next_line_of(
            self.alloc,
            &mut open.reader,
            number.saturating_sub(open.lines),
        )?;
        open.lines = number;
        self.open = Some(open);
        Ok(line)
    }

    /// The file, which is read from a checkpoint on.
    fn opened_at(&self, checkpoint: Checkpoint) -> io::Result<OpenText<R::File>> {
        let mut file = File::open(self.rt, self.name)?;
        file.seek(SeekFrom::Start(checkpoint.offset))?;
        Ok(OpenText {
            reader: BufReader::new(self.alloc, file)?,
            lines: checkpoint.lines,
        })
    }
}
