ghost use Rattle.std.specs.Prelude.{◌≡◌, ◌==◌, [], false, not, length, OnOk};
ghost use Rattle.input_blocks.specs.Blocks.{IsPassed, filled};

use crate::LineReader;
use crate::begun_line::BegunLine;
use crate::block::Block;
use cfs_model::Memory;
use std::alloc::Global;

/// What was taken of an input and not passed on.
#[derive(Debug, Drop)]
pub struct Passing {
    pub(crate) begun: BegunLine,
    /// What follows of the input, where it was read ahead.
    pub(crate) ahead: Block,
}

impl Passing {
    /// Nothing was taken yet. It takes no memory.
    pub(crate) fn new(alloc: Global) -> Passing
        ensures none { filled result.ahead ≡ [] }
        ensures begun { result.begun.bytes.items ≡ [] }
        ensures unsettled { result.begun.settled ≡ false }
    {
        Passing {
            begun: BegunLine::new(alloc),
            ahead: Block::new(alloc),
        }
    }

    /// Whether something was read ahead.
    pub fn is_ahead(&self) -> bool
        ensures { result ≡ not (length (filled self.now.ahead) == 0) }
    {
        !self.ahead.is_empty()
    }

    /// Passes the lines on to the reader that end in what was read ahead.
    pub fn pass<L: LineReader>(&mut self, reader: &mut L) -> Result<(), Memory>
        ensures passed { OnOk result (IsPassed L.reads reader.old reader.new self.old self.new) }
        ensures none { OnOk result (filled self.new.ahead ≡ []) }
    {
        self.begun.pass(reader, self.ahead.filled())?;
        self.ahead.clear();
        Ok(())
    }
}
