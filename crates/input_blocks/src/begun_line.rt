ghost use Rattle.std.specs.Prelude.{◌≡◌, ◌↔◌, ◌⊎◌, ◌+◌, ◌<◌, ◌≤◌, ◌++◌, ◌∷◌, ℕ, List, [], true, false, OnOk, length};
ghost use Rattle.std.specs.Bool.{IsTrue};
ghost use Rattle.std.specs.List.{list_any};
ghost use Rattle.text_parts.specs.Lines.{is_line_feed, lines_of};
ghost use Rattle.input_blocks.specs.Held.{IsHeld, PassesOn};

use crate::LineReader;
use cfs_model::Memory;
use std::alloc::Global;
use text_parts::lines::{lines_after_whole, next_line, whole_lines};

/// What is held of a line whose end hasn't come yet.
#[derive(Debug, Drop)]
pub(crate) struct BegunLine {
    pub bytes: Vec<u8>,
    /// Whether these settle what is read of the line. What then comes of it isn't held.
    pub settled: bool,
}

impl BegunLine {
    /// No line has begun. It takes no memory.
    pub fn new(alloc: Global) -> BegunLine
        ensures none { result.bytes.items ≡ [] }
        ensures unsettled { result.settled ≡ false }
    {
        BegunLine {
            bytes: Vec::new(alloc),
            settled: false,
        }
    }

    /// Passes the lines on that end among more bytes, and holds the beginning of the line behind them.
    pub fn pass<L: LineReader>(&mut self, reader: &mut L, bytes: &[u8]) -> Result<(), Memory>
        ensures passed { OnOk result ((line : List ℕ) → IsHeld L.reads self.old line
            → PassesOn L.reads reader.old reader.new (line ++ bytes.now) self.new) }
        // Of a settled line nothing more is held.
        ensures let_go { OnOk result (self.old.settled ≡ true → (self.new.bytes.items ≡ self.old.bytes.items)
            ⊎ (length self.new.bytes.items < length bytes.now)) }
    {
        lines_after_whole();
        let width = next_line(bytes).0.len();
        if width == bytes.len() {
            return self.hold(reader, bytes);
        }
        let (end, rest) = bytes.split_at(width + 1);
        self.end(reader, end)?;
        let (whole, begun) = rest.split_at(whole_lines(rest));
        reader.read(whole)?;
        self.hold(reader, begun)
    }

    /// Passes the last line on, if one has begun: the input has ended.
    pub fn pass_last<L: LineReader>(&self, reader: &mut L) -> Result<(), Memory>
        ensures { OnOk result ((line : List ℕ) → IsHeld L.reads self.now line
            → L.reads reader.old reader.new (lines_of line)) }
    {
        reader.read(&self.bytes)
    }

    /// Passes the line on, which ends with these bytes. No line has begun behind it.
    fn end<L: LineReader>(&mut self, reader: &mut L, end: &[u8]) -> Result<(), Memory>
        requires { (piece : List ℕ) × (list_any is_line_feed piece ≡ false) × (end.now ≡ piece ++ 10 ∷ []) }
        ensures read { OnOk result ((line : List ℕ) → IsHeld L.reads self.old line
            → L.reads reader.old reader.new (lines_of (line ++ end.now))) }
        ensures none { OnOk result (self.new.bytes.items ≡ []) }
        ensures unsettled { OnOk result (self.new.settled ≡ false) }
    {
        if !self.settled {
            self.bytes.extend_from_slice(end)?;
        }
        reader.read(&self.bytes)?;
        self.bytes.clear();
        self.settled = false;
        Ok(())
    }

    /// Holds more of the line, unless it is settled.
    fn hold<L: LineReader>(&mut self, reader: &L, more: &[u8]) -> Result<(), Memory>
        requires { list_any is_line_feed more.now ≡ false }
        ensures held { OnOk result ((line : List ℕ) → IsHeld L.reads self.old line
            → IsHeld L.reads self.new (line ++ more.now)) }
        ensures told { OnOk result (self.old.settled ≡ false → IsTrue self.new.settled ↔ L.told self.new.bytes.items) }
        // Of a settled line nothing more is held.
        ensures let_go { OnOk result (self.old.settled ≡ true → self.new.bytes.items ≡ self.old.bytes.items) }
        ensures within { OnOk result (length self.new.bytes.items ≤ length self.old.bytes.items + length more.now) }
    {
        if !self.settled {
            self.bytes.extend_from_slice(more)?;
            self.settled = reader.settles(&self.bytes);
        }
        Ok(())
    }
}
