ghost use Rattle.std.specs.Prelude.{◌↔◌, ℕ, List, [], ◌++◌, OnOk};
ghost use Rattle.std.specs.Bool.{IsTrue, OnTrue};
ghost use Rattle.text_parts.specs.Lines.{lines_of};
ghost use Rattle.input_blocks.specs.Held.{Settles};

use cfs_model::Memory;

/// A reader of lines that come some at a time.
pub trait LineReader {
    /// Whether a reader comes from another by reading these lines behind those read before.
    ghost reads: { Self → Self → List (List ℕ) → Type 0 };

    /// Reads the lines of a text.
    fn read(&mut self, text: &[u8]) -> Result<(), Memory>
        ensures { OnOk result (reads self.old self.new (lines_of text.now)) };

    /// Which beginnings of a line a reader knows to settle it.
    ghost told: { List ℕ → Type 0 };

    /// Whether the beginning of a line settles what is read of the line.
    fn settles(&self, line: &[u8]) -> bool
        ensures settled { OnTrue result (Settles reads line.now) }
        ensures told { IsTrue result ↔ told line.now };

    /// Without a line all stays.
    ghost reads_none: { (reader : Self) → reads reader reader [] };

    /// Lines are read behind lines.
    ghost reads_on: { (old mid new : Self) (lines more : List (List ℕ)) → reads old mid lines → reads mid new more
        → reads old new (lines ++ more) };
}
