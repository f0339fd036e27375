ghost use Rattle.std.specs.Prelude.{◌≡◌, IfOk};
ghost use Rattle.std.specs.List.{flat_map};
ghost use Rattle.text_parts.specs.Lines.{lines_of};

use crate::lines::{lines_after_whole, whole_lines};
use std::alloc::{AllocError, Global};

/// About how many pieces a text is cut into: more than threads, since some run slower, and few to put together.
const PIECES: usize = 8;

/// The fewest bytes of a piece. A shorter one is read in less time than a thread takes to start.
const LEAST_PIECE: usize = 1 << 16;

/// A text cut at line ends, into pieces that several threads may read.
pub fn cut_at_lines(alloc: Global, text: &[u8]) -> Result<Vec<&[u8]>, AllocError>
    // The lines of the pieces, one piece after another, are those of the text.
    ensures { IfOk result (λ pieces. lines_of text.now ≡ flat_map (λ piece. lines_of piece.now) pieces.items) }
{
    lines_after_whole();
    let size = (text.len() / PIECES).max(LEAST_PIECE);
    let mut pieces = Vec::new(alloc);
    let mut rest = text;
    while rest.len() > size {
        let whole = whole_lines(&rest[..size]);
        if whole == 0 {
            break;
        }
        let (piece, after) = rest.split_at(whole);
        pieces.push(piece)?;
        rest = after;
    }
    pieces.push(rest)?;
    Ok(pieces)
}
