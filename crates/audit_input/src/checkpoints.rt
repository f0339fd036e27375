use crate::checkpoint::Checkpoint;
use std::alloc::Global;

/// How many bytes lie between two checkpoints, at least.
const STRIDE: u64 = 1 << 17;

/// After so many bytes it is seen whether a checkpoint is due.
const PART: usize = 1 << 16;

/// The line feeds of so many bytes are counted in one byte, so that many bytes are compared at once.
const STRETCH: usize = 1 << 7;

/// Checkpoints in a text that goes by in pieces, so that none of its lines is far from one.
#[derive(Drop)]
pub(crate) struct Checkpoints {
    /// Where the pieces end that have gone by.
    end: Checkpoint,
    /// From the first on, each at a place where a part of a piece ends.
    checkpoints: Vec<Checkpoint>,
}

impl Checkpoints {
    pub(crate) fn new(alloc: Global) -> Checkpoints {
        Checkpoints {
            end: Checkpoint::BEGINNING,
            checkpoints: Vec::new(alloc),
        }
    }

    /// Where the pieces end that have gone by.
    pub(crate) fn end(&self) -> Checkpoint {
        self.end
    }

    /// The next piece of the text goes by.
    pub(crate) fn pass(&mut self, piece: &[u8]) {
        for part in piece.chunks(PART) {
            self.pass_part(part);
        }
    }

    fn pass_part(&mut self, part: &[u8]) {
        self.end = Checkpoint {
            offset: self.end.offset.saturating_add(part.len() as u64),
            lines: self.end.lines.saturating_add(line_feeds_in(part)),
        };
        let last = *self.checkpoints.last().unwrap_or(&Checkpoint::BEGINNING);
        if self.end.offset.saturating_sub(last.offset) >= STRIDE {
            // Where there is no memory for a checkpoint, the search goes on from an earlier one.
            let _ = self.checkpoints.push(self.end);
        }
    }

    /// The last checkpoint before the line of this number, from 1; the beginning where there is none.
    pub(crate) fn before(&self, number: u64) -> Checkpoint {
        let above = self
            .checkpoints
            .partition_point(|checkpoint| checkpoint.is_before(number));
        match above.checked_sub(1) {
            Some(index) => *self
                .checkpoints
                .get(index)
                .unwrap_or(&Checkpoint::BEGINNING),
            None => Checkpoint::BEGINNING,
        }
    }
}

/// How many line feeds there are.
fn line_feeds_in(part: &[u8]) -> u64 {
    let mut count = 0u64;
    for stretch in part.chunks(STRETCH) {
        let mut few = 0u8;
        for byte in stretch {
            few = few.wrapping_add(u8::from(*byte == b'\n'));
        }
        count = count.saturating_add(u64::from(few));
    }
    count
}
