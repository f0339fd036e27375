//! A report that is written, of which the front is kept.
ghost use Rattle.std.specs.Prelude.{◌≡◌};

use audit_input::Failed;
use audit_report::{Sink, Status};

/// So many bytes of a report are kept.
const FRONT: usize = 128;

/// How a report begins: what its first write took of it.
#[derive(Clone, Copy)]
pub struct Front {
    bytes: [u8; FRONT],
    count: usize,
}

impl Front {
    fn new() -> Front {
        Front {
            bytes: [0; FRONT],
            count: 0,
        }
    }

    pub fn as_slice(&self) -> &[u8] {
        self.bytes.get(..self.count).unwrap_or(&[])
    }

    /// Keeps the first of these bytes, if nothing was written before them.
    fn note(&mut self, bytes: &[u8]) {
        if self.count == 0 {
            for (place, byte) in self.bytes.iter_mut().zip(bytes) {
                *place = *byte;
            }
            self.count = bytes.len().min(FRONT);
        }
    }
}

/// What came of a request.
#[derive(Clone, Copy)]
pub struct Answer {
    pub status: Status,
    /// How the report begins.
    pub front: Front,
}

/// An end that takes bytes, and keeps the first of them.
#[derive(Drop)]
pub struct FrontOf<S> {
    sink: S,
    front: Front,
}

impl<S: Sink> FrontOf<S> {
    pub fn new(sink: S) -> FrontOf<S>
        ensures { ⟦<FrontOf<S> as Sink>⟧.has_failed result ≡ S.has_failed sink }
    {
        FrontOf {
            sink,
            front: Front::new(),
        }
    }

    /// The answer of this status.
    pub fn answer(&self, status: Status) -> Answer {
        Answer {
            status,
            front: self.front,
        }
    }
}

impl<S: Sink> Sink for FrontOf<S> {
    ghost taken = { λ end. S.taken end.sink };

    ghost has_failed = { λ end. S.has_failed end.sink };

    fn write(&mut self, buf: &[u8]) -> Result<usize, Failed> {
        let count = self.sink.write(buf)?;
        self.front.note(&buf[..count]);
        Ok(count)
    }
}
