ghost use Rattle.std.specs.Prelude.{◌≡◌, false};

use crate::Sink;
use audit_input::Failed;
use std::io::Write;

/// A writer of std as a `Sink`: each write is one write of it. Its bytes are known where the writer's are.
#[derive(Drop)]
pub struct SinkOf<W> {
    writer: W,
    has_failed: bool,
}

impl<W: Write> SinkOf<W> {
    pub fn new(writer: W) -> SinkOf<W>
        ensures taken { ⟦<SinkOf<W> as Sink>⟧.taken result ≡ W.contents writer }
        ensures failed { ⟦<SinkOf<W> as Sink>⟧.has_failed result ≡ false }
    {
        SinkOf {
            writer,
            has_failed: false,
        }
    }
}

impl<W: Write> Sink for SinkOf<W> {
    ghost taken = { λ sink. W.contents sink.writer };

    ghost has_failed = { λ sink. sink.has_failed };

    fn write(&mut self, buf: &[u8]) -> Result<usize, Failed> {
        match self.writer.write(buf) {
            Ok(count) => {
                if count == 0 && !buf.is_empty() {
                    self.has_failed = true;
                }
                Ok(count)
            }
            Err(_) => {
                self.has_failed = true;
                Err(Failed)
            }
        }
    }
}
