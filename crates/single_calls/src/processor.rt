use cfs_model::{Knobs, Memory};
use queue_replay::{Page, Replay};
use sched_record::{Record, Stream};
use std::alloc::Global;

/// What one processor has after each stage; nothing where memory ran out.
#[derive(Drop)]
pub struct Processor {
    stream: Option<Stream>,
    page: Option<Page>,
}

impl Processor {
    pub fn new() -> Processor {
        Processor {
            stream: None,
            page: None,
        }
    }

    /// Deals the stream of a processor of the record.
    pub fn deal(&mut self, record: &Record, cpu: usize) {
        if let Ok(cpu) = u32::try_from(cpu)
            && cpu < record.cpus()
        {
            self.stream = record.deal(cpu).ok();
        }
    }

    /// Makes the whole page of the stream that was dealt.
    pub fn replay(&mut self, alloc: Global) {
        if let Some(stream) = self.stream.take() {
            self.page = replayed(alloc, stream).ok();
        }
    }
}

/// The whole page of a stream.
fn replayed(alloc: Global, stream: Stream) -> Result<Page, Memory> {
    let mut replay = Replay::new(alloc, stream, Knobs::standard()).map_err(|(_, memory)| memory)?;
    let _state = replay.go_on(u64::MAX)?;
    Ok(replay.page())
}
