use crate::checkpoint::Checkpoint;
use std::alloc::{AllocError, Global};

/// What one read gave, and where that begins.
#[derive(Drop)]
pub(crate) struct KeptRead {
    pub begins: Checkpoint,
    pub bytes: Vec<u8>,
}

impl KeptRead {
    pub(crate) fn empty(alloc: Global) -> KeptRead {
        KeptRead {
            begins: Checkpoint::BEGINNING,
            bytes: Vec::new(alloc),
        }
    }

    /// Takes other bytes in place of its own.
    pub(crate) fn take(&mut self, begins: Checkpoint, bytes: &[u8]) -> Result<(), AllocError> {
        self.begins = begins;
        self.bytes.clear();
        self.bytes.extend_from_slice(bytes)
    }

    /// Takes what another one has.
    pub(crate) fn copy_from(&mut self, other: &KeptRead) -> Result<(), AllocError> {
        self.take(other.begins, other.bytes.as_slice())
    }
}
