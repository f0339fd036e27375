use thiserror::Error;

/// A read or a write failed. Why isn't told.
#[derive(Clone, Copy, Debug, PartialEq, Eq, Error)]
#[error("a read or a write failed")]
pub struct Failed;
