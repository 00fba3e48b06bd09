use thiserror::Error;

/// A call on a source or a sink that failed: it moved no byte.
#[derive(Clone, Copy, Debug, PartialEq, Eq, Error)]
#[error("a read or a write failed")]
pub struct Failed;
