//! Running out of memory, and counts in 32 bits.
ghost use Rattle.std.specs.Prelude.{◌≡◌, IfOk};

use std::alloc::{AllocError, AllocFailed};
use thiserror::Error;

/// Memory ran out. This is the only error that may come without a cause, and it is never merged
/// with another error.
#[derive(Clone, Copy, Debug, PartialEq, Eq, Error)]
#[error("out of memory")]
pub struct NoMemory;

impl From<AllocError> for NoMemory {
    fn from(_failure: AllocError) -> NoMemory {
        NoMemory
    }
}

impl<T: Drop> From<AllocFailed<T>> for NoMemory {
    fn from(_failure: AllocFailed<T>) -> NoMemory {
        NoMemory
    }
}

/// A count in 32 bits. A larger count is reported as running out of memory, since no memory holds
/// that many items.
pub fn narrowed(count: usize) -> Result<u32, NoMemory>
    ensures { IfOk result (λ number. number ≡ count) }
{
    u32::try_from(count).map_err(|_| NoMemory)
}
