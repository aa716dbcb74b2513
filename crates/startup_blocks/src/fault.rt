//! Why an image cannot be linked.

ghost use Rattle.std.specs.Prelude.{◌≡◌};
ghost use Rattle.startup_blocks.specs.declared.fault.StartFault.TheVariants.{Memory};

use std::alloc::{AllocError, AllocFailed};
use thiserror::Error;

/// Why an image cannot be linked with the table of routines.
#[derive(Clone, Copy, Debug, PartialEq, Eq, Error)]
pub enum StartFault {
    /// The image loads a byte of the table: the least such address.
    #[error("the image loads {0:08x}, where the table of routines stands")]
    Taken(u32),
    /// There was no memory left.
    #[error("out of memory")]
    Memory,
}

impl From<AllocError> for StartFault {
    ghost from_gives = { λ _ fault. fault ≡ Memory };

    fn from(_error: AllocError) -> StartFault {
        StartFault::Memory
    }
}

impl<T: Drop> From<AllocFailed<T>> for StartFault {
    ghost from_gives = { λ _ fault. fault ≡ Memory };

    fn from(_error: AllocFailed<T>) -> StartFault {
        StartFault::Memory
    }
}
