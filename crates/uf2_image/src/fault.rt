//! Why a file is no image.

ghost use Rattle.std.specs.Prelude.{◌≡◌};
ghost use Rattle.uf2_image.specs.declared.fault.ImageFault.TheVariants.{Memory};

use std::alloc::{AllocError, AllocFailed};
use thiserror::Error;

/// The first fault of a UF2 file. Blocks are counted from 0 in the order of the file, and blocks that are skipped
/// count too.
#[derive(Clone, Copy, Debug, PartialEq, Eq, Error)]
pub enum ImageFault {
    /// The file has no bytes.
    #[error("the file is empty")]
    Empty,
    /// The file's length in bytes is no multiple of 512.
    #[error("the file has {0} bytes, which is no multiple of 512")]
    Ragged(u64),
    /// A magic word of a block differs.
    #[error("block {0} has a wrong magic word")]
    Magic(u32),
    /// A block's payload size is 0 or above 476.
    #[error("block {0} has a payload of {1} bytes")]
    Payload(u32, u32),
    /// A block's number of blocks is 0 or not that of the first kept block.
    #[error("block {0} gives another number of blocks")]
    Count(u32),
    /// A block's number is not below the number of blocks.
    #[error("block {0} has a number that is too large")]
    Number(u32),
    /// A block has the number of an earlier kept block.
    #[error("block {0} has the number of an earlier block")]
    Repeat(u32),
    /// A block, with its target address, has a byte in 10000000 to 13FFFFFF.
    #[error("block {0} lies in flash, at {1:08x}")]
    Flash(u32, u32),
    /// A block, with its target address, has a byte outside 20000000 to 20041FFF.
    #[error("block {0} lies outside SRAM, at {1:08x}")]
    Address(u32, u32),
    /// A block has a byte at an address that is loaded already.
    #[error("block {0} loads a byte that is loaded already")]
    Overlap(u32),
    /// No kept block has this number, the least such number.
    #[error("no block has the number {0}")]
    Missing(u32),
    /// No block is kept.
    #[error("no block is for the RP2040")]
    Nothing,
    /// There was no memory left.
    #[error("out of memory")]
    Memory,
}

impl From<AllocError> for ImageFault {
    ghost from_gives = { λ _ fault. fault ≡ Memory };

    fn from(_error: AllocError) -> ImageFault {
        ImageFault::Memory
    }
}

impl<T: Drop> From<AllocFailed<T>> for ImageFault {
    ghost from_gives = { λ _ fault. fault ≡ Memory };

    fn from(_error: AllocFailed<T>) -> ImageFault {
        ImageFault::Memory
    }
}
