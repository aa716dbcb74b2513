//! What the whole emulator shares: instructions, bus requests and the causes of a stop, the bits of words, and a block of
//! registers as the bus and RESETS see it.
#![tactic(auto)]

pub mod access;
pub mod alias;
pub mod bits;
pub mod map;
pub mod op;
pub mod registers;
pub mod resets;
pub mod resettable;

pub use registers::Registers;
pub use resettable::{Reset, Resettable, unless_held};

/// The size of a bus access.
#[derive(Clone, Copy, PartialEq, Eq)]
pub enum Size {
    /// One byte.
    Byte,
    /// Two bytes.
    Half,
    /// Four bytes.
    Word,
}

/// A master of the bus fabric (RP2040 Datasheet, 2.1.1).
#[derive(Clone, Copy, PartialEq, Eq)]
pub enum Master {
    /// Processor core 0.
    Core0,
    /// Processor core 1.
    Core1,
    /// The DMA engine's read port.
    DmaRead,
    /// The DMA engine's write port.
    DmaWrite,
}

/// One access that a master names in a cycle.
#[derive(Clone, Copy, PartialEq, Eq)]
pub struct Request {
    /// The byte address, with its low bits.
    pub address: u32,
    /// How many bytes are read or written.
    pub size: Size,
    /// The value of a write; `None` is a read.
    pub write: Option<u32>,
}

/// Why a run stopped.
#[derive(Clone, Copy, PartialEq, Eq)]
pub enum Why {
    /// The cycle number is the limit.
    Limit,
    /// A core, by its number, fetched BKPT.
    Bkpt(u8),
    /// A core, by its number, found a fault at an execution priority of -1 or lower.
    Lockup(u8),
    /// A master fetched or accessed an address that no part of the machine covers.
    Outside(Master, u32),
}
