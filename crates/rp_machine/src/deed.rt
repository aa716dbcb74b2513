//! What is left to be done at the end of a cycle, once every part has stepped.

use rp_base::map::Block;

/// What the want of a master comes to, by the state at the start of the cycle.
#[derive(Clone, Copy)]
pub enum Deed {
    /// Nothing.
    Nothing,
    /// SEV: the event registers of both cores are set.
    Signal,
    /// A write to SRAM.
    Store {
        /// The index of the word, below 67,584.
        index: u32,
        /// The byte lanes that are written, lane k as bit k.
        lanes: u8,
        /// The value, on its lanes.
        value: u32,
    },
    /// An access to a word of a register block.
    Register {
        /// The block.
        block: Block,
        /// The byte offset of the word.
        offset: u16,
        /// The word that a plain write leaves there; `None` is a read.
        write: Option<u32>,
    },
    /// An access to a word of SIO, the single-cycle IO block.
    SingleCycle {
        /// The byte offset of the word.
        offset: u16,
        /// The word that is written; `None` is a read.
        write: Option<u32>,
    },
    /// An access to the device outside.
    Device {
        /// The address, with its low bits.
        address: u32,
        /// The word that is written; `None` is a read.
        write: Option<u32>,
    },
}
