//! An assembled program, as the assembler makes it and a machine loads it.

use crate::name::Name;
use arrayvec::ArrayVec;
use pio_words::SideConfig;

/// An assembled program.
#[derive(Drop)]
pub struct Program {
    /// Its name.
    pub name: Name,
    /// Its 1 to 32 words.
    pub words: ArrayVec<u16, 32>,
    /// The address of its first word, 0 to 31, if the source says one.
    pub origin: Option<u8>,
    /// The instruction that follows the one at `wrap`.
    pub target: u8,
    /// The instruction after which the program goes on at `target`.
    pub wrap: u8,
    /// Its side-set configuration.
    pub side: SideConfig,
}
