//! The DMA engine: twelve channels that copy words, halfwords or bytes, one read and one write at a time, with rings,
//! chains, interrupts and pacing by FIFOs and timers (RP2040 Datasheet, 2.5 "DMA").
//!
//! In a cycle the engine asks for the counts by which channels are paced, names the read of the channel that is chosen and
//! the write that has waited longest, and finishes by what the bus gave it. Everything is defined in `specs/` on a record
//! of channels, waiting writes and timers.
#![tactic(auto)]

mod asks;
mod awaited;
pub mod begun;
pub mod channel;
mod choice;
pub mod dma;
mod ends;
mod engine;
mod finish;
mod lane;
pub mod laws;
pub mod line;
pub mod pace;
mod quiet;
pub mod registers;
pub mod timer;
mod transfer;
pub mod waiting;
mod words;

pub use begun::{Access, BegunTransfer};
pub use dma::Dma;
