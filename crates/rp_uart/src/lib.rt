//! A PL011 UART of the RP2040: its sender and its receiver with their FIFOs, its interrupts, and its registers. Everything is
//! defined in `specs/` on lists of bytes and of bits.
#![tactic(auto)]

pub mod control;
pub mod frame;
mod interrupts;
pub mod laws;
mod quiet;
pub mod receiver;
pub mod registers;
pub mod sender;
pub mod uart;
mod words;

pub use uart::Uart;
