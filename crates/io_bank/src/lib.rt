//! The pads and their two register blocks: which part of the chip drives each pad, the levels of the last three cycles,
//! what the chip sees of them, and the interrupts of the pins. Everything is defined in `specs/` pin by pin; the body
//! treats all pins at once, by sets that it keeps beside the control words.
#![tactic(auto)]

pub mod bank;
pub mod events;
pub mod laws;
pub mod outputs;
pub mod registers;
pub mod routes;
mod sets;
mod words;

pub use bank::IoBank;
pub use outputs::{Outs, uart_outputs};
