//! A block of four PIO machines with its registers, its interrupts and its pins (RP2040 Datasheet, chapter 3). Everything is
//! defined in `specs/` on the block's record, in which the machines are a list.
#![tactic(auto)]

pub mod block;
pub mod inputs;
mod kept;
pub mod lane;
pub mod laws;
mod machine;
mod machines;
mod queues;
mod quiet;
pub mod registers;
mod state;
mod words;

pub use block::PioBlock;
pub use inputs::Inputs;
