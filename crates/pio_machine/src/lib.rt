//! One machine of a programmable input/output block, a cycle at a time (RP2040 Datasheet, 3.4 and 3.5): its instructions,
//! side-set and delay, autopush and autopull, its FIFOs and its clock divider. Everything is defined in `specs/` on the
//! machine's record, in which a FIFO is a list.
#![tactic(auto)]

mod attempt;
mod bits;
mod cycle;
mod ending;
mod fields;
pub mod fifo;
mod flags;
mod jump;
pub mod laws;
pub mod machine;
pub mod memory;
mod moves;
mod operation;
mod pins;
mod queue;
mod quiet;
pub mod settings;
mod shifting;

pub use cycle::tick;
pub use fifo::Fifo;
pub use machine::{Done, Machine1, Progress, Seen, Waiting};
pub use memory::Memory;
