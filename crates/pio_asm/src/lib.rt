//! The assembler of the programmable input/output blocks (RP2040 Datasheet, 3.3): the programs of a
//! source, with their words, or the source's first fault.
#![tactic(auto)]

mod addresses;
mod building;
mod directive;
pub mod laws;
mod line;
pub mod listing;
mod modifiers;
mod names;
mod operand;
mod operation;
mod placing;
mod plan;
mod program;
mod symbols;
mod value;
mod word;

pub use addresses::place_program;
pub use pio_program::Program;
pub use program::assemble;
