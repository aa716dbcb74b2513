//! A program of the programmable input/output blocks (RP2040 Datasheet, 3.3), as the assembler makes it and a machine loads it, and
//! the names that sources give.
#![tactic(auto)]

mod name;
mod program;

pub use name::Name;
pub use program::Program;
