//! The outside of the emulator as traits with a meaning: a shelf of files, a source and a sink of bytes, and all three in memory.
#![tactic(auto)]

pub mod gate;
pub mod mem_shelf;
pub mod mem_sink;
pub mod mem_source;
pub mod shelf;
pub mod sink;
pub mod source;
