//! How a core runs alone over SRAM, from instruction to instruction: what the proof of a program in machine instructions needs.
#![tactic(auto)]

pub mod laws;
