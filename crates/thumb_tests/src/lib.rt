//! Tests of the assembler for Thumb sources: each form at its ends and one step beyond, words that another assembler gives too, and
//! each fault.
#![tactic(auto)]

#[cfg(test)]
mod fault_tests;
#[cfg(test)]
mod form_rows;
#[cfg(test)]
mod form_tests;
pub mod halves;
#[cfg(test)]
mod outcome;
#[cfg(test)]
mod word_tests;
