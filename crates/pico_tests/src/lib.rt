//! Tests of the top call, from the words of a command line to the text that is written.
#![tactic(auto)]

#[cfg(test)]
mod asm_tests;
#[cfg(test)]
mod call;
#[cfg(test)]
mod case;
#[cfg(test)]
mod core_tests;
#[cfg(test)]
mod debug_tests;
#[cfg(test)]
mod failing_tests;
pub mod held_file;
#[cfg(test)]
mod machine_tests;
#[cfg(test)]
mod rows;
#[cfg(test)]
mod run_tests;
#[cfg(test)]
mod sample_files;
#[cfg(test)]
mod worker_tests;
