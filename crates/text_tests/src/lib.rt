//! Tests of texts: scripts, PIO sources and their listings, words of a command line, files, lines of a trace, and what hears the pins.
#![tactic(auto)]

#[cfg(test)]
mod board_parts_tests;
#[cfg(test)]
mod command_words_tests;
#[cfg(test)]
mod damaged_tests;
#[cfg(test)]
mod form_tests;
pub mod pieces;
#[cfg(test)]
mod pin_script_tests;
#[cfg(test)]
mod program_tests;
#[cfg(test)]
mod rp_ports_tests;
#[cfg(test)]
mod source_tests;
#[cfg(test)]
mod trace_text_tests;
