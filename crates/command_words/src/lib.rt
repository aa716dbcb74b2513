//! The words of a command line, what they ask for, and what is refused with its line and status.
#![tactic(auto)]

pub mod line;
mod lists;
mod options;
mod reading;
pub mod refusal;
mod rows;
mod words;

pub use reading::{DisWords, GenWords, PioEntry, Reading, RunWords, WordsFault};
pub use words::read_words;
