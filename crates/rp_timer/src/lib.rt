//! The timer of the RP2040: a count of microseconds with four alarms. What each call does is defined in `specs/` on a time
//! that is one number and on sets of alarms.
#![tactic(auto)]

pub mod laws;
mod quiet;
pub mod registers;
pub mod timer;
mod words;

pub use timer::Timer;
