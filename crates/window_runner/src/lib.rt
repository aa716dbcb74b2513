//! Runs of windows: the six lanes of each window are run by several seats at a board, in any order; and the events of a run, told
//! to a tape.
#![tactic(auto)]

pub mod alone;
mod coordinator;
pub mod cycles;
pub mod events;
pub mod laws;
pub mod piece;
mod sets;
pub mod windows;
mod worker;

pub use alone::{Ran, run_alone};
pub use cycles::run_cycles;
pub use piece::{Found, Piece};
pub use windows::{RunFault, run_beside, run_windows};
