//! The board on which the workers of a window draw their tickets: three words that change in single atomic steps, and
//! two slots for each of six lanes. No call takes a lock.
//!
//! Workers draw numbers, each once, wait until their number is open, take the job of its lane, put the result, and are
//! done. The master opens six numbers at a time, and gathers their results once all six are done.
#![tactic(auto)]

mod answers;
mod calls;
mod collect;
mod hands;
mod kept;
pub mod laws;
mod opening;
mod rule;
mod slot;
mod steps;
mod view;

pub use answers::{Gather, See, Six};
pub use calls::Board;
pub use hands::{Master, Seat, Ticket};
pub use kept::Kept;
