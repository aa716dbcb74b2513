//! The text of a run: the lines of the events, of a stop and of the registers, and the writer that puts each line into a sink.
#![tactic(auto)]

pub mod event;
pub mod line;
pub mod tape;
pub mod writer;
