//! The reverse debugger: a session that stands at a cycle of a run and answers commands there, forward and backward; and the
//! lines of an input, which it answers one after another.
#![tactic(auto)]

mod advance;
mod command;
pub mod hear;
pub mod laws;
mod reader;
mod reply;
pub mod search;
pub mod session;
mod sight;
pub mod watch;
pub mod way;
mod words;

pub use session::Session;
