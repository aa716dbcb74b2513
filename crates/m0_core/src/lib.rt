//! A Cortex-M0+ core, a cycle at a time, with its exceptions and its private bus.
//!
//! In its first cycle an instruction is fetched and decoded, and its first beat begins; each further beat takes a cycle,
//! and one that makes an access lasts until the bus has done it. Registers and flags change at the end of the last beat.
//! The entry to an exception and the return from it have beats of the same kind.
#![tactic(auto)]

pub mod doing;
mod entry;
pub mod exceptions;
mod fetch;
mod finish;
mod kinds;
mod lane;
pub mod placed;
mod private;
pub mod processor;
mod quiet;
mod returns;

pub use doing::{Act, Doing, Work};
pub use placed::Placed;
pub use processor::Core;
