//! The peripherals as one lane of the machine: the timer, both UARTs, the pads, and the device that the caller attaches.
//!
//! In a cycle the lane sees the outputs of all parts as they were at the start, and the levels that a script gives in this
//! cycle. What a cycle, an access and a reset do is defined in `specs/` on the states of the parts.
#![tactic(auto)]

pub mod behind;
pub mod blocks;
mod device;
pub mod drivers;
mod lane;
pub mod outer;
mod outside;
mod quiet;
mod step;
mod words;
pub mod world;

pub use outer::Outer;
pub use world::{SeenOutputs, World};
