//! The whole machine, cycle by cycle: two cores, the DMA engine, two PIO blocks, the peripherals with the device outside, SRAM,
//! the bus fabric, the register blocks and SIO.
//!
//! In a cycle each part begins by the state at the start and names its accesses; the fabric decides which of them are done;
//! every part steps; then what the done accesses do comes in the order of the masters, and last the writes to SRAM.
#![tactic(auto)]

mod access;
mod alone;
mod answers;
pub mod begun;
mod boot;
mod cycle;
pub mod deed;
pub mod laws;
pub mod load;
mod loading;
mod look;
pub mod machine;
mod onward;
mod part;
mod reads;
pub mod registers;
pub mod rest;
pub mod steps;
pub mod wanted;

pub use access::asked_of;
pub use cycle::fact_limit_is_bounded;
pub use load::PioLoad;
pub use machine::Machine;
pub use outer_lane::World;
pub use rest::Rest;
pub use steps::Steps;
