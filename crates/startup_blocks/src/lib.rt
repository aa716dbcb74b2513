//! What start-up code needs before `main`: the registers of the clocks, of the oscillator, of the PLLs and of the tick, as a device
//! that is ready at once; and a table of routines that an image can be linked with.
#![tactic(auto)]

mod device;
pub mod fault;
pub mod laws;
mod linking;
mod words;

pub use device::Startup;
pub use fault::StartFault;
pub use linking::link;
