//! What a lane of the machine asks about the rest, what it wants of the bus, and how it steps by what it was given.
//!
//! The machine has six lanes: the two cores, the DMA engine, the two PIO blocks, and the peripherals. In each cycle a
//! lane begins, from the state at the start and the answers to its questions; it names what it wants; and it finishes
//! by what the bus gave it. The device that the caller attaches steps with the peripherals.
#![tactic(auto)]

pub mod alone;
pub mod device;
pub mod lane;
pub mod laws;
pub mod log;
pub mod marks;
pub mod pair;
pub mod replay;

pub use alone::{Around, run_lane_alone};
pub use device::{Device, NoDevice, Wires};
pub use lane::{Ask, Lane, Look, Turn, Want};
pub use log::{Log, LogLook};
pub use marks::{Mark, Marks};
pub use pair::Pair;
pub use replay::{Report, rewind};
