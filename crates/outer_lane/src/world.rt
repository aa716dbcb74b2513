//! What a run is given beside its image, and what the peripherals see of the other parts.

use lane_look::Device;
use pin_script::Script;

/// What no cycle of a run changes.
#[derive(Drop)]
pub struct World<'a, X: Device> {
    /// The levels that drive pins from outside.
    pub script: &'a Script,
    /// The device at the pads and at the addresses that no block covers.
    pub device: &'a X,
    /// The cycle at which the machine stops.
    pub limit: u64,
}

/// What the peripherals have begun in a cycle: they have seen these outputs. A pair has the levels by pin, and then the
/// enables.
#[derive(Clone, Copy)]
pub struct SeenOutputs {
    /// The number of the cycle.
    pub cycle: u64,
    /// The outputs of PIO block 0, or zeros where no pin has function 6.
    pub pio0: [u32; 2],
    /// The outputs of PIO block 1, or zeros where no pin has function 7.
    pub pio1: [u32; 2],
}
