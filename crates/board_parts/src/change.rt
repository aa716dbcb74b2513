//! What a probe hears of.

/// A change of a pin's level.
#[derive(Clone, Copy, Debug, PartialEq, Eq)]
pub struct PinChange {
    /// The number of the cycle.
    pub cycle: u64,
    /// The number of the pin.
    pub pin: u8,
    /// The level after the change, true where it is high.
    pub level: bool,
}
