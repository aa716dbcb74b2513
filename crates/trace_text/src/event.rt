//! What a run shows of a cycle.

/// An event of a cycle.
#[derive(Clone, Copy, Debug, PartialEq, Eq)]
pub enum Event {
    /// A UART sent a byte.
    Uart {
        /// The number of the cycle.
        cycle: u64,
        /// Which UART, 0 or 1.
        number: u8,
        /// The byte.
        byte: u8,
    },
    /// The level of a pin changed.
    Pin {
        /// The number of the cycle.
        cycle: u64,
        /// The number of the pin, 0 to 29.
        pin: u8,
        /// The level after the change, true where it is high.
        level: bool,
    },
}
