//! Which probe is aimed at which pin.

/// A probe, by its index among the probes that are handed in, and the pin that it is aimed at.
#[derive(Clone, Copy, Debug, PartialEq, Eq)]
pub struct Target {
    /// The index of the probe, from 0.
    pub index: u64,
    /// The number of the pin.
    pub pin: u8,
}
