//! What a block learns in a cycle.

/// The levels of the pins, pin 0 in bit 0.
#[derive(Clone, Copy)]
pub struct Inputs {
    /// Those before the synchronisers.
    pub now: u32,
    /// Those behind them.
    pub second: u32,
}
