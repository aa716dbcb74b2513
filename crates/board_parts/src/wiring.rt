//! Which part is attached to which pins.

/// A part, by its index among the parts that are handed in, and the pins that it is attached to.
#[derive(Debug, PartialEq, Eq, Drop)]
pub struct Wiring {
    /// The index of the part, from 0.
    pub index: u64,
    /// The numbers of the pins, in the part's own order.
    pub pins: Vec<u8>,
}
