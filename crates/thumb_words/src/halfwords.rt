//! One or two halfwords.

/// The halfwords of an instruction.
#[derive(Clone, Copy, Debug, PartialEq, Eq)]
pub struct Code {
    /// The first halfword.
    pub first: u16,
    /// The second halfword of a 32-bit instruction.
    pub second: Option<u16>,
}
