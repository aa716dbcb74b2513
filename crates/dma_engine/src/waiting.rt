//! A write that waits.

use rp_base::Size;

/// The write of a transfer whose read is done.
#[derive(Clone, Copy, PartialEq, Eq)]
pub struct WaitingWrite {
    /// The channel of the transfer.
    pub channel: u8,
    /// The address of the write, rounded down to its size.
    pub address: u32,
    /// The size of the write.
    pub size: Size,
    /// The value as it will be written, in the low bits.
    pub value: u32,
}

impl Default for WaitingWrite {
    fn default() -> WaitingWrite {
        WaitingWrite {
            channel: 0,
            address: 0,
            size: Size::Byte,
            value: 0,
        }
    }
}
