//! The registers of the PWM block by their offsets (RP2040 Datasheet, 4.5.3, List of Registers).

/// From the registers of a slice to those of the next one.
pub const SLICE: u16 = 0x14;

/// Control and status of slice 0.
pub const CH0_CSR: u16 = 0x00;

/// The divider of slice 0.
pub const CH0_DIV: u16 = 0x04;

/// The counter of slice 0.
pub const CH0_CTR: u16 = 0x08;

/// What the counter of slice 0 is compared with.
pub const CH0_CC: u16 = 0x0c;

/// Where the counter of slice 0 wraps.
pub const CH0_TOP: u16 = 0x10;

/// The slices that are enabled.
pub const EN: u16 = 0xa0;

/// The interrupts that wraps set.
pub const INTR: u16 = 0xa4;

/// The interrupts that are enabled.
pub const INTE: u16 = 0xa8;

/// The interrupts that are forced.
pub const INTF: u16 = 0xac;

/// The interrupts that are shown.
pub const INTS: u16 = 0xb0;
