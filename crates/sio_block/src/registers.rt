//! The registers of the block by their offsets from D0000000 (RP2040 Datasheet, 2.3.1.7, List of Registers).

/// The number of the core that reads it.
pub const CPUID: u16 = 0x000;

/// The levels at the pins.
pub const GPIO_IN: u16 = 0x004;

/// The levels that the pins are driven to, one bit a pin.
pub const GPIO_OUT: u16 = 0x010;

/// Sets bits of GPIO_OUT.
pub const GPIO_OUT_SET: u16 = 0x014;

/// Clears bits of GPIO_OUT.
pub const GPIO_OUT_CLR: u16 = 0x018;

/// Turns bits of GPIO_OUT.
pub const GPIO_OUT_XOR: u16 = 0x01c;

/// Which pins are driven.
pub const GPIO_OE: u16 = 0x020;

/// Sets bits of GPIO_OE.
pub const GPIO_OE_SET: u16 = 0x024;

/// Clears bits of GPIO_OE.
pub const GPIO_OE_CLR: u16 = 0x028;

/// Turns bits of GPIO_OE.
pub const GPIO_OE_XOR: u16 = 0x02c;

/// The state of the mailboxes: VLD 0, RDY 1, WOF 2, ROE 3.
pub const FIFO_ST: u16 = 0x050;

/// Writes a word into the other core's mailbox.
pub const FIFO_WR: u16 = 0x054;

/// Reads a word of the core's own mailbox.
pub const FIFO_RD: u16 = 0x058;

/// The spinlocks that are taken, one bit a lock.
pub const SPINLOCK_ST: u16 = 0x05c;

/// The dividend as an unsigned number.
pub const DIV_UDIVIDEND: u16 = 0x060;

/// The divisor as an unsigned number.
pub const DIV_UDIVISOR: u16 = 0x064;

/// The dividend as a signed number.
pub const DIV_SDIVIDEND: u16 = 0x068;

/// The divisor as a signed number.
pub const DIV_SDIVISOR: u16 = 0x06c;

/// The quotient.
pub const DIV_QUOTIENT: u16 = 0x070;

/// The remainder.
pub const DIV_REMAINDER: u16 = 0x074;

/// The state of the divider: READY 0, DIRTY 1.
pub const DIV_CSR: u16 = 0x078;

/// The first of the 32 spinlocks, four bytes each.
pub const SPINLOCK0: u16 = 0x100;

/// The last spinlock.
pub const SPINLOCK31: u16 = 0x17c;
