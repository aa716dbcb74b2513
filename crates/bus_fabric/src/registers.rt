//! The registers of BUSCTRL by their offsets (RP2040 Datasheet, 2.1.5, List of Registers).

/// The priorities of the masters.
pub const BUS_PRIORITY: u16 = 0x00;

/// That the priorities of BUS_PRIORITY hold.
pub const BUS_PRIORITY_ACK: u16 = 0x04;
