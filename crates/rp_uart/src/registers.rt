//! The registers by their offsets (DDI 0183, 3.2, Summary of registers).

/// UARTDR, the data and their errors.
pub const DR: u16 = 0x00;

/// UARTRSR, the errors of what was read last; a write clears them (UARTECR).
pub const RSR: u16 = 0x04;

/// UARTFR, the flags.
pub const FR: u16 = 0x18;

/// UARTIBRD, the integer part of the divisor.
pub const IBRD: u16 = 0x24;

/// UARTFBRD, the fractional part of the divisor.
pub const FBRD: u16 = 0x28;

/// UARTLCR_H, the form of a frame.
pub const LCR_H: u16 = 0x2c;

/// UARTCR, what is enabled.
pub const CR: u16 = 0x30;

/// UARTIFLS, the trigger levels of the FIFOs.
pub const IFLS: u16 = 0x34;

/// UARTIMSC, the interrupts that are not masked.
pub const IMSC: u16 = 0x38;

/// UARTRIS, the interrupts before the mask.
pub const RIS: u16 = 0x3c;

/// UARTMIS, the interrupts after the mask.
pub const MIS: u16 = 0x40;

/// UARTICR, which clears interrupts.
pub const ICR: u16 = 0x44;

/// UARTDMACR, what the DMA engine is told.
pub const DMACR: u16 = 0x48;
