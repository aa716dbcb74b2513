//! The bits of RESET by their blocks (RP2040 Datasheet, 2.14.3, List of Registers, RESET).

/// The DMA engine.
pub const DMA: u32 = 2;

/// The functions and interrupts of the pins.
pub const IO_BANK0: u32 = 5;

/// The pads.
pub const PADS_BANK0: u32 = 8;

/// PIO block 0.
pub const PIO0: u32 = 10;

/// PIO block 1.
pub const PIO1: u32 = 11;

/// The timer.
pub const TIMER: u32 = 21;

/// UART 0.
pub const UART0: u32 = 22;

/// UART 1.
pub const UART1: u32 = 23;
