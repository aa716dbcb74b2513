//! The offsets of the registers (RP2040 Datasheet, 2.19.6.1, IO - User Bank, and 2.19.6.3, Pad Control - User Bank).
//! GPIOn_STATUS and GPIOn_CTRL are 8 * n above those of pin 0, and each interrupt register has four words.

/// STATUS of pin 0.
pub const GPIO0_STATUS: u16 = 0x000;

/// CTRL of pin 0.
pub const GPIO0_CTRL: u16 = 0x004;

/// Raw interrupts of pins 0 to 7.
pub const INTR0: u16 = 0x0f0;

/// Interrupt enable of core 0.
pub const PROC0_INTE0: u16 = 0x100;

/// Interrupt force of core 0.
pub const PROC0_INTF0: u16 = 0x110;

/// Interrupt status of core 0.
pub const PROC0_INTS0: u16 = 0x120;

/// Interrupt enable of core 1.
pub const PROC1_INTE0: u16 = 0x130;

/// Interrupt force of core 1.
pub const PROC1_INTF0: u16 = 0x140;

/// Interrupt status of core 1.
pub const PROC1_INTS0: u16 = 0x150;

/// The first offset after the registers of IO_BANK0. Those that wake from the dormant state are left out.
pub const IO_BANK0_END: u16 = 0x160;

/// Where the registers of PADS_BANK0 begin among the offsets of both blocks.
pub const PADS_BANK0: u16 = 0x1000;

/// VOLTAGE_SELECT of PADS_BANK0.
pub const VOLTAGE_SELECT: u16 = PADS_BANK0;

/// The pad of pin 0, GPIO0 of PADS_BANK0; the others are 4 * n above it.
pub const PAD_GPIO0: u16 = PADS_BANK0 + 0x04;

/// The pad of pin 29.
pub const PAD_GPIO29: u16 = PADS_BANK0 + 0x78;
