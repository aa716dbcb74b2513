//! The timer's registers by their offsets (RP2040 Datasheet, 4.6.5, List of Registers).

/// The high word of the time that a write sets.
pub const TIMEHW: u16 = 0x00;

/// The low word that the next write of TIMEHW sets.
pub const TIMELW: u16 = 0x04;

/// The high word that a read of TIMELR latched.
pub const TIMEHR: u16 = 0x08;

/// The low word of the time; a read latches the high one.
pub const TIMELR: u16 = 0x0c;

/// Alarm 0: a write arms it, as one of the next three arms its alarm.
pub const ALARM0: u16 = 0x10;

/// Alarm 1.
pub const ALARM1: u16 = 0x14;

/// Alarm 2.
pub const ALARM2: u16 = 0x18;

/// Alarm 3.
pub const ALARM3: u16 = 0x1c;

/// The alarms that are armed.
pub const ARMED: u16 = 0x20;

/// The high word of the time, without a latch.
pub const TIMERAWH: u16 = 0x24;

/// The low word of the time, without a latch.
pub const TIMERAWL: u16 = 0x28;

/// What pauses the timer for a debugger.
pub const DBGPAUSE: u16 = 0x2c;

/// The time stands still.
pub const PAUSE: u16 = 0x30;

/// The interrupts that alarms set.
pub const INTR: u16 = 0x34;

/// The interrupts that are enabled.
pub const INTE: u16 = 0x38;

/// The interrupts that are forced.
pub const INTF: u16 = 0x3c;

/// The interrupt lines.
pub const INTS: u16 = 0x40;
