//! The numbers of the exceptions (ARMv6-M Architecture Reference Manual, B1.5.2, Exception number definition).

/// The non-maskable interrupt.
pub const NMI: u8 = 2;

/// A fault.
pub const HARDFAULT: u8 = 3;

/// The supervisor call.
pub const SVCALL: u8 = 11;

/// The pendable service call.
pub const PENDSV: u8 = 14;

/// The system timer.
pub const SYSTICK: u8 = 15;

/// Interrupt 0; interrupt n is n above it.
pub const INTERRUPT_0: u8 = 16;

/// How many exception numbers there are: 16 of the system and 32 interrupts.
pub const NUMBERS: u8 = 48;
