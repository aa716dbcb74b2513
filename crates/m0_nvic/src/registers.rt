//! The offsets of the registers on the private bus after E000E000 (ARMv6-M Architecture Reference Manual, B3.2, System
//! Control Block, B3.3, The system timer, SysTick, and B3.4, Nested Vectored Interrupt Controller).

/// SysTick Control and Status.
pub const SYST_CSR: u16 = 0x010;

/// SysTick Reload Value.
pub const SYST_RVR: u16 = 0x014;

/// SysTick Current Value.
pub const SYST_CVR: u16 = 0x018;

/// SysTick Calibration Value.
pub const SYST_CALIB: u16 = 0x01c;

/// Interrupt Set-Enable, the first of the NVIC's registers.
pub const NVIC_ISER: u16 = 0x100;

/// Interrupt Clear-Enable.
pub const NVIC_ICER: u16 = 0x180;

/// Interrupt Set-Pending.
pub const NVIC_ISPR: u16 = 0x200;

/// Interrupt Clear-Pending.
pub const NVIC_ICPR: u16 = 0x280;

/// Interrupt Priority of interrupts 0 to 3; the others are 4 * n above it.
pub const NVIC_IPR0: u16 = 0x400;

/// Interrupt Priority of interrupts 28 to 31.
pub const NVIC_IPR7: u16 = 0x41c;

/// CPUID Base, the first of the System Control Block's registers.
pub const CPUID: u16 = 0xd00;

/// Interrupt Control and State.
pub const ICSR: u16 = 0xd04;

/// Vector Table Offset.
pub const VTOR: u16 = 0xd08;

/// Application Interrupt and Reset Control.
pub const AIRCR: u16 = 0xd0c;

/// System Control.
pub const SCR: u16 = 0xd10;

/// Configuration and Control.
pub const CCR: u16 = 0xd14;

/// System Handler Priority 2: SVCall.
pub const SHPR2: u16 = 0xd1c;

/// System Handler Priority 3: PendSV and SysTick.
pub const SHPR3: u16 = 0xd20;
