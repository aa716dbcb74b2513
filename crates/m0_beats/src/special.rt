//! The special registers of MRS and MSR, by their number SYSm.

ghost use Rattle.std.specs.Prelude.{◌≡◌};
ghost use Rattle.m0_beats.specs.Special.{special_of, with_special};

use crate::registers::{Regs, one};

impl Regs {
    /// Reads a special register: 0 to 3 the flags, with IPSR for 1 and 3; 5 and 7 IPSR; 8 MSP; 9 PSP; 16 PRIMASK; 20
    /// CONTROL. Others read 0 (ARMv6-M Architecture Reference Manual, B5.1.1).
    pub fn special(&self, number: u8) -> u32
        ensures { result ≡ special_of self.now number }
    {
        match number {
            0 | 2 => self.flags_word(),
            1 | 3 => self.flags_word() + self.ipsr_word(),
            5 | 7 => self.ipsr_word(),
            8 => self.msp,
            9 => self.psp,
            16 => one(self.primask),
            20 => one(self.spsel) * 2,
            _ => 0,
        }
    }

    /// Writes a special register. IPSR and numbers without a register ignore it, and SPSEL is written in Thread mode
    /// alone.
    pub fn set_special(&mut self, number: u8, value: u32)
        ensures { self.new ≡ with_special self.old number value }
    {
        match number {
            0..=3 => self.set_flags_word(value),
            8 => self.msp = value & !3,
            9 => self.psp = value & !3,
            16 => self.primask = value & 1 == 1,
            20 => {
                if self.ipsr == 0 {
                    self.spsel = (value >> 1) & 1 == 1;
                }
            }
            _ => {}
        }
    }
}
