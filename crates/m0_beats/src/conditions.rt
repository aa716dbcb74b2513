//! When a conditional branch is taken, and which values begin an exception return.

ghost use Rattle.std.specs.Prelude.{◌≡◌};
ghost use Rattle.m0_beats.specs.Conditions.{even_condition, condition_holds, is_exception_return};

use crate::registers::Regs;

impl Regs {
    /// The condition of that number, 0 (EQ) to 13 (LE), holds (ARMv6-M Architecture Reference Manual, A6.3).
    pub fn condition_holds(&self, condition: u8) -> bool
        ensures { result ≡ condition_holds condition self.now }
    {
        let holds = self.even_condition(condition / 2);
        if condition % 2 == 1 { !holds } else { holds }
    }

    /// The condition of twice that number: EQ, CS, MI, VS, HI, GE, GT.
    fn even_condition(&self, half: u8) -> bool
        ensures { result ≡ even_condition half self.now }
    {
        match half {
            0 => self.z,
            1 => self.c,
            2 => self.n,
            3 => self.v,
            4 => self.c && !self.z,
            5 => self.n == self.v,
            _ => self.n == self.v && !self.z,
        }
    }
}

/// In Handler mode a branch to `value` by BX or POP begins an exception return: its top four bits are set (ARMv6-M
/// Architecture Reference Manual, B1.5.8).
pub fn is_exception_return(ipsr: u8, value: u32) -> bool
    ensures { result ≡ is_exception_return ipsr value }
{
    ipsr != 0 && value >> 28 == 15
}
