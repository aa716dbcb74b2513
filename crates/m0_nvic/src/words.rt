//! The words of the private bus that show the exceptions, by their offsets after E000E000.

ghost use Rattle.std.specs.Prelude.{◌≡◌, ◌^◌, ◌*◌, ◌/◌, ◌<◌, ◌≤◌, ◌+◌, ◌-◌, ◌%◌, ⊤, Some, None};
ghost use Rattle.rp_base.specs.Rows.{Each, is_at, word_at, effect_at};
ghost use Rattle.rp_base.specs.Word.{bit_number, byte_of};
ghost use Rattle.m0_nvic.specs.Words.{csr_of, timer_rows, interrupt_rows, four_priorities, with_four, priority_rows, icsr_of, pended_if, cleared_if, icsr_written, control_rows, word_of, is_word, asks_reset, is_allowed, after_access, effect_of};

use crate::numbers::{INTERRUPT_0, NMI, PENDSV, SVCALL, SYSTICK};
use crate::registers::{
    AIRCR, CCR, CPUID, ICSR, NVIC_ICER, NVIC_ICPR, NVIC_IPR0, NVIC_IPR7, NVIC_ISER, NVIC_ISPR, SCR,
    SHPR2, SHPR3, SYST_CALIB, SYST_CSR, SYST_CVR, SYST_RVR, VTOR,
};
use crate::systick::SysTick;
use crate::{Nvic, bit, interrupts, is_member, of_interrupts};

impl Nvic {
    /// The word at an offset of the private bus, where `ipsr` is the number of the exception in progress. None exactly
    /// where there is no such word.
    #[tactic(auto, using(crate::proofs::Rows::timer_word, crate::proofs::Rows::interrupt_word, crate::proofs::Rows::priority_word, crate::proofs::Rows::control_word))]
    pub fn read(&self, offset: u16, ipsr: u8) -> Option<u32>
        ensures { result ≡ word_of offset ipsr self.now }
    {
        if offset < NVIC_ISER {
            self.timer_word(offset)
        } else if offset < NVIC_IPR0 {
            self.interrupt_word(offset)
        } else if offset < CPUID {
            self.priority_word(offset)
        } else {
            self.control_word(offset, ipsr)
        }
    }

    /// A read, or a write of this word, is allowed: there is such a word, and it is no request of a system reset.
    #[tactic(auto, using(crate::proofs::Rows::there))]
    pub fn allows(&self, offset: u16, write: Option<u32>) -> bool
        ensures { result ≡ is_allowed offset write }
    {
        self.read(offset, 0).is_some() && !asks_reset(offset, write)
    }

    /// Does what a read, or a write of this word, does to the exceptions. False, and nothing is changed, where it is not
    /// allowed.
    #[tactic(auto, using(crate::proofs::Rows::reads))]
    pub fn effect(&mut self, offset: u16, write: Option<u32>) -> bool
        ensures after { self.new ≡ effect_of offset write self.old }
        ensures allowed { result ≡ is_allowed offset write }
    {
        if !self.allows(offset, write) {
            return false;
        }
        match write {
            Some(word) => self.write(offset, word),
            None if offset == SYST_CSR => self.systick.counted = false,
            None => {}
        }
        true
    }

    /// A write of a word.
    #[tactic(auto, using(crate::proofs::Rows::timer_write, crate::proofs::Rows::interrupt_write, crate::proofs::Rows::priority_write, crate::proofs::Rows::control_write))]
    fn write(&mut self, offset: u16, word: u32)
        ensures { self.new ≡ after_access offset (Some word) self.old }
    {
        if offset < NVIC_ISER {
            self.write_timer(offset, word);
        } else if offset < NVIC_IPR0 {
            self.write_interrupts(offset, word);
        } else if offset < CPUID {
            self.write_priorities(offset, word);
        } else {
            self.write_control(offset, word);
        }
    }

    /// CSR, RVR, CVR or CALIB of SysTick.
    fn timer_word(&self, offset: u16) -> Option<u32>
        ensures { result ≡ word_at (timer_rows {V = ⊤}) tt offset self.now }
    {
        match offset {
            SYST_CSR => Some(self.systick.csr()),
            SYST_RVR => Some(self.systick.reload),
            SYST_CVR => Some(self.systick.current),
            SYST_CALIB => Some(0),
            _ => None,
        }
    }

    /// A write of CSR, RVR or CVR of SysTick.
    fn write_timer(&mut self, offset: u16, word: u32)
        ensures { self.new ≡ effect_at (timer_rows {V = ⊤}) offset (Some word) self.old }
    {
        match offset {
            SYST_CSR => {
                self.systick.enable = word & 1 == 1;
                self.systick.interrupt = (word >> 1) & 1 == 1;
                self.systick.core_clock = (word >> 2) & 1 == 1;
            }
            SYST_RVR => self.systick.reload = word & 0xff_ffff,
            SYST_CVR => {
                self.systick.current = 0;
                self.systick.counted = false;
            }
            _ => {}
        }
    }

    /// ISER, ICER, ISPR or ICPR.
    fn interrupt_word(&self, offset: u16) -> Option<u32>
        ensures { result ≡ word_at (interrupt_rows {V = ⊤}) tt offset self.now }
    {
        match offset {
            NVIC_ISER | NVIC_ICER => Some(interrupts(self.enabled)),
            NVIC_ISPR | NVIC_ICPR => Some(interrupts(self.pending)),
            _ => None,
        }
    }

    /// Sets or clears the enabled or the pending interrupts.
    fn write_interrupts(&mut self, offset: u16, word: u32)
        ensures { self.new ≡ effect_at (interrupt_rows {V = ⊤}) offset (Some word) self.old }
    {
        let set = of_interrupts(word);
        match offset {
            NVIC_ISER => self.enabled |= set,
            NVIC_ICER => self.enabled &= !set,
            NVIC_ISPR => self.add_pending(set),
            NVIC_ICPR => self.pending &= !set,
            _ => {}
        }
    }

    /// IPR0 to IPR7.
    fn priority_word(&self, offset: u16) -> Option<u32>
        ensures { result ≡ word_at (priority_rows {V = ⊤}) tt offset self.now }
    {
        if is_priority_offset(offset) {
            Some(four_priorities(&self.priorities, first_of(offset)))
        } else {
            None
        }
    }

    /// Sets the priorities of four interrupts.
    fn write_priorities(&mut self, offset: u16, word: u32)
        ensures { self.new ≡ effect_at (priority_rows {V = ⊤}) offset (Some word) self.old }
    {
        if is_priority_offset(offset) {
            set_four(&mut self.priorities, first_of(offset), word);
        }
    }

    /// The words of the system control block.
    fn control_word(&self, offset: u16, ipsr: u8) -> Option<u32>
        ensures { result ≡ word_at control_rows ipsr offset self.now }
    {
        match offset {
            CPUID => Some(0x410c_c601),
            ICSR => Some(self.icsr(ipsr)),
            VTOR => Some(self.vtor),
            AIRCR => Some(0xfa05_0000),
            SCR => Some(self.scr),
            CCR => Some(0x208),
            SHPR2 => Some(u32::from(self.priorities[SVCALL as usize]) * 0x100_0000),
            SHPR3 => {
                Some(
                    u32::from(self.priorities[SYSTICK as usize]) * 0x100_0000
                        + u32::from(self.priorities[PENDSV as usize]) * 0x1_0000,
                )
            }
            _ => None,
        }
    }

    /// ICSR.
    fn icsr(&self, ipsr: u8) -> u32
        ensures { result ≡ icsr_of self.now ipsr }
    {
        one(is_member(self.pending, NMI)) * 0x8000_0000
            + one(is_member(self.pending, PENDSV)) * 0x1000_0000
            + one(is_member(self.pending, SYSTICK)) * 0x400_0000
            + one(interrupts(self.pending) != 0) * 0x40_0000
            + u32::from(self.best().unwrap_or(0)) * 0x1000
            + u32::from(ipsr)
    }

    /// A write to the system control block.
    fn write_control(&mut self, offset: u16, word: u32)
        ensures { self.new ≡ effect_at control_rows offset (Some word) self.old }
    {
        match offset {
            ICSR => self.write_icsr(word),
            VTOR => self.vtor = word & !0xff,
            SCR => self.scr = word & 0x16,
            SHPR2 => self.priorities[SVCALL as usize] = level(word, 3),
            SHPR3 => {
                self.priorities[SYSTICK as usize] = level(word, 3);
                self.priorities[PENDSV as usize] = level(word, 2);
            }
            _ => {}
        }
    }

    /// A write to ICSR: NMI, PendSV and SysTick become pending, then PendSV and SysTick are cleared.
    fn write_icsr(&mut self, word: u32)
        ensures { self.new ≡ icsr_written word self.old }
    {
        self.pend_if((word >> 31) & 1 == 1, NMI);
        self.pend_if((word >> 28) & 1 == 1, PENDSV);
        self.pend_if((word >> 26) & 1 == 1, SYSTICK);
        self.clear_if((word >> 27) & 1 == 1, PENDSV);
        self.clear_if((word >> 25) & 1 == 1, SYSTICK);
    }

    fn pend_if(&mut self, asked: bool, number: u8)
        ensures { self.new ≡ pended_if asked number self.old }
    {
        if asked {
            self.pend(number);
        }
    }

    fn clear_if(&mut self, asked: bool, number: u8)
        requires { number < 48 }
        ensures { self.new ≡ cleared_if asked number self.old }
    {
        if asked {
            self.pending &= !bit(number);
        }
    }
}

impl SysTick {
    /// CSR.
    fn csr(&self) -> u32
        ensures { result ≡ csr_of self.now }
    {
        one(self.enable)
            + one(self.interrupt) * 2
            + one(self.core_clock) * 4
            + one(self.counted) * 0x1_0000
    }
}

/// The offset of one of IPR0 to IPR7.
fn is_priority_offset(offset: u16) -> bool
    ensures { result ≡ is_at (Each 0x400 8 4) offset }
{
    NVIC_IPR0 <= offset && offset <= NVIC_IPR7 && offset % 4 == 0
}

/// The number of the exception whose priority is the lowest byte of one of IPR0 to IPR7.
fn first_of(offset: u16) -> usize
    requires low { 0x400 ≤ offset }
    requires high { offset ≤ 0x41c }
    ensures value { result ≡ 16 + 4 * ((offset - 0x400) / 4) }
    ensures bound { result ≤ 44 }
{
    INTERRUPT_0 as usize + 4 * ((offset - NVIC_IPR0) / 4) as usize
}

/// The priorities of four exceptions from a first one on, the first in the lowest byte.
fn four_priorities(priorities: &[u8; 48], first: usize) -> u32
    requires { first ≤ 44 }
    ensures { result ≡ four_priorities priorities.now first }
{
    u32::from(priorities[first])
        + u32::from(priorities[first + 1]) * 0x100
        + u32::from(priorities[first + 2]) * 0x1_0000
        + u32::from(priorities[first + 3]) * 0x100_0000
}

/// Sets the priorities of four exceptions from a first one on, the first by the lowest byte.
fn set_four(priorities: &mut [u8; 48], first: usize, word: u32)
    requires { first ≤ 44 }
    ensures { priorities.new ≡ with_four first word priorities.old }
{
    priorities[first] = level(word, 0);
    priorities[first + 1] = level(word, 1);
    priorities[first + 2] = level(word, 2);
    priorities[first + 3] = level(word, 3);
}

/// The priority that byte `k` of a word stands for: its two high bits.
fn level(word: u32, k: u32) -> u8
    requires { k < 4 }
    ensures { result ≡ byte_of word k / 2 ^ 6 * 2 ^ 6 }
{
    let byte = ((word >> (8 * k)) & 0xff) as u8;
    byte & 0xc0
}

/// A write to AIRCR with its key that asks for a reset of the system.
fn asks_reset(offset: u16, write: Option<u32>) -> bool
    ensures { result ≡ asks_reset offset write }
{
    match write {
        Some(word) => offset == AIRCR && word >> 16 == 0x5fa && (word >> 2) & 1 == 1,
        None => false,
    }
}

/// A flag as a number.
fn one(flag: bool) -> u32
    ensures { result ≡ bit_number flag }
{
    if flag { 1 } else { 0 }
}
