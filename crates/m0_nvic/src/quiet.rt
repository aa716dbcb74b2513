//! Cycles in which nothing moves but the count of the system timer.

ghost use Rattle.std.specs.Prelude.{◌≡◌, ◌+◌, ◌-◌, ◌<◌, ◌≤◌, ◌^◌, ℕ};
ghost use Rattle.m0_nvic.specs.Quiet.{after_all, counts_of, timer_down, IsQuiet, is_settled};

use crate::systick::SysTick;
use crate::{Nvic, of_interrupts};

impl Nvic {
    /// For so many cycles from that one on, and maybe for more, nothing moves but the count of the system timer, as long as the
    /// interrupt lines (line 0 in bit 0) stay as they are. It is `u64::MAX` where the timer does not count either.
    pub fn quiet(&self, lines: u32, cycle: u64) -> u64
        ensures { IsQuiet lines self.now cycle result }
    {
        fact_fits(self.pending, lines);
        if self.is_settled(lines) {
            self.systick.cycles_left(cycle)
        } else {
            0
        }
    }

    /// So many cycles at once from a first one on, while the interrupt lines (line 0 in bit 0) stay as they are.
    pub fn pass(&mut self, lines: u32, first: u64, n: u64)
        requires { first + n < 2 ^ 64 }
        ensures { self.new ≡ after_all lines first n self.old }
    {
        fact_fits(self.pending, lines);
        if self.is_settled(lines) && n <= self.systick.cycles_left(first) {
            self.systick.count_down(first, n);
        } else {
            self.end_each(lines, first, n);
        }
    }

    /// So many cycles one by one.
    fn end_each(&mut self, lines: u32, first: u64, n: u64)
        requires { first + n < 2 ^ 64 }
        ensures { self.new ≡ after_all lines first n self.old }
    {
        for k in 0..n {
            let _ = self.end_cycle(lines, first + k);
        }
    }

    /// The lines were the same in the cycle before, and have made pending what they can.
    fn is_settled(&self, lines: u32) -> bool
        ensures { result ≡ is_settled lines self.now }
    {
        let held = of_interrupts(self.lines) & self.active;
        let risen = of_interrupts(lines) & !held;
        self.lines == lines && !self.arrived && risen & !self.pending == 0
    }
}

impl SysTick {
    /// For so many cycles from that one on no count begins at 0 or ends there.
    fn cycles_left(&self, cycle: u64) -> u64
        ensures { (k : ℕ) → k ≤ result → counts_of cycle k self.now ≤ self.now.current - 1 }
    {
        if !self.enable {
            u64::MAX
        } else if self.core_clock {
            u64::from(self.current.saturating_sub(1))
        } else if self.current == 0 {
            0
        } else {
            u64::from(self.current - 1) * 125 + (124 - cycle % 125)
        }
    }

    /// In how many of so many cycles from a first one on it counts.
    fn counts(&self, first: u64, n: u64) -> u64
        requires { first + n < 2 ^ 64 }
        ensures { result ≡ counts_of first n self.now }
    {
        if !self.enable {
            0
        } else if self.core_clock {
            n
        } else {
            (first + n) / 125 - first / 125
        }
    }

    /// The counts of so many cycles at once.
    fn count_down(&mut self, first: u64, n: u64)
        requires number { first + n < 2 ^ 64 }
        requires counts { counts_of first n self.old ≤ self.old.current - 1 }
        ensures { self.new ≡ timer_down first n self.old }
    {
        let before = self.current;
        self.current = before - self.counts(first, n) as u32;
    }
}

/// A set of exceptions fits 64 bits, and the lines fit 32. It costs nothing.
fn fact_fits(_set: u64, _lines: u32)
    ensures set { _set < 2 ^ 64 }
    ensures lines { _lines < 2 ^ 32 }
{}
