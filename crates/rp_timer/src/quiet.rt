//! For how long the timer is quiet, and many cycles at once.

ghost use Rattle.std.specs.Prelude.{◌≡◌, ◌<◌, ◌≤◌, ◌+◌, ◌%◌, ◌^◌, ℕ, false};
ghost use Rattle.rp_timer.specs.Step.{is_due, due_of, at_time, after_cycles};
ghost use Rattle.rp_timer.specs.Quiet.{IsQuiet, passed};

use crate::timer::{Timer, low_of};

impl Timer {
    /// In so many cycles from this one on the interrupt lines stay: those before the one in which the time meets an alarm that
    /// is armed; `u64::MAX` where none is armed, or the time stands still.
    pub fn quiet(&self, cycle: u64) -> u64
        ensures { IsQuiet self.now cycle result }
    {
        if self.paused {
            return u64::MAX;
        }
        self.cycles_left(cycle)
    }

    /// So many cycles at once, from one on.
    pub fn pass(&mut self, first: u64, n: u64)
        requires { first + n < 2 ^ 64 }
        ensures { self.new ≡ after_cycles first n self.old }
    {
        if self.paused {
            return;
        }
        if n <= self.cycles_left(first) {
            let ticks = (first + n) / 125 - first / 125;
            self.time = self.time.wrapping_add(ticks);
        } else {
            self.step_each(first, n);
        }
    }

    /// The time after so many cycles from one on.
    #[inline(always)]
    #[tactic(auto, using(crate::proofs::Passing::time_passes))]
    pub(crate) fn time_after(&self, first: u64, n: u64) -> u64
        requires { first + n < 2 ^ 64 }
        ensures { result ≡ (after_cycles first n self.now).time }
    {
        fact_fits(self.time, self.armed);
        if self.paused {
            return self.time;
        }
        self.time.wrapping_add((first + n) / 125 - first / 125)
    }

    /// So many cycles one by one.
    fn step_each(&mut self, first: u64, n: u64)
        requires { first + n < 2 ^ 64 }
        ensures { self.new ≡ after_cycles first n self.old }
    {
        for k in 0..n {
            self.step(first + k);
        }
    }

    /// For how many cycles from this one on no alarm is met.
    fn cycles_left(&self, cycle: u64) -> u64
        requires { self.now.paused ≡ false }
        ensures { (n : ℕ) → n ≤ result → after_cycles cycle n self.now ≡ passed cycle n self.now }
    {
        fact_fits(self.time, self.armed);
        if self.armed == 0 {
            return u64::MAX;
        }
        124 - cycle % 125 + 125 * u64::from(self.rises_left())
    }

    /// How often the time rises before it meets an alarm.
    fn rises_left(&self) -> u32
        ensures { (k : ℕ) → 0 < k → k ≤ result → due_of (at_time (self.now.time + k) self.now) ≡ 0 }
    {
        let first = self.rises_to(0).min(self.rises_to(1));
        let last = self.rises_to(2).min(self.rises_to(3));
        first.min(last)
    }

    /// How often the time rises before it meets this alarm.
    fn rises_to(&self, number: usize) -> u32
        requires { number < 4 }
        ensures { (k : ℕ) → 0 < k → k ≤ result → is_due number (at_time (self.now.time + k) self.now) ≡ false }
    {
        if (self.armed >> number) & 1 == 1 {
            self.alarms[number]
                .wrapping_sub(low_of(self.time))
                .wrapping_sub(1)
        } else {
            u32::MAX
        }
    }
}

/// A time fits 64 bits, and a set of alarms 32. It costs nothing.
fn fact_fits(_time: u64, _alarms: u32)
    ensures time { _time < 2 ^ 64 }
    ensures alarms { _alarms < 2 ^ 32 }
{}
