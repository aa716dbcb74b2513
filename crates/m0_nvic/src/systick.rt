//! The system timer of a core.

ghost use Rattle.std.specs.Prelude.{◌≡◌};
ghost use Rattle.m0_nvic.specs.Cycle.{counts_in, timer_after, timer_pends};

/// The system timer (ARMv6-M Architecture Reference Manual, B3.3).
#[derive(Clone, Copy, PartialEq, Eq)]
pub struct SysTick {
    /// CSR.ENABLE: it counts.
    pub enable: bool,
    /// CSR.TICKINT: it asks for its exception.
    pub interrupt: bool,
    /// CSR.CLKSOURCE: it counts the cycles of the core's clock, else microseconds.
    pub core_clock: bool,
    /// CSR.COUNTFLAG: it counted to 0 since this was read.
    pub counted: bool,
    /// RVR: the value after 0, of 24 bits.
    pub reload: u32,
    /// CVR: the value now, of 24 bits.
    pub current: u32,
}

impl SysTick {
    /// Counts where the timer counts in this cycle, and tells whether it asks for its exception.
    #[inline(always)]
    pub(crate) fn end_cycle(&mut self, cycle: u64) -> bool
        ensures after { self.new ≡ timer_after cycle self.old }
        ensures pends { result ≡ timer_pends cycle self.old }
    {
        if !self.counts_in(cycle) {
            return false;
        }
        match self.current {
            0 => {
                self.current = self.reload;
                false
            }
            1 => {
                self.current = 0;
                self.counted = true;
                self.interrupt
            }
            _ => {
                self.current -= 1;
                false
            }
        }
    }

    /// The timer counts in this cycle.
    #[inline(always)]
    fn counts_in(&self, cycle: u64) -> bool
        ensures { result ≡ counts_in cycle self.now }
    {
        self.enable && (self.core_clock || cycle % 125 == 124)
    }
}
