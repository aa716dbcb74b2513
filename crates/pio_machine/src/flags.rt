//! WAIT and IRQ.

ghost use Rattle.std.specs.Prelude.{◌≡◌, ◌<◌, ◌^◌};
ghost use Rattle.pio_machine.specs.Flags.{flag_of, with_set, with_clear, is_high, is_met, ending_of_wait, cleared_by, written_by_wait, waits_for_clear, ending_of_irq, after_irq, written_by_irq};
ghost use Rattle.rp_base.specs.Word.{has_bit};
ghost use Rattle.pio_machine.specs.Tie.{stands_for};

use crate::machine::{Done, Machine1, Outcome, Seen};
use pio_words::{IrqIndex, WaitSource};
use rp_base::bits::has_bit;

/// The flag that an index names to the machine of this number.
pub(crate) fn flag_of(index: IrqIndex, number: u8) -> u8
    requires { number < 4 }
    ensures value { result ≡ flag_of index number }
    ensures small { result < 8 }
{
    if index.relative {
        index.number / 4 % 2 * 4 + (index.number % 4 + number) % 4
    } else {
        index.number % 8
    }
}

pub(crate) fn has_flag(flags: u8, flag: u8) -> bool
    requires { flag < 8 }
    ensures { result ≡ has_bit flags flag }
{
    has_bit(u32::from(flags), u32::from(flag))
}

impl Done {
    fn set_flag(&mut self, flag: u8)
        requires { flag < 8 }
        ensures { self.new ≡ with_set flag self.old }
    {
        self.set |= 1 << flag;
    }

    fn clear_flag(&mut self, flag: u8)
        requires { flag < 8 }
        ensures { self.new ≡ with_clear flag self.old }
    {
        self.clear |= 1 << flag;
    }

    /// A flag that was waited for is cleared.
    fn clear_source(&mut self, source: WaitSource, number: u8)
        requires { number < 4 }
        ensures { self.new ≡ cleared_by source number self.old }
    {
        if let WaitSource::Irq(index) = source {
            self.clear_flag(flag_of(index, number));
        }
    }
}

impl Machine1 {
    /// What a WAIT looks at is high.
    pub(crate) fn is_high(&self, source: WaitSource, number: u8, seen: &Seen) -> bool
        requires { number < 4 }
        ensures { result ≡ is_high source number seen.now self.now }
    {
        match source {
            WaitSource::Gpio(pin) => has_bit(seen.input_word(), u32::from(pin % 32)),
            WaitSource::Pin(pin) => has_bit(self.mapped_inputs(seen), u32::from(pin % 32)),
            WaitSource::Irq(index) => has_flag(seen.flags, flag_of(index, number)),
        }
    }

    /// A try of WAIT.
    pub(crate) fn wait(
        &self,
        polarity: bool,
        source: WaitSource,
        number: u8,
        seen: &Seen,
        done: &mut Done,
    ) -> Outcome
        requires { number < 4 }
        ensures ending { stands_for result
            ≡ ending_of_wait polarity source number seen.now self.now }
        ensures done { done.new ≡ written_by_wait polarity source number seen.now self.now
            done.old }
    {
        let high = self.is_high(source, number, seen);
        if polarity {
            if high {
                done.clear_source(source, number);
                Outcome::Completed
            } else {
                Outcome::Stalled
            }
        } else if high {
            Outcome::Stalled
        } else {
            Outcome::Completed
        }
    }

    /// An IRQ waits until its flag is clear.
    fn waits_for_clear(&self, clear: bool, wait: bool, flag: u8, seen: &Seen) -> bool
        requires { flag < 8 }
        ensures { result ≡ waits_for_clear clear wait flag seen.now self.now }
    {
        if clear {
            false
        } else if wait {
            if self.current_progress().raised {
                has_flag(seen.flags, flag)
            } else {
                true
            }
        } else {
            false
        }
    }

    /// What a try of IRQ writes.
    fn raise(&self, clear: bool, wait: bool, flag: u8, done: &mut Done)
        requires { flag < 8 }
        ensures { done.new ≡ written_by_irq clear wait flag self.now done.old }
    {
        if clear {
            done.clear_flag(flag);
        } else if wait {
            if !self.current_progress().raised {
                done.set_flag(flag);
            }
        } else {
            done.set_flag(flag);
        }
    }

    /// A try of IRQ.
    pub(crate) fn irq(
        &mut self,
        clear: bool,
        wait: bool,
        flag: u8,
        seen: &Seen,
        done: &mut Done,
    ) -> Outcome
        requires { flag < 8 }
        ensures machine { self.new ≡ after_irq clear wait flag seen.now self.old }
        ensures ending { stands_for result ≡ ending_of_irq clear wait flag seen.now self.old }
        ensures done { done.new ≡ written_by_irq clear wait flag self.old done.old }
    {
        self.raise(clear, wait, flag, done);
        let waits = self.waits_for_clear(clear, wait, flag, seen);
        if waits {
            self.keep_raised();
            Outcome::Stalled
        } else {
            Outcome::Completed
        }
    }
}
