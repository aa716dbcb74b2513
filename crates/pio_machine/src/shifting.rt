//! IN, OUT and SET.

ghost use Rattle.std.specs.Prelude.{◌≡◌, ◌≤◌};
ghost use Rattle.pio_machine.specs.Input.{in_value, shifted_in, shifted_once, is_autopush_due, autopushed, try_in};
ghost use Rattle.pio_machine.specs.Output.{out_value, shifted_out, with_out, ending_of_out, starved, out_done, try_out, out_pins, written_by_out, after_set, written_by_set};
ghost use Rattle.pio_machine.specs.Ready.{settings_of};
ghost use Rattle.pio_machine.specs.Tie.{stands_for};

use crate::bits::{counted, entered, remaining, taken};
use crate::machine::{Done, Machine1, Outcome, Seen};
use crate::settings::Settings;
use pio_words::{InSource, OutDestination, SetDestination};

impl Machine1 {
    fn in_value(&self, source: InSource, seen: &Seen) -> u32
        ensures { result ≡ in_value source seen.now self.now }
    {
        match source {
            InSource::Pins => self.mapped_inputs(seen),
            InSource::X => self.x,
            InSource::Y => self.y,
            InSource::Null => 0,
            InSource::Isr => self.isr,
            InSource::Osr => self.osr,
        }
    }

    /// Bits enter the ISR.
    fn shift_in(&mut self, value: u32, count: u8)
        requires { count ≤ 32 }
        ensures { self.new ≡ shifted_in value count self.old }
    {
        self.isr = entered(self.in_right(), count, value, self.isr);
        self.isr_count = counted(self.isr_count, count);
    }

    /// Bits enter the ISR, unless an IN that stalled has shifted already.
    fn shift_once(&mut self, source: InSource, count: u8, seen: &Seen)
        ensures { self.new ≡ shifted_once source count seen.now self.old }
    {
        if !self.current_progress().shifted {
            let value = self.in_value(source, seen);
            self.shift_in(value, count.min(32));
        }
    }

    /// Autopush: the ISR has reached its threshold.
    pub(crate) fn is_autopush_due(&self) -> bool
        ensures { result ≡ is_autopush_due self.now }
    {
        self.autopush() && self.push_threshold() <= self.isr_count
    }

    /// Pushes an ISR that reached its threshold.
    fn autopush_now(&mut self) -> Outcome
        ensures machine { self.new ≡ (autopushed self.old).machine }
        ensures ending { stands_for result ≡ (autopushed self.old).ending }
    {
        if self.is_autopush_due() {
            if self.is_rx_full() {
                self.keep_shifted();
                self.rx_stall = true;
                return Outcome::Stalled;
            }
            self.push();
        }
        Outcome::Completed
    }

    /// A try of IN.
    #[tactic(auto, unfolding(crate::specs::Input::try_in))]
    pub(crate) fn try_in(&mut self, source: InSource, count: u8, seen: &Seen) -> Outcome
        ensures machine { self.new ≡ (try_in source count seen.now self.old).machine }
        ensures ending { stands_for result ≡ (try_in source count seen.now self.old).ending }
    {
        self.shift_once(source, count, seen);
        self.autopush_now()
    }

    /// Bits leave the OSR.
    #[inline(always)]
    pub(crate) fn shift_out(&mut self, count: u8) -> u32
        requires { count ≤ 32 }
        ensures value { result ≡ out_value count self.old }
        ensures machine { self.new ≡ shifted_out count self.old }
    {
        let before = self.osr;
        self.osr_count = counted(self.osr_count, count);
        if self.out_right() {
            self.osr = remaining(true, count, before);
            taken(true, count, before)
        } else {
            self.osr = remaining(false, count, before);
            taken(false, count, before)
        }
    }

    /// A register takes the bits that left the OSR.
    fn put_out(&mut self, destination: OutDestination, value: u32, count: u8)
        ensures machine { self.new ≡ with_out destination value count self.old }
        ensures settings { settings_of self.new ≡ settings_of self.old }
    {
        match destination {
            OutDestination::X => self.x = value,
            OutDestination::Y => self.y = value,
            OutDestination::Isr => {
                self.isr = value;
                self.isr_count = count;
            }
            _ => {}
        }
    }

    /// Pins or their enables take the bits that left the OSR.
    fn out_pins(
        &self,
        destination: OutDestination,
        value: u32,
        settings: &Settings,
        done: &mut Done,
    )
        requires { settings.now ≡ settings_of self.now }
        ensures { done.new ≡ out_pins destination value self.now done.old }
    {
        match destination {
            OutDestination::Pins => {
                done.write_levels_by(settings.out_mask, self.out_base(), value);
            }
            OutDestination::Pindirs => {
                done.write_enables_by(settings.out_mask, self.out_base(), value);
            }
            _ => {}
        }
    }

    /// An OUT that stalls loads the OSR, or tells that no word waits.
    pub(crate) fn starve(&mut self)
        ensures machine { self.new ≡ starved self.old.tx self.old }
        ensures settings { settings_of self.new ≡ settings_of self.old }
    {
        match self.tx.pull() {
            Some(word) => {
                self.osr = word;
                self.osr_count = 0;
            }
            None => self.tx_stall = true,
        }
    }

    /// An OUT that does not stall.
    fn out_now(
        &mut self,
        destination: OutDestination,
        count: u8,
        settings: &Settings,
        done: &mut Done,
    ) -> Outcome
        requires count { count ≤ 32 }
        requires settings { settings.now ≡ settings_of self.old }
        ensures machine { self.new ≡ (out_done destination count self.old).machine }
        ensures ending { stands_for result ≡ (out_done destination count self.old).ending }
        ensures done { done.new ≡ out_pins destination (out_value count self.old) self.old
            done.old }
    {
        let value = self.shift_out(count);
        self.out_pins(destination, value, settings, done);
        self.put_out(destination, value, count);
        let outcome = outcome_of_out(destination, value);
        self.refill(settings);
        outcome
    }

    /// A try of OUT.
    #[tactic(auto, unfolding(crate::specs::Output::try_out, crate::specs::Output::written_by_out))]
    pub(crate) fn try_out(
        &mut self,
        destination: OutDestination,
        count: u8,
        settings: &Settings,
        done: &mut Done,
    ) -> Outcome
        requires { settings.now ≡ settings_of self.old }
        ensures machine { self.new ≡ (try_out destination count self.old).machine }
        ensures ending { stands_for result ≡ (try_out destination count self.old).ending }
        ensures done { done.new ≡ written_by_out destination count self.old done.old }
    {
        if self.is_autopull_due(settings) {
            self.starve();
            return Outcome::Stalled;
        }
        self.out_now(destination, count.min(32), settings, done)
    }

    /// SET of a register.
    pub(crate) fn set_register(&mut self, destination: SetDestination, value: u8)
        ensures { self.new ≡ after_set destination value self.old }
    {
        match destination {
            SetDestination::X => self.x = u32::from(value),
            SetDestination::Y => self.y = u32::from(value),
            _ => {}
        }
    }

    /// SET of pins or their enables.
    pub(crate) fn set_pins(&self, destination: SetDestination, value: u8, done: &mut Done)
        ensures { done.new ≡ written_by_set destination value self.now done.old }
    {
        let value = u32::from(value);
        match destination {
            SetDestination::Pins => done.write_levels(self.set_base(), self.set_count(), value),
            SetDestination::Pindirs => done.write_enables(self.set_base(), self.set_count(), value),
            _ => {}
        }
    }
}

fn outcome_of_out(destination: OutDestination, value: u32) -> Outcome
    ensures { stands_for result ≡ ending_of_out destination value }
{
    match destination {
        OutDestination::Pc => Outcome::Jumped((value & 0x1f) as u8),
        OutDestination::Exec => Outcome::Executes((value & 0xffff) as u16),
        _ => Outcome::Completed,
    }
}
