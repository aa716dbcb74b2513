//! The registers of IO_BANK0 and, from 1000 on, of PADS_BANK0, by their offsets.

ghost use Rattle.std.specs.Prelude.{◌≡◌, ◌<◌, ◌≤◌, ◌%◌, Some, true, ⊤};
ghost use Rattle.rp_base.specs.Rows.{Each, is_at, word_at, effect_at};
ghost use Rattle.io_bank.specs.Levels.{level_sensed};
ghost use Rattle.io_bank.specs.Words.{status_of, pin_rows, event_rows, pad_rows, bank_rows, is_word, is_held, word_of, effect_of, EachRegisterIsAtItsOffset};

use crate::bank::IoBank;
use crate::events::Events;
use crate::outputs::Outs;
use crate::registers::{
    GPIO0_CTRL, GPIO0_STATUS, INTR0, IO_BANK0_END, PAD_GPIO0, PAD_GPIO29, PADS_BANK0, PROC0_INTE0,
    PROC0_INTF0, PROC0_INTS0, PROC1_INTE0, PROC1_INTF0, PROC1_INTS0, VOLTAGE_SELECT,
};
use crate::routes::Routes;
use crate::sets::overridden;
use rp_base::bits::{bit_number, has_bit};
use rp_base::{Registers, unless_held};

impl IoBank {
    /// The word at an offset, where the parts put out `outs` at the start of the cycle; a held block reads 0. None exactly
    /// where there is no such word.
    pub fn read(&self, offset: u16, outs: &Outs) -> Option<u32>
        ensures { result ≡ word_of offset outs.now self.now }
    {
        unless_held(self.is_held(offset), self.listed(offset, outs))
    }

    /// A read, or a write of a word, is allowed: there is such a word, whether or not its block is held.
    pub fn allows(&self, offset: u16, _write: Option<u32>) -> bool
        ensures { result ≡ is_word offset }
    {
        is_word(offset)
    }

    /// Does what a read, or a write of this word, does to the registers; a held block ignores it. False, and nothing is
    /// changed, where there is no such word. A read changes nothing.
    pub fn effect(&mut self, offset: u16, write: Option<u32>) -> bool
        ensures after { self.new ≡ effect_of offset write self.old }
        ensures allowed { result ≡ is_word offset }
    {
        let allowed = is_word(offset);
        if let Some(word) = write {
            if allowed && !self.is_held(offset) {
                self.write(offset, word);
            }
        }
        allowed
    }

    /// The block of a word is held in reset.
    fn is_held(&self, offset: u16) -> bool
        ensures { result ≡ is_held offset self.now }
    {
        if offset < PADS_BANK0 {
            self.bank_held
        } else {
            self.pads_held
        }
    }

    /// The word at an offset, where its block is not held.
    #[tactic(auto, using(crate::proofs::Rows::words))]
    fn listed(&self, offset: u16, outs: &Outs) -> Option<u32>
        ensures { result ≡ word_at bank_rows outs.now offset self.now }
    {
        if offset < INTR0 {
            self.pin_word(offset, outs)
        } else if offset < PADS_BANK0 {
            self.event_word(offset)
        } else {
            self.pad_word(offset)
        }
    }

    /// A write of a word of a block that is not held.
    #[tactic(auto, using(crate::proofs::Rows::writes))]
    fn write(&mut self, offset: u16, word: u32)
        ensures { self.new ≡ effect_at bank_rows offset (Some word) self.old }
    {
        if offset < INTR0 {
            self.write_pin(offset, word);
        } else if offset < PADS_BANK0 {
            self.write_event(offset, word);
        } else {
            self.write_pad(offset, word);
        }
    }

    /// STATUS or CTRL of a pin.
    #[tactic(auto, using(crate::proofs::Rows::is_status, crate::proofs::Rows::pin_of))]
    fn pin_word(&self, offset: u16, outs: &Outs) -> Option<u32>
        requires { offset < 0x0f0 }
        ensures { result ≡ word_at pin_rows outs.now offset self.now }
    {
        let pin = offset / 8;
        match offset % 8 {
            GPIO0_STATUS => Some(self.status(outs, pin)),
            GPIO0_CTRL => Some(self.controls[pin as usize]),
            _ => None,
        }
    }

    /// STATUS of a pin.
    fn status(&self, outs: &Outs, pin: u16) -> u32
        requires { pin < 30 }
        ensures { result ≡ status_of self.now outs.now pin }
    {
        let control = self.controls[pin as usize];
        let bit = u32::from(pin);
        let outputs = outs.of_function(control % 32);
        let (level, enable) = (has_bit(outputs[0], bit), has_bit(outputs[1], bit));
        let sensed = self.is_sensed(pin);
        bit_number(level) * 0x100
            + bit_number(overridden((control >> 8) % 4, level)) * 0x200
            + bit_number(enable) * 0x1000
            + bit_number(overridden((control >> 12) % 4, enable)) * 0x2000
            + bit_number(sensed) * 0x2_0000
            + bit_number(overridden((control >> 16) % 4, sensed)) * 0x8_0000
    }

    /// A pad is high now, and its input is enabled.
    fn is_sensed(&self, pin: u16) -> bool
        requires { pin < 30 }
        ensures { result ≡ level_sensed self.now self.now.current pin }
    {
        has_bit(self.pads[pin as usize], 6) && has_bit(self.current, u32::from(pin))
    }

    /// A write of CTRL; STATUS is read-only.
    fn write_pin(&mut self, offset: u16, word: u32)
        requires { offset < 0x0f0 }
        ensures { self.new ≡ effect_at pin_rows offset (Some word) self.old }
    {
        if offset % 8 == GPIO0_CTRL {
            self.controls[(offset / 8) as usize] = word & 0x3_331f;
            self.routes = Routes::of(&self.controls, &self.pads);
        }
    }

    /// A word of INTR, and for each core of INTE, INTF and INTS.
    fn event_word(&self, offset: u16) -> Option<u32>
        ensures { result ≡ word_at (event_rows {V = ⊤}) tt offset self.now }
    {
        if offset % 4 != 0 {
            return None;
        }
        let number = u32::from(offset % 16 / 4);
        match offset - offset % 16 {
            INTR0 => Some(self.raw().word(number)),
            PROC0_INTE0 => Some(self.core0.enable.word(number)),
            PROC0_INTF0 => Some(self.core0.force.word(number)),
            PROC0_INTS0 => Some(self.core0.shown(&self.raw()).word(number)),
            PROC1_INTE0 => Some(self.core1.enable.word(number)),
            PROC1_INTF0 => Some(self.core1.force.word(number)),
            PROC1_INTS0 => Some(self.core1.shown(&self.raw()).word(number)),
            _ => None,
        }
    }

    /// A write of a word of INTR, INTE or INTF; INTS is read-only.
    fn write_event(&mut self, offset: u16, word: u32)
        ensures { self.new ≡ effect_at (event_rows {V = ⊤}) offset (Some word) self.old }
    {
        if offset % 4 != 0 {
            return;
        }
        let number = u32::from(offset % 16 / 4);
        match offset - offset % 16 {
            INTR0 => self.latched = self.latched.cleared(number, word, self.fresh),
            PROC0_INTE0 => self.core0.enable = self.core0.enable.with_word(number, word),
            PROC0_INTF0 => self.core0.force = self.core0.force.with_word(number, word),
            PROC1_INTE0 => self.core1.enable = self.core1.enable.with_word(number, word),
            PROC1_INTF0 => self.core1.force = self.core1.force.with_word(number, word),
            _ => {}
        }
    }

    /// VOLTAGE_SELECT or the register of a pad.
    fn pad_word(&self, offset: u16) -> Option<u32>
        ensures { result ≡ word_at (pad_rows {V = ⊤}) tt offset self.now }
    {
        if offset == VOLTAGE_SELECT {
            Some(self.voltage)
        } else if is_pad(offset) {
            Some(self.pads[((offset - PAD_GPIO0) / 4) as usize])
        } else {
            None
        }
    }

    /// A write of VOLTAGE_SELECT or of a pad's register, which keeps eight bits.
    fn write_pad(&mut self, offset: u16, word: u32)
        ensures { self.new ≡ effect_at (pad_rows {V = ⊤}) offset (Some word) self.old }
    {
        if offset == VOLTAGE_SELECT {
            self.voltage = word;
        } else if is_pad(offset) {
            self.pads[((offset - PAD_GPIO0) / 4) as usize] = word & 0xff;
            self.routes = Routes::of(&self.controls, &self.pads);
        }
    }
}

impl Registers<Outs> for IoBank {
    ghost word = { word_of };

    ghost allowed = { λ offset _ _. is_word offset };

    ghost accessed = { effect_of };

    fn read(&self, seen: &Outs, offset: u16) -> Option<u32> {
        self.read(offset, seen)
    }

    fn allows(&self, offset: u16, write: Option<u32>) -> bool {
        self.allows(offset, write)
    }

    fn effect(&mut self, offset: u16, write: Option<u32>) -> bool {
        self.effect(offset, write)
    }
}

/// The offset of a word.
#[tactic(auto, using(crate::proofs::Rows::words_there))]
fn is_word(offset: u16) -> bool
    ensures { result ≡ is_word offset }
{
    offset % 4 == 0 && (offset < IO_BANK0_END || (PADS_BANK0 <= offset && offset <= PAD_GPIO29))
}

/// The offset of a pad's register.
fn is_pad(offset: u16) -> bool
    ensures { result ≡ is_at (Each 0x1004 30 4) offset }
{
    offset % 4 == 0 && PAD_GPIO0 <= offset && offset <= PAD_GPIO29
}

/// At the offset of each register stands that register, and nothing at any other.
#[tactic(auto, using(crate::proofs::Rows::registers))]
pub fn each_register_is_at_its_offset()
    ensures { EachRegisterIsAtItsOffset }
{}
