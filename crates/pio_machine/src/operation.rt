//! A try of an operation, and its side-set.

ghost use Rattle.std.specs.Prelude.{◌≡◌, ◌<◌, ◌≤◌, ◌^◌};
ghost use Rattle.pio_machine.specs.Operation.{tried, written, loads_osr, side_field, delay_of, side_pins, with_side};
ghost use Rattle.pio_machine.specs.Ready.{settings_of};
ghost use Rattle.pio_machine.specs.Tie.{stands_for};

use crate::bits::low_bits;
use crate::flags::flag_of;
use crate::machine::{Done, Machine1, Outcome, Seen};
use crate::settings::Settings;
use pio_words::{MovDestination, PioOp};
use rp_base::bits::has_bit;

/// The operation loads the OSR itself.
pub(crate) fn loads_osr(op: &PioOp) -> bool
    ensures { result ≡ loads_osr op.now }
{
    match *op {
        PioOp::Out { .. } | PioOp::Pull { .. } => true,
        PioOp::Mov { destination, .. } => match destination {
            MovDestination::Osr => true,
            _ => false,
        },
        _ => false,
    }
}

/// The five bits of a word for side-set and delay.
pub(crate) fn side_field(word: u16) -> u8
    ensures value { result ≡ side_field word }
    ensures small { result < 32 }
{
    ((word >> 8) & 0x1f) as u8
}

impl Machine1 {
    /// A try of an operation by the machine of this number.
    #[inline(always)]
    pub(crate) fn perform(
        &mut self,
        op: &PioOp,
        settings: &Settings,
        number: u8,
        seen: &Seen,
        done: &mut Done,
    ) -> Outcome
        requires number { number < 4 }
        requires settings { settings.now ≡ settings_of self.old }
        ensures machine { self.new ≡ (tried op.now number seen.now self.old).machine }
        ensures ending { stands_for result ≡ (tried op.now number seen.now self.old).ending }
        ensures done { done.new ≡ written op.now number seen.now self.old done.old }
    {
        match *op {
            PioOp::Jmp { condition, address } => self.jmp(condition, address, seen),
            PioOp::Wait { polarity, source } => self.wait(polarity, source, number, seen, done),
            PioOp::In { source, count } => self.try_in(source, count, seen),
            PioOp::Out { destination, count } => self.try_out(destination, count, settings, done),
            PioOp::Push { if_full, block } => self.try_push(if_full, block),
            PioOp::Pull { if_empty, block } => self.try_pull(if_empty, block),
            PioOp::Mov {
                destination,
                operation,
                source,
            } => self.try_mov(destination, operation, source, seen, done),
            PioOp::Irq { clear, wait, index } => {
                let flag = flag_of(index, number);
                self.irq(clear, wait, flag, seen, done)
            }
            PioOp::Set { destination, value } => {
                self.set_pins(destination, value, done);
                self.set_register(destination, value);
                Outcome::Completed
            }
            PioOp::Reserved => Outcome::Completed,
        }
    }

    /// The side-set of a word.
    #[inline(always)]
    #[tactic(auto, unfolding(crate::specs::Operation::with_side))]
    fn write_side(&self, word: u16, settings: &Settings, done: &mut Done)
        requires { settings.now ≡ settings_of self.now }
        ensures { done.new ≡ with_side word self.now done.old }
    {
        if !settings.side_enable || has_bit(u32::from(word), 12) {
            let value = u32::from(side_field(word) >> settings.delay_bits);
            if settings.side_pindir {
                done.write_enables_by(settings.side_mask, settings.side_base, value);
            } else {
                done.write_levels_by(settings.side_mask, settings.side_base, value);
            }
        }
    }

    /// The side-set of a word, and its delay. Where no pin is for side-set that costs one test.
    #[inline(always)]
    #[tactic(auto, using(crate::proofs::NoSide::no_side))]
    pub(crate) fn set_side(&self, word: u16, settings: &Settings, done: &mut Done) -> u8
        requires { settings.now ≡ settings_of self.now }
        ensures delay { result ≡ delay_of word self.now }
        ensures done { done.new ≡ with_side word self.now done.old }
    {
        done.fact_are_words();
        if settings.side_mask != 0 {
            self.write_side(word, settings, done);
        }
        low_bits(u32::from(side_field(word)), settings.delay_bits) as u8
    }

    /// How many pins side-set writes.
    pub(crate) fn side_pins(&self) -> u8
        ensures value { result ≡ side_pins self.now }
        ensures small { result ≤ 5 }
    {
        if self.side_enable() {
            self.side_count().saturating_sub(1)
        } else {
            self.side_count()
        }
    }
}
