//! A machine with what its registers say.

use crate::machine::{control, write_register};
use pio_machine::settings::Settings;
use pio_machine::{Done, Machine1, Seen, tick};
use rp_base::bits::has_bit;
use std::marker::Model;

/// A machine, seen as its state. Beside it stands what its registers say.
#[derive(Drop)]
pub(crate) struct Kept {
    machine: Machine1,
    settings: Settings,
}

impl Model for Kept {
    ghost use Rattle.std.specs.Prelude.{◌≡◌};
    ghost use Rattle.pio_machine.specs.declared.machine.Machine1.{Machine1};
    ghost use Rattle.pio_machine.specs.Ready.{settings_of};

    ghost Value = { Machine1 };

    ghost view = { λ k. k.machine };

    ghost invariant = { λ k. k.settings ≡ settings_of k.machine };
}

impl Kept {
    ghost use Rattle.std.specs.Prelude.{◌≡◌, ◌<◌, ℕ, Decides};
    ghost use Rattle.pio_machine.specs.Start.{at_reset};
    ghost use Rattle.pio_machine.specs.Operation.{with_pc};
    ghost use Rattle.pio_machine.specs.Cycle.{after_cycle, written_in_cycle};
    ghost use Rattle.pio_machine.specs.declared.machine.Seen.{Seen};
    ghost use Rattle.pio_machine.specs.Quiet.{waited, IsQuiet};
    ghost use Rattle.pio_block.specs.Control.{controlled};
    ghost use Rattle.pio_block.specs.Words.{room_left};
    ghost use Rattle.pio_block.specs.Queues.{with_stalls_cleared, with_sent, with_taken};
    ghost use Rattle.pio_block.specs.Registers.{register_written};

    /// A machine in its reset state.
    pub(crate) fn new() -> Kept
        ensures { result ≡ at_reset }
    {
        let machine = Machine1::new();
        let settings = Settings::of(&machine);
        Kept { machine, settings }
    }

    /// The machine.
    #[inline(always)]
    pub(crate) fn machine(&self) -> &Machine1
        ensures { result.now ≡ self.now }
    {
        &self.machine
    }

    /// The room left in the TX FIFO.
    pub(crate) fn room_left(&self) -> u8
        ensures { result ≡ room_left self.now }
    {
        self.settings
            .tx_depth
            .saturating_sub(self.machine.tx.level())
    }

    /// A cycle of the machine of that number.
    #[inline(always)]
    pub(crate) fn tick(&mut self, number: u8, seen: &Seen, done: &mut Done)
        requires { number < 4 }
        ensures machine { self.new ≡ after_cycle number seen.now self.old }
        ensures done { done.new ≡ written_in_cycle number seen.now self.old done.old }
    {
        tick(&mut self.machine, &self.settings, number, seen, done);
    }

    /// For so many cycles from now on the machine tries no word, whatever it sees.
    #[inline(always)]
    pub(crate) fn tries_none(&self) -> u64
        ensures { (number : ℕ) → (seen : Seen) → (level enable : ℕ) → IsQuiet number seen level enable self.now result }
    {
        self.machine.tries_none(&self.settings)
    }

    /// For so many cycles from now on the machine of that number only waits, where it sees this and the pins have these levels and enables.
    #[inline(always)]
    pub(crate) fn quiet(&self, number: u8, seen: &Seen, levels: u32, enables: u32) -> u64
        requires { number < 4 }
        ensures { IsQuiet number seen.now levels enables self.now result }
    {
        if self
            .machine
            .stalls(&self.settings, number, seen, levels, enables)
        {
            u64::MAX
        } else {
            self.tries_none()
        }
    }

    /// So many cycles at once, in which the machine only waits.
    #[inline(always)]
    pub(crate) fn pass(&mut self, n: u64)
        ensures { self.new ≡ waited n self.old }
    {
        self.machine.pass(&self.settings, n);
    }

    /// A write of CTRL, to the machine of that number.
    pub(crate) fn control(&mut self, number: u32, word: u32)
        requires { number < 4 }
        ensures { self.new ≡ controlled word number self.old }
    {
        control(&mut self.machine, number, word);
        self.settings = Settings::of(&self.machine);
    }

    /// A write of FDEBUG, to the machine of that number.
    pub(crate) fn clear_stalls(&mut self, number: u32, word: u32)
        requires { number < 4 }
        ensures { self.new ≡ with_stalls_cleared word number self.old }
    {
        self.machine.tx_stall = self.machine.tx_stall && !has_bit(word, 24 + number);
        self.machine.rx_stall = self.machine.rx_stall && !has_bit(word, number);
    }

    /// A write of TXF.
    pub(crate) fn send(&mut self, word: u32)
        ensures { self.new ≡ with_sent word self.old }
    {
        if !self.machine.is_tx_full() {
            self.machine.tx.push(word);
        }
    }

    /// A read of RXF takes a word away.
    pub(crate) fn take(&mut self)
        ensures { self.new ≡ with_taken self.old }
    {
        let _ = self.machine.rx.pull();
    }

    /// A write of a register of the machine.
    pub(crate) fn write_register(&mut self, offset: u16, word: u32)
        ensures { self.new ≡ register_written offset word self.old }
    {
        write_register(&mut self.machine, offset, word);
        self.settings = Settings::of(&self.machine);
    }

    /// Sets the program counter.
    pub(crate) fn set_pc(&mut self, address: u8)
        ensures { self.new ≡ with_pc address self.old }
    {
        self.machine.set_pc(address);
    }

    /// Both are in the same state.
    pub(crate) fn is_same(&self, other: &Kept) -> bool
        ensures { Decides result (self.now ≡ other.now) }
    {
        self.machine.is_same(&other.machine)
    }

    /// Takes the state of another machine.
    pub(crate) fn copy_from(&mut self, other: &Kept)
        ensures { self.new ≡ other.now }
    {
        self.machine.copy_from(&other.machine);
        self.settings = other.settings;
    }
}
