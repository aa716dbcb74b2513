//! The four machines of a block.

use crate::kept::Kept;
use crate::machine::is_running;
use pio_machine::{Done, Machine1, Seen};
use std::marker::Model;

/// Four machines, seen as their list from number 0 on.
#[derive(Drop)]
pub(crate) struct Machines {
    first: Kept,
    second: Kept,
    third: Kept,
    fourth: Kept,
}

impl Model for Machines {
    ghost use Rattle.std.specs.Prelude.{List, [], ◌∷◌};
    ghost use Rattle.pio_machine.specs.declared.machine.Machine1.{Machine1};

    ghost Value = { List Machine1 };

    ghost view = { λ m. m.first ∷ m.second ∷ m.third ∷ m.fourth ∷ [] };
}

impl Machines {
    ghost use Rattle.std.specs.Prelude.{◌≡◌, ◌<◌, ℕ, Decides, replicate, map};
    ghost use Rattle.std.specs.List.{list_any};
    ghost use Rattle.pio_machine.specs.Start.{at_reset};
    ghost use Rattle.pio_block.specs.State.{machine_of, changed, each, is_running};
    ghost use Rattle.pio_machine.specs.declared.machine.Seen.{Seen};
    ghost use Rattle.pio_machine.specs.Quiet.{waited};
    ghost use Rattle.pio_block.specs.Quiet.{AreMachinesQuiet};
    ghost use Rattle.pio_block.specs.Control.{controlled};
    ghost use Rattle.pio_block.specs.Words.{pacing_of};
    ghost use Rattle.pio_block.specs.Queues.{with_stalls_cleared, with_sent, with_taken};
    ghost use Rattle.pio_block.specs.Registers.{register_written};
    ghost use Rattle.pio_machine.specs.Operation.{with_pc};
    ghost use Rattle.pio_block.specs.Cycle.{all_stepped, written_from};

    /// Four machines in their reset state.
    pub(crate) fn new() -> Machines
        ensures { result ≡ replicate 4 at_reset }
    {
        Machines {
            first: Kept::new(),
            second: Kept::new(),
            third: Kept::new(),
            fourth: Kept::new(),
        }
    }

    /// The machine of that number.
    pub(crate) fn at(&self, number: u8) -> &Machine1
        requires { number < 4 }
        ensures { result.now ≡ machine_of number self.now }
    {
        match number {
            0 => self.first.machine(),
            1 => self.second.machine(),
            2 => self.third.machine(),
            _ => self.fourth.machine(),
        }
    }

    /// A machine is enabled, or a written word waits.
    pub(crate) fn is_busy(&self) -> bool
        ensures { result ≡ list_any is_running self.now }
    {
        is_running(self.first.machine())
            || is_running(self.second.machine())
            || is_running(self.third.machine())
            || is_running(self.fourth.machine())
    }

    /// A cycle of all machines.
    #[tactic(auto, unfolding(crate::specs::Cycle::all_stepped))]
    pub(crate) fn step(&mut self, seen: &Seen, done: &mut Done)
        ensures machines { self.new ≡ all_stepped seen.now self.old }
        ensures done { done.new ≡ written_from 0 seen.now self.old done.old }
    {
        self.first.tick(0, seen, done);
        self.second.tick(1, seen, done);
        self.third.tick(2, seen, done);
        self.fourth.tick(3, seen, done);
    }

    /// For so many cycles from now on no machine tries a word, whatever they see.
    #[tactic(auto, using(crate::proofs::Between::fewer_machine))]
    pub(crate) fn try_none(&self) -> u64
        ensures { (seen : Seen) → (level enable : ℕ) → AreMachinesQuiet 0 seen level enable self.now result }
    {
        let low = self.first.tries_none().min(self.second.tries_none());
        let high = self.third.tries_none().min(self.fourth.tries_none());
        low.min(high)
    }

    /// For so many cycles from now on all machines only wait, where they see this and the pins have these levels and enables. Where the first
    /// one does not, the others are not asked.
    #[tactic(auto, using(crate::proofs::Between::fewer_machine, crate::proofs::Between::none_machines))]
    pub(crate) fn quiet(&self, seen: &Seen, levels: u32, enables: u32) -> u64
        ensures { AreMachinesQuiet 0 seen.now levels enables self.now result }
    {
        let first = self.first.quiet(0, seen, levels, enables);
        if first == 0 {
            return 0;
        }
        let second = self.second.quiet(1, seen, levels, enables);
        let third = self.third.quiet(2, seen, levels, enables);
        let fourth = self.fourth.quiet(3, seen, levels, enables);
        let low = first.min(second);
        low.min(third.min(fourth))
    }

    /// So many cycles at once, in which all only wait.
    pub(crate) fn pass(&mut self, n: u64)
        ensures { self.new ≡ map (waited n) self.old }
    {
        self.first.pass(n);
        self.second.pass(n);
        self.third.pass(n);
        self.fourth.pass(n);
    }

    /// The room left in the TX FIFOs, then the words of the RX FIFOs.
    #[tactic(auto, unfolding(crate::specs::Words::pacing_of))]
    pub(crate) fn pacing(&self) -> [u8; 8]
        ensures { result ≡ pacing_of self.now }
    {
        [
            self.first.room_left(),
            self.second.room_left(),
            self.third.room_left(),
            self.fourth.room_left(),
            self.first.machine().rx.level(),
            self.second.machine().rx.level(),
            self.third.machine().rx.level(),
            self.fourth.machine().rx.level(),
        ]
    }

    /// A write of CTRL.
    pub(crate) fn control(&mut self, word: u32)
        ensures { self.new ≡ each (controlled word) self.old }
    {
        self.first.control(0, word);
        self.second.control(1, word);
        self.third.control(2, word);
        self.fourth.control(3, word);
    }

    /// A write of FDEBUG.
    pub(crate) fn clear_stalls(&mut self, word: u32)
        ensures { self.new ≡ each (with_stalls_cleared word) self.old }
    {
        self.first.clear_stalls(0, word);
        self.second.clear_stalls(1, word);
        self.third.clear_stalls(2, word);
        self.fourth.clear_stalls(3, word);
    }

    /// A write of TXF.
    pub(crate) fn send(&mut self, number: u8, word: u32)
        requires { number < 4 }
        ensures { self.new ≡ changed number (with_sent word) self.old }
    {
        match number {
            0 => self.first.send(word),
            1 => self.second.send(word),
            2 => self.third.send(word),
            _ => self.fourth.send(word),
        }
    }

    /// A read of RXF takes a word away.
    pub(crate) fn take(&mut self, number: u8)
        requires { number < 4 }
        ensures { self.new ≡ changed number with_taken self.old }
    {
        match number {
            0 => self.first.take(),
            1 => self.second.take(),
            2 => self.third.take(),
            _ => self.fourth.take(),
        }
    }

    /// A write of a register of a machine, by its offset from the machine's first one.
    pub(crate) fn write_register(&mut self, number: u8, offset: u16, word: u32)
        requires { number < 4 }
        ensures { self.new ≡ changed number (register_written offset word) self.old }
    {
        match number {
            0 => self.first.write_register(offset, word),
            1 => self.second.write_register(offset, word),
            2 => self.third.write_register(offset, word),
            _ => self.fourth.write_register(offset, word),
        }
    }

    /// Sets a program counter.
    pub(crate) fn set_counter(&mut self, number: u8, address: u8)
        requires { number < 4 }
        ensures { self.new ≡ changed number (with_pc address) self.old }
    {
        match number {
            0 => self.first.set_pc(address),
            1 => self.second.set_pc(address),
            2 => self.third.set_pc(address),
            _ => self.fourth.set_pc(address),
        }
    }

    /// All four are in the same states.
    pub(crate) fn is_same(&self, other: &Machines) -> bool
        ensures { Decides result (self.now ≡ other.now) }
    {
        let first = self.first.is_same(&other.first);
        let second = self.second.is_same(&other.second);
        let third = self.third.is_same(&other.third);
        let fourth = self.fourth.is_same(&other.fourth);
        first & second & third & fourth
    }

    /// Takes the state of other machines.
    pub(crate) fn copy_from(&mut self, other: &Machines)
        ensures { self.new ≡ other.now }
    {
        self.first.copy_from(&other.first);
        self.second.copy_from(&other.second);
        self.third.copy_from(&other.third);
        self.fourth.copy_from(&other.fourth);
    }
}
