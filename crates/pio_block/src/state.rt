//! A block's state.

ghost use Rattle.std.specs.Prelude.{◌≡◌, [], ◌∷◌, replicate};
ghost use Rattle.pio_machine.specs.Pins.{overlaid};
ghost use Rattle.pio_block.specs.Beside.{packed_counts};

use crate::inputs::Inputs;
use crate::machines::Machines;
use crate::words::PINS;
use pio_machine::{Done, Memory, Seen};
use std::marker::Model;

/// The state of a block. What the machines see stands in `seen`, whose inputs are those of the last cycle that was stepped.
#[derive(Drop)]
pub(crate) struct State {
    pub(crate) machines: Machines,
    pub(crate) seen: Seen,
    pub(crate) levels: u32,
    pub(crate) enables: u32,
    pub(crate) tx_over: u8,
    pub(crate) rx_under: u8,
    pub(crate) inte0: u16,
    pub(crate) intf0: u16,
    pub(crate) inte1: u16,
    pub(crate) intf1: u16,
}

impl Model for State {
    ghost use Rattle.pio_block.specs.State.{State as Block};

    ghost Value = { Block };

    ghost view = { λ s. record {
      machines = s.machines;
      memory = s.seen.memory;
      flags = s.seen.flags;
      bypass = s.seen.bypass;
      levels = s.levels;
      enables = s.enables;
      tx_over = s.tx_over;
      rx_under = s.rx_under;
      inte0 = s.inte0;
      intf0 = s.intf0;
      inte1 = s.inte1;
      intf1 = s.intf1;
    } };
}

/// Nothing is in the instruction memory, no flag is set, and all pins are low.
fn nothing_seen() -> Seen
    ensures { result ≡ record {
      memory = replicate 32 0;
      inputs = 0 ∷ 0 ∷ [];
      bypass = 0;
      flags = 0;
    } }
{
    Seen {
        memory: Memory::new(),
        inputs: [0, 0],
        bypass: 0,
        flags: 0,
    }
}

/// A word, in which the pins of a mask have the bits of another one.
fn overlaid(mask: u32, bits: u32, word: u32) -> u32
    ensures { result ≡ overlaid mask bits word }
{
    (word & !mask) | (bits & mask)
}

/// Eight counts in one number, six bits each, the first one lowest.
#[inline(always)]
fn packed_eight(counts: [u8; 8]) -> u64
    ensures { result ≡ packed_counts counts }
{
    let [c0, c1, c2, c3, c4, c5, c6, c7] = counts;
    u64::from(c0)
        + u64::from(c1) * 0x40
        + u64::from(c2) * 0x1000
        + u64::from(c3) * 0x4_0000
        + u64::from(c4) * 0x100_0000
        + u64::from(c5) * 0x4000_0000
        + u64::from(c6) * 0x10_0000_0000
        + u64::from(c7) * 0x400_0000_0000
}

impl State {
    ghost use Rattle.std.specs.Prelude.{◌≡◌, ◌<◌, Decides, false};
    ghost use Rattle.pio_block.specs.State.{at_reset, is_busy, machine_of};
    ghost use Rattle.pio_block.specs.Words.{counter_set, pacing_of, register_list, outs_of};
    ghost use Rattle.pio_block.specs.Beside.{packed_counts};
    ghost use Rattle.pio_block.specs.Cycle.{seen_by, all_written, with_stepped, joined, after_cycle};

    /// The reset state.
    pub(crate) fn new() -> State
        ensures { result ≡ at_reset }
    {
        State {
            machines: Machines::new(),
            seen: nothing_seen(),
            levels: 0,
            enables: 0,
            tx_over: 0,
            rx_under: 0,
            inte0: 0,
            intf0: 0,
            inte1: 0,
            intf1: 0,
        }
    }

    /// A machine is enabled, or a written word waits.
    pub(crate) fn is_busy(&self) -> bool
        ensures { result ≡ is_busy self.now }
    {
        self.machines.is_busy()
    }

    /// Sets a program counter.
    pub(crate) fn set_counter(&mut self, machine: u8, address: u8)
        requires { machine < 4 }
        ensures { self.new ≡ counter_set machine address self.old }
    {
        self.machines.set_counter(machine, address);
    }

    /// The machines step, and what they write is told.
    #[tactic(auto, unfolding(crate::specs::Cycle::all_written))]
    fn step_machines(&mut self, inputs: Inputs) -> Done
        ensures state { self.new ≡ with_stepped (seen_by inputs.now inputs.second self.old)
            self.old }
        ensures done { result ≡ all_written (seen_by inputs.now inputs.second self.old)
            self.old.machines }
    {
        self.seen.inputs = [inputs.now, inputs.second];
        let mut done = Done::new();
        self.machines.step(&self.seen, &mut done);
        done
    }

    /// What the machines have written is joined.
    #[tactic(auto, unfolding(crate::specs::Cycle::joined))]
    fn join(&mut self, done: &Done)
        ensures { self.new ≡ joined done.now self.old }
    {
        self.seen.flags = (self.seen.flags & !done.clear) | done.set;
        self.levels = overlaid(done.level_mask, done.levels, self.levels);
        self.enables = overlaid(done.enable_mask, done.enables, self.enables);
    }

    /// A cycle of the block.
    #[tactic(auto, unfolding(crate::specs::Cycle::after_cycle, crate::specs::Cycle::joined))]
    pub(crate) fn step(&mut self, inputs: Inputs)
        ensures { self.new ≡ after_cycle inputs.now inputs.second self.old }
    {
        let done = self.step_machines(inputs);
        self.join(&done);
    }

    /// The room left in the TX FIFOs, then the words of the RX FIFOs.
    pub(crate) fn pacing(&self) -> [u8; 8]
        ensures { result ≡ pacing_of self.now.machines }
    {
        self.machines.pacing()
    }

    /// The same in one number.
    pub(crate) fn packed_pacing(&self) -> u64
        ensures { result ≡ packed_counts (pacing_of self.now.machines) }
    {
        packed_eight(self.pacing())
    }

    /// The same where the block is not busy.
    pub(crate) fn idle_counts(&self, busy: bool) -> u64
        ensures { busy ≡ false → result ≡ packed_counts (pacing_of self.now.machines) }
    {
        if busy { 0 } else { self.packed_pacing() }
    }

    /// PC, X, Y, ISR and OSR of a machine.
    pub(crate) fn registers(&self, machine: u8) -> [u32; 5]
        requires { machine < 4 }
        ensures { result ≡ register_list (machine_of machine self.now.machines) }
    {
        let machine = self.machines.at(machine);
        [
            u32::from(machine.pc),
            machine.x,
            machine.y,
            machine.isr,
            machine.osr,
        ]
    }

    /// The levels and the enables of pins 0 to 29.
    pub(crate) fn outs(&self) -> [u32; 2]
        ensures { result ≡ outs_of self.now }
    {
        [self.levels & PINS, self.enables & PINS]
    }

    /// Both are in the same state. The inputs of the last cycle are no part of it.
    pub(crate) fn is_same(&self, other: &State) -> bool
        ensures { Decides result (self.now ≡ other.now) }
    {
        let machines = self.machines.is_same(&other.machines);
        let memory = self.seen.memory.is_same(&other.seen.memory);
        machines
            & memory
            & (self.seen.flags == other.seen.flags)
            & (self.seen.bypass == other.seen.bypass)
            & (self.levels == other.levels)
            & (self.enables == other.enables)
            & (self.tx_over == other.tx_over)
            & (self.rx_under == other.rx_under)
            & (self.inte0 == other.inte0)
            & (self.intf0 == other.intf0)
            & (self.inte1 == other.inte1)
            & (self.intf1 == other.intf1)
    }

    /// Takes the state of another block.
    pub(crate) fn copy_from(&mut self, other: &State)
        ensures { self.new ≡ other.now }
    {
        self.machines.copy_from(&other.machines);
        self.seen.copy_from(&other.seen);
        self.levels = other.levels;
        self.enables = other.enables;
        self.tx_over = other.tx_over;
        self.rx_under = other.rx_under;
        self.inte0 = other.inte0;
        self.intf0 = other.intf0;
        self.inte1 = other.inte1;
        self.intf1 = other.intf1;
    }
}
