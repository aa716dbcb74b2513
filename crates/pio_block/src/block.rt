//! The block as the rest of the machine sees it.

ghost use Rattle.std.specs.Prelude.{◌≡◌};
ghost use Rattle.pio_block.specs.Words.{word_of, is_allowed, effect_of};

use crate::inputs::Inputs;
use crate::state::State;
use crate::words::is_allowed;
use rp_base::{Registers, Reset};
use std::marker::Model;

/// A PIO block (RP2040 Datasheet, chapter 3).
#[derive(Drop)]
pub struct PioBlock {
    pub(crate) state: State,
    /// A machine is enabled, or a written word waits.
    pub(crate) busy: bool,
    /// The counts that pace DMA channels, in one number, where the block is not busy.
    pub(crate) counts: u64,
}

impl Model for PioBlock {
    ghost use Rattle.pio_block.specs.State.{State};
    ghost use Rattle.pio_block.specs.Beside.{StandBeside};

    ghost Value = { State };

    ghost view = { λ b. b.state };

    ghost invariant = { λ b. StandBeside b.busy b.counts b.state };
}

impl PioBlock {
    ghost use Rattle.std.specs.Prelude.{◌≡◌, ◌<◌, Decides};
    ghost use Rattle.pio_block.specs.State.{at_reset, machine_of, is_busy};
    ghost use Rattle.pio_block.specs.Cycle.{after_cycle};
    ghost use Rattle.pio_block.specs.Words.{word_of, effect_of, is_allowed, pacing_of, register_list, counter_set, outs_of, lines_of};
    ghost use Rattle.pio_block.specs.Beside.{packed_counts};

    /// The reset state: no machine is enabled, and all FIFOs are empty.
    pub fn new() -> PioBlock
        ensures { result ≡ at_reset }
    {
        let state = State::new();
        let counts = state.idle_counts(false);
        PioBlock {
            state,
            busy: false,
            counts,
        }
    }

    /// The word at an offset. None exactly where there is no such word.
    pub fn read(&self, offset: u16) -> Option<u32>
        ensures { result ≡ word_of offset self.now }
    {
        self.state.read(offset)
    }

    /// A read, or a write of this word, is allowed: there is such a word, and OUT_STICKY and INLINE_OUT_EN are not set.
    pub fn allows(&self, offset: u16, write: Option<u32>) -> bool
        ensures { result ≡ is_allowed offset write }
    {
        is_allowed(offset, write)
    }

    /// Does what a read, or a write of this word, does to the block. False, and nothing is changed, where it is not allowed.
    pub fn effect(&mut self, offset: u16, write: Option<u32>) -> bool
        ensures after { self.new ≡ effect_of offset write self.old }
        ensures allowed { result ≡ is_allowed offset write }
    {
        let allowed = self.state.effect(offset, write);
        self.busy = self.state.is_busy();
        self.counts = self.state.idle_counts(self.busy);
        allowed
    }

    /// The room left in the four TX FIFOs, then the words of the four RX FIFOs.
    pub fn pacing(&self) -> [u8; 8]
        ensures { result ≡ pacing_of self.now.machines }
    {
        self.state.pacing()
    }

    /// The same counts in one number, six bits each, the first one lowest.
    #[inline(always)]
    pub fn packed_pacing(&self) -> u64
        ensures { result ≡ packed_counts (pacing_of self.now.machines) }
    {
        if self.busy {
            self.state.packed_pacing()
        } else {
            self.counts
        }
    }

    /// PC, X, Y, ISR and OSR of a machine, 0 to 3.
    pub fn registers(&self, machine: u8) -> [u32; 5]
        requires { machine < 4 }
        ensures { result ≡ register_list (machine_of machine self.now.machines) }
    {
        self.state.registers(machine)
    }

    /// Sets the program counter of a machine, 0 to 3, to an address, 0 to 31.
    pub fn set_counter(&mut self, machine: u8, address: u8)
        requires machine { machine < 4 }
        requires address { address < 32 }
        ensures { self.new ≡ counter_set machine address self.old }
    {
        self.state.set_counter(machine, address);
        self.busy = self.state.is_busy();
        self.counts = self.state.idle_counts(self.busy);
    }

    /// What the machines have written to pins 0 to 29: the levels, and the enables.
    pub fn outs(&self) -> [u32; 2]
        ensures { result ≡ outs_of self.now }
    {
        self.state.outs()
    }

    /// The interrupt lines 0 and 1.
    #[inline(always)]
    pub fn lines(&self) -> [bool; 2]
        ensures { result ≡ lines_of self.now }
    {
        self.state.lines()
    }

    /// A cycle in which the block steps.
    #[inline(never)]
    pub(crate) fn step(&mut self, inputs: Inputs)
        ensures { self.new ≡ after_cycle inputs.now inputs.second self.old }
    {
        self.state.step(inputs);
        self.busy = self.state.is_busy();
        self.counts = self.state.idle_counts(self.busy);
    }

    /// A machine is enabled, or a written word waits.
    #[inline(always)]
    pub(crate) fn is_busy(&self) -> bool
        ensures { result ≡ is_busy self.now }
    {
        self.busy
    }

    /// Both are in the same state.
    #[tactic(auto, using(rp_base::proofs::Exact::seen))]
    pub fn is_same(&self, other: &PioBlock) -> bool
        ensures { Decides result (self.now ≡ other.now) }
    {
        self.state.is_same(&other.state)
    }

    /// Takes the state of another block.
    pub(crate) fn take_state(&mut self, other: &PioBlock)
        ensures { self.new ≡ other.now }
    {
        self.state.copy_from(&other.state);
        self.busy = other.busy;
        self.counts = other.counts;
    }
}

impl Reset for PioBlock {
    ghost use Rattle.pio_block.specs.State.{at_reset};

    ghost first = { at_reset };

    fn reset(&mut self) {
        *self = PioBlock::new();
    }
}

impl Registers<()> for PioBlock {
    ghost word = { λ offset _. word_of offset };

    ghost allowed = { λ offset write _. is_allowed offset write };

    ghost accessed = { effect_of };

    fn read(&self, _seen: &(), offset: u16) -> Option<u32> {
        self.read(offset)
    }

    fn allows(&self, offset: u16, write: Option<u32>) -> bool {
        self.allows(offset, write)
    }

    fn effect(&mut self, offset: u16, write: Option<u32>) -> bool {
        self.effect(offset, write)
    }
}
