//! The machine: its state, its first state, and its readers.

ghost use Rattle.std.specs.Prelude.{◌≡◌};
ghost use Rattle.rp_machine.specs.State.{first_core};

use crate::loading::words_of;
use crate::look::word_at;
use bus_fabric::Fabric;
use dma_engine::Dma;
use lane_look::{Device, Lane, NoDevice};
use m0_core::Core;
use outer_lane::{Outer, World};
use pio_block::PioBlock;
use ram_banks::Ram;
use rp_base::Resettable;
use sio_block::Sio;
use std::alloc::{AllocError, Global};
use std::marker::Model;
use uf2_image::Image;

/// Core 0 before its first instruction, in Thumb state, with its stack at the end of SRAM.
fn first_core(entry: u32) -> Core
    ensures { result ≡ first_core entry }
{
    let mut core = Core::new(0);
    core.start(0, 0x2004_2000, entry | 1);
    core
}

/// Takes the state of another lane, with its bit of RESETS.
pub(crate) fn copy_lane<L: Lane<()>>(lane: &mut Resettable<L>, other: &Resettable<L>)
    ensures { lane.new ≡ other.now }
{
    lane.block.copy_from(&other.block);
    lane.held = other.held;
}

/// The whole machine between two cycles.
///
/// What a lane keeps of another part is what that part holds: the bits of RESETS beside the DMA engine and the PIO blocks and in the
/// peripherals, the levels and enables of SIO in the peripherals, and in core 1 whether its launcher has a word. The type keeps
/// this. Whoever changes the fields leaves it so where the machine is used whole again.
#[derive(Drop)]
pub struct Machine {
    /// The number of the cycle that is next.
    pub at: u64,
    /// SRAM.
    pub ram: Ram,
    /// Core 0.
    pub core0: Core,
    /// Core 1, asleep until the launcher starts it.
    pub core1: Core,
    /// The DMA engine.
    pub dma: Resettable<Dma>,
    /// PIO block 0.
    pub pio0: Resettable<PioBlock>,
    /// PIO block 1.
    pub pio1: Resettable<PioBlock>,
    /// The timer, both UARTs, the pads and the words of the device.
    pub outer: Outer,
    /// The single-cycle IO block.
    pub sio: Sio,
    /// The bus fabric.
    pub fabric: Fabric,
    /// RESET and WDSEL.
    pub resets: [u32; 2],
}

impl Model for Machine {
    ghost use Rattle.std.specs.Prelude.{slice_index};
    ghost use Rattle.rp_machine.specs.Copies.{Agree};
    ghost use Rattle.rp_machine.specs.State.{State};

    ghost Value = { State };

    ghost view = { λ m. record {
      cycle = m.at;
      sram = m.ram;
      core0 = m.core0;
      core1 = m.core1;
      dma = m.dma;
      pio0 = m.pio0;
      pio1 = m.pio1;
      outer = m.outer;
      sio = m.sio;
      fabric = m.fabric;
      resets = m.resets;
    } };

    // the copies in lanes and beside them of RESETS, of SIO and of its launcher agree with them
    ghost invariant = { λ m. Agree (slice_index m.resets 0) m.core1 m.dma.held m.pio0.held m.pio1.held m.outer
        m.sio };
}

impl Machine {
    ghost use Rattle.std.specs.Prelude.{◌≡◌, ◌≤◌, IfOk};
    ghost use Rattle.rp_base.specs.Map.{place_of};
    ghost use Rattle.uf2_image.specs.Uf2.{FitsSram};
    ghost use Rattle.rp_machine.specs.Sram.{ram_word};
    ghost use Rattle.rp_machine.specs.State.{first_state};
    ghost use Rattle.rp_machine.specs.Readers.{registers_of, pio_registers};

    /// The state before any program is loaded: SRAM holds the image and is 0 elsewhere, core 0 begins at the image's entry,
    /// core 1 is asleep, every block is out of reset, and the device has started.
    #[tactic(auto, unfolding(crate::specs::State::first_state))]
    pub(crate) fn first<X: Device>(
        alloc: Global,
        image: &Image,
        world: &World<'_, X>,
    ) -> Result<Machine, AllocError>
        requires { FitsSram image.now }
        ensures { IfOk result (λ machine. machine
            ≡ first_state (X.meaning world.now.device.now) image.now) }
    {
        let words = words_of(alloc, image.parts.as_slice())?;
        Ok(Machine {
            at: 0,
            ram: Ram::from_words(words),
            core0: first_core(image.entry),
            core1: Core::new(1),
            dma: Resettable::new(Dma::new()),
            pio0: Resettable::new(PioBlock::new()),
            pio1: Resettable::new(PioBlock::new()),
            outer: Outer::new(world.device),
            sio: Sio::new(),
            fabric: Fabric::new(),
            resets: [0; 2],
        })
    }

    /// The number of the cycle that is next.
    pub fn number(&self) -> u64
        ensures { result ≡ self.now.cycle }
    {
        self.at
    }

    /// R0 to R12, the active stack pointer, LR, PC and xPSR of a core, 0 or 1. None exactly where core 1 was asked for and is
    /// asleep.
    pub fn registers(&self, core: u8) -> Option<[u32; 17]>
        requires { core ≤ 1 }
        ensures { result ≡ registers_of core self.now }
    {
        if core == 0 {
            Some(self.core0.registers())
        } else if self.core1.is_asleep() {
            None
        } else {
            Some(self.core1.registers())
        }
    }

    /// The word of SRAM that holds an address. None exactly where the address is not in SRAM.
    pub fn word(&self, address: u32) -> Option<u32>
        ensures { result ≡ ram_word self.now.sram (place_of address) }
    {
        word_at(&self.ram, address)
    }

    /// The levels of the pads now, pad 0 in bit 0.
    pub fn pads(&self) -> u32
        ensures { result ≡ self.now.outer.pads.current }
    {
        self.outer.pads()
    }

    /// PC, X, Y, ISR and OSR of a machine, 0 to 3, of a PIO block, 0 or 1.
    pub fn pio(&self, block: u8, machine: u8) -> [u32; 5]
        requires block { block ≤ 1 }
        requires machine { machine ≤ 3 }
        ensures { result ≡ pio_registers block machine self.now }
    {
        if block == 0 {
            self.pio0.block.registers(machine)
        } else {
            self.pio1.block.registers(machine)
        }
    }

    /// Takes the state of another machine.
    pub fn copy_from(&mut self, other: &Machine)
        ensures { self.new ≡ other.now }
    {
        self.at = other.at;
        self.ram.copy_from(&other.ram);
        Lane::<()>::copy_from(&mut self.core0, &other.core0);
        Lane::<()>::copy_from(&mut self.core1, &other.core1);
        copy_lane(&mut self.dma, &other.dma);
        copy_lane(&mut self.pio0, &other.pio0);
        copy_lane(&mut self.pio1, &other.pio1);
        self.outer.copy_from(&other.outer);
        self.sio.copy_from(&other.sio);
        self.fabric = other.fabric;
        self.resets = other.resets;
    }

    /// Another machine in the same state.
    pub fn twin(&self, alloc: Global) -> Result<Machine, AllocError>
        ensures { IfOk result (λ machine. machine ≡ self.now) }
    {
        let mut machine = Machine {
            at: 0,
            ram: Ram::new(alloc)?,
            core0: Core::new(0),
            core1: Core::new(1),
            dma: Resettable::new(Dma::new()),
            pio0: Resettable::new(PioBlock::new()),
            pio1: Resettable::new(PioBlock::new()),
            outer: Outer::new(&NoDevice),
            sio: Sio::new(),
            fabric: Fabric::new(),
            resets: [0; 2],
        };
        machine.copy_from(self);
        Ok(machine)
    }
}
