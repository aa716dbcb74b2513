//! The first state of a run, with the PIO programs that are loaded before the first cycle.

ghost use Rattle.std.specs.Prelude.{◌≡◌, ◌+◌, ◌≤◌, ◌<◌, length};
ghost use Rattle.rp_base.specs.Word.{bit_number};
ghost use Rattle.rp_machine.specs.Boot.{relocated, words_loaded, execctrl_of, pinctrl_of, block_loaded, IsLoad};

use crate::load::PioLoad;
use crate::machine::Machine;
use lane_look::Device;
use outer_lane::World;
use pio_block::PioBlock;
use pio_block::registers::{INSTR_MEM0, SM_BYTES, SM0_EXECCTRL, SM0_PINCTRL};
use pio_program::Program;
use pio_words::SideConfig;
use std::alloc::{AllocError, Global};
use uf2_image::Image;

/// SET_COUNT of PINCTRL at reset, which a program leaves.
const SET_COUNT_AT_RESET: u32 = 5 << 26;

/// A word of a program that stands at an offset: the low five bits of a jump are raised by it, modulo 32.
fn relocated(offset: u8, word: u16) -> u16
    ensures { result ≡ relocated offset word }
{
    if word / 0x2000 == 0 {
        word / 32 * 32 + (word + u16::from(offset)) % 32
    } else {
        word
    }
}

/// Writes the words of a program to a block's memory.
fn load_words(pio: &mut PioBlock, offset: u8, words: &[u16])
    requires { offset + length words.now ≤ 32 }
    ensures { pio.new ≡ words_loaded offset offset words.now pio.old }
{
    let mut at = offset;
    for word in words {
        let _ = pio.effect(
            INSTR_MEM0 + u16::from(at) * 4,
            Some(u32::from(relocated(offset, *word))),
        );
        at += 1;
    }
}

/// EXECCTRL of a machine that runs a program at an offset.
fn execctrl_of(offset: u8, program: &Program) -> u32
    requires wrap { program.now.wrap + offset < 32 }
    requires target { program.now.target + offset < 32 }
    ensures { result ≡ execctrl_of offset program.now }
{
    u32::from(program.side.opt) * 0x4000_0000
        + u32::from(program.side.pindirs) * 0x2000_0000
        + u32::from(program.wrap + offset) * 0x1000
        + u32::from(program.target + offset) * 0x80
}

/// PINCTRL of a machine whose program has this side-set.
fn pinctrl_of(side: &SideConfig) -> u32
    requires { side.now.count + bit_number side.now.opt ≤ 5 }
    ensures { result ≡ pinctrl_of side.now }
{
    (u32::from(side.count) + u32::from(side.opt)) * 0x2000_0000 + SET_COUNT_AT_RESET
}

/// Loads a program for a machine of a block.
#[tactic(auto, unfolding(crate::specs::Boot::block_loaded))]
fn load_block(pio: &mut PioBlock, load: &PioLoad)
    requires { IsLoad load.now }
    ensures { pio.new ≡ block_loaded load.now pio.old }
{
    let machine = u16::from(load.machine) * SM_BYTES;
    let execctrl = execctrl_of(load.offset, &load.program);
    let pinctrl = pinctrl_of(&load.program.side);
    load_words(pio, load.offset, load.program.words.as_slice());
    let _ = pio.effect(SM0_EXECCTRL + machine, Some(execctrl));
    let _ = pio.effect(SM0_PINCTRL + machine, Some(pinctrl));
    pio.set_counter(load.machine, load.offset);
}

impl Machine {
    ghost use Rattle.std.specs.Prelude.{◌≡◌, IfOk};
    ghost use Rattle.uf2_image.specs.Uf2.{FitsSram};
    ghost use Rattle.rp_machine.specs.Boot.{IsLoad, AreLoads, with_load, with_loads, start};

    /// Loads a program.
    fn load(&mut self, load: &PioLoad)
        requires { IsLoad load.now }
        ensures { self.new ≡ with_load load.now self.old }
    {
        if load.block == 0 {
            load_block(&mut self.pio0.block, load);
        } else {
            load_block(&mut self.pio1.block, load);
        }
    }

    /// Loads programs, one after another.
    fn load_all(&mut self, loads: &[PioLoad])
        requires { AreLoads loads.now }
        ensures { self.new ≡ with_loads loads.now self.old }
    {
        for load in loads {
            self.load(load);
        }
    }

    /// The first state: SRAM holds the image and is 0 elsewhere, core 0 begins at the image's entry, core 1 is asleep, every
    /// block is out of reset, the device has started, and the PIO blocks hold the programs.
    ///
    /// # Errors
    ///
    /// Want of memory.
    #[tactic(auto, unfolding(crate::specs::Boot::start))]
    pub fn boot<X: Device>(
        alloc: Global,
        image: &Image,
        loads: &[PioLoad],
        world: &World<'_, X>,
    ) -> Result<Machine, AllocError>
        requires image { FitsSram image.now }
        requires loads { AreLoads loads.now }
        ensures { IfOk result (λ machine. machine
            ≡ start (X.meaning world.now.device.now) image.now loads.now) }
    {
        let mut machine = Machine::first(alloc, image, world)?;
        machine.load_all(loads);
        Ok(machine)
    }
}
