//! What the machine answers a lane.

ghost use Rattle.std.specs.Prelude.{◌≡◌};
ghost use Rattle.rp_base.specs.Map.{place_of};
ghost use Rattle.rp_machine.specs.Sram.{half_of, ram_word};
ghost use Rattle.rp_machine.specs.Answers.{word_in, answer_of};

use crate::machine::Machine;
use lane_look::{Ask, Look};
use ram_banks::Ram;
use rp_base::map::{Spot, place};

/// The halfword of a word at an address.
#[inline(always)]
fn half_at(word: u32, address: u32) -> u16
    ensures { result ≡ half_of word address }
{
    if address / 2 % 2 == 0 {
        (word % 0x1_0000) as u16
    } else {
        (word / 0x1_0000) as u16
    }
}

/// The word of SRAM that holds an address. None exactly where the address is not in SRAM. Most are in its striped view, which
/// costs one test.
#[inline(always)]
#[tactic(auto, unfolding(rp_base::specs::Map::place_of))]
pub(crate) fn word_at(ram: &Ram, address: u32) -> Option<u32>
    ensures { result ≡ ram_word ram.now (place_of address) }
{
    if 0x2000_0000 <= address && address <= 0x2003_ffff {
        return Some(ram.read((address - 0x2000_0000) / 4));
    }
    match place(address) {
        Spot::Ram { index, .. } => Some(ram.read(index)),
        Spot::Reg { .. } | Spot::Sio { .. } | Spot::Ppb { .. } | Spot::Outside => None,
    }
}

/// The word of SRAM that holds an address, 0 where there is none.
#[inline(always)]
fn word_in(ram: &Ram, address: u32) -> u32
    ensures { result ≡ word_in ram.now address }
{
    word_at(ram, address).unwrap_or(0)
}

/// What a lane sees of the state at the start of a cycle.
#[derive(Drop)]
pub(crate) struct MachineLook<'a> {
    /// The number of the lane.
    pub(crate) lane: u8,
    /// The machine at the start of the cycle.
    pub(crate) machine: &'a Machine,
}

impl Machine {
    ghost use Rattle.std.specs.Prelude.{◌≡◌};
    ghost use Rattle.rp_machine.specs.Answers.{answer_of, lines_of};

    /// The interrupt lines of a core that asks for them, and was not told before.
    #[inline(never)]
    fn lines_asked(&self, core: u8) -> u32
        ensures { result ≡ lines_of core self.now }
    {
        self.lines(core)
    }

    /// What the state answers a lane, by its number: 0 and 1 are the cores, 2 is the DMA engine, 3 and 4 are the PIO blocks,
    /// and 5 has the peripherals.
    #[inline(always)]
    pub fn answer(&self, lane: u8, ask: Ask) -> u128
        ensures { result ≡ answer_of lane self.now ask }
    {
        match ask {
            Ask::Lines => u128::from(self.lines_asked(lane)),
            Ask::Half(address) => u128::from(half_at(word_in(&self.ram, address), address)),
            Ask::Word(address) => u128::from(word_in(&self.ram, address)),
            Ask::Pacing => self.pacing(),
            Ask::Inputs => self.inputs(),
            Ask::Outs(block) => self.outs(block),
        }
    }
}

impl Look for MachineLook<'_> {
    ghost answers = { λ old ask answer new. (answer ≡ answer_of old.lane old.machine.now ask)
        × (new ≡ old) };

    #[inline(always)]
    fn ask(&mut self, ask: Ask) -> u128 {
        self.machine.answer(self.lane, ask)
    }
}
