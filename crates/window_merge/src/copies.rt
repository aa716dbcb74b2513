//! What a lane that runs alone can ask of the rest of the machine, copied from a state.

ghost use Rattle.std.specs.Prelude.{◌≡◌};
ghost use Rattle.rp_base.specs.Map.{place_of};
ghost use Rattle.rp_machine.specs.Cycle.{stored};
ghost use Rattle.rp_machine.specs.Deeds.{stored_at};
ghost use Rattle.rp_machine.specs.Sram.{half_of};
ghost use Rattle.rp_machine.specs.Answers.{word_in};
ghost use Rattle.window_merge.specs.Around.{copies_of, copied_word, stored_in};

use lane_look::{Around, Ask, Want};
use ram_banks::Ram;
use rp_base::Request;
use rp_base::access::{lanes_at, replicated};
use rp_base::map::{Spot, place};
use rp_machine::Machine;
use std::alloc::{AllocError, Global};

/// What a lane can ask: SRAM, its interrupt lines, the counts that pace DMA channels, the input words of the pins, and what the
/// PIO blocks put out.
#[derive(Drop)]
pub struct Copies {
    /// SRAM, with what the lane wrote since. None for a lane that asks for no word of it.
    pub ram: Option<Ram>,
    /// The interrupt lines of the lane's core.
    pub lines: u128,
    /// The counts that pace DMA channels, six bits each.
    pub pacing: u128,
    /// The input words, that of the levels now lowest.
    pub inputs: u128,
    /// What PIO block 0 puts out, the levels lowest.
    pub pio0: u128,
    /// What PIO block 1 puts out.
    pub pio1: u128,
}

/// The halfword of a word at an address.
#[inline(always)]
pub(crate) fn half_of(word: u32, address: u32) -> u32
    ensures { result ≡ half_of word address }
{
    if address / 2 % 2 == 0 {
        word % 0x1_0000
    } else {
        word / 0x1_0000
    }
}

/// The word of SRAM that holds an address, 0 where there is none.
fn word_in(ram: &Ram, address: u32) -> u32
    ensures { result ≡ word_in ram.now address }
{
    match place(address) {
        Spot::Ram { index, .. } => ram.read(index),
        Spot::Reg { .. } | Spot::Sio { .. } | Spot::Ppb { .. } | Spot::Outside => 0,
    }
}

/// The word of a copy of SRAM that holds an address, 0 where there is none.
fn copied_word(copy: &Option<Ram>, address: u32) -> u32
    ensures { result ≡ copied_word copy.now address }
{
    match copy {
        Some(ram) => word_in(ram, address),
        None => 0,
    }
}

/// Does an access to SRAM.
fn store(ram: &mut Ram, request: &Request)
    ensures { ram.new ≡ stored (stored_at request.now request.now.write
        (place_of request.now.address)) ram.old }
{
    if let Some(value) = request.write {
        if let Spot::Ram { index, .. } = place(request.address) {
            let lanes = lanes_at(request.size, request.address);
            ram.write(index, lanes, replicated(request.size, value));
        }
    }
}

/// Does an access to a copy of SRAM, if there is one.
fn store_in(copy: &mut Option<Ram>, request: &Request)
    ensures { copy.new ≡ stored_in request.now copy.old }
{
    if let Some(ram) = copy {
        store(ram, request);
    }
}

impl Around for Copies {
    ghost use Rattle.window_merge.specs.Around.{copied_answer, copied_store};

    ghost answer = { copied_answer };

    ghost stored = { copied_store };

    #[inline(always)]
    fn answer(&self, ask: Ask) -> u128 {
        match ask {
            Ask::Lines => self.lines,
            Ask::Half(address) => u128::from(half_of(copied_word(&self.ram, address), address)),
            Ask::Word(address) => u128::from(copied_word(&self.ram, address)),
            Ask::Pacing => self.pacing,
            Ask::Inputs => self.inputs,
            Ask::Outs(block) => { if block == 0 { self.pio0 } else { self.pio1 } }
        }
    }

    #[inline(always)]
    fn store(&mut self, want: &Want) {
        if let Want::Ram(request) = want {
            store_in(&mut self.ram, request);
        }
    }
}

impl Copies {
    ghost use Rattle.std.specs.Prelude.{◌≡◌, IfOk, is_some};
    ghost use Rattle.window_merge.specs.Kinds.{asks_sram};
    ghost use Rattle.window_merge.specs.Around.{copies_of};

    /// Copies of nothing, with room for SRAM where a lane of that number asks for its words.
    pub fn new(alloc: Global, lane: u8) -> Result<Copies, AllocError>
        ensures { IfOk result (λ copies. is_some copies.ram ≡ asks_sram lane) }
    {
        let ram = if lane <= 2 {
            Some(Ram::new(alloc)?)
        } else {
            None
        };
        Ok(Copies {
            ram,
            lines: 0,
            pacing: 0,
            inputs: 0,
            pio0: 0,
            pio1: 0,
        })
    }

    /// Takes what a lane of that number can ask of a machine.
    pub fn take(&mut self, machine: &Machine, lane: u8)
        requires { is_some self.old.ram ≡ asks_sram lane }
        ensures { self.new ≡ copies_of lane machine.now }
    {
        if let Some(ram) = &mut self.ram {
            ram.copy_from(&machine.ram);
        }
        self.take_answers(machine, lane);
    }

    /// Takes the answers but for those of SRAM.
    pub(crate) fn take_answers(&mut self, machine: &Machine, lane: u8)
        ensures { self.new ≡ record (copies_of lane machine.now) { ram = self.old.ram } }
    {
        self.lines = machine.answer(lane, Ask::Lines);
        self.pacing = machine.answer(lane, Ask::Pacing);
        self.inputs = machine.answer(lane, Ask::Inputs);
        self.pio0 = machine.answer(lane, Ask::Outs(0));
        self.pio1 = machine.answer(lane, Ask::Outs(1));
    }
}
