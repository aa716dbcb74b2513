//! The words of the register blocks.

ghost use Rattle.std.specs.Prelude.{◌≡◌, ◌^◌, ◌<◌};
ghost use Rattle.rp_machine.specs.Registers.{plain_write};

use crate::machine::Machine;
use crate::part::Part;
use lane_look::Device;
use outer_lane::{SeenOutputs, World};
use rp_base::access::replicated;
use rp_base::alias::aliased;
use rp_base::bits::has_bit;
use rp_base::resets::{DMA, PIO0, PIO1};
use rp_base::{Registers, Request};

/// RESET of RESETS (RP2040 Datasheet, 2.14.3): a block whose bit is set is held in its reset state.
pub const RESET: u16 = 0x0;

/// WDSEL of RESETS: what the watchdog resets.
pub const WDSEL: u16 = 0x4;

/// RESET_DONE of RESETS: the blocks that are not held.
pub const RESET_DONE: u16 = 0x8;

/// The bits of RESET, one for each block.
const ALL_BLOCKS: u32 = 0x01ff_ffff;

/// The plain write that a request through an alias comes to, where the word reads so at the start; None for a read.
pub(crate) fn plain_write(request: &Request, alias: u8, word: u32) -> Option<u32>
    ensures { result ≡ plain_write request.now request.now.write alias word }
{
    match request.write {
        Some(value) => Some(aliased(alias, word, replicated(request.size, value))),
        None => None,
    }
}

/// A word of a block that sees nothing but itself.
fn word<B: Registers<()>>(block: &B, offset: u16) -> Option<u32>
    ensures { result ≡ B.word offset tt block.now }
{
    block.read(&(), offset)
}

/// Does what a read, or a plain write of this word, does to such a block.
fn access<B: Registers<()>>(block: &mut B, offset: u16, write: Option<u32>)
    ensures { block.new ≡ B.accessed offset write block.old }
{
    let _ = block.effect(offset, write);
}

impl Machine {
    ghost use Rattle.std.specs.Prelude.{◌≡◌, Some, ◌<◌, ◌^◌};
    ghost use Rattle.outer_lane.specs.Setting.{setting};
    ghost use Rattle.rp_machine.specs.Registers.{resets_rows, with_reset, part_word, part_allows, part_accessed};
    ghost use Rattle.rp_machine.specs.PartMeant.{meant};
    ghost use Rattle.rp_base.specs.Rows.{word_at, effect_at};

    /// RESET, WDSEL or RESET_DONE.
    fn resets_word(&self, offset: u16) -> Option<u32>
        ensures { result ≡ word_at resets_rows tt offset self.now }
    {
        match offset {
            RESET => Some(self.resets[0]),
            WDSEL => Some(self.resets[1]),
            RESET_DONE => Some(ALL_BLOCKS - self.resets[0]),
            _ => None,
        }
    }

    /// What a word of a part reads as in a cycle in which the peripherals have seen this. None where the part has no such
    /// word.
    #[tactic(auto, unfolding(crate::specs::Registers::part_word))]
    pub(crate) fn part_word<X: Device>(
        &self,
        world: &World<'_, X>,
        seen: &SeenOutputs,
        part: Part,
        offset: u16,
    ) -> Option<u32>
        ensures { result ≡ part_word (meant part) offset (setting X.meaning world.now) seen.now self.now }
    {
        match part {
            Part::Resets => self.resets_word(offset),
            Part::Fabric => word(&self.fabric, offset),
            Part::Dma => word(&self.dma, offset),
            Part::Pio0 => word(&self.pio0, offset),
            Part::Pio1 => word(&self.pio1, offset),
            Part::Outer(block) => self.outer.read(world, seen, block, offset),
        }
    }

    /// A read, or a plain write of this word, is allowed where the part has the word.
    pub(crate) fn part_allows(&self, part: Part, offset: u16, write: Option<u32>) -> bool
        ensures { result ≡ part_allows (meant part) offset write }
    {
        match part {
            Part::Pio0 => self.pio0.block.allows(offset, write),
            Part::Pio1 => self.pio1.block.allows(offset, write),
            _ => true,
        }
    }

    /// Writes RESET: blocks get their reset states, and are held there or let go.
    #[tactic(auto, unfolding(crate::specs::Registers::with_reset))]
    fn set_reset(&mut self, bits: u32)
        requires { bits < 2 ^ 25 }
        ensures { self.new ≡ with_reset bits self.old }
    {
        self.dma.set_held(has_bit(bits, DMA));
        self.pio0.set_held(has_bit(bits, PIO0));
        self.pio1.set_held(has_bit(bits, PIO1));
        self.outer.reset(bits);
        self.resets[0] = bits;
    }

    /// Writes RESET or WDSEL.
    fn write_resets(&mut self, offset: u16, word: u32)
        ensures { self.new ≡ effect_at resets_rows offset (Some word) self.old }
    {
        match offset {
            RESET => self.set_reset(word & ALL_BLOCKS),
            WDSEL => self.resets[1] = word,
            _ => {}
        }
    }

    /// Does what a read, or a plain write of this word, does to RESETS.
    fn access_resets(&mut self, offset: u16, write: Option<u32>)
        ensures { self.new ≡ effect_at resets_rows offset write self.old }
    {
        if let Some(word) = write {
            self.write_resets(offset, word);
        }
    }

    /// Does what a read, or a plain write of this word, does.
    #[tactic(auto, unfolding(crate::specs::Registers::part_accessed))]
    pub(crate) fn access_part(&mut self, part: Part, offset: u16, write: Option<u32>)
        ensures { self.new ≡ part_accessed (meant part) offset write self.old }
    {
        match part {
            Part::Resets => self.access_resets(offset, write),
            Part::Fabric => access(&mut self.fabric, offset, write),
            Part::Dma => access(&mut self.dma, offset, write),
            Part::Pio0 => access(&mut self.pio0, offset, write),
            Part::Pio1 => access(&mut self.pio1, offset, write),
            Part::Outer(block) => self.outer.effect(block, offset, write),
        }
    }
}
