//! The words of the register blocks.

use crate::outer::Outer;
use crate::step::driven_by;
use crate::world::{SeenOutputs, World};
use arrayvec::ArrayVec;
use io_bank::Outs;
use io_bank::registers::{PAD_GPIO29, PADS_BANK0};
use lane_look::Device;
use rp_base::map::Block;

/// The last offset of PADS_BANK0.
const LAST_PAD: u16 = PAD_GPIO29 - PADS_BANK0;

impl Outer {
    ghost use Rattle.std.specs.Prelude.{◌≡◌};
    ghost use Rattle.io_bank.specs.Words.{effect_of};
    ghost use Rattle.outer_lane.specs.BroughtUp.{blocks_of, with_blocks, blocks_accessed};
    ghost use Rattle.outer_lane.specs.Quiet.{is_lasting_read};
    ghost use Rattle.outer_lane.specs.Setting.{setting};
    ghost use Rattle.outer_lane.specs.Step.{wires_of};
    ghost use Rattle.outer_lane.specs.Words.{outs_now, pads_word, own_word, outer_word, outer_allowed, outer_accessed};

    /// The word at an offset in a register block as it reads in this cycle. None where the block has no such word, or is
    /// none of the peripherals.
    #[tactic(auto, unfolding(crate::specs::Words::outer_word, crate::specs::Words::own_word), using(crate::proofs::PadWords::none_there))]
    pub fn read<X: Device>(
        &self,
        world: &World<'_, X>,
        seen: &SeenOutputs,
        block: Block,
        offset: u16,
    ) -> Option<u32>
        ensures { result ≡ outer_word block offset (setting X.meaning world.now) seen.now self.now }
    {
        match block {
            Block::IoBank0 if offset < PADS_BANK0 => self.read_pads(world, seen, offset),
            Block::PadsBank0 if offset <= LAST_PAD => {
                self.read_pads(world, seen, PADS_BANK0 + offset)
            }
            _ => self.blocks.read(block, offset),
        }
    }

    /// The word at an offset of the timer or of a UART. None where the block has no such word, or is none of these.
    #[inline(always)]
    #[tactic(auto, unfolding(crate::specs::Words::own_word))]
    pub fn read_own(&self, block: Block, offset: u16) -> Option<u32>
        ensures { result ≡ own_word block offset self.now }
    {
        self.blocks.read(block, offset)
    }

    /// A read at this offset of a UART changes nothing and reads the same, as long as the peripherals are quiet. False of any other block.
    #[inline(always)]
    pub fn is_lasting_read(&self, block: Block, offset: u16) -> bool
        ensures { result ≡ is_lasting_read block offset self.now }
    {
        match block {
            Block::Timer => false,
            _ => self.blocks.is_pure_read(block, offset),
        }
    }

    /// A word of IO_BANK0, or from there on of PADS_BANK0.
    #[tactic(auto, unfolding(crate::specs::Words::pads_word))]
    fn read_pads<X: Device>(
        &self,
        world: &World<'_, X>,
        seen: &SeenOutputs,
        offset: u16,
    ) -> Option<u32>
        ensures { result ≡ pads_word offset (setting X.meaning world.now) seen.now self.now }
    {
        let outs = self.outs_now(world, seen);
        self.pads.read(offset, &outs)
    }

    /// The outputs of all parts in this cycle.
    fn outs_now<X: Device>(&self, world: &World<'_, X>, seen: &SeenOutputs) -> Outs
        ensures { result ≡ outs_now (setting X.meaning world.now) seen.now self.now }
    {
        let wires = driven_by(world.device, &self.device, seen.cycle, self.pads.pads());
        self.outs(&wires, seen)
    }

    /// A copy of the device's words.
    pub(crate) fn words(&self) -> ArrayVec<u32, 128>
        ensures { result.items ≡ self.now.device }
    {
        let mut words = ArrayVec::new();
        let _ = words.try_extend_from_slice(self.device.as_slice());
        words
    }

    /// A read, or a write of a word, is allowed: the block is one of the peripherals and has such a word, whether or not it
    /// is held.
    #[tactic(auto, unfolding(crate::specs::Words::outer_allowed), using(crate::proofs::PadWords::no_pad_word))]
    pub fn allows(&self, block: Block, offset: u16, write: Option<u32>) -> bool
        ensures { result ≡ outer_allowed block offset }
    {
        match block {
            Block::IoBank0 => offset < PADS_BANK0 && self.pads.allows(offset, write),
            Block::PadsBank0 => offset <= LAST_PAD && self.pads.allows(PADS_BANK0 + offset, write),
            Block::Uart0 => self.blocks.blocks.uart0.block.allows(offset, write),
            Block::Uart1 => self.blocks.blocks.uart1.block.allows(offset, write),
            Block::Timer => self.blocks.blocks.timer.block.allows(offset, write),
            _ => false,
        }
    }

    /// Does what a read, or a write of this word, does to a register block. Nothing is changed where the block has no such
    /// word, or is none of the peripherals.
    #[tactic(auto, unfolding(crate::specs::Words::outer_accessed), using(crate::proofs::PadWords::no_pad_word))]
    pub fn effect(&mut self, block: Block, offset: u16, write: Option<u32>)
        ensures { self.new ≡ outer_accessed block offset write self.old }
    {
        match block {
            Block::IoBank0 if offset < PADS_BANK0 => self.access_pads(offset, write),
            Block::PadsBank0 if offset <= LAST_PAD => self.access_pads(PADS_BANK0 + offset, write),
            _ => self.access_blocks(block, offset, write),
        }
    }

    /// Does what a read, or a write of this word, does to the pads.
    #[inline(never)]
    fn access_pads(&mut self, offset: u16, write: Option<u32>)
        ensures { self.new ≡ record self.old { pads = effect_of offset write self.old.pads } }
    {
        self.stays = false;
        let _ = self.pads.effect(offset, write);
        self.blocks
            .tell(self.pads.receive_level(0), self.pads.receive_level(1));
    }

    /// Does what a read, or a write of this word, does to the timer or a UART.
    #[inline(always)]
    #[tactic(auto, using(crate::proofs::BroughtUp::read_stays))]
    fn access_blocks(&mut self, block: Block, offset: u16, write: Option<u32>)
        ensures { self.new ≡ with_blocks (blocks_accessed block offset write (blocks_of self.old)) self.old }
    {
        if write.is_none() && self.blocks.is_pure_read(block, offset) {
            return;
        }
        self.access_changing(block, offset, write);
    }

    /// The same, where something may change.
    #[inline(never)]
    fn access_changing(&mut self, block: Block, offset: u16, write: Option<u32>)
        ensures { self.new ≡ with_blocks (blocks_accessed block offset write (blocks_of self.old)) self.old }
    {
        self.blocks.access(block, offset, write);
        let uarts = self.blocks.outs();
        let same = self.drivers.has_uarts(uarts);
        self.stays &= same;
    }
}
