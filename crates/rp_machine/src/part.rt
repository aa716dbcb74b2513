//! The parts of the machine that register blocks stand in.

ghost use Rattle.std.specs.Prelude.{◌≡◌};
ghost use Rattle.rp_machine.specs.PartMeant.{meant};
ghost use Rattle.rp_machine.specs.Registers.{part_of};

use rp_base::map::Block;

/// A part of the machine that has register blocks.
#[derive(Clone, Copy)]
pub(crate) enum Part {
    /// RESETS, which reaches all of them.
    Resets,
    /// The bus fabric.
    Fabric,
    /// The DMA engine.
    Dma,
    /// PIO block 0.
    Pio0,
    /// PIO block 1.
    Pio1,
    /// The peripherals, by one of their blocks.
    Outer(Block),
}

/// The part that a block stands in.
#[inline(always)]
pub(crate) fn part_of(block: Block) -> Part
    ensures { meant result ≡ part_of block }
{
    match block {
        Block::Resets => Part::Resets,
        Block::Busctrl => Part::Fabric,
        Block::Dma => Part::Dma,
        Block::Pio0 => Part::Pio0,
        Block::Pio1 => Part::Pio1,
        _ => Part::Outer(block),
    }
}
