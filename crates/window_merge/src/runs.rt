//! The reports of six runs alone, and what is left of their logs.

use dma_engine::Dma;
use lane_look::{LogLook, Report};
use m0_core::Core;
use outer_lane::Outer;
use pio_block::PioBlock;

/// The reports of the six lanes.
#[derive(Drop)]
pub struct Runs<'a> {
    /// Of core 0.
    pub core0: &'a Report<Core>,
    /// Of core 1.
    pub core1: &'a Report<Core>,
    /// Of the DMA engine.
    pub dma: &'a Report<Dma>,
    /// Of PIO block 0.
    pub pio0: &'a Report<PioBlock>,
    /// Of PIO block 1.
    pub pio1: &'a Report<PioBlock>,
    /// Of the peripherals.
    pub outer: &'a Report<Outer>,
}

/// What is left of their logs.
#[derive(Drop)]
pub struct Rests<'a> {
    /// Of core 0's.
    pub core0: LogLook<'a>,
    /// Of core 1's.
    pub core1: LogLook<'a>,
    /// Of the DMA engine's.
    pub dma: LogLook<'a>,
    /// Of PIO block 0's.
    pub pio0: LogLook<'a>,
    /// Of PIO block 1's.
    pub pio1: LogLook<'a>,
    /// Of the peripherals'.
    pub outer: LogLook<'a>,
}

impl Runs<'_> {
    ghost use Rattle.std.specs.Prelude.{◌≡◌};
    ghost use Rattle.window_merge.specs.Merging.{end_at};

    /// Some run has this length.
    pub(crate) fn end_at(&self, k: u16) -> bool
        ensures { result ≡ end_at self.now k }
    {
        k == self.core0.length
            || k == self.core1.length
            || k == self.dma.length
            || k == self.pio0.length
            || k == self.pio1.length
            || k == self.outer.length
    }
}

impl<'a> Rests<'a> {
    ghost use Rattle.std.specs.Prelude.{◌≡◌};
    ghost use Rattle.window_merge.specs.Merging.{logs_of};

    /// All of them.
    pub(crate) fn of(runs: &Runs<'a>) -> Rests<'a>
        ensures { result ≡ logs_of runs.now }
    {
        Rests {
            core0: LogLook::new(&runs.core0.log),
            core1: LogLook::new(&runs.core1.log),
            dma: LogLook::new(&runs.dma.log),
            pio0: LogLook::new(&runs.pio0.log),
            pio1: LogLook::new(&runs.pio1.log),
            outer: LogLook::new(&runs.outer.log),
        }
    }
}
