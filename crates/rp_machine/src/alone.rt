//! A machine in which core 0 alone is at work: core 1 and the blocks beside it are quiet; and what core 0 and the peripherals begin.

use crate::begun::{begin_core, begin_dma, begin_lane};
use crate::machine::Machine;
use dma_engine::BegunTransfer;
use lane_look::Device;
use m0_core::Doing;
use outer_lane::{SeenOutputs, World};
use pio_block::lane::inputs_of;

impl Machine {
    ghost use Rattle.std.specs.Prelude.{◌≡◌, ◌+◌, ◌^◌, ◌<◌, false, Decides};
    ghost use Rattle.rp_machine.specs.Answers.{lines_of};
    ghost use Rattle.rp_machine.specs.Cycle.{begun};
    ghost use Rattle.dma_engine.specs.Quiet.{GivesNone};
    ghost use Rattle.m0_core.specs.Quiet.{IsQuiet as IsCoreQuiet};
    ghost use Rattle.rp_machine.specs.Alone.{AreBlocksQuiet, blocks_after, with_blocks, IsCore1Quiet, core1_after};
    ghost use Rattle.bus_fabric.specs.State.{has_hold};
    ghost use Rattle.lane_look.specs.declared.lane.Want.TheVariants.{Nothing};
    ghost use Rattle.m0_core.specs.Cycle.{want_of};

    /// For so many cycles from now on the DMA engine and both PIO blocks are quiet, as long as the counts of the UARTs and the levels
    /// of the pads stay. Any smaller number is right too.
    pub fn quiet_blocks(&self) -> u64
        ensures { AreBlocksQuiet self.now result }
    {
        let inputs = inputs_of(self.inputs());
        let pio0 = self.pio0.block.quiet(inputs);
        let pio = pio0.min(self.pio1.block.quiet(inputs));
        if pio == 0 {
            return 0;
        }
        let mut begun = BegunTransfer::nothing();
        begin_dma(self, &mut begun);
        pio.min(self.dma.block.quiet(&begun))
    }

    /// For so many cycles from now on core 1 is quiet, as long as its interrupt lines stay: `u64::MAX` where it is asleep. Any smaller
    /// number is right too.
    pub fn quiet_core1(&self) -> u64
        ensures { IsCore1Quiet self.now result }
    {
        if self.core1.is_asleep() {
            return u64::MAX;
        }
        let lines = self.lines(1);
        self.core1.quiet(lines, self.at)
    }

    /// So many cycles of core 1 at once from a first one on, in which it is quiet.
    pub fn pass_core1(&mut self, first: u64, n: u64)
        requires number { first + n < 2 ^ 64 }
        requires quiet { IsCoreQuiet (lines_of 1 self.old) self.old.core1 first n }
        ensures { self.new ≡ record self.old { core1 = core1_after first n self.old } }
    {
        if self.core1.is_asleep() {
            return;
        }
        let lines = self.lines(1);
        self.core1.pass(lines, first, n);
    }

    /// So many cycles of the DMA engine and both PIO blocks at once, in which they are quiet.
    pub fn pass_blocks(&mut self, n: u64)
        requires { GivesNone self.old.dma.block n }
        ensures { self.new ≡ with_blocks (blocks_after n self.old) self.old }
    {
        self.dma.block.pass(n);
        self.pio0.block.pass(n);
        self.pio1.block.pass(n);
    }

    /// What core 0 begins, whose interrupt lines are these, in the place of what it began before.
    #[inline(always)]
    #[tactic(auto, unfolding(crate::specs::Cycle::begun))]
    pub fn begin_core0(&self, lines: u32, core0: &mut Doing)
        requires { lines ≡ lines_of 0 self.now }
        ensures { core0.new ≡ (begun self.now).core0 }
    {
        begin_core(self, 0, lines, &self.core0, core0);
    }

    /// What the peripherals begin.
    #[inline(always)]
    #[tactic(auto, unfolding(crate::specs::Cycle::begun))]
    pub fn begin_outer<X: Device>(&self, world: &World<'_, X>) -> SeenOutputs
        ensures { result ≡ (begun self.now).outer }
    {
        begin_lane(self, 5, &self.outer, world)
    }

    /// Core 0, which has begun this, wants nothing, and no access lasts.
    #[inline(always)]
    pub fn is_bus_free(&self, core0: &Doing) -> bool
        ensures { Decides result ((want_of core0.now ≡ Nothing)
            × (has_hold self.now.fabric ≡ false)) }
    {
        core0.wants_nothing() && !self.fabric.holds()
    }
}
