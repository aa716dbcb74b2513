//! For how long a block is quiet, and many cycles at once.

use crate::block::PioBlock;
use crate::inputs::Inputs;
use crate::state::State;

impl State {
    ghost use Rattle.std.specs.Prelude.{◌≡◌};
    ghost use Rattle.pio_block.specs.Quiet.{HasWords, IsQuiet, block_after};

    /// The flags are a byte, and the levels and enables words. It costs nothing.
    #[inline(always)]
    fn fact_has_words(&self)
        ensures { HasWords self.now }
    {
        let (_flags, _levels, _enables) = (self.seen.flags, self.levels, self.enables);
    }

    /// For so many cycles from now on all machines only wait. That one stalls is known where the inputs are those of its last cycle.
    fn quiet(&self, inputs: Inputs) -> u64
        ensures { IsQuiet inputs self.now result }
    {
        self.fact_has_words();
        if self.seen.inputs == [inputs.now, inputs.second] {
            self.machines.quiet(&self.seen, self.levels, self.enables)
        } else {
            self.machines.try_none()
        }
    }

    /// So many cycles at once, in which all machines only wait.
    fn pass(&mut self, n: u64)
        ensures { self.new ≡ block_after n self.old }
    {
        self.machines.pass(n);
    }
}

impl PioBlock {
    ghost use Rattle.std.specs.Prelude.{◌≡◌};
    ghost use Rattle.pio_block.specs.Quiet.{IsQuiet, block_after};

    /// For so many cycles from now on each machine of the block only waits, as long as these are its inputs: it tries no word, or stalls on
    /// one, so that only dividers and delays go on, and the block shows the same. Any smaller number is right too.
    #[inline(always)]
    #[tactic(auto, using(crate::proofs::Between::idle_quiet))]
    pub fn quiet(&self, inputs: Inputs) -> u64
        ensures { IsQuiet inputs self.now result }
    {
        if self.busy {
            self.state.quiet(inputs)
        } else {
            self.state.fact_has_words();
            u64::MAX
        }
    }

    /// So many cycles at once, in which each machine of the block only waits.
    #[inline(always)]
    #[tactic(auto, using(crate::proofs::Between::idle_stays, crate::proofs::Between::busy_stays))]
    pub fn pass(&mut self, n: u64)
        ensures { self.new ≡ block_after n self.old }
    {
        if self.busy {
            self.state.pass(n);
        }
    }
}
