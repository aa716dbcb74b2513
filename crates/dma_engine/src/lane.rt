//! The engine as a lane of the machine.

ghost use Rattle.std.specs.Prelude.{None};

use crate::awaited::Awaited;
use crate::begun::{Access, BegunTransfer};
use crate::dma::Dma;
use crate::finish::want;
use lane_look::{Lane, Look, Marks, Turn, Want};

impl Dma {
    ghost use Rattle.lane_look.specs.Asking.{Runs};
    ghost use Rattle.dma_engine.specs.Asks.{asks};

    /// Asks, and begins a cycle in the place of what was begun before.
    #[inline(always)]
    #[tactic(auto, using(crate::proofs::Unmoved::asks_nothing))]
    pub fn begin_into<K: Look>(&self, look: &mut K, begun: &mut BegunTransfer)
        ensures { Runs K.answers look.old (asks self.now) begun.new look.new }
    {
        match self.awaited {
            Awaited::RegisterWrite | Awaited::Credit => {
                begun.read = Access::Nothing;
                begun.write = Access::Nothing;
                begun.counts = 0;
            }
            _ => self.engine.ask(look, begun),
        }
    }
}

impl Lane<()> for Dma {
    ghost use Rattle.std.proofs.Common.{rules};
    ghost use Rattle.dma_engine.specs.Asks.{asks};
    ghost use Rattle.dma_engine.specs.Bounds.{two_at_most, reads_none};
    ghost use Rattle.dma_engine.specs.Cycle.{wanted, next};

    type Begun = BegunTransfer;

    ghost asks = { λ _ s cycle. asks s };

    ghost most = { 2 };

    ghost wanted = { wanted };

    ghost next = { λ _ s begun turns. next s begun turns };

    ghost marked = { λ _ s begun turns. None };

    #[inline(always)]
    fn begin<K: Look>(&self, _env: &(), _cycle: u64, look: &mut K) -> BegunTransfer {
        let mut begun = BegunTransfer::nothing();
        self.begin_into(look, &mut begun);
        begun
    }

    fn wants(begun: &BegunTransfer) -> [Want; 2] {
        [want(&begun.read), want(&begun.write)]
    }

    #[inline(always)]
    #[tactic(auto, using(crate::proofs::Unmoved::unmoved))]
    fn finish(&mut self, _env: &(), begun: &BegunTransfer, turns: [Turn; 2], _marks: &mut Marks) {
        match self.awaited {
            Awaited::RegisterWrite => {}
            Awaited::OtherCounts(counts) if counts == begun.counts && begun.is_nothing() => {}
            _ => self.move_on(begun, &turns),
        }
    }

    fn copy_from(&mut self, other: &Dma) {
        self.engine.copy_from(&other.engine);
        self.awaited = other.awaited;
    }

    ghost few = { Prim.search rules };

    ghost asks_at_most = { λ _ s cycle. two_at_most s };

    ghost reads_no_word = { λ _ s begun turns. reads_none s begun turns };
}
