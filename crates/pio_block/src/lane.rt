//! The block as a lane of the machine.

ghost use Rattle.std.specs.Prelude.{◌≡◌};
ghost use Rattle.pio_block.specs.Cycle.{inputs_of};

use crate::block::PioBlock;
use crate::inputs::Inputs;
use lane_look::{Ask, Lane, Look, Marks, Turn, Want};

/// The two words of an answer, which the machine gives to `Ask::Inputs`.
pub fn inputs_of(answer: u128) -> Inputs
    ensures { result ≡ inputs_of answer }
{
    Inputs {
        now: (answer & 0xffff_ffff) as u32,
        second: ((answer >> 32) & 0xffff_ffff) as u32,
    }
}

impl Lane<()> for PioBlock {
    ghost use Rattle.std.specs.Prelude.{None};
    ghost use Rattle.std.proofs.Common.{refl, rules};
    ghost use Rattle.pio_block.specs.Cycle.{asks, wanted, next};
    ghost use Rattle.pio_block.specs.Bounds.{one_at_most};

    type Begun = Option<Inputs>;

    ghost asks = { λ _ s cycle. asks s };

    ghost most = { 1 };

    ghost wanted = { λ _. wanted };

    ghost next = { λ _ s begun turns. next begun s };

    ghost marked = { λ _ s begun turns. None };

    #[tactic(auto, unfolding(crate::specs::Cycle::asks))]
    fn begin<K: Look>(&self, _env: &(), _cycle: u64, look: &mut K) -> Option<Inputs> {
        if self.is_busy() {
            Some(inputs_of(look.ask(Ask::Inputs)))
        } else {
            None
        }
    }

    fn wants(_begun: &Option<Inputs>) -> [Want; 2] {
        [Want::Nothing, Want::Nothing]
    }

    #[inline(always)]
    #[tactic(auto, unfolding(crate::specs::Cycle::next))]
    fn finish(&mut self, _env: &(), begun: &Option<Inputs>, _turns: [Turn; 2], _marks: &mut Marks) {
        if let Some(inputs) = *begun {
            self.step(inputs);
        }
    }

    fn copy_from(&mut self, other: &PioBlock) {
        self.take_state(other);
    }

    ghost few = { Prim.search rules };

    ghost asks_at_most = { λ _ s cycle. one_at_most s };

    ghost reads_no_word = { λ _ s begun turns. refl };
}
