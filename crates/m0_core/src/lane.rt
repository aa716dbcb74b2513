//! The core as a lane of the machine.

ghost use Rattle.std.specs.Prelude.{None};
ghost use Rattle.std.proofs.Common.{rules};
ghost use Rattle.m0_core.specs.Fetch.{asks};
ghost use Rattle.m0_core.specs.Cycle.{wanted, next};
ghost use Rattle.m0_core.specs.Bounds.{four_at_most, reads_none};

use crate::doing::{Act, Doing};
use crate::finish::{is_idle, want};
use crate::processor::Core;
use lane_look::{Lane, Look, Marks, Turn, Want};

impl Lane<()> for Core {
    type Begun = Doing;

    ghost asks = { λ _ s cycle. asks s cycle };

    ghost most = { 4 };

    ghost wanted = { wanted };

    ghost next = { λ _ s begun turns. next s begun turns };

    ghost marked = { λ _ s begun turns. None };

    #[inline(always)]
    fn begin<K: Look>(&self, _env: &(), cycle: u64, look: &mut K) -> Doing {
        let mut begun = Doing::nothing();
        self.begin_into(cycle, look, &mut begun);
        begun
    }

    #[inline(always)]
    fn wants(begun: &Doing) -> [Want; 2] {
        [want(begun), Want::Nothing]
    }

    #[inline(always)]
    #[tactic(auto, unfolding(crate::specs::Cycle::next))]
    fn finish(&mut self, _env: &(), begun: &Doing, turns: [Turn; 2], _marks: &mut Marks) {
        if let Act::Inner(work) = &begun.act {
            if self.pass_plain(work) {
                self.close(begun.lines, begun.cycle);
                return;
            }
        }
        if let (Act::Outward(work, _) | Act::Write(work, _) | Act::Read(work, _, _), Turn::Wait) = (
            &begun.act, &turns[0],
        ) {
            self.wait(work);
            self.close(begun.lines, begun.cycle);
            return;
        }
        if !is_idle(&begun.act) {
            self.finish_any(begun, &turns);
        }
    }

    fn copy_from(&mut self, other: &Core) {
        self.take(other);
    }

    ghost few = { Prim.search rules };

    ghost asks_at_most = { λ _ s cycle. four_at_most s cycle };

    ghost reads_no_word = { λ _ s begun turns. reads_none s begun turns };
}
