//! The peripherals as a lane of the machine.

ghost use Rattle.std.specs.Prelude.{◌≡◌, ◌%◌, ◌/◌, ◌^◌, Some};
ghost use Rattle.std.proofs.Common.{refl, rules};
ghost use Rattle.lane_look.specs.Asking.{Runs};
ghost use Rattle.outer_lane.specs.Bounds.{two_at_most};
ghost use Rattle.outer_lane.specs.Setting.{setting};
ghost use Rattle.outer_lane.specs.Step.{pins_in, asks_second, asks, wanted, next, marked};

use crate::outer::Outer;
use crate::world::{SeenOutputs, World};
use lane_look::{Ask, Device, Lane, Look, Marks, Turn, Want, Wires};

/// The outputs of a PIO block in an answer: the levels in its low 32 bits, and the enables in the next 32.
fn pins_in(answer: u128) -> [u32; 2]
    ensures { result ≡ pins_in answer }
{
    [
        (answer & 0xffff_ffff) as u32,
        ((answer >> 32) & 0xffff_ffff) as u32,
    ]
}

impl Outer {
    ghost use Rattle.std.specs.Prelude.{◌≡◌};
    ghost use Rattle.lane_look.specs.Asking.{Runs};
    ghost use Rattle.outer_lane.specs.Step.{asks_second};

    /// Asks for the outputs of PIO block 1, where some pin has its function.
    #[tactic(auto, unfolding(crate::specs::Step::asks_second))]
    fn begin_second<K: Look>(&self, cycle: u64, first: [u32; 2], look: &mut K) -> SeenOutputs
        ensures { Runs K.answers look.old (asks_second self.now cycle first) result look.new }
    {
        if self.pads.uses(7) {
            SeenOutputs {
                cycle,
                pio0: first,
                pio1: pins_in(look.ask(Ask::Outs(1))),
            }
        } else {
            SeenOutputs {
                cycle,
                pio0: first,
                pio1: [0, 0],
            }
        }
    }
}

impl<X: Device> Lane<World<'_, X>> for Outer {
    type Begun = SeenOutputs;

    ghost asks = { λ _ s cycle. asks s cycle };

    ghost most = { 2 };

    ghost wanted = { wanted };

    ghost next = { λ w s seen turns. next (setting X.meaning w)
        s seen };

    ghost marked = { λ w s seen turns. Some
        (marked (setting X.meaning w) s seen) };

    #[tactic(auto, unfolding(crate::specs::Step::asks))]
    fn begin<K: Look>(&self, _env: &World<'_, X>, cycle: u64, look: &mut K) -> SeenOutputs {
        if self.pads.uses(6) {
            let first = pins_in(look.ask(Ask::Outs(0)));
            self.begin_second(cycle, first, look)
        } else {
            self.begin_second(cycle, [0, 0], look)
        }
    }

    fn wants(_begun: &SeenOutputs) -> [Want; 2] {
        [Want::Nothing, Want::Nothing]
    }

    #[inline(always)]
    #[tactic(auto, using(crate::proofs::Stepped::stepped), unfolding(crate::specs::Step::wires_by, crate::specs::Step::words_by))]
    fn finish(
        &mut self,
        env: &World<'_, X>,
        begun: &SeenOutputs,
        _turns: [Turn; 2],
        marks: &mut Marks,
    ) {
        let levels = self.pads.pads();
        let wires = if self.device.len() == env.device.words() {
            env.device
                .step(self.device.as_mut_slice(), begun.cycle, levels)
        } else {
            Wires::default()
        };
        self.step_by(env.script, &wires, begun, marks);
    }

    fn copy_from(&mut self, other: &Outer) {
        self.take(other);
    }

    ghost few = { Prim.search rules };

    ghost asks_at_most = { λ _ s cycle. two_at_most s cycle };

    ghost reads_no_word = { λ _ s begun turns. refl };
}
