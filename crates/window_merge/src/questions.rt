//! What the peripherals ask in each cycle of their run alone, as a lane that only asks.

ghost use Rattle.std.specs.Prelude.{◌≡◌, None};
ghost use Rattle.std.proofs.Common.{refl, rules};
ghost use Rattle.lane_look.specs.Asking.{Runs};
ghost use Rattle.window_merge.specs.Questions.{questions_of, second_question, questions, no_wants, two_questions};

use lane_look::{Ask, Lane, Look, Marks, Turn, Want};
use outer_lane::Outer;

/// For which PIO blocks' outputs the peripherals ask: no access to a register changes that within a run alone.
#[derive(Drop)]
pub(crate) struct Questions {
    pub(crate) pio0: bool,
    pub(crate) pio1: bool,
}

/// The questions of the peripherals: a block's outputs, where some pin has its function.
pub(crate) fn questions_of(outer: &Outer) -> Questions
    ensures { result ≡ questions_of outer.now }
{
    Questions {
        pio0: outer.pads.uses(6),
        pio1: outer.pads.uses(7),
    }
}

impl Questions {
    ghost use Rattle.lane_look.specs.Asking.{Runs};
    ghost use Rattle.window_merge.specs.Questions.{second_question};

    /// Asks for the outputs of PIO block 1.
    fn ask_second<K: Look>(&self, look: &mut K)
        ensures { Runs K.answers look.old (second_question self.now) result look.new }
    {
        if self.pio1 {
            let _ = look.ask(Ask::Outs(1));
        }
    }
}

impl Lane<()> for Questions {
    type Begun = ();

    ghost asks = { λ _ q cycle. questions q };

    ghost most = { 2 };

    ghost wanted = { λ begun. no_wants };

    ghost next = { λ _ q begun turns. q };

    ghost marked = { λ _ q begun turns. None };

    fn begin<K: Look>(&self, _env: &(), _cycle: u64, look: &mut K) {
        if self.pio0 {
            let _ = look.ask(Ask::Outs(0));
        }
        self.ask_second(look)
    }

    fn wants(_begun: &()) -> [Want; 2] {
        [Want::Nothing, Want::Nothing]
    }

    fn finish(&mut self, _env: &(), _begun: &(), _turns: [Turn; 2], _marks: &mut Marks) {}

    fn copy_from(&mut self, other: &Questions) {
        self.pio0 = other.pio0;
        self.pio1 = other.pio1;
    }

    ghost few = { Prim.search rules };

    ghost asks_at_most = { λ _ q cycle. two_questions q };

    ghost reads_no_word = { λ _ q begun turns. refl };
}
