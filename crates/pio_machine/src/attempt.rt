//! A try of a word by its operation.

ghost use Rattle.std.specs.Prelude.{◌≡◌, ◌<◌};
ghost use Rattle.pio_words.specs.Operation.{operation_of};
ghost use Rattle.pio_machine.specs.Operation.{with_autopull};
ghost use Rattle.pio_machine.specs.Cycle.{after_try, written_by_try};
ghost use Rattle.pio_machine.specs.Ready.{settings_of};

use crate::machine::{Done, Machine1, Seen};
use crate::operation::loads_osr;
use crate::settings::Settings;
use pio_words::PioOp;

impl Machine1 {
    /// Autopull after an operation that does not load the OSR itself.
    #[inline(always)]
    fn refill_for(&mut self, op: &PioOp, settings: &Settings)
        requires { settings.now ≡ settings_of self.old }
        ensures { self.new ≡ with_autopull op.now self.old }
    {
        if !loads_osr(op) {
            self.refill(settings);
        }
    }

    /// A try of a word, which has this operation.
    #[inline(never)]
    #[tactic(auto, unfolding(crate::specs::Cycle::after_try, crate::specs::Cycle::written_by_try), using(crate::proofs::Ready::settings_tried, crate::proofs::Ready::settings_worked))]
    pub(crate) fn attempt(
        &mut self,
        word: u16,
        op: &PioOp,
        settings: &Settings,
        number: u8,
        seen: &Seen,
        done: &mut Done,
    )
        requires number { number < 4 }
        requires settings { settings.now ≡ settings_of self.old }
        requires operation { op.now ≡ operation_of word }
        ensures machine { self.new ≡ after_try word number seen.now self.old }
        ensures done { done.new ≡ written_by_try word number seen.now self.old done.old }
    {
        let outcome = self.perform(op, settings, number, seen, done);
        self.refill_for(op, settings);
        let delay = self.set_side(word, settings, done);
        self.end_by(delay, outcome, settings);
    }
}
