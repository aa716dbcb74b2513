//! How a try of a word ends.

ghost use Rattle.std.specs.Prelude.{◌≡◌, None};
ghost use Rattle.pio_machine.specs.Operation.{stepped, with_delay, jumped, ended};
ghost use Rattle.pio_machine.specs.Ready.{settings_of};
ghost use Rattle.pio_machine.specs.Tie.{stands_for};

use crate::machine::{Machine1, Outcome, Waiting};
use crate::settings::Settings;

impl Machine1 {
    /// The word at PC is followed by the next one.
    #[inline(always)]
    pub(crate) fn step_at_pc(&mut self, settings: &Settings)
        requires settings { settings.now ≡ settings_of self.old }
        requires waiting { self.old.waiting ≡ None }
        ensures { self.new ≡ stepped self.old }
    {
        let next = if self.pc == settings.top {
            settings.bottom
        } else {
            (self.pc % 32 + 1) % 32
        };
        self.set_pc(next);
    }

    /// The word at PC is followed by the next one, and a waiting one is gone.
    #[inline(always)]
    fn step_by(&mut self, settings: &Settings)
        requires { settings.now ≡ settings_of self.old }
        ensures { self.new ≡ stepped self.old }
    {
        if self.waiting.is_some() {
            self.waiting = None;
        } else {
            self.step_at_pc(settings);
        }
    }

    /// The word completes, and sets a delay.
    #[inline(always)]
    pub(crate) fn complete(&mut self, delay: u8, settings: &Settings)
        requires { settings.now ≡ settings_of self.old }
        ensures { self.new ≡ with_delay delay (stepped self.old) }
    {
        self.step_by(settings);
        self.delay = delay;
    }

    /// Jumps.
    fn jump(&mut self, address: u8)
        ensures { self.new ≡ jumped address self.old }
    {
        self.set_pc(address);
        self.waiting = None;
    }

    /// Ends a try of the word at PC, or of the one that waits.
    #[inline(always)]
    #[tactic(auto, unfolding(crate::specs::Operation::ended))]
    pub(crate) fn end_by(&mut self, delay: u8, outcome: Outcome, settings: &Settings)
        requires { settings.now ≡ settings_of self.old }
        ensures { self.new ≡ ended delay (stands_for outcome) self.old }
    {
        match outcome {
            Outcome::Stalled => {}
            Outcome::Completed => self.complete(delay, settings),
            Outcome::Jumped(address) => {
                self.jump(address);
                self.delay = delay;
            }
            Outcome::Executes(word) => {
                self.step_by(settings);
                self.waiting = Some(Waiting::executed(word));
            }
        }
    }
}
