//! A cycle of a machine.

ghost use Rattle.std.specs.Prelude.{◌≡◌, ◌<◌, true, false, Some, None};
ghost use Rattle.pio_machine.specs.Cycle.{ticks, advanced, delayed, after_cycle, written_in_cycle};
ghost use Rattle.pio_machine.specs.Ready.{settings_of};

use crate::machine::{Done, Machine1, Seen, Waiting};
use crate::settings::Settings;
use pio_words::decode_word;

impl Machine1 {
    /// The machine ticks in this cycle.
    #[inline(always)]
    fn ticks(&self) -> bool
        ensures { result ≡ ticks self.now }
    {
        self.enabled && self.acc < 256
    }

    /// The divider goes on in a tick.
    #[inline(always)]
    fn begin_period(&mut self, settings: &Settings)
        requires settings { settings.now ≡ settings_of self.old }
        requires ticks { ticks self.old ≡ true }
        ensures { self.new ≡ advanced self.old }
    {
        self.acc = self.acc + settings.period - 256;
    }

    /// The divider goes on in a cycle that is no tick.
    #[inline(always)]
    fn count_down(&mut self)
        requires { ticks self.old ≡ false }
        ensures { self.new ≡ advanced self.old }
    {
        if self.enabled {
            self.acc -= 256;
        }
    }

    /// The divider goes on.
    #[inline(always)]
    fn advance(&mut self, settings: &Settings)
        requires { settings.now ≡ settings_of self.old }
        ensures { self.new ≡ advanced self.old }
    {
        if self.ticks() {
            self.begin_period(settings);
        } else {
            self.count_down();
        }
    }

    /// A cycle in which a word waits.
    #[inline(never)]
    #[tactic(auto, unfolding(crate::specs::Cycle::after_cycle, crate::specs::Cycle::written_in_cycle, crate::specs::Cycle::word_tried), using(crate::proofs::Ready::settings_advanced))]
    fn cycle_waiting(
        &mut self,
        waiting: Waiting,
        settings: &Settings,
        number: u8,
        seen: &Seen,
        done: &mut Done,
    )
        requires number { number < 4 }
        requires settings { settings.now ≡ settings_of self.old }
        requires waiting { self.old.waiting ≡ Some waiting }
        ensures machine { self.new ≡ after_cycle number seen.now self.old }
        ensures done { done.new ≡ written_in_cycle number seen.now self.old done.old }
    {
        let tried = waiting.forced || self.ticks();
        self.advance(settings);
        if tried {
            let operation = decode_word(waiting.word);
            self.attempt(waiting.word, &operation, settings, number, seen, done);
        }
    }

    /// A tick in which no word waits.
    #[inline(always)]
    #[tactic(auto, unfolding(crate::specs::Cycle::after_cycle, crate::specs::Cycle::written_in_cycle, crate::specs::Cycle::word_tried), using(crate::proofs::Ready::settings_advanced))]
    fn tick_at_pc(&mut self, settings: &Settings, number: u8, seen: &Seen, done: &mut Done)
        requires number { number < 4 }
        requires settings { settings.now ≡ settings_of self.old }
        requires ticks { ticks self.old ≡ true }
        requires waiting { self.old.waiting ≡ None }
        ensures machine { self.new ≡ after_cycle number seen.now self.old }
        ensures done { done.new ≡ written_in_cycle number seen.now self.old done.old }
    {
        self.begin_period(settings);
        if self.delay == 0 {
            let word = seen.memory.word(self.pc % 32);
            let operation = seen.memory.operation(self.pc % 32);
            self.attempt(word, operation, settings, number, seen, done);
        } else {
            self.pass_delay(settings);
        }
    }

    /// A tick of the delay passes.
    #[inline(always)]
    fn pass_delay(&mut self, settings: &Settings)
        requires { settings.now ≡ settings_of self.old }
        ensures { self.new ≡ delayed self.old }
    {
        self.delay = self.delay.saturating_sub(1);
        self.refill(settings);
    }
}

/// One cycle of the machine of that number, 0 to 3, whose registers say this. It adds to what the machines before it have
/// written in this cycle, and wins over them.
#[inline(always)]
#[tactic(auto, unfolding(crate::specs::Cycle::after_cycle, crate::specs::Cycle::written_in_cycle, crate::specs::Cycle::word_tried), using(crate::proofs::Ready::settings_kept, crate::proofs::Ready::settings_advanced))]
pub fn tick(machine: &mut Machine1, settings: &Settings, number: u8, seen: &Seen, done: &mut Done)
    requires number { number < 4 }
    requires settings { settings.now ≡ settings_of machine.old }
    ensures machine { machine.new ≡ after_cycle number seen.now machine.old }
    ensures done { done.new ≡ written_in_cycle number seen.now machine.old done.old }
    ensures settings { settings_of machine.new ≡ settings_of machine.old }
{
    if let Some(waiting) = machine.waiting {
        machine.cycle_waiting(waiting, settings, number, seen, done);
    } else if machine.ticks() {
        machine.tick_at_pc(settings, number, seen, done);
    } else {
        machine.count_down();
    }
}
