//! PUSH, PULL and autopull.

ghost use Rattle.std.specs.Prelude.{◌≡◌, false};
ghost use Rattle.pio_machine.specs.Queue.{loaded, refilled, is_pull_void, pulled_from, try_pull, pushed, is_push_void, with_isr_cleared, try_push_now, try_push};
ghost use Rattle.pio_machine.specs.Fields.{is_rx_full};
ghost use Rattle.pio_machine.specs.Output.{out_stalls};
ghost use Rattle.pio_machine.specs.Ready.{settings_of};
ghost use Rattle.pio_machine.specs.Tie.{stands_for};

use crate::machine::{Machine1, Outcome};
use crate::settings::Settings;

impl Machine1 {
    /// Loads the OSR, where a word waits.
    #[inline(never)]
    pub(crate) fn load(&mut self)
        ensures { self.new ≡ loaded self.old }
    {
        if let Some(word) = self.tx.pull() {
            self.osr = word;
            self.osr_count = 0;
        }
    }

    /// Under autopull the OSR is spent: it is to be loaded again, and an OUT stalls.
    #[inline(always)]
    pub(crate) fn is_autopull_due(&self, settings: &Settings) -> bool
        requires { settings.now ≡ settings_of self.now }
        ensures { result ≡ out_stalls self.now }
    {
        settings.limit <= u32::from(self.osr_count)
    }

    /// Autopull: loads a spent OSR, where a word waits.
    #[inline(always)]
    #[tactic(auto, unfolding(crate::specs::Queue::refilled))]
    pub(crate) fn refill(&mut self, settings: &Settings)
        requires { settings.now ≡ settings_of self.old }
        ensures { self.new ≡ refilled self.old }
    {
        if self.is_autopull_due(settings) {
            self.load();
        }
    }

    /// A PULL does nothing.
    pub(crate) fn is_pull_void(&self, if_empty: bool) -> bool
        ensures { result ≡ is_pull_void if_empty self.now }
    {
        (if_empty && self.osr_count < self.pull_threshold())
            || (self.autopull() && self.osr_count == 0)
    }

    /// Loads the OSR; on an empty FIFO stalls, or copies X.
    fn pull_now(&mut self, block: bool) -> Outcome
        ensures machine { self.new ≡ (pulled_from self.old.tx block self.old).machine }
        ensures ending { stands_for result ≡ (pulled_from self.old.tx block self.old).ending }
    {
        match self.tx.pull() {
            Some(word) => {
                self.osr = word;
                self.osr_count = 0;
                Outcome::Completed
            }
            None if block => {
                self.tx_stall = true;
                Outcome::Stalled
            }
            None => {
                self.osr = self.x;
                self.osr_count = 0;
                Outcome::Completed
            }
        }
    }

    /// A try of PULL.
    #[tactic(auto, unfolding(crate::specs::Queue::try_pull))]
    pub(crate) fn try_pull(&mut self, if_empty: bool, block: bool) -> Outcome
        ensures machine { self.new ≡ (try_pull if_empty block self.old).machine }
        ensures ending { stands_for result ≡ (try_pull if_empty block self.old).ending }
    {
        if self.is_pull_void(if_empty) {
            return Outcome::Completed;
        }
        self.pull_now(block)
    }

    fn clear_isr(&mut self)
        ensures { self.new ≡ with_isr_cleared self.old }
    {
        self.isr = 0;
        self.isr_count = 0;
    }

    /// The ISR goes to the RX FIFO.
    pub(crate) fn push(&mut self)
        requires { is_rx_full self.old ≡ false }
        ensures { self.new ≡ pushed self.old }
    {
        let word = self.isr;
        self.rx.push(word);
        self.clear_isr();
    }

    /// Pushes; on a full FIFO stalls, or clears the ISR.
    fn push_now(&mut self, block: bool) -> Outcome
        ensures machine { self.new ≡ (try_push_now block self.old).machine }
        ensures ending { stands_for result ≡ (try_push_now block self.old).ending }
    {
        if self.is_rx_full() {
            self.rx_stall = true;
            if block {
                return Outcome::Stalled;
            }
            self.clear_isr();
        } else {
            self.push();
        }
        Outcome::Completed
    }

    /// A PUSH does nothing.
    pub(crate) fn is_push_void(&self, if_full: bool) -> bool
        ensures { result ≡ is_push_void if_full self.now }
    {
        if_full && self.isr_count < self.push_threshold()
    }

    /// A try of PUSH.
    #[tactic(auto, unfolding(crate::specs::Queue::try_push))]
    pub(crate) fn try_push(&mut self, if_full: bool, block: bool) -> Outcome
        ensures machine { self.new ≡ (try_push if_full block self.old).machine }
        ensures ending { stands_for result ≡ (try_push if_full block self.old).ending }
    {
        if self.is_push_void(if_full) {
            return Outcome::Completed;
        }
        self.push_now(block)
    }
}
