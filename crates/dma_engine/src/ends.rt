//! Triggers, aborts, and the ends of sequences.

ghost use Rattle.std.specs.Prelude.{◌≡◌, ◌<◌, ℕ, false, slice_index_or};
ghost use Rattle.rp_base.specs.Word.{has_bit};
ghost use Rattle.dma_engine.specs.Channel.{with_trigger, with_abort, with_raised, with_report, with_chain, with_end_of, with_end, in_turn};
ghost use Rattle.dma_engine.specs.Cycle.{is_chosen, has_write, is_in_flight, is_over, after_ends};

use crate::channel::Channel;
use crate::engine::{CHANNELS, Engine};
use crate::waiting::WaitingWrite;
use rp_base::bits::has_bit;

/// A write of the channel waits.
fn has_write(writes: &[WaitingWrite], number: u8) -> bool
    ensures { result ≡ has_write number writes.now }
{
    writes.iter().any(|write| write.channel == number)
}

impl Engine {
    /// Triggers a channel.
    #[tactic(auto, unfolding(crate::specs::Channel::with_trigger))]
    pub(crate) fn trigger(&mut self, number: u8)
        ensures { self.new ≡ with_trigger number self.old }
    {
        if number < CHANNELS {
            let channel = &mut self.channels[number as usize];
            channel.trigger();
        }
    }

    /// Aborts the sequence of a channel.
    #[tactic(auto, unfolding(crate::specs::Channel::with_abort))]
    fn abort(&mut self, number: u8)
        ensures { self.new ≡ with_abort number self.old }
    {
        if number < CHANNELS {
            let channel = &mut self.channels[number as usize];
            channel.abort();
        }
    }

    /// Triggers each channel whose bit is set.
    #[tactic(auto, using(crate::proofs::InTurn::in_turn_laws))]
    pub(crate) fn trigger_all(&mut self, word: u32)
        ensures { self.new ≡ in_turn (has_bit word) with_trigger 12 self.old }
    {
        for number in 0..CHANNELS {
            if has_bit(word, u32::from(number)) {
                self.trigger(number);
            }
        }
    }

    /// Aborts the sequence of each channel whose bit is set.
    #[tactic(auto, using(crate::proofs::InTurn::in_turn_laws))]
    pub(crate) fn abort_all(&mut self, word: u32)
        ensures { self.new ≡ in_turn (has_bit word) with_abort 12 self.old }
    {
        for number in 0..CHANNELS {
            if has_bit(word, u32::from(number)) {
                self.abort(number);
            }
        }
    }

    /// A channel raises its interrupt.
    pub(crate) fn raise(&mut self, number: u8)
        requires { number < 12 }
        ensures { self.new ≡ with_raised number self.old }
    {
        self.raised |= 1 << number;
    }

    /// The channel's sequence has ended: its interrupt, and its chain.
    fn report_end(&mut self, number: u8, channel: &Channel)
        requires { number < 12 }
        ensures { self.new ≡ with_end_of number channel.now self.old }
    {
        if channel.aborted {
            return;
        }
        if !channel.irq_quiet() {
            self.raise(number);
        }
        if channel.chain() != number {
            self.trigger(channel.chain());
        }
    }

    /// The channel's sequence ends.
    #[tactic(auto, unfolding(crate::specs::Channel::with_end))]
    fn end(&mut self, number: u8)
        requires { number < 12 }
        ensures { self.new ≡ with_end number self.old }
    {
        let channel = self.channels[number as usize];
        let mut ended = channel;
        ended.end();
        self.channels[number as usize] = ended;
        self.report_end(number, &channel);
    }

    /// The channel is the one that is chosen.
    fn is_chosen(&self, number: u8) -> bool
        ensures { result ≡ is_chosen number self.now.chosen }
    {
        match self.chosen {
            Some(chosen) => chosen == number,
            None => false,
        }
    }

    /// A transfer of the channel is chosen and not written.
    #[inline(never)]
    fn is_in_flight(&self, number: u8) -> bool
        ensures { result ≡ is_in_flight number self.now }
    {
        self.is_chosen(number) || has_write(self.waiting.as_slice(), number)
    }

    /// The channel is busy, and has nothing left and nothing in flight.
    pub(crate) fn is_over(&self, number: u8) -> bool
        requires { number < 12 }
        ensures { result ≡ is_over self.now number }
    {
        let channel = &self.channels[number as usize];
        channel.busy && channel.count == 0 && !self.is_in_flight(number)
    }

    /// Which channels are over.
    fn over(&self) -> [bool; 12]
        ensures { (k : ℕ) → k < 12 → slice_index_or result k false ≡ is_over self.now k }
    {
        let mut over = [false; 12];
        for number in 0..CHANNELS {
            over[number as usize] = self.is_over(number);
        }
        over
    }

    /// Some channel is over.
    fn some_over(&self) -> bool
        ensures { result ≡ false → (k : ℕ) → k < 12 → is_over self.now k ≡ false }
    {
        for number in 0..CHANNELS {
            if self.channels[number as usize].busy {
                if self.is_over(number) {
                    return true;
                }
            }
        }
        false
    }

    /// The sequences that are over end, in order of number.
    #[tactic(auto, unfolding(crate::specs::Cycle::after_ends), using(crate::proofs::InTurn::in_turn_laws))]
    pub(crate) fn end_sequences(&mut self)
        ensures { self.new ≡ after_ends self.old }
    {
        if !self.some_over() {
            return;
        }
        let over = self.over();
        for number in 0..CHANNELS {
            if over[number as usize] {
                self.end(number);
            }
        }
    }
}
