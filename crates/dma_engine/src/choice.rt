//! Which channel is chosen for the next transfer.

ghost use Rattle.std.specs.Prelude.{◌≡◌, ◌<◌, ◌≤◌, ◌+◌, ◌%◌, false, Some};
ghost use Rattle.dma_engine.specs.State.{channel_at};
ghost use Rattle.dma_engine.specs.Control.{is_high};
ghost use Rattle.dma_engine.specs.Pace.{count_at};
ghost use Rattle.dma_engine.specs.Choice.{is_paced_by, chosen_by, unread, writes_of, unwritten, is_ready, is_candidate, or_else, choice_of};

use crate::channel::Channel;
use crate::engine::{CHANNELS, Engine};
use crate::pace::{Pace, pace_of};

/// The count at an index.
fn count_at(index: u8, counts: u128) -> u8
    requires { index < 20 }
    ensures { result ≡ count_at index counts }
{
    ((counts >> (6 * index)) % 64) as u8
}

/// The first of two channels, where there are two.
fn or_else(first: Option<u8>, number: u8) -> Option<u8>
    ensures { result ≡ or_else first (Some number) }
{
    match first {
        Some(first) => Some(first),
        None => Some(number),
    }
}

/// The number of the next channel in turn.
#[inline(always)]
fn next_number(number: u8) -> u8
    requires { number < 12 }
    ensures { result ≡ (number + 1) % 12 }
{
    if number == CHANNELS - 1 {
        0
    } else {
        number + 1
    }
}

impl Engine {
    /// The channel of that number has that data request.
    fn is_paced_by(&self, treq: u8, number: u8) -> bool
        ensures { result ≡ is_paced_by treq self.now number }
    {
        number < CHANNELS && self.channels[number as usize].treq() == treq
    }

    /// The transfers of that data request that are chosen and not read.
    fn unread(&self, treq: u8) -> u8
        ensures value { result ≡ unread treq self.now }
        ensures bound { result ≤ 1 }
    {
        match self.chosen {
            Some(number) if self.is_paced_by(treq, number) => 1,
            _ => 0,
        }
    }

    /// The writes of that data request that wait.
    #[tactic(auto, unfolding(crate::specs::Choice::writes_of), using(crate::proofs::Counting::counting))]
    fn writes(&self, treq: u8) -> u8
        ensures value { result ≡ writes_of treq self.now }
        ensures bound { result ≤ 2 }
    {
        let writes = self.waiting.as_slice();
        writes
            .iter()
            .filter(|write| self.is_paced_by(treq, write.channel))
            .count() as u8
    }

    /// The transfers of that data request that are chosen and not written.
    fn unwritten(&self, treq: u8) -> u8
        ensures { result ≡ unwritten treq self.now }
    {
        self.unread(treq) + self.writes(treq)
    }

    /// The channel is ready for one more transfer.
    #[inline(never)]
    #[tactic(auto, unfolding(crate::specs::Choice::is_ready))]
    fn is_ready(&self, counts: u128, channel: &Channel) -> bool
        ensures { result ≡ is_ready counts channel.now self.now }
    {
        let treq = channel.treq();
        match pace_of(treq) {
            Pace::Sender(index) => self.unwritten(treq) < count_at(index, counts),
            Pace::Receiver(index) => self.unread(treq) < count_at(index, counts),
            Pace::Timer(_) => 0 < channel.credits,
            Pace::Always => true,
            Pace::Never => false,
        }
    }

    /// The channel can be chosen.
    #[inline(always)]
    pub(crate) fn is_candidate(&self, counts: u128, number: u8) -> bool
        requires { number < 12 }
        ensures { result ≡ is_candidate false counts self.now number }
    {
        let channel = &self.channels[number as usize];
        channel.busy && channel.count != 0 && self.is_ready(counts, channel)
    }

    /// The channel has a high priority.
    fn is_high(&self, number: u8) -> bool
        requires { number < 12 }
        ensures { result ≡ is_high (channel_at number self.now) }
    {
        self.channels[number as usize].is_high()
    }

    /// The choice: of the channels that can be chosen, the next one of high priority after the one that was chosen last, or
    /// else the next one of all.
    #[tactic(auto, using(crate::proofs::Search::searching))]
    pub(crate) fn choice(&self, counts: u128) -> Option<u8>
        ensures { result ≡ choice_of counts self.now }
    {
        let mut other = None;
        let mut number = self.last_chosen % 12;
        for passed in 0..CHANNELS {
            number = next_number(number);
            if self.is_candidate(counts, number) {
                if self.is_high(number) {
                    return Some(number);
                }
                other = or_else(other, number);
            }
        }
        other
    }
}
