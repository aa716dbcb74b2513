//! How a cycle ends: sequences end, the read and the write are done or wait, the next channel is chosen, and the pacing
//! timers give their credits.

ghost use Rattle.std.specs.Prelude.{◌≡◌, ◌<◌, ℕ, false, length, slice_index_or, Some};
ghost use Rattle.std.specs.List.{list_any};
ghost use Rattle.dma_engine.specs.Control.{treq_of};
ghost use Rattle.dma_engine.specs.Choice.{is_candidate};
ghost use Rattle.dma_engine.specs.Requests.{pace_of};
ghost use Rattle.dma_engine.specs.State.{channel_at};
ghost use Rattle.dma_engine.specs.Timer.{gives, given_by, is_given, gets_credit, credited, with_credit, with_stepped_timers, after_timers};
ghost use Rattle.dma_engine.specs.Awaited.{NoneMoves, Awaits};
ghost use Rattle.dma_engine.specs.Cycle.{want_of, word_of, word_read, with_data, with_read, after_read, is_written, after_write, credits_left, counted, after_choice, is_over, after_transfers, next};
ghost use Rattle.dma_engine.specs.Channel.{in_turn};

use crate::awaited::Awaited;
use crate::begun::{Access, BegunTransfer};
use crate::channel::Channel;
use crate::engine::{CHANNELS, Engine};
use crate::pace::{Pace, pace_of, uses_credits};
use crate::timer::PacingTimer;
use lane_look::{Turn, Want};

/// What an access wants of the bus.
pub(crate) fn want(access: &Access) -> Want
    ensures { result ≡ want_of access.now }
{
    match *access {
        Access::Nothing => Want::Nothing,
        Access::Read(request, _) | Access::Write(request) => Want::Ram(request),
        Access::Outward(request) => Want::Outward(request),
        Access::Stopped(why) => Want::Stopped(why),
    }
}

/// The word of a read that is done.
fn word_read(access: &Access, turn: Turn) -> Option<u32>
    ensures { result ≡ word_read access.now (word_of (Some turn)) }
{
    match (*access, turn) {
        (Access::Read(_, told), Turn::Done(_)) => Some(told),
        (Access::Outward(_), Turn::Done(word)) => Some(word),
        _ => None,
    }
}

/// The write is done.
fn is_written(access: &Access, turn: Turn) -> bool
    ensures { result ≡ is_written access.now (word_of (Some turn)) }
{
    matches!(
        (*access, turn),
        (Access::Write(_) | Access::Outward(_), Turn::Done(_))
    )
}

/// Which timers give a credit.
#[tactic(auto, using(crate::proofs::Four::four))]
fn given_by(timers: &[PacingTimer; 4]) -> [bool; 4]
    ensures { result ≡ given_by timers.now }
{
    [
        timers[0].gives(),
        timers[1].gives(),
        timers[2].gives(),
        timers[3].gives(),
    ]
}

impl Channel {
    /// The credits that are left after a transfer was chosen.
    fn credits_left(&self) -> u8
        ensures { result ≡ credits_left self.now }
    {
        if uses_credits(pace_of(self.treq())) {
            self.credits.saturating_sub(1)
        } else {
            self.credits
        }
    }

    /// A transfer was chosen.
    fn count_down(&mut self)
        ensures { self.new ≡ counted self.old }
    {
        self.credits = self.credits_left();
        self.count = self.count.saturating_sub(1);
    }

    /// The timer by which the channel is paced gives a credit.
    fn is_given(&self, given: &[bool; 4]) -> bool
        ensures { result ≡ is_given given.now (pace_of (treq_of self.now)) }
    {
        match pace_of(self.treq()) {
            Pace::Timer(k) => given.get(k as usize).copied().unwrap_or(false),
            _ => false,
        }
    }

    /// Takes a credit.
    fn take_credit(&mut self)
        ensures { self.new ≡ credited self.old }
    {
        self.credits = if self.credits < 63 {
            self.credits + 1
        } else {
            63
        };
    }
}

impl Engine {
    /// The data of a channel's read joins the writes that wait.
    fn take_data(&mut self, number: u8, word: u32)
        requires channel { number < 12 }
        requires room { length self.old.waiting < 2 }
        ensures { self.new ≡ with_data word number (channel_at number self.old) self.old }
    {
        let mut channel = self.channels[number as usize];
        let write = channel.write_after(number, word);
        channel.advance();
        self.channels[number as usize] = channel;
        self.chosen = None;
        self.waiting.push(write);
    }

    /// The read of the chosen channel is done.
    #[tactic(auto, unfolding(crate::specs::Cycle::with_read))]
    fn end_read(&mut self, word: u32)
        ensures { self.new ≡ with_read word self.old }
    {
        match self.chosen {
            Some(number) if number < CHANNELS && self.waiting.len() < 2 => {
                self.take_data(number, word);
            }
            _ => {}
        }
    }

    /// The read is done where it gave a word.
    fn end_reading(&mut self, read: Option<u32>)
        ensures { self.new ≡ after_read read self.old }
    {
        if let Some(word) = read {
            self.end_read(word);
        }
    }

    /// The first write leaves where it is done.
    fn end_write(&mut self, done: bool)
        ensures { self.new ≡ after_write done self.old }
    {
        if done && !self.waiting.is_empty() {
            self.waiting.remove(0);
        }
    }

    /// The choice becomes the chosen channel where there is none.
    fn take_choice(&mut self, choice: Option<u8>)
        ensures { self.new ≡ after_choice choice self.old }
    {
        if self.chosen.is_some() {
            return;
        }
        if let Some(number) = choice {
            if number < CHANNELS {
                let channel = &mut self.channels[number as usize];
                channel.count_down();
            }
            self.chosen = Some(number);
            self.last_chosen = number;
        }
    }

    /// A channel gets a credit in this cycle, where these timers give one.
    fn gets_credit(&self, given: &[bool; 4], number: u8) -> bool
        requires given { given.now ≡ given_by self.now.timers }
        requires channel { number < 12 }
        ensures { result ≡ gets_credit self.now number }
    {
        let channel = &self.channels[number as usize];
        channel.busy && channel.is_given(given)
    }

    /// Which channels get a credit in this cycle.
    #[inline(never)]
    fn credited(&self, given: &[bool; 4]) -> [bool; 12]
        requires given { given.now ≡ given_by self.now.timers }
        ensures { (k : ℕ) → k < 12 → slice_index_or result k false ≡ gets_credit self.now k }
    {
        let mut credited = [false; 12];
        for number in 0..CHANNELS {
            credited[number as usize] = self.gets_credit(given, number);
        }
        credited
    }

    /// A channel can be chosen, or is over.
    #[inline(never)]
    fn moves(&self, counts: u128, number: u8) -> bool
        requires { number < 12 }
        ensures choice { result ≡ false → is_candidate false counts self.now number ≡ false }
        ensures ends { result ≡ false → is_over self.now number ≡ false }
    {
        self.is_candidate(counts, number) || self.is_over(number)
    }

    /// Some channel can be chosen, or is over.
    #[inline(always)]
    fn some_moves(&self, counts: u128) -> bool
        ensures { result ≡ false → NoneMoves counts self.now 12 }
    {
        for number in 0..CHANNELS {
            if self.channels[number as usize].busy {
                if self.moves(counts, number) {
                    return true;
                }
            }
        }
        false
    }

    /// Some timer gives a credit.
    #[inline(always)]
    pub(crate) fn some_gives(&self) -> bool
        ensures { result ≡ list_any gives self.now.timers }
    {
        self.timers.iter().any(|timer| timer.gives())
    }

    /// A channel takes a credit.
    fn credit(&mut self, number: u8)
        requires { number < 12 }
        ensures { self.new ≡ with_credit number self.old }
    {
        let channel = &mut self.channels[number as usize];
        channel.take_credit();
    }

    /// The cycle, in which some timer gives a credit.
    #[inline(never)]
    #[tactic(auto, unfolding(crate::specs::Cycle::next))]
    pub(crate) fn finish_with_credits(&mut self, begun: &BegunTransfer, turns: &[Turn; 2])
        ensures { self.new ≡ next self.old begun.now turns.now }
    {
        let credited = self.credited(&given_by(&self.timers));
        let _ = self.transfer(begun, turns);
        self.step_timers(&credited);
    }

    /// The channels that were found take their credits.
    #[tactic(auto, using(crate::proofs::InTurn::in_turn_laws))]
    fn take_credits(&mut self, credited: &[bool; 12])
        ensures { self.new ≡ in_turn (λ k. slice_index_or credited.now k false) with_credit 12
            self.old }
    {
        for number in 0..CHANNELS {
            if credited[number as usize] {
                self.credit(number);
            }
        }
    }

    /// The pacing timers have their cycle.
    #[inline(always)]
    #[tactic(auto, using(crate::proofs::Four::four))]
    pub(crate) fn advance_timers(&mut self)
        ensures { self.new ≡ with_stepped_timers self.old }
    {
        self.timers[0].step_once();
        self.timers[1].step_once();
        self.timers[2].step_once();
        self.timers[3].step_once();
    }

    /// The pacing timers have their cycle, in which these channels get a credit.
    #[tactic(auto, unfolding(crate::specs::Timer::after_timers))]
    fn step_timers(&mut self, credited: &[bool; 12])
        ensures { self.new ≡ after_timers (λ k. slice_index_or credited.now k false) self.old }
    {
        self.advance_timers();
        self.take_credits(credited);
    }

    /// The transfers have their cycle.
    #[inline(never)]
    #[tactic(auto, unfolding(crate::specs::Cycle::after_transfers), using(crate::proofs::Finishing::turn_at))]
    fn move_on(&mut self, begun: &BegunTransfer, turns: &[Turn; 2])
        ensures { self.new ≡ after_transfers self.old begun.now turns.now }
    {
        let choice = self.choice(begun.counts);
        self.end_sequences();
        self.end_reading(word_read(&begun.read, turns[0]));
        self.end_write(is_written(&begun.write, turns[1]));
        self.take_choice(choice);
    }

    /// The transfers have their cycle, and what the engine waits for then. In most cycles nothing was begun, and no sequence ends or can go
    /// on.
    #[inline(never)]
    #[tactic(auto, using(crate::proofs::Unmoved::nothing_moves))]
    pub(crate) fn transfer(&mut self, begun: &BegunTransfer, turns: &[Turn; 2]) -> Awaited
        ensures after { self.new ≡ after_transfers self.old begun.now turns.now }
        ensures awaited { Awaits result self.new }
    {
        if !begun.is_nothing() || self.some_moves(begun.counts) {
            self.move_on(begun, turns);
            self.awaited()
        } else if self.some_runs() {
            Awaited::Nothing
        } else {
            Awaited::OtherCounts(begun.counts)
        }
    }
}
