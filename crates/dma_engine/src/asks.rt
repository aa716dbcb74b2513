//! What the engine asks in a cycle.

ghost use Rattle.std.specs.Prelude.{◌≡◌, ◌%◌, ◌^◌};
ghost use Rattle.std.specs.List.{list_any};
ghost use Rattle.rp_base.specs.Map.{place_of};
ghost use Rattle.lane_look.specs.Asking.{Runs};
ghost use Rattle.dma_engine.specs.Asks.{may_be_device, elsewhere, write_for, write_begun, next_request, asks_for, asks_read, waits_for_counts, asks};

use crate::begun::{Access, BegunTransfer};
use crate::channel::Channel;
use crate::engine::Engine;
use lane_look::{Ask, Look};
use rp_base::map::{Spot, place};
use rp_base::{Master, Request, Why};

/// The word of an answer.
fn word_of(answer: u128) -> u32
    ensures { result ≡ answer % 2 ^ 32 }
{
    (answer % 0x1_0000_0000) as u32
}

/// An access that is not to SRAM, or the stop at it.
fn elsewhere(master: Master, request: Request, spot: Spot) -> Access
    ensures { result ≡ elsewhere master request spot }
{
    match spot {
        Spot::Reg { .. } => Access::Outward(request),
        Spot::Outside if request.address >> 28 == 4 => Access::Outward(request),
        _ => Access::Stopped(Why::Outside(master, request.address)),
    }
}

/// A write, by the part of the machine that it goes to.
fn write_for(request: Request) -> Access
    ensures { result ≡ write_for (Some request) }
{
    let spot = place(request.address);
    match spot {
        Spot::Ram { .. } => Access::Write(request),
        _ => elsewhere(Master::DmaWrite, request, spot),
    }
}

/// A read, by the part of the machine that it goes to; one of SRAM asks for its word.
fn begin_read<K: Look>(request: Request, look: &mut K, begun: &mut BegunTransfer)
    ensures { Runs K.answers look.old (asks_for begun.old.counts begun.old.write (Some request))
        begun.new look.new }
{
    let spot = place(request.address);
    begun.read = match spot {
        Spot::Ram { .. } => {
            let answer = look.ask(Ask::Word(request.address));
            Access::Read(request, word_of(answer))
        }
        _ => elsewhere(Master::DmaRead, request, spot),
    };
}

impl Channel {
    /// The channel may be paced by a FIFO.
    fn waits_for_counts(&self) -> bool
        ensures { result ≡ waits_for_counts self.now }
    {
        self.busy && self.treq() < 0x3b
    }
}

impl Engine {
    /// Some channel may be paced by a FIFO.
    #[inline(always)]
    pub(crate) fn waits_for_counts(&self) -> bool
        ensures { result ≡ list_any waits_for_counts self.now.channels }
    {
        self.channels
            .iter()
            .any(|channel| channel.waits_for_counts())
    }

    /// The write that has waited longest.
    #[tactic(auto, unfolding(crate::specs::Asks::write_begun))]
    fn begin_write(&self) -> Access
        ensures { result ≡ write_begun self.now }
    {
        match self.waiting.as_slice() {
            [] => Access::Nothing,
            [write, ..] => write_for(write.request()),
        }
    }

    /// The read of the channel that is chosen.
    #[tactic(auto, unfolding(crate::specs::Asks::next_request))]
    fn next_request(&self) -> Option<Request>
        ensures { result ≡ next_request self.now }
    {
        match self.chosen {
            Some(number) if number < 12 && self.waiting.len() < 2 => Some(
                self.channels[number as usize].next_request(),
            ),
            _ => None,
        }
    }

    /// The read and the write, where these are the counts and some access is begun.
    #[inline(never)]
    #[tactic(auto, unfolding(crate::specs::Asks::asks_read))]
    fn begin_access<K: Look>(&self, look: &mut K, begun: &mut BegunTransfer)
        ensures { Runs K.answers look.old (asks_read begun.old.counts self.now) begun.new look.new }
    {
        begun.write = self.begin_write();
        match self.next_request() {
            Some(request) => begin_read(request, look, begun),
            None => begun.read = Access::Nothing,
        }
    }

    /// The read and the write, where the counts are found. Where no channel is chosen and no write waits nothing is begun.
    #[inline(always)]
    #[tactic(auto, using(crate::proofs::Unmoved::begins_nothing))]
    fn begin<K: Look>(&self, look: &mut K, begun: &mut BegunTransfer)
        ensures { Runs K.answers look.old (asks_read begun.old.counts self.now) begun.new look.new }
    {
        if self.chosen.is_none() && self.waiting.is_empty() {
            begun.read = Access::Nothing;
            begun.write = Access::Nothing;
        } else {
            self.begin_access(look, begun);
        }
    }
}

impl Engine {
    /// What the engine asks in a cycle, and what it has begun then, in the place of what was begun before.
    #[inline(never)]
    #[tactic(auto, unfolding(crate::specs::Asks::asks))]
    pub(crate) fn ask<K: Look>(&self, look: &mut K, begun: &mut BegunTransfer)
        ensures { Runs K.answers look.old (asks self.now) begun.new look.new }
    {
        begun.counts = if self.waits_for_counts() {
            look.ask(Ask::Pacing)
        } else {
            0
        };
        self.begin(look, begun);
    }
}
