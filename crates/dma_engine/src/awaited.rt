//! What must come before something of the engine moves.

ghost use Rattle.std.specs.Prelude.{◌≡◌};
ghost use Rattle.std.specs.List.{list_all, list_any};
ghost use Rattle.dma_engine.specs.Timer.{runs};
ghost use Rattle.dma_engine.specs.Awaited.{awaits_credit, awaits_credits, Awaits};

use crate::channel::Channel;
use crate::engine::Engine;
use crate::pace::{pace_of, uses_credits};

/// What the engine waits for, found where something moved.
#[derive(Clone, Copy)]
pub(crate) enum Awaited {
    /// Nothing: it may change in the next cycle.
    Nothing,
    /// A write of a register: each channel that is busy lacks a credit, and no pacing timer runs, so that no cycle changes it.
    RegisterWrite,
    /// A credit: each channel that is busy lacks one. Until a pacing timer gives one the timers alone step.
    Credit,
    /// Counts other than these: no pacing timer runs, and with these a cycle in which nothing is begun does not change it.
    OtherCounts(u128),
}

impl Channel {
    /// The channel is idle, or has transfers left, is paced by a timer and has no credit.
    fn awaits_credit(&self) -> bool
        ensures { result ≡ awaits_credit self.now }
    {
        let treq = self.treq();
        !self.busy
            || (self.count != 0 && uses_credits(pace_of(treq)) && treq >= 0x3b && self.credits == 0)
    }
}

/// Every channel is idle or lacks a credit.
fn all_await_credits(channels: &[Channel; 12]) -> bool
    ensures { result ≡ list_all awaits_credit channels.now }
{
    channels.iter().all(|channel| channel.awaits_credit())
}

impl Engine {
    /// No channel is chosen, no write waits, and every channel is idle or lacks a credit.
    #[inline(always)]
    #[tactic(auto, unfolding(crate::specs::Awaited::awaits_credits))]
    fn awaits_credits(&self) -> bool
        ensures { result ≡ awaits_credits self.now }
    {
        if self.chosen.is_some() || !self.waiting.is_empty() {
            return false;
        }
        all_await_credits(&self.channels)
    }

    /// Some pacing timer runs.
    pub(crate) fn some_runs(&self) -> bool
        ensures { result ≡ list_any runs self.now.timers }
    {
        self.timers.iter().any(|timer| timer.runs())
    }

    /// What it waits for, whatever is begun.
    pub(crate) fn awaited(&self) -> Awaited
        ensures { Awaits result self.now }
    {
        if !self.awaits_credits() {
            Awaited::Nothing
        } else if self.some_runs() {
            Awaited::Credit
        } else {
            Awaited::RegisterWrite
        }
    }
}
