//! The engine as the rest of the machine sees it.

ghost use Rattle.std.specs.Prelude.{◌≡◌};
ghost use Rattle.dma_engine.specs.Words.{word_of, is_word, effect_of};

use crate::awaited::Awaited;
use crate::begun::BegunTransfer;
use crate::engine::Engine;
use lane_look::Turn;
use rp_base::{Registers, Reset};
use std::marker::Model;

/// The DMA engine: its channels, pacing timers and interrupts, the transfer that is chosen, and the writes that wait.
#[derive(Drop)]
pub struct Dma {
    pub(crate) engine: Engine,
    pub(crate) awaited: Awaited,
}

impl Model for Dma {
    ghost use Rattle.dma_engine.specs.State.{State};
    ghost use Rattle.dma_engine.specs.Awaited.{Awaits};

    ghost Value = { State };

    ghost view = { λ d. d.engine };

    ghost invariant = { λ d. Awaits d.awaited d.engine };
}

impl Dma {
    ghost use Rattle.std.specs.Prelude.{Decides};
    ghost use Rattle.dma_engine.specs.Cycle.{next};
    ghost use Rattle.dma_engine.specs.State.{at_reset};
    ghost use Rattle.dma_engine.specs.Words.{word_of, is_word, effect_of, lines_of};

    /// The engine in its reset state: no channel is busy, and every register is 0.
    pub fn new() -> Dma
        ensures { result ≡ at_reset }
    {
        let engine = Engine::new();
        let awaited = engine.awaited();
        Dma { engine, awaited }
    }

    /// The word at an offset of the plain view (RP2040 Datasheet, 2.5.7). None exactly where there is no such word.
    pub fn read(&self, offset: u16) -> Option<u32>
        ensures { result ≡ word_of offset self.now }
    {
        self.engine.read(offset)
    }

    /// Does what a read, or a write of this word, does to the engine. False exactly where there is no such word, and nothing is
    /// changed then.
    pub fn effect(&mut self, offset: u16, write: Option<u32>) -> bool
        ensures after { self.new ≡ effect_of offset write self.old }
        ensures allowed { result ≡ is_word offset }
    {
        let allowed = self.engine.effect(offset, write);
        self.awaited = self.engine.awaited();
        allowed
    }

    /// A read or a write is allowed: there is such a word.
    pub fn allows(&self, offset: u16, _write: Option<u32>) -> bool
        ensures { result ≡ is_word offset }
    {
        self.engine.allows(offset)
    }

    /// The cycle, where this was begun and these turns were given. In most cycles the engine waits for a credit, and its timers alone step.
    #[inline(never)]
    #[tactic(auto, using(crate::proofs::Unmoved::stepping))]
    pub(crate) fn move_on(&mut self, begun: &BegunTransfer, turns: &[Turn; 2])
        ensures { self.new ≡ next self.old begun.now turns.now }
    {
        if self.engine.some_gives() {
            self.engine.finish_with_credits(begun, turns);
            self.awaited = self.engine.awaited();
            return;
        }
        if !matches!(self.awaited, Awaited::Credit) {
            self.awaited = self.engine.transfer(begun, turns);
        }
        self.engine.advance_timers();
    }

    /// Both are in the same state.
    #[tactic(auto, using(rp_base::proofs::Exact::seen))]
    pub fn is_same(&self, other: &Dma) -> bool
        ensures { Decides result (self.now ≡ other.now) }
    {
        self.engine.is_same(&other.engine)
    }

    /// The two interrupt lines, DMA_IRQ_0 and DMA_IRQ_1: some bit of INTS0, and some bit of INTS1.
    #[inline(always)]
    pub fn lines(&self) -> [bool; 2]
        ensures { result ≡ lines_of self.now }
    {
        self.engine.lines()
    }
}

impl Reset for Dma {
    ghost use Rattle.dma_engine.specs.State.{at_reset};

    ghost first = { at_reset };

    fn reset(&mut self) {
        *self = Dma::new();
    }
}

impl Registers<()> for Dma {
    ghost word = { λ offset _. word_of offset };

    ghost allowed = { λ offset _ _. is_word offset };

    ghost accessed = { effect_of };

    fn read(&self, _seen: &(), offset: u16) -> Option<u32> {
        self.read(offset)
    }

    fn allows(&self, offset: u16, write: Option<u32>) -> bool {
        self.allows(offset, write)
    }

    fn effect(&mut self, offset: u16, write: Option<u32>) -> bool {
        self.effect(offset, write)
    }
}
