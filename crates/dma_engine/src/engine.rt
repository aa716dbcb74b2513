//! The engine: its state, a reset, and its interrupt lines.

ghost use Rattle.std.specs.Prelude.{◌≡◌, Decides};

use crate::channel::Channel;
use crate::line::InterruptLine;
use crate::timer::PacingTimer;
use crate::waiting::WaitingWrite;
use arrayvec::ArrayVec;
use std::marker::Model;

/// How many channels there are.
pub(crate) const CHANNELS: u8 = 12;

/// The engine between two cycles.
#[derive(Drop)]
pub(crate) struct Engine {
    pub(crate) channels: [Channel; 12],
    pub(crate) chosen: Option<u8>,
    pub(crate) last_chosen: u8,
    pub(crate) waiting: ArrayVec<WaitingWrite, 2>,
    pub(crate) raised: u16,
    pub(crate) line_0: InterruptLine,
    pub(crate) line_1: InterruptLine,
    pub(crate) timers: [PacingTimer; 4],
}

impl Model for Engine {
    ghost use Rattle.dma_engine.specs.State.{State};

    ghost Value = { State };

    ghost view = { λ e. record {
      channels = e.channels;
      chosen = e.chosen;
      last_chosen = e.last_chosen;
      waiting = e.waiting.items;
      raised = e.raised;
      line_0 = e.line_0;
      line_1 = e.line_1;
      timers = e.timers;
    } };
}

impl Engine {
    ghost use Rattle.dma_engine.specs.State.{at_reset};
    ghost use Rattle.dma_engine.specs.Words.{lines_of};

    /// The reset state.
    pub(crate) fn new() -> Engine
        ensures { result ≡ at_reset }
    {
        Engine {
            channels: [Channel::IDLE; 12],
            chosen: None,
            last_chosen: CHANNELS - 1,
            waiting: ArrayVec::new(),
            raised: 0,
            line_0: InterruptLine::LOW,
            line_1: InterruptLine::LOW,
            timers: [PacingTimer::STOPPED; 4],
        }
    }

    /// The two interrupt lines.
    #[inline(always)]
    pub(crate) fn lines(&self) -> [bool; 2]
        ensures { result ≡ lines_of self.now }
    {
        [
            self.line_0.is_raised(self.raised),
            self.line_1.is_raised(self.raised),
        ]
    }

    /// Both are in the same state.
    pub(crate) fn is_same(&self, other: &Engine) -> bool
        ensures { Decides result (self.now ≡ other.now) }
    {
        let channels = self.channels == other.channels;
        let chosen = self.chosen == other.chosen;
        let waiting = self.waiting.as_slice() == other.waiting.as_slice();
        let line_0 = self.line_0 == other.line_0;
        let line_1 = self.line_1 == other.line_1;
        let timers = self.timers == other.timers;
        channels
            & chosen
            & (self.last_chosen == other.last_chosen)
            & waiting
            & (self.raised == other.raised)
            & line_0
            & line_1
            & timers
    }

    /// Takes the state of another engine.
    pub(crate) fn copy_from(&mut self, other: &Engine)
        ensures { self.new ≡ other.now }
    {
        self.channels = other.channels;
        self.chosen = other.chosen;
        self.last_chosen = other.last_chosen;
        self.waiting.clear();
        let _ = self.waiting.try_extend_from_slice(other.waiting.as_slice());
        self.raised = other.raised;
        self.line_0 = other.line_0;
        self.line_1 = other.line_1;
        self.timers = other.timers;
    }
}
