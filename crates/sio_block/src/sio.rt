//! The block: its state, the launcher, and the end of its cycle.

ghost use Rattle.std.specs.Prelude.{◌≡◌, ◌<◌, ◌∷◌, [], true};
ghost use Rattle.sio_block.specs.State.{at_reset, own_side};
ghost use Rattle.sio_block.specs.Side.{line_of};
ghost use Rattle.sio_block.specs.Launcher.{offers_of, after_turn, launch_of};
ghost use Rattle.sio_block.specs.Cycle.{after_cycle};

use crate::Launch;
use crate::launcher::{answer_to, take};
use crate::locks::Locks;
use crate::pins::Pins;
use crate::side::Side;
use arrayvec::ArrayVec;
use std::marker::Model;

/// The single-cycle IO block (RP2040 Datasheet, 2.3.1). A cycle is its reads, the effects of core 0, then those of core 1 or,
/// while that core sleeps and `offers` was true at the start, `launcher`, and then `end_cycle`. What core 1's access finds is
/// asked for at the start too, and handed to `effect_where`.
#[derive(Drop)]
pub struct Sio {
    pub(crate) pins: Pins,
    pub(crate) locks: Locks,
    pub(crate) core0: Side,
    pub(crate) core1: Side,
    pub(crate) launched: ArrayVec<u32, 5>,
    pub(crate) quiet: bool,
}

impl Model for Sio {
    ghost use Rattle.std.specs.Prelude.{◌≡◌, true};
    ghost use Rattle.sio_block.specs.State.{State};
    ghost use Rattle.sio_block.specs.Cycle.{after_cycle};

    ghost Value = { State };

    ghost view = { λ s. record {
      pins = s.pins;
      locks = s.locks;
      core0 = s.core0;
      core1 = s.core1;
      launched = s.launched.items;
    } };

    // a quiet block stays as it is at the end of a cycle
    ghost invariant = { λ s.
        let now : State = record { pins = s.pins; locks = s.locks; core0 = s.core0; core1 = s.core1; launched = s.launched.items } in
        s.quiet ≡ true → after_cycle now ≡ now };
}

impl Sio {
    /// The block at reset: no pin is driven, no lock is taken, the mailboxes are empty, no division is going on, and the
    /// launcher expects its first word.
    pub fn new() -> Sio
        ensures { result ≡ at_reset }
    {
        Sio {
            pins: Pins { out: 0, enable: 0 },
            locks: Locks { taken: 0 },
            core0: Side::new(),
            core1: Side::new(),
            launched: ArrayVec::new(),
            quiet: true,
        }
    }

    /// One turn of the launcher, which stands for core 1 while that core sleeps: it takes a word from the core's mailbox and
    /// answers it, where there is a word, and room for the answer. Some exactly where it took the sixth word, which starts core 1.
    pub fn launcher(&mut self) -> Option<Launch>
        ensures after { self.new ≡ after_turn self.old }
        ensures launch { result ≡ launch_of self.old }
    {
        if !self.offers() {
            return None;
        }
        let word = self.core1.mailbox.front();
        self.core1.mailbox.take();
        self.core0.mailbox.put(answer_to(&self.launched, word));
        take(&mut self.launched, word)
    }

    /// Ends a cycle: divisions go on. The results of a division appear at the end of the eighth cycle, that of the write among
    /// them.
    #[inline(always)]
    pub fn end_cycle(&mut self)
        ensures { self.new ≡ after_cycle self.old }
    {
        if !self.quiet {
            self.end_busy_cycle();
        }
    }

    /// Ends a cycle in which something may change.
    fn end_busy_cycle(&mut self)
        ensures { self.new ≡ after_cycle self.old }
    {
        self.core0.end_cycle();
        self.core1.end_cycle();
        self.quiet = !self.core0.divider.is_busy() && !self.core1.divider.is_busy();
    }

    /// The block is quiet: the end of a cycle changes nothing.
    #[inline(always)]
    pub fn is_quiet(&self) -> bool
        ensures { result ≡ true → after_cycle self.now ≡ self.now }
    {
        self.quiet
    }

    /// The launcher has a word to take, and room for the answer.
    #[inline(always)]
    pub fn offers(&self) -> bool
        ensures { result ≡ offers_of self.now }
    {
        self.core1.mailbox.has_word() && self.core0.mailbox.has_room()
    }

    /// The interrupt line of core 0 or 1: its mailbox has a word, or a flag of FIFO_ST is set.
    #[inline(always)]
    pub fn line(&self, core: u8) -> bool
        requires { core < 2 }
        ensures { result ≡ line_of (own_side core self.now) }
    {
        if core == 0 {
            self.core0.line()
        } else {
            self.core1.line()
        }
    }

    /// GPIO_OUT and GPIO_OE.
    #[inline(always)]
    pub fn outs(&self) -> [u32; 2]
        ensures { result ≡ self.now.pins.out ∷ self.now.pins.enable ∷ [] }
    {
        [self.pins.out, self.pins.enable]
    }

    /// Takes the state of another block.
    pub fn copy_from(&mut self, other: &Sio)
        ensures { self.new ≡ other.now }
    {
        self.pins = other.pins;
        self.locks = other.locks;
        self.core0.copy_from(&other.core0);
        self.core1.copy_from(&other.core1);
        self.launched.clear();
        let _ = self
            .launched
            .try_extend_from_slice(other.launched.as_slice());
        self.quiet = other.quiet;
    }
}
