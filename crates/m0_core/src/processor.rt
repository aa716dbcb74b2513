//! The core: its state, how it starts, and its readers.

ghost use Rattle.std.specs.Prelude.{◌≡◌};
ghost use Rattle.m0_core.specs.Start.{clear_registers, with_vectors};

use crate::doing::Work;
use crate::placed::Placed;
use arrayvec::ArrayVec;
use m0_beats::Regs;
use m0_nvic::Nvic;
use m0_nvic::registers::VTOR;
use rp_base::{Request, Size};
use std::marker::Model;

/// One core of the RP2040 (ARMv6-M Architecture Reference Manual, B1), between two cycles.
#[derive(Drop)]
pub struct Core {
    number: u8,
    asleep: bool,
    pub(crate) regs: Regs,
    pub(crate) nvic: Nvic,
    pub(crate) event: bool,
    offer: bool,
    pub(crate) work: Option<Work>,
    pub(crate) beats_done: usize,
    pub(crate) read: ArrayVec<u32, 16>,
    /// The access of the beat that is next was found, where something is in progress.
    pub(crate) is_kept: bool,
    /// That access, where it was found.
    pub(crate) kept: Placed,
}

impl Model for Core {
    ghost use Rattle.m0_core.specs.State.{State};
    ghost use Rattle.m0_core.specs.Kept.{IsKept};

    ghost Value = { State };

    ghost view = { λ c. record {
      number = c.number;
      asleep = c.asleep;
      regs = c.regs;
      nvic = c.nvic;
      event = c.event;
      offer = c.offer;
      work = c.work;
      beats_done = c.beats_done;
      read = c.read.items;
    } };

    ghost invariant = { λ c. IsKept c.work c.is_kept c.kept c.regs c.beats_done };
}

/// Registers and flags that are 0, but for MSP, LR, PC and T.
fn clear_registers(sp: u32, lr: u32, pc: u32, t: bool) -> Regs
    ensures { result ≡ clear_registers sp lr pc t }
{
    Regs {
        r: [0; 13],
        msp: sp,
        psp: 0,
        lr,
        pc,
        n: false,
        z: false,
        c: false,
        v: false,
        t,
        ipsr: 0,
        primask: false,
        spsel: false,
    }
}

/// No exception is pending or active, and the vector table is there.
#[tactic(auto, unfolding(m0_nvic::specs::Words::is_word, m0_nvic::specs::Words::after_access))]
fn with_vectors(vtor: u32) -> Nvic
    ensures { result ≡ with_vectors vtor }
{
    let mut nvic = Nvic::new();
    let _ = nvic.effect(VTOR, Some(vtor));
    nvic
}

impl Core {
    ghost use Rattle.std.specs.Prelude.{◌≡◌, Decides, true};
    ghost use Rattle.m0_beats.specs.Registers.{register_words};
    ghost use Rattle.m0_core.specs.Start.{sleeping, started};

    /// A core of that number, asleep.
    pub fn new(number: u8) -> Core
        ensures { result ≡ sleeping number }
    {
        Core {
            number,
            asleep: true,
            regs: clear_registers(0, 0, 0, false),
            nvic: Nvic::new(),
            event: false,
            offer: false,
            work: None,
            beats_done: 0,
            read: ArrayVec::new(),
            is_kept: false,
            kept: Placed::new(Request {
                address: 0,
                size: Size::Word,
                write: None,
            }),
        }
    }

    /// Starts the core at an entry, whose bit 0 is the Thumb state, with a vector table and a stack; all else is 0, but
    /// LR, whose bits are all set.
    pub fn start(&mut self, vtor: u32, sp: u32, entry: u32)
        ensures { self.new ≡ started vtor sp entry self.old }
    {
        self.asleep = false;
        self.regs = clear_registers(sp & !3, 0xffff_ffff, entry & !1, entry & 1 == 1);
        self.nvic = with_vectors(vtor);
        self.event = false;
        self.work = None;
        self.beats_done = 0;
        self.read.clear();
    }

    /// Sets the event register.
    pub fn signal(&mut self)
        ensures { self.new ≡ record self.old { event = true } }
    {
        self.event = true;
    }

    /// Tells the core whether the launcher has a word for it.
    pub fn set_offer(&mut self, word: bool)
        ensures { self.new ≡ record self.old { offer = word } }
    {
        self.offer = word;
    }

    /// The core was not started.
    pub fn is_asleep(&self) -> bool
        ensures { result ≡ self.now.asleep }
    {
        self.asleep
    }

    /// The launcher has a word for the core.
    pub fn has_offer(&self) -> bool
        ensures { result ≡ self.now.offer }
    {
        self.offer
    }

    /// R0 to R12, the active stack pointer, LR, PC and xPSR.
    pub fn registers(&self) -> [u32; 17]
        ensures { result ≡ register_words self.now.regs }
    {
        self.regs.words()
    }

    /// The core's number, 0 or 1.
    pub(crate) fn number(&self) -> u8
        ensures { result ≡ self.now.number }
    {
        self.number
    }

    /// Both are in the same state.
    pub fn is_same(&self, other: &Core) -> bool
        ensures { Decides result (self.now ≡ other.now) }
    {
        let regs = self.regs == other.regs;
        let nvic = self.nvic.is_same(&other.nvic);
        let work = self.work == other.work;
        let read = self.read.as_slice() == other.read.as_slice();
        (self.number == other.number)
            & (self.asleep == other.asleep)
            & regs
            & nvic
            & (self.event == other.event)
            & (self.offer == other.offer)
            & work
            & (self.beats_done == other.beats_done)
            & read
    }

    /// Takes the state of another core.
    pub(crate) fn take(&mut self, other: &Core)
        ensures { self.new ≡ other.now }
    {
        self.number = other.number;
        self.asleep = other.asleep;
        self.regs = other.regs;
        self.nvic = other.nvic;
        self.event = other.event;
        self.offer = other.offer;
        self.work = other.work;
        self.beats_done = other.beats_done;
        self.is_kept = false;
        self.read.clear();
        let _ = self.read.try_extend_from_slice(other.read.as_slice());
    }
}
