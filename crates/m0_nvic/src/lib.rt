//! The exceptions of a core: which are pending, active and enabled, their priorities, the system timer, and the words of
//! the private bus that show them. Everything is defined in `specs/` on sets of exception numbers.
#![tactic(auto)]

ghost use Rattle.std.specs.Prelude.{bit_and, Decides, ◌≡◌, ◌^◌, ◌<◌, false};
ghost use Rattle.m0_nvic.specs.State.{at_reset};
ghost use Rattle.m0_nvic.specs.Numbers.{is_member, interrupts, of_interrupts};
ghost use Rattle.m0_nvic.specs.Priority.{rank_of, precedes, nearer, least_of, IsLeast, best_of, priority_of, wakes_of, active_priority};
ghost use Rattle.m0_nvic.specs.Changes.{pended, entered, left, is_alone, with_pending};
ghost use Rattle.m0_nvic.specs.Cycle.{after_timer, after_lines, after_cycle, is_event};

pub mod laws;
pub mod numbers;
mod quiet;
pub mod registers;
pub mod systick;
mod words;

use numbers::{HARDFAULT, NMI, NUMBERS, SYSTICK};
use std::marker::Model;
use systick::SysTick;

/// The exceptions of a core. A `number` is an exception number: Reset 1, NMI 2, HardFault 3, SVCall 11, PendSV 14,
/// SysTick 15, and 16 + n for interrupt n, 0 to 31 (ARMv6-M Architecture Reference Manual, B1.5.2).
#[derive(Clone, Copy)]
pub struct Nvic {
    pending: u64,
    active: u64,
    enabled: u64,
    priorities: [u8; 48],
    lines: u32,
    arrived: bool,
    systick: SysTick,
    vtor: u32,
    scr: u32,
}

impl Model for Nvic {
    ghost use Rattle.m0_nvic.specs.State.{State};

    ghost Value = { State };

    ghost view = { λ a. record {
      pending = a.pending;
      active = a.active;
      enabled = a.enabled;
      priorities = a.priorities;
      lines = a.lines;
      arrived = a.arrived;
      systick = a.systick;
      vtor = a.vtor;
      scr = a.scr;
    } };

    ghost inverse = { λ a. record {
      pending = a.pending;
      active = a.active;
      enabled = a.enabled;
      priorities = a.priorities;
      lines = a.lines;
      arrived = a.arrived;
      systick = a.systick;
      vtor = a.vtor;
      scr = a.scr;
    } };
}

impl Nvic {
    /// No exception is pending or active, no interrupt is enabled, and all else is 0.
    pub fn new() -> Nvic
        ensures { result ≡ at_reset }
    {
        Nvic {
            pending: 0,
            active: 0,
            enabled: 0xc80c,
            priorities: [0; 48],
            lines: 0,
            arrived: false,
            systick: SysTick {
                enable: false,
                interrupt: false,
                core_clock: false,
                counted: false,
                reload: 0,
                current: 0,
            },
            vtor: 0,
            scr: 0,
        }
    }

    /// Both are in the same state.
    pub fn is_same(&self, other: &Nvic) -> bool
        ensures { Decides result (self.now ≡ other.now) }
    {
        let priorities = self.priorities == other.priorities;
        let systick = self.systick == other.systick;
        (self.pending == other.pending)
            & (self.active == other.active)
            & (self.enabled == other.enabled)
            & priorities
            & (self.lines == other.lines)
            & (self.arrived == other.arrived)
            & systick
            & (self.vtor == other.vtor)
            & (self.scr == other.scr)
    }

    /// The best exception: of those that are pending and enabled, the one of the least priority, and of equal ones that
    /// of the least number. None where no enabled exception is pending.
    #[tactic(auto, using(crate::proofs::Least::least_laws))]
    pub fn best(&self) -> Option<u8>
        ensures value { result ≡ best_of self.now }
        ensures least { IsLeast self.now (bit_and self.now.pending self.now.enabled) result }
    {
        self.least(self.pending & self.enabled)
    }

    /// The execution priority: the least of the active exceptions' priorities, 256 where none is active, and at most 0
    /// with PRIMASK.
    pub fn priority(&self, primask: bool) -> i32
        ensures { result ≡ priority_of self.now primask }
    {
        let active = match self.least(self.active) {
            Some(number) => self.rank(number),
            None => 256,
        };
        if primask { active.min(0) } else { active }
    }

    /// The best exception wakes a core that sleeps: its priority is below the execution priority without PRIMASK.
    pub fn wakes(&self) -> bool
        ensures { result ≡ wakes_of self.now }
    {
        match self.best() {
            Some(number) => self.rank(number) < self.priority(false),
            None => false,
        }
    }

    /// VTOR: the address of the vector table, a multiple of 256.
    pub fn vtor(&self) -> u32
        ensures { result ≡ self.now.vtor }
    {
        self.vtor
    }

    /// The least member of a set by priority, then by number. Most sets are empty, which costs one test.
    #[inline(always)]
    fn least(&self, set: u64) -> Option<u8>
        ensures { result ≡ least_of self.now set }
    {
        if set == 0 {
            return None;
        }
        self.least_member(set)
    }

    /// The same: the lowest number against the least of the others.
    fn least_member(&self, set: u64) -> Option<u8>
        ensures { result ≡ least_of self.now set }
    {
        if set == 0 {
            return None;
        }
        let lowest = set.trailing_zeros() as u8;
        if lowest >= NUMBERS {
            return None;
        }
        let others = self.least_member(set & !bit(lowest));
        Some(self.nearer(lowest, others))
    }

    /// The one of two exceptions that comes first.
    fn nearer(&self, number: u8, other: Option<u8>) -> u8
        ensures { Some result ≡ nearer self.now number other }
    {
        match other {
            Some(other) if self.precedes(other, number) => other,
            _ => number,
        }
    }

    /// One exception comes before another: by priority, then by number.
    fn precedes(&self, number: u8, other: u8) -> bool
        ensures { result ≡ precedes self.now number other }
    {
        let (first, second) = (self.rank(number), self.rank(other));
        first < second || (first == second && number < other)
    }

    /// Ends a cycle: the system timer counts, then interrupt n becomes pending where bit n of `lines` is high and was low
    /// in the cycle before or the interrupt is not active. True exactly where SEVONPEND is set and an exception became
    /// pending since the call before.
    #[inline(always)]
    pub fn end_cycle(&mut self, lines: u32, cycle: u64) -> bool
        ensures after { self.new ≡ after_cycle lines cycle self.old }
        ensures event { result ≡ is_event lines cycle self.old }
    {
        self.end_timer(cycle);
        self.end_lines(lines);
        let event = self.arrived && (self.scr >> 4) & 1 == 1;
        self.arrived = false;
        event
    }

    /// The system timer counts.
    #[inline(always)]
    fn end_timer(&mut self, cycle: u64)
        ensures { self.new ≡ after_timer cycle self.old }
    {
        if self.systick.enable && self.systick.end_cycle(cycle) {
            self.pend(SYSTICK);
        }
    }

    /// The interrupt lines make interrupts pending; where none is high and none was, that costs a test.
    #[inline(always)]
    #[tactic(auto, using(crate::proofs::Silent::no_lines))]
    fn end_lines(&mut self, lines: u32)
        ensures { self.new ≡ after_lines lines self.old }
    {
        if lines == 0 && self.lines == 0 {
            return;
        }
        let held = of_interrupts(self.lines) & self.active;
        self.lines = lines;
        self.add_pending(of_interrupts(lines) & !held);
    }

    /// The priority of an exception: -2 for NMI, -1 for HardFault, and 0, 64, 128 or 192 for the others.
    pub fn rank(&self, number: u8) -> i32
        ensures { result ≡ rank_of self.now number }
    {
        match number {
            NMI => -2,
            HARDFAULT => -1,
            _ if number < NUMBERS => i32::from(self.priorities[number as usize]),
            _ => 0,
        }
    }

    /// Makes an exception pending.
    pub fn pend(&mut self, number: u8)
        ensures { self.new ≡ pended number self.old }
    {
        if number < NUMBERS {
            self.add_pending(bit(number));
        }
    }

    /// Takes an exception: it is not pending any more, and active.
    pub fn enter(&mut self, number: u8)
        ensures { self.new ≡ entered number self.old }
    {
        if number < NUMBERS {
            self.pending &= !bit(number);
            self.active |= bit(number);
        }
    }

    /// Makes an exception inactive.
    pub fn leave(&mut self, number: u8)
        ensures { self.new ≡ left number self.old }
    {
        if number < NUMBERS {
            self.active &= !bit(number);
        }
    }

    /// No exception but this one is active.
    pub fn is_alone(&self, number: u8) -> bool
        ensures { result ≡ is_alone number self.now }
    {
        let mut others = self.active;
        if number < NUMBERS {
            others &= !bit(number);
        }
        others == 0
    }

    /// Makes the exceptions of a set pending.
    fn add_pending(&mut self, set: u64)
        ensures { self.new ≡ with_pending set self.old }
    {
        self.arrived |= set & !self.pending != 0;
        self.pending |= set;
    }
}

/// The set of one exception.
fn bit(number: u8) -> u64
    requires { number < 48 }
    ensures { result ≡ 2 ^ number }
{
    1 << number
}

/// The set of a word of interrupts.
fn of_interrupts(word: u32) -> u64
    ensures { result ≡ of_interrupts word }
{
    u64::from(word) << 16
}

/// The interrupts of a set as a word.
fn interrupts(set: u64) -> u32
    ensures { result ≡ interrupts set }
{
    ((set >> 16) & 0xffff_ffff) as u32
}

/// An exception is in a set.
fn is_member(set: u64, number: u8) -> bool
    ensures { result ≡ is_member number set }
{
    number < NUMBERS && (set >> number) & 1 == 1
}
