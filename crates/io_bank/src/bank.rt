//! The pads: their state, their cycle and their readers.

ghost use Rattle.std.specs.Prelude.{◌≡◌, ◌<◌, ◌∷◌, ◌&&◌, [], ℕ, true, Decides, IfSome, not, slice_index};
ghost use Rattle.io_bank.specs.declared.outputs.Outs.{Outs};
ghost use Rattle.io_bank.specs.State.{at_reset, after_held, with_bank_held, with_pads_held};
ghost use Rattle.io_bank.specs.Levels.{levels_of, by_list, by_sets, inputs_of, pins_of, is_used, first_in, receive_pin, receive_level, IsSameAt};
ghost use Rattle.io_bank.specs.Edges.{edges_of};
ghost use Rattle.io_bank.specs.Step.{after_step, is_quiet, with_edges, with_levels};
ghost use Rattle.io_bank.specs.Interrupts.{raw_of, line_of};

use crate::events::{Edges, Events, Interrupts};
use crate::outputs::Outs;
use crate::routes::Routes;
use crate::sets::{PINS, driven_by, high_by, pins_with};
use rp_base::bits::has_bit;
use std::marker::Model;

/// The words of CTRL and of a pad at reset: no function; input enable, pull-down and Schmitt trigger.
const CONTROLS: [u32; 30] = [0x1f; 30];

const PADS: [u32; 30] = [0x56; 30];

/// The registers of IO_BANK0 and PADS_BANK0, and the levels of the pads now and in the two cycles before (RP2040
/// Datasheet, 2.19). A pin is a number below 30.
///
/// The copies of the two bits of RESETS are kept here, as `set_held` sets them. `read`, `effect` and `step` look at them:
/// a held block reads 0 and ignores writes, and no edge is latched while IO_BANK0 is held. `allows` and the readers of
/// levels do not. So `set_held` is called where a write of RESETS takes effect; a step and a read then go by RESETS as
/// it is at the start of the cycle, and an access by RESETS as it is when its turn comes.
#[derive(Clone, Copy)]
pub struct IoBank {
    pub(crate) bank_held: bool,
    pub(crate) pads_held: bool,
    pub(crate) controls: [u32; 30],
    pub(crate) pads: [u32; 30],
    pub(crate) voltage: u32,
    pub(crate) latched: Edges,
    pub(crate) fresh: Edges,
    pub(crate) core0: Interrupts,
    pub(crate) core1: Interrupts,
    pub(crate) current: u32,
    first: u32,
    second: u32,
    // what `controls` and `pads` say, by sets of pins
    pub(crate) routes: Routes,
}

impl Model for IoBank {
    ghost use Rattle.std.proofs.Common.{◌≡◌, ap, sym};
    ghost use Rattle.io_bank.specs.State.{State};
    ghost use Rattle.io_bank.specs.Routes.{routes_of};

    ghost Value = { State };

    ghost view = { λ a. record {
      bank_held = a.bank_held;
      pads_held = a.pads_held;
      controls = a.controls;
      pads = a.pads;
      voltage = a.voltage;
      latched = a.latched;
      fresh = a.fresh;
      core0 = a.core0;
      core1 = a.core1;
      current = a.current;
      first = a.first;
      second = a.second;
    } };

    ghost invariant = { λ a. a.routes ≡ routes_of a.controls a.pads };

    ghost inverse = { λ a. record {
      bank_held = a.bank_held;
      pads_held = a.pads_held;
      controls = a.controls;
      pads = a.pads;
      voltage = a.voltage;
      latched = a.latched;
      fresh = a.fresh;
      core0 = a.core0;
      core1 = a.core1;
      current = a.current;
      first = a.first;
      second = a.second;
      routes = routes_of a.controls a.pads;
    } };

    ghost inverse_ok = { λ a h. ap (λ r. record a { routes = r }) (sym h) };
}

impl IoBank {
    /// The reset state: no pin has a function, all pads are low, and neither block is held.
    pub fn new() -> IoBank
        ensures { result ≡ at_reset }
    {
        IoBank {
            bank_held: false,
            pads_held: false,
            controls: CONTROLS,
            pads: PADS,
            voltage: 0,
            latched: Edges::NONE,
            fresh: Edges::NONE,
            core0: Interrupts::NONE,
            core1: Interrupts::NONE,
            current: 0,
            first: 0,
            second: 0,
            routes: Routes::of(&CONTROLS, &PADS),
        }
    }

    /// Both are in the same state.
    pub fn is_same(&self, other: &IoBank) -> bool
        ensures { Decides result (self.now ≡ other.now) }
    {
        let controls = self.controls == other.controls;
        let pads = self.pads == other.pads;
        let latched = self.latched == other.latched;
        let fresh = self.fresh == other.fresh;
        let core0 = self.core0 == other.core0;
        let core1 = self.core1 == other.core1;
        (self.bank_held == other.bank_held)
            & (self.pads_held == other.pads_held)
            & controls
            & pads
            & (self.voltage == other.voltage)
            & latched
            & fresh
            & core0
            & core1
            & (self.current == other.current)
            & (self.first == other.first)
            & (self.second == other.second)
    }

    /// One cycle, by the outputs at its start and the level that drives each pin from outside (that of the script, or else
    /// of the device); `None` leaves a pin to its pull-up. Gives the new levels of the pads, and latches the edges that
    /// the second level makes as it moves on.
    #[tactic(auto, using(crate::proofs::Routed::listed))]
    pub fn step(&mut self, outs: &Outs, script: &[Option<bool>; 30]) -> u32
        ensures levels { result ≡ levels_of outs.now (by_list script.now) self.old }
        ensures after { self.new ≡ after_step outs.now (by_list script.now) self.old }
    {
        self.step_by_sets(outs, driven_by(script), high_by(script))
    }

    /// The same cycle, where outside drives the pins of a set, and of these it drives high those of another one. It costs
    /// some forty operations on words, whatever changed.
    pub fn step_by_sets(&mut self, outs: &Outs, driven: u32, high: u32) -> u32
        ensures levels { result ≡ levels_of outs.now (by_sets driven high) self.old }
        ensures after { self.new ≡ after_step outs.now (by_sets driven high) self.old }
    {
        let levels = self.levels(outs, driven, high);
        self.step_to(levels);
        levels
    }

    /// A cycle in which the pads get these levels, whatever drives them.
    #[inline(always)]
    pub fn step_to(&mut self, levels: u32)
        ensures { self.new ≡ with_levels levels (with_edges (edges_of self.old) self.old) }
    {
        let edges = self.edges();
        self.latched = self.latched.joined(edges);
        self.fresh = edges;
        self.second = self.first;
        self.first = self.current;
        self.current = levels;
    }

    /// The levels of the last three cycles are the same, and the last step latched no edge. A step that gives these levels
    /// again then changes nothing.
    #[inline]
    pub fn is_quiet(&self) -> bool
        ensures { result ≡ is_quiet self.now }
    {
        self.first == self.current
            && self.second == self.first
            && self.fresh.low == 0
            && self.fresh.high == 0
    }

    /// The levels of the pads, where outside drives the pins of a set, and of these drives high those of another one.
    #[inline]
    pub fn levels(&self, outs: &Outs, driven: u32, high: u32) -> u32
        ensures { result ≡ levels_of outs.now (by_sets driven high) self.now }
    {
        self.routes.levels(outs, driven, high)
    }

    /// The inputs at levels of the pads.
    #[inline]
    fn sensed(&self, levels: u32) -> u32
        ensures { result ≡ inputs_of self.now levels }
    {
        self.routes.inputs(levels)
    }

    /// The edges that the next second level makes.
    #[tactic(auto, using(crate::proofs::Routed::edges_laws))]
    fn edges(&self) -> Edges
        ensures { result ≡ edges_of self.now }
    {
        if self.bank_held || self.first == self.second {
            return Edges::NONE;
        }
        let before = self.sensed(self.second);
        let after = self.sensed(self.first);
        let changed = before ^ after;
        Edges {
            low: before & changed,
            high: after & changed,
        }
    }

    /// The levels of the pads now, by pin.
    pub fn pads(&self) -> u32
        ensures { result ≡ self.now.current }
    {
        self.current
    }

    /// The input words, of the level now and of the second one: each level under IE and INOVER.
    pub fn inputs(&self) -> [u32; 2]
        ensures { result ≡ inputs_of self.now self.now.current ∷ inputs_of self.now self.now.second
            ∷ [] }
    {
        [self.sensed(self.current), self.sensed(self.second)]
    }

    /// The interrupt lines of core 0 and core 1.
    #[inline(always)]
    pub fn lines(&self) -> [bool; 2]
        ensures { result ≡ line_of self.now self.now.core0 ∷ line_of self.now self.now.core1 ∷ [] }
    {
        [self.line(&self.core0), self.line(&self.core1)]
    }

    /// An interrupt line. Most often nothing is enabled or forced.
    #[inline(always)]
    fn line(&self, interrupts: &Interrupts) -> bool
        ensures { result ≡ line_of self.now interrupts.now }
    {
        let Interrupts { enable, force } = interrupts;
        (enable.is_any() || force.is_any()) && interrupts.shown(&self.raw()).is_any()
    }

    /// Both interrupt lines are low.
    pub fn is_silent(&self) -> bool
        ensures { result ≡ (not (line_of self.now self.now.core0)
            && not (line_of self.now self.now.core1)) }
    {
        let [core0, core1] = self.lines();
        !core0 && !core1
    }

    /// INTR: the levels of the inputs, and the latched edges.
    #[tactic(auto, using(crate::proofs::Routed::others))]
    pub(crate) fn raw(&self) -> Events
        ensures { result ≡ raw_of self.now }
    {
        let high = self.sensed(self.second);
        Events {
            level_low: PINS ^ high,
            level_high: high,
            edge_low: self.latched.low,
            edge_high: self.latched.high,
        }
    }

    /// Some pin has a function.
    pub fn uses(&self, function: u8) -> bool
        ensures { result ≡ is_used function self.now }
    {
        self.pins_of(function) != 0
    }

    /// The pins that have a function.
    #[tactic(auto, unfolding(crate::specs::Routes::routes_of))]
    fn pins_of(&self, function: u8) -> u32
        ensures { result ≡ pins_of function self.now }
    {
        match function {
            2 => self.routes.uart,
            6 => self.routes.pio0,
            7 => self.routes.pio1,
            _ => pins_with(&self.controls, 0, 32, u32::from(function)),
        }
    }

    /// The levels that PWM puts out are the same at the pins of its function. The pads then have the same levels by the second ones
    /// as by the first ones, whatever the other parts put out.
    #[inline(always)]
    pub fn is_pwm_same(&self, first: u32, next: u32) -> bool
        ensures value { Decides result (IsSameAt (pins_of 4 self.now) first next) }
        ensures levels { result ≡ true → (outs : Outs) → (enables driven high : ℕ) →
            levels_of (record outs { pwm = first ∷ enables ∷ [] }) (by_sets driven high) self.now
            ≡ levels_of (record outs { pwm = next ∷ enables ∷ [] })
            (by_sets driven high) self.now }
    {
        first & self.routes.pwm == next & self.routes.pwm
    }

    /// The pin from which UART 0 or 1 receives, the lowest of its RX pins that has function 2. RX is pin 1, 13, 17 or 29
    /// of UART0, and 5, 9, 21 or 25 of UART1 (any other number stands for it).
    pub fn receives(&self, number: u8) -> Option<u8>
        ensures value { result ≡ receive_pin number self.now }
        ensures pin { IfSome result (λ pin. pin < 30) }
    {
        let pins = self.pins_of(2);
        if number == 0 {
            first_of(pins, [1, 13, 17, 29])
        } else {
            first_of(pins, [5, 9, 21, 25])
        }
    }

    /// The level that UART 0 or 1 receives: the second level under IE and INOVER at that pin, and high without one.
    pub fn receive_level(&self, number: u8) -> bool
        ensures { result ≡ receive_level number self.now }
    {
        match self.receives(number) {
            Some(pin) => has_bit(self.sensed(self.second), u32::from(pin)),
            None => true,
        }
    }

    /// Sets the copies of the bits IO_BANK0 and PADS_BANK0 of RESETS. The registers of a block that is held get their
    /// reset values; the levels of the pads stay.
    pub fn set_held(&mut self, bank: bool, pads: bool)
        ensures { self.new ≡ after_held bank pads self.old }
    {
        self.set_bank_held(bank);
        self.set_pads_held(pads);
    }

    fn set_bank_held(&mut self, held: bool)
        ensures { self.new ≡ with_bank_held held self.old }
    {
        self.bank_held = held;
        if held {
            self.controls = CONTROLS;
            self.latched = Edges::NONE;
            self.fresh = Edges::NONE;
            self.core0 = Interrupts::NONE;
            self.core1 = Interrupts::NONE;
            self.routes = Routes::of(&self.controls, &self.pads);
        }
    }

    fn set_pads_held(&mut self, held: bool)
        ensures { self.new ≡ with_pads_held held self.old }
    {
        self.pads_held = held;
        if held {
            self.pads = PADS;
            self.voltage = 0;
            self.routes = Routes::of(&self.controls, &self.pads);
        }
    }
}

/// The first of four pins that is in a set.
fn first_of(set: u32, pins: [u8; 4]) -> Option<u8>
    requires pin0 { slice_index pins 0 < 30 }
    requires pin1 { slice_index pins 1 < 30 }
    requires pin2 { slice_index pins 2 < 30 }
    requires pin3 { slice_index pins 3 < 30 }
    ensures value { result ≡ first_in set pins }
    ensures pin { IfSome result (λ pin. pin < 30) }
{
    let [pin0, pin1, pin2, pin3] = pins;
    if set == 0 {
        None
    } else if has_bit(set, u32::from(pin0)) {
        Some(pin0)
    } else if has_bit(set, u32::from(pin1)) {
        Some(pin1)
    } else if has_bit(set, u32::from(pin2)) {
        Some(pin2)
    } else if has_bit(set, u32::from(pin3)) {
        Some(pin3)
    } else {
        None
    }
}
