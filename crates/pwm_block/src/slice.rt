//! A slice: its cycle, its outputs and its registers.

ghost use Rattle.std.specs.Prelude.{◌≡◌, ◌≤◌, ◌+◌, ◌*◌, ◌/◌, true};
ghost use Rattle.rp_base.specs.Word.{bit_number};
ghost use Rattle.pwm_block.specs.State.{slice_at_reset, is_enabled, is_phase_correct, divisor_of};
ghost use Rattle.pwm_block.specs.Step.{wraps, next_of, next_way, counted, has_event, is_full, after_event, acts, after_slice, has_wrap};
ghost use Rattle.pwm_block.specs.Outputs.{turned, output_a, output_b};
ghost use Rattle.pwm_block.specs.Words.{with_csr, with_div, with_ctr, with_cc, with_top};

use std::marker::Model;

/// A slice (RP2040 Datasheet, 4.5.2).
#[derive(Clone, Copy)]
pub(crate) struct Slice {
    pub(crate) csr: u32,
    pub(crate) div: u32,
    pub(crate) ctr: u32,
    pub(crate) cc: u32,
    pub(crate) top: u32,
    pub(crate) live_cc: u32,
    pub(crate) live_top: u32,
    pub(crate) down: bool,
    pub(crate) acc: u32,
}

impl Model for Slice {
    ghost use Rattle.pwm_block.specs.State as state;

    ghost Value = { state.Slice };

    ghost view = { λ a. record {
      csr = a.csr;
      div = a.div;
      ctr = a.ctr;
      cc = a.cc;
      top = a.top;
      live_cc = a.live_cc;
      live_top = a.live_top;
      down = a.down;
      acc = a.acc;
    } };

    ghost inverse = { λ a. record {
      csr = a.csr;
      div = a.div;
      ctr = a.ctr;
      cc = a.cc;
      top = a.top;
      live_cc = a.live_cc;
      live_top = a.live_top;
      down = a.down;
      acc = a.acc;
    } };
}

impl Slice {
    /// The slice at reset.
    pub(crate) fn new() -> Slice
        ensures { result ≡ slice_at_reset }
    {
        Slice {
            csr: 0,
            div: 0x10,
            ctr: 0,
            cc: 0,
            top: 0xffff,
            live_cc: 0,
            live_top: 0xffff,
            down: false,
            acc: 0,
        }
    }

    /// EN of CSR.
    pub(crate) fn is_enabled(&self) -> bool
        ensures { result ≡ is_enabled self.now }
    {
        self.csr & 1 == 1
    }

    /// PH_CORRECT of CSR.
    fn is_phase_correct(&self) -> bool
        ensures { result ≡ is_phase_correct self.now }
    {
        (self.csr >> 1) & 1 == 1
    }

    /// One cycle, by the level of its input pin and the one of the cycle before. Whether it wraps in it.
    pub(crate) fn step(&mut self, input: bool, was: bool) -> bool
        ensures after { self.new ≡ after_slice input was self.old }
        ensures wrap { result ≡ has_wrap input was self.old }
    {
        if !self.is_enabled() || !self.has_event(input, was) {
            return false;
        }
        let above = self.divisor() - 16;
        if self.acc < above {
            self.acc += 16;
            return false;
        }
        self.acc -= above;
        self.count()
    }

    /// The divider has an event in this cycle, by DIVMODE.
    fn has_event(&self, input: bool, was: bool) -> bool
        ensures { result ≡ has_event input was self.now }
    {
        match (self.csr >> 4) & 3 {
            0 => true,
            1 => input,
            2 => input && !was,
            _ => !input && was,
        }
    }

    /// The sixteenths of a cycle from one count to the next.
    fn divisor(&self) -> u32
        ensures value { result ≡ divisor_of self.now }
        ensures least { 16 ≤ result }
    {
        let whole = (self.div >> 4) & 0xff;
        let part = self.div & 0xf;
        if whole == 0 {
            256 * 16 + part
        } else {
            whole * 16 + part
        }
    }

    /// A count. Whether it is a wrap.
    fn count(&mut self) -> bool
        ensures after { self.new ≡ counted self.old }
        ensures wrap { result ≡ wraps self.old }
    {
        let wraps = self.count_on();
        if wraps {
            self.live_cc = self.cc;
            self.live_top = self.top;
        }
        wraps
    }

    /// The counter of a count, and its direction. Whether it is a wrap.
    fn count_on(&mut self) -> bool
        ensures after { self.new ≡ record self.old { ctr = next_of self.old; down = next_way self.old } }
        ensures wrap { result ≡ wraps self.old }
    {
        if self.is_phase_correct() {
            return self.count_both_ways();
        }
        if self.ctr == self.live_top {
            self.ctr = 0;
            return true;
        }
        self.ctr = (self.ctr % 0x1_0000 + 1) % 0x1_0000;
        false
    }

    /// The same, with PH_CORRECT.
    fn count_both_ways(&mut self) -> bool
        requires { is_phase_correct self.old ≡ true }
        ensures after { self.new ≡ record self.old { ctr = next_of self.old; down = next_way self.old } }
        ensures wrap { result ≡ wraps self.old }
    {
        if self.down {
            if self.ctr == 0 {
                self.down = false;
                return true;
            }
            self.ctr -= 1;
        } else if self.ctr == self.live_top {
            self.down = true;
        } else {
            self.ctr = (self.ctr % 0x1_0000 + 1) % 0x1_0000;
        }
        false
    }

    /// Output A.
    pub(crate) fn output_a(&self) -> bool
        ensures { result ≡ output_a self.now }
    {
        turned((self.csr >> 2) & 1 == 1, self.ctr < self.live_cc & 0xffff)
    }

    /// Output B.
    pub(crate) fn output_b(&self) -> bool
        ensures { result ≡ output_b self.now }
    {
        turned(
            (self.csr >> 3) & 1 == 1,
            self.ctr < (self.live_cc >> 16) & 0xffff,
        )
    }

    /// A write of CSR.
    pub(crate) fn set_csr(&mut self, word: u32)
        ensures { self.new ≡ with_csr word self.old }
    {
        self.csr = word & 0x3f;
    }

    /// A write of DIV.
    pub(crate) fn set_div(&mut self, word: u32)
        ensures { self.new ≡ with_div word self.old }
    {
        self.div = word & 0xfff;
    }

    /// A write of CTR.
    pub(crate) fn set_ctr(&mut self, word: u32)
        ensures { self.new ≡ with_ctr word self.old }
    {
        self.ctr = word & 0xffff;
    }

    /// A write of CC.
    pub(crate) fn set_cc(&mut self, word: u32)
        ensures { self.new ≡ with_cc word self.old }
    {
        self.cc = word;
        if !self.is_enabled() {
            self.live_cc = word;
        }
    }

    /// A write of TOP.
    pub(crate) fn set_top(&mut self, word: u32)
        ensures { self.new ≡ with_top word self.old }
    {
        self.top = word & 0xffff;
        if !self.is_enabled() {
            self.live_top = word & 0xffff;
        }
    }

    /// A write of the bit of EN.
    pub(crate) fn set_enable(&mut self, on: bool)
        ensures { self.new ≡ record self.old { csr = self.old.csr / 2 * 2 + bit_number on } }
    {
        self.csr = self.csr - self.csr % 2 + u32::from(on);
    }
}

/// A level, turned where its output is inverted.
fn turned(turns: bool, level: bool) -> bool
    ensures { result ≡ turned turns level }
{
    turns != level
}
