//! The block as a device.

ghost use Rattle.std.specs.Prelude.{◌≡◌, length};
ghost use Rattle.lane_look.specs.Quiet.{device_after};
ghost use Rattle.pwm_block.specs.Device.{packed_step, packed_wires, pwm_device};
ghost use Rattle.pwm_block.specs.State.{at_reset};
ghost use Rattle.pwm_block.specs.Step.{after_step};
ghost use Rattle.pwm_block.specs.Packing.{words_of, block_of};

use crate::change::Change;
use crate::packing::{Interrupts, LAST, PINS, SIGNS, WORDS, renew};
use crate::words;
use lane_look::{Device, Wires};

/// The PWM block at 40050000 to 40053FFF (RP2040 Datasheet, 4.5). Its state is 68 words. Output A or B of slice n is that of pins 2n
/// or 2n + 1 and of those 16 further by function 4, the input of slice n is the level of pin 2n + 1, and the interrupt line is 4.
#[derive(Clone, Copy, Debug, PartialEq, Eq, Default)]
pub struct Pwm;

impl Pwm {
    /// The block. Its state is in the words that each call is lent.
    pub fn new() -> Pwm {
        Pwm
    }
}

impl Device for Pwm {
    ghost meaning = { λ _. pwm_device };

    fn words(&self) -> usize {
        WORDS
    }

    fn start(&self, state: &mut [u32]) {
        start(state);
    }

    fn owns(&self, address: u32) -> bool {
        address / 0x4000 == 0x4005_0000 / 0x4000
    }

    fn read(&self, state: &mut [u32], address: u32) -> u32 {
        words::read(state, address)
    }

    fn write(&self, state: &mut [u32], address: u32, value: u32) {
        words::write(state, address, value);
    }

    #[inline(always)]
    fn step(&self, state: &mut [u32], _cycle: u64, pads: u32) -> Wires {
        let wires = driven(state);
        cycle(state, pads);
        wires
    }

    #[inline(always)]
    fn drives(&self, state: &[u32], _cycle: u64, _pads: u32) -> Wires {
        driven(state)
    }

    #[inline(always)]
    #[tactic(auto, using(crate::proofs::Quiet::off_quiet, lane_look::proofs::Quiet::quiet_none))]
    fn quiet(&self, state: &[u32], _cycle: u64, _pads: u32) -> u64 {
        if state[SIGNS] & 0xff == 0 {
            u64::MAX
        } else {
            0
        }
    }

    #[inline(always)]
    #[tactic(auto, using(crate::proofs::Quiet::off_passed, lane_look::proofs::Times::times_none))]
    fn pass(&self, state: &mut [u32], first: u64, pads: u32, n: u64) {
        if state[SIGNS] & 0xff == 0 {
            if 0 < n {
                state[LAST] = pads;
            }
        } else {
            cycles(state, first, pads, n);
        }
    }
}

/// The state at reset.
fn start(state: &mut [u32])
    requires { length state.old ≡ 68 }
    ensures { state.new ≡ words_of at_reset }
{
    let none = Interrupts {
        raised: 0,
        enabled: 0,
        forced: 0,
    };
    renew(state, &Change::Reset, 0, none);
}

/// What it drives, whatever the cycle.
#[inline(always)]
fn driven(state: &[u32]) -> Wires
    requires { length state.now ≡ 68 }
    ensures { result ≡ packed_wires state.now }
{
    Wires {
        mask: 0,
        level: 0,
        pwm: state[PINS],
        irq: ((state[SIGNS] >> 8) & 1) << 4,
    }
}

/// A cycle: where no slice is enabled it changes the last levels of the pads alone.
#[inline(always)]
fn cycle(state: &mut [u32], pads: u32)
    requires { length state.old ≡ 68 }
    ensures { state.new ≡ packed_step pads state.old }
{
    if state[SIGNS] & 0xff == 0 {
        state[LAST] = pads;
    } else {
        step_slices(state, pads);
    }
}

/// So many cycles one by one.
#[inline(never)]
#[tactic(auto, using(lane_look::proofs::Times::times_none, lane_look::proofs::Times::times_more))]
fn cycles(state: &mut [u32], _first: u64, pads: u32, n: u64)
    requires { length state.old ≡ 68 }
    ensures { state.new ≡ device_after pwm_device pads _first n state.old }
{
    for _k in 0..n {
        cycle(state, pads);
    }
}

/// A cycle of all slices.
#[inline(never)]
fn step_slices(state: &mut [u32], pads: u32)
    requires { length state.old ≡ 68 }
    ensures { state.new ≡ words_of (after_step pads (block_of state.old)) }
{
    let last = state[LAST];
    let interrupts = Interrupts::load(state);
    renew(state, &Change::Step { pads, last }, pads, interrupts);
}
