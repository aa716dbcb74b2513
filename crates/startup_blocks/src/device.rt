//! The registers as a device.

ghost use Rattle.std.specs.Prelude.{◌≡◌, length};
ghost use Rattle.startup_blocks.specs.Device.{at_start, startup_device};

use crate::words::{self, PLL_SYS_WORDS, PLL_USB_WORDS, TICK_WORD, WORDS};
use lane_look::{Device, Wires};

/// CLOCKS at 40008000, XOSC at 40024000, PLL_SYS at 40028000, PLL_USB at 4002C000 and TICK of WATCHDOG at 4005802C (RP2040 Datasheet,
/// 2.15, 2.16, 2.18 and 4.7), with their aliases. Its state is 46 words. All that start-up code waits for is ready at once, and no
/// clock changes. It drives no pad and no interrupt line.
#[derive(Clone, Copy, Debug, PartialEq, Eq, Default)]
pub struct Startup;

impl Startup {
    /// The registers. Their words are in the state that each call is lent.
    pub fn new() -> Startup {
        Startup
    }
}

impl Device for Startup {
    ghost meaning = { λ _. startup_device };

    fn words(&self) -> usize {
        WORDS
    }

    fn start(&self, state: &mut [u32]) {
        start(state);
    }

    fn owns(&self, address: u32) -> bool {
        words::is_word(address)
    }

    fn read(&self, state: &mut [u32], address: u32) -> u32 {
        words::read(state, address)
    }

    fn write(&self, state: &mut [u32], address: u32, value: u32) {
        words::write(state, address, value);
    }

    fn step(&self, _state: &mut [u32], _cycle: u64, _pads: u32) -> Wires {
        Wires::default()
    }

    #[inline(always)]
    fn drives(&self, _state: &[u32], _cycle: u64, _pads: u32) -> Wires {
        Wires::default()
    }

    #[tactic(auto, using(lane_look::proofs::Quiet::quiet_rest))]
    fn quiet(&self, _state: &[u32], _cycle: u64, _pads: u32) -> u64 {
        u64::MAX
    }

    #[tactic(auto, using(lane_look::proofs::Times::times_rest))]
    fn pass(&self, _state: &mut [u32], _first: u64, _pads: u32, _n: u64) {}
}

/// The state at the start.
fn start(state: &mut [u32])
    requires { length state.old ≡ 46 }
    ensures { state.new ≡ at_start }
{
    state.fill(0);
    state[PLL_SYS_WORDS] = 1;
    state[PLL_USB_WORDS] = 1;
    state[TICK_WORD] = 0x200;
}
