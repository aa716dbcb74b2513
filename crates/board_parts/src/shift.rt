//! A shift register.

ghost use Rattle.std.specs.Prelude.{◌≡◌, []};
ghost use Rattle.board_parts.specs.Shift.{shift};

use crate::part::{Drive, Part, at_level, keep, level_of};
use arrayvec::ArrayVec;

/// A shift register of eight bits. Its pins are clock, data and out, in this order, and its words the register and the last level of the
/// clock. Where the clock rises, the register moves up by one bit and takes the data as bit 0; out shows bit 7.
#[derive(Drop)]
pub struct Shift {
    pins: ArrayVec<u8, 3>,
}

impl Shift {
    /// A shift register that is attached to no pins yet.
    pub fn new() -> Shift
        ensures { ⟦<Shift as Part>⟧.attached result ≡ [] }
    {
        Shift {
            pins: ArrayVec::new(),
        }
    }
}

#[tactic(auto, using(crate::proofs::Placing::pins_long, crate::proofs::Placing::pin_low))]
impl Part for Shift {
    ghost attached = { λ s. s.pins.items };

    ghost meaning = { λ s. shift };

    fn pins(&self) -> usize {
        3
    }

    fn attach(&mut self, pins: &[u8]) {
        keep(pins, &mut self.pins);
    }

    fn words(&self) -> usize {
        2
    }

    fn start(&self, state: &mut [u32]) {
        state[0] = 0;
        state[1] = 0;
    }

    fn step(&self, state: &mut [u32], cycle: u64, pads: u32) -> Drive {
        let drive = self.drives(state, cycle, pads);
        let clock = level_of(self.pins[0], pads);
        if state[1] == 0 && clock == 1 {
            state[0] = state[0] % 128 * 2 + level_of(self.pins[1], pads);
        }
        state[1] = clock;
        drive
    }

    fn drives(&self, state: &[u32], _cycle: u64, _pads: u32) -> Drive {
        at_level(self.pins[2], level_of(7, state[0]))
    }

    #[tactic(auto, using(crate::proofs::Quiet::shift_quiet, lane_look::proofs::Quiet::quiet_none))]
    fn quiet(&self, state: &[u32], _cycle: u64, pads: u32) -> u64 {
        if state[1] == level_of(self.pins[0], pads) {
            u64::MAX
        } else {
            0
        }
    }

    /// A second cycle with the same pads changes nothing.
    #[tactic(auto, using(crate::proofs::Quiet::shift_after, crate::proofs::Quiet::shift_words, lane_look::proofs::Times::times_none))]
    fn pass(&self, state: &mut [u32], first: u64, pads: u32, n: u64) {
        if 0 < n {
            let _ = self.step(state, first, pads);
        }
    }
}
