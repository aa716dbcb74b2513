//! A wire from one pin to another.

ghost use Rattle.std.specs.Prelude.{◌≡◌, []};
ghost use Rattle.board_parts.specs.Loop.{loop_back};

use crate::part::{Drive, Part, at_level, keep, level_of};
use arrayvec::ArrayVec;

/// A wire: it drives its second pin with the level that its first pin has at the start of the cycle. It has no state.
#[derive(Drop)]
pub struct Loop {
    pins: ArrayVec<u8, 2>,
}

impl Loop {
    /// A wire that is attached to no pins yet.
    pub fn new() -> Loop
        ensures { ⟦<Loop as Part>⟧.attached result ≡ [] }
    {
        Loop {
            pins: ArrayVec::new(),
        }
    }
}

#[tactic(auto, using(crate::proofs::Placing::pins_long, crate::proofs::Placing::pin_low))]
impl Part for Loop {
    ghost attached = { λ s. s.pins.items };

    ghost meaning = { λ s. loop_back };

    fn pins(&self) -> usize {
        2
    }

    fn attach(&mut self, pins: &[u8]) {
        keep(pins, &mut self.pins);
    }

    fn words(&self) -> usize {
        0
    }

    fn start(&self, _state: &mut [u32]) {}

    fn step(&self, _state: &mut [u32], _cycle: u64, pads: u32) -> Drive {
        let level = level_of(self.pins[0], pads);
        at_level(self.pins[1], level)
    }

    fn drives(&self, _state: &[u32], _cycle: u64, pads: u32) -> Drive {
        at_level(self.pins[1], level_of(self.pins[0], pads))
    }

    #[tactic(auto, using(lane_look::proofs::Quiet::quiet_rest))]
    fn quiet(&self, _state: &[u32], _cycle: u64, _pads: u32) -> u64 {
        u64::MAX
    }

    #[tactic(auto, using(crate::proofs::Quiet::still_after))]
    fn pass(&self, _state: &mut [u32], _first: u64, _pads: u32, _n: u64) {}
}
