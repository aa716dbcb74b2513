//! A button.

ghost use Rattle.std.specs.Prelude.{◌≡◌, []};
ghost use Rattle.board_parts.specs.Button.{button};

use crate::part::{Drive, Part, at_level, keep};
use arrayvec::ArrayVec;

/// The cycles in which a button is pressed begin at this one of each `PERIOD`.
const PRESSED: u64 = 50_000;

/// How many cycles lie between two presses of a button.
const PERIOD: u64 = 100_000;

/// A button: it is pressed, and pulls its pin low, in the second half of each 100,000 cycles (800 µs at 125 MHz), and else drives
/// nothing. It has one pin and no state.
#[derive(Drop)]
pub struct Button {
    pins: ArrayVec<u8, 1>,
}

impl Button {
    /// A button that is attached to no pin yet.
    pub fn new() -> Button
        ensures { ⟦<Button as Part>⟧.attached result ≡ [] }
    {
        Button {
            pins: ArrayVec::new(),
        }
    }
}

#[tactic(auto, using(crate::proofs::Placing::pins_long, crate::proofs::Placing::pin_low))]
impl Part for Button {
    ghost attached = { λ s. s.pins.items };

    ghost meaning = { λ s. button };

    fn pins(&self) -> usize {
        1
    }

    fn attach(&mut self, pins: &[u8]) {
        keep(pins, &mut self.pins);
    }

    fn words(&self) -> usize {
        0
    }

    fn start(&self, _state: &mut [u32]) {}

    fn step(&self, _state: &mut [u32], cycle: u64, pads: u32) -> Drive {
        self.drives(&[], cycle, pads)
    }

    fn drives(&self, _state: &[u32], cycle: u64, _pads: u32) -> Drive {
        if cycle % PERIOD < PRESSED {
            return Drive::default();
        }
        at_level(self.pins[0], 0)
    }

    /// Up to the next half of a turn.
    #[tactic(auto, using(crate::proofs::Quiet::button_quiet))]
    fn quiet(&self, _state: &[u32], cycle: u64, _pads: u32) -> u64 {
        PRESSED - cycle % PRESSED
    }

    #[tactic(auto, using(crate::proofs::Quiet::still_after))]
    fn pass(&self, _state: &mut [u32], _first: u64, _pads: u32, _n: u64) {}
}
