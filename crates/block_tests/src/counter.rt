//! A device that counts.

ghost use Rattle.std.specs.Prelude.{ℕ, ◌+◌, ◌%◌, ◌^◌, ◌==◌, slice_index, slice_set};

use lane_look::{Device, Wires};

/// A device of one word, which each cycle adds 8 to. It owns one address, drives pins 3 and 4 by its word and the PWM function of
/// pin 2, and its interrupt lines are the pads.
#[derive(Drop)]
pub struct Counter;

impl Device for Counter {
    ghost meaning = { λ _. record {
      count = 1;
      first = λ state. slice_set state 0 0;
      covers = λ address. address == 0x40060000;
      value = λ state address. slice_index state 0;
      after_read = λ state address. state;
      after_write = λ state address value. slice_set state 0 value;
      wires = λ state cycle pads. record {
        mask = 0x18;
        level = slice_index state 0;
        pwm = 4;
        irq = pads;
      };
      after_step = λ state cycle pads. slice_set state 0 ((slice_index state 0 + 8) % 2 ^ 32);
    } };

    fn words(&self) -> usize {
        1
    }

    fn start(&self, state: &mut [u32]) {
        state[0] = 0;
    }

    fn owns(&self, address: u32) -> bool {
        address == 0x4006_0000
    }

    fn read(&self, state: &mut [u32], _address: u32) -> u32 {
        state[0]
    }

    fn write(&self, state: &mut [u32], _address: u32, value: u32) {
        state[0] = value;
    }

    fn step(&self, state: &mut [u32], _cycle: u64, pads: u32) -> Wires {
        let wires = Wires {
            mask: 0x18,
            level: state[0],
            pwm: 4,
            irq: pads,
        };
        state[0] = state[0].wrapping_add(8);
        wires
    }
}
