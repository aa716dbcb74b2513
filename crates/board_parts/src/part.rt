//! What drives pins.

ghost use Rattle.std.specs.Int.{bit_at};
ghost use Rattle.std.specs.Prelude.{◌≡◌, ℕ, ◌+◌, ◌^◌, ◌<◌, ◌≤◌, List, true, length};
ghost use Rattle.lane_look.specs.Quiet.{IsDeviceQuiet, device_after};
ghost use Rattle.board_parts.specs.Part.{PartMeaning, are_pins, at_level};
ghost use Rattle.board_parts.specs.Parts.{part_device, placed_at};

use arrayvec::ArrayVec;

/// What a part drives in a cycle. Pin 0 is in bit 0.
#[derive(Clone, Copy, Debug, PartialEq, Eq, Default)]
pub struct Drive {
    /// The pins that it drives.
    pub mask: u32,
    /// The levels of these pins. A bit outside the mask means nothing.
    pub level: u32,
}

/// A part of a board: it is attached to pins, sees their levels in each cycle, and drives some of them. Whoever runs it holds its state, a
/// slice of exactly `words()` words, and lends it to each call.
pub trait Part: Drop {
    /// The pins that it is attached to, in the part's own order.
    ghost attached: { Self → List ℕ };

    /// What it does. No call changes it.
    ghost meaning: { Self → PartMeaning };

    /// How many pins it has.
    fn pins(&self) -> usize
        ensures { result ≡ (meaning self.now).pins };

    /// Attaches it to `pins()` different pins, each at most 29, in its own order.
    fn attach(&mut self, pins: &[u8])
        requires { are_pins (meaning self.old).pins pins.now ≡ true }
        ensures same { meaning self.new ≡ meaning self.old }
        ensures attached { attached self.new ≡ pins.now };

    /// How many words of state it has.
    fn words(&self) -> usize
        ensures { result ≡ (meaning self.now).words };

    /// Leaves the state at the start of a run.
    fn start(&self, state: &mut [u32])
        requires { length state.old ≡ (meaning self.now).words }
        ensures { state.new ≡ (meaning self.now).first (attached self.now) };

    /// One cycle of a part that is attached, by the cycle's number and the levels of all pins at its start, pin 0 in bit 0.
    fn step(&self, state: &mut [u32], cycle: u64, pads: u32) -> Drive
        requires state { length state.old ≡ (meaning self.now).words }
        requires placed { are_pins (meaning self.now).pins (attached self.now) ≡ true }
        ensures drive { result ≡ (meaning self.now).drives (attached self.now) state.old cycle pads }
        ensures state { state.new ≡ (meaning self.now).after_step (attached self.now) state.old cycle pads };

    /// What it drives in a cycle, without going on: what `step` gives. It has at most 128 words.
    fn drives(&self, state: &[u32], cycle: u64, pads: u32) -> Drive
        requires state { length state.now ≡ (meaning self.now).words }
        requires room { length state.now ≤ 128 }
        requires placed { are_pins (meaning self.now).pins (attached self.now) ≡ true }
        ensures { result ≡ (meaning self.now).drives (attached self.now) state.now cycle pads }
    {
        let mut words: ArrayVec<u32, 128> = ArrayVec::new();
        let _fits = words.try_extend_from_slice(state);
        self.step(words.as_mut_slice(), cycle, pads)
    }

    /// For so many cycles from this one on it is quiet: as long as the pads have these levels it drives in each of them what it
    /// drives in the first one. Any smaller number is right too.
    #[tactic(auto, using(lane_look::proofs::Quiet::quiet_none))]
    fn quiet(&self, _state: &[u32], _cycle: u64, _pads: u32) -> u64
        requires state { length _state.now ≡ (meaning self.now).words }
        requires placed { are_pins (meaning self.now).pins (attached self.now) ≡ true }
        ensures { IsDeviceQuiet (part_device (placed_at (attached self.now) (meaning self.now)))
            _state.now _cycle _pads result }
    {
        0
    }

    /// So many cycles from a first one on, in which the pads have these levels.
    #[tactic(auto, using(lane_look::proofs::Times::times_none))]
    fn pass(&self, state: &mut [u32], first: u64, pads: u32, n: u64)
        requires state { length state.old ≡ (meaning self.now).words }
        requires placed { are_pins (meaning self.now).pins (attached self.now) ≡ true }
        requires number { first + n < 2 ^ 64 }
        ensures state { state.new ≡ device_after
            (part_device (placed_at (attached self.now) (meaning self.now))) pads first n state.old }
        ensures words { (k : ℕ) → k ≤ n → length (device_after
            (part_device (placed_at (attached self.now) (meaning self.now))) pads first k state.old)
            ≡ (meaning self.now).words }
    {
        for k in 0..n {
            let _ = self.step(state, first + k, pads);
        }
    }
}

/// Keeps these pins, and no others.
pub(crate) fn keep<const N: usize>(pins: &[u8], kept: &mut ArrayVec<u8, N>)
    requires { length pins.now ≤ N }
    ensures { kept.new.items ≡ pins.now }
{
    kept.clear();
    let _fits = kept.try_extend_from_slice(pins);
}

/// The level of a pin, 0 or 1.
pub(crate) fn level_of(pin: u8, pads: u32) -> u32
    requires { pin < 32 }
    ensures level { result ≡ bit_at pads pin }
    ensures bit { result < 2 }
{
    pads >> pin & 1
}

/// Drives a pin at a level.
pub(crate) fn at_level(pin: u8, level: u32) -> Drive
    requires pin { pin < 32 }
    requires level { level < 2 }
    ensures { result ≡ at_level pin level }
{
    let mask = 1 << pin;
    let level = if level == 0 { 0 } else { mask };
    Drive { mask, level }
}
