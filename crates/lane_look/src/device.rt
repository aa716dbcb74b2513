//! The device that the caller of the machine attaches to its pads and its bus.

ghost use Rattle.std.specs.Prelude.{◌≡◌, ◌≤◌, ◌<◌, ◌+◌, ◌^◌, length};
ghost use Rattle.lane_look.specs.Device.{DeviceMeaning, no_device};
ghost use Rattle.lane_look.specs.Quiet.{IsDeviceQuiet, device_after};

use arrayvec::ArrayVec;

/// What a device drives in a cycle. Pad 0 and interrupt line 0 are in bit 0.
#[derive(Clone, Copy, Debug, PartialEq, Eq, Default)]
pub struct Wires {
    /// The pads that it drives.
    pub mask: u32,
    /// The levels of these pads. A bit outside the mask means nothing.
    pub level: u32,
    /// Its outputs on GPIO function 4.
    pub pwm: u32,
    /// Its interrupt lines.
    pub irq: u32,
}

/// A device. The machine holds its state, a slice of exactly `words()` words, and lends it to each call. What a call
/// gives and leaves is a function of the device, of this state and of the other arguments.
pub trait Device: Sync + Drop {
    /// What it does.
    ghost meaning: { Self → DeviceMeaning };

    /// How many words of state it has, at most 128.
    fn words(&self) -> usize
        ensures number { result ≡ (meaning self.now).count }
        ensures room { result ≤ 128 };

    /// Leaves the state at the start of a run. The machine lends words that are all 0.
    fn start(&self, state: &mut [u32])
        requires { length state.old ≡ (meaning self.now).count }
        ensures { state.new ≡ (meaning self.now).first state.old };

    /// Whether it owns an address. The machine asks for addresses from 40000000 to 4FFFFFFF that none of its own blocks
    /// covers.
    fn owns(&self, address: u32) -> bool
        ensures { result ≡ (meaning self.now).covers address };

    /// Reads the word at an address, and does to the state what a read does.
    fn read(&self, state: &mut [u32], address: u32) -> u32
        requires { length state.old ≡ (meaning self.now).count }
        ensures value { result ≡ (meaning self.now).value state.old address }
        ensures state { state.new ≡ (meaning self.now).after_read state.old address };

    /// Writes a word to an address.
    fn write(&self, state: &mut [u32], address: u32, value: u32)
        requires { length state.old ≡ (meaning self.now).count }
        ensures { state.new ≡ (meaning self.now).after_write state.old address value };

    /// One cycle, by its number and by the levels of the pads at its start, pad 0 in bit 0.
    fn step(&self, state: &mut [u32], cycle: u64, pads: u32) -> Wires
        requires { length state.old ≡ (meaning self.now).count }
        ensures wires { result ≡ (meaning self.now).wires state.old cycle pads }
        ensures state { state.new ≡ (meaning self.now).after_step state.old cycle pads };

    /// What it drives in a cycle, without going on: what `step` gives.
    fn drives(&self, state: &[u32], cycle: u64, pads: u32) -> Wires
        requires { length state.now ≡ (meaning self.now).count }
        ensures { result ≡ (meaning self.now).wires state.now cycle pads }
    {
        let _count = self.words();
        let mut words: ArrayVec<u32, 128> = ArrayVec::new();
        let _fits = words.try_extend_from_slice(state);
        self.step(words.as_mut_slice(), cycle, pads)
    }

    /// For so many cycles from this one on it is quiet: as long as the pads have these levels it drives in each of them what it
    /// drives in the first one. Any smaller number is right too.
    #[tactic(auto, using(crate::proofs::Quiet::quiet_none))]
    fn quiet(&self, _state: &[u32], _cycle: u64, _pads: u32) -> u64
        requires { length _state.now ≡ (meaning self.now).count }
        ensures { IsDeviceQuiet (meaning self.now) _state.now _cycle _pads result }
    {
        0
    }

    /// So many cycles from a first one on, in which the pads have these levels.
    #[tactic(auto, using(crate::proofs::Times::times_none, crate::proofs::Times::times_more))]
    fn pass(&self, state: &mut [u32], first: u64, pads: u32, n: u64)
        requires words { length state.old ≡ (meaning self.now).count }
        requires number { first + n < 2 ^ 64 }
        ensures { state.new ≡ device_after (meaning self.now) pads first n state.old }
    {
        for k in 0..n {
            let _ = self.step(state, first + k, pads);
        }
    }
}

/// The device that is none: it has no words, owns no address and drives nothing.
#[derive(Clone, Copy, Debug, PartialEq, Eq, Default)]
pub struct NoDevice;

impl Device for NoDevice {
    ghost meaning = { λ _. no_device };

    fn words(&self) -> usize {
        0
    }

    fn start(&self, _state: &mut [u32]) {}

    fn owns(&self, _address: u32) -> bool {
        false
    }

    fn read(&self, _state: &mut [u32], _address: u32) -> u32 {
        0
    }

    fn write(&self, _state: &mut [u32], _address: u32, _value: u32) {}

    fn step(&self, _state: &mut [u32], _cycle: u64, _pads: u32) -> Wires {
        Wires::default()
    }

    fn drives(&self, _state: &[u32], _cycle: u64, _pads: u32) -> Wires {
        Wires::default()
    }

    #[tactic(auto, using(crate::proofs::Quiet::none_quiet))]
    fn quiet(&self, _state: &[u32], _cycle: u64, _pads: u32) -> u64 {
        u64::MAX
    }

    #[tactic(auto, using(crate::proofs::Quiet::none_after))]
    fn pass(&self, _state: &mut [u32], _first: u64, _pads: u32, _n: u64) {}
}
