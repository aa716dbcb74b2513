//! Two devices as one.

ghost use Rattle.std.specs.Prelude.{◌≡◌, ◌+◌, ◌≤◌};
ghost use Rattle.lane_look.specs.Device.{joined, paired};

use crate::device::{Device, Wires};

/// Two devices side by side, of at most 128 words together. The first words of the state are the first device's, and
/// the rest are the second one's. The first device has an address that both own, and a pad that both drive.
#[derive(Drop)]
pub struct Pair<A: Device, B: Device> {
    /// The device that comes first.
    pub first: A,
    /// The device that comes second.
    pub second: B,
    ghost room: { (A.meaning first).count + (B.meaning second).count ≤ 128 },
}

impl<A: Device, B: Device> Device for Pair<A, B> {
    ghost meaning = { λ p. paired (A.meaning p.first) (B.meaning p.second) };

    fn words(&self) -> usize {
        self.first.words() + self.second.words()
    }

    fn start(&self, state: &mut [u32]) {
        let (front, back) = state.split_at_mut(self.first.words());
        self.first.start(front);
        self.second.start(back);
    }

    fn owns(&self, address: u32) -> bool {
        self.first.owns(address) || self.second.owns(address)
    }

    fn read(&self, state: &mut [u32], address: u32) -> u32 {
        let (front, back) = state.split_at_mut(self.first.words());
        if self.first.owns(address) {
            self.first.read(front, address)
        } else {
            self.second.read(back, address)
        }
    }

    fn write(&self, state: &mut [u32], address: u32, value: u32) {
        let (front, back) = state.split_at_mut(self.first.words());
        if self.first.owns(address) {
            self.first.write(front, address, value);
        } else {
            self.second.write(back, address, value);
        }
    }

    #[inline(always)]
    fn step(&self, state: &mut [u32], cycle: u64, pads: u32) -> Wires {
        let (front, back) = state.split_at_mut(self.first.words());
        let first = self.first.step(front, cycle, pads);
        let second = self.second.step(back, cycle, pads);
        join(first, second)
    }

    #[inline(always)]
    fn drives(&self, state: &[u32], cycle: u64, pads: u32) -> Wires {
        let (front, back) = state.split_at(self.first.words());
        let first = self.first.drives(front, cycle, pads);
        join(first, self.second.drives(back, cycle, pads))
    }

    #[inline(always)]
    #[tactic(auto, using(crate::proofs::Quiet::both_quiet_by))]
    fn quiet(&self, state: &[u32], cycle: u64, pads: u32) -> u64 {
        let (front, back) = state.split_at(self.first.words());
        let first = self.first.quiet(front, cycle, pads);
        first.min(self.second.quiet(back, cycle, pads))
    }

    #[tactic(auto, using(crate::proofs::Times::times_none, crate::proofs::Quiet::pass_both, crate::proofs::Quiet::step_both))]
    fn pass(&self, state: &mut [u32], first: u64, pads: u32, n: u64) {
        let words = self.first.words();
        let (front, back) = state.split_at(words);
        let quiet = self.first.quiet(front, first, pads);
        if n <= quiet && n <= self.second.quiet(back, first, pads) {
            let (front, back) = state.split_at_mut(words);
            self.first.pass(front, first, pads, n);
            self.second.pass(back, first, pads, n);
        } else {
            for k in 0..n {
                let (front, back) = state.split_at_mut(words);
                let _ = self.first.step(front, first + k, pads);
                let _ = self.second.step(back, first + k, pads);
            }
        }
    }
}

/// What two devices drive together.
fn join(first: Wires, second: Wires) -> Wires
    ensures { result ≡ joined first second }
{
    Wires {
        mask: first.mask | second.mask,
        level: first.level & first.mask | second.level & !first.mask,
        pwm: first.pwm | second.pwm,
        irq: first.irq | second.irq,
    }
}
