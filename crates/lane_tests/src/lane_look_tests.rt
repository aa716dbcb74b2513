//! The traits of a lane, a look and a device, by samples that are small enough to follow by hand.

ghost use Rattle.std.specs.Prelude.{◌≡◌, length};

use crate::samples::{Copier, Count, Counter, step};
use lane_look::laws::{none_adds_nothing, the_first_device_drives};
use lane_look::{Device, Lane, Mark, Marks, NoDevice, Pair, Want, Wires};

/// Its word is asked for, and becomes its address.
fn goes_on(lane: &mut Copier, marks: &mut Marks) -> bool {
    let mut look = Count(41);
    let begun = lane.begin(&(), 0, &mut look);
    step(lane, &(), 1, &mut look, marks);
    begun == 41 && Copier::wants(&begun)[1] == Want::Nothing && lane.address == 42
}

#[test]
fn steps(rt: HostRuntime) {
    let mut lane = Copier { address: 7 };
    let right = goes_on(&mut lane, &mut Marks::new());
    let mut other = Copier { address: 0 };
    other.copy_from(&lane);
    assert!(rt; right && other.address == 42);
}

/// A mark is kept until they are cleared.
fn keeps(marks: &mut Marks) -> bool {
    let mark = Mark {
        uart: [None, Some(0x41)],
        pads: 6,
    };
    if marks.count() != 0 {
        return false;
    }
    marks.push(mark);
    let one = marks.count() == 1 && marks.entry(0) == mark;
    marks.clear();
    one && marks.count() == 0
}

#[test]
fn marks(rt: HostRuntime) {
    assert!(rt; keeps(&mut Marks::new()));
}

/// Each call of a device once: what a read gave, and what a cycle after it and a write drove.
fn tried<D: Device>(device: &D, state: &mut [u32], address: u32) -> (bool, u32, Wires)
    requires { length state.old ≡ (D.meaning device.now).count }
{
    device.start(state);
    let owned = device.owns(address);
    let word = device.read(state, address);
    device.write(state, address, 2);
    let wires = device.step(state, 7, 0x30);
    (owned, word, wires)
}

/// No device owns nothing and drives nothing.
fn none_answers() -> bool {
    let (owned, word, wires) = tried(&NoDevice, &mut [], 8);
    NoDevice.words() == 0 && !owned && word == 0 && wires == Wires::default()
}

/// A counter of this address and these pads.
fn device_at(address: u32, pads: u32) -> Counter {
    Counter { address, pads }
}

/// One device answers.
fn one_answers() -> bool {
    let mut one = [0];
    let device = device_at(8, 6);
    let (owned, word, wires) = tried(&device, &mut one, 8);
    let wanted = Wires {
        mask: 6,
        level: 2,
        pwm: 0x30,
        irq: 1,
    };
    device.words() == 1 && owned && word == 6 && wires == wanted && one[0] == 3
}

/// Two devices both own the address and drive pad 2, which the first one makes low and the second one high.
fn two_answer() -> bool {
    let mut two = [0; 2];
    let pair = Pair {
        first: device_at(8, 6),
        second: device_at(8, 5),
    };
    let (owned, word, wires) = tried(&pair, &mut two, 8);
    let joined = Wires {
        mask: 7,
        level: 3,
        pwm: 0x30,
        irq: 1,
    };
    let right = pair.words() == 2 && owned && word == 6 && wires == joined;
    let stepped = two[0] == 3 && two[1] == 6;
    // no device owns this address; the second one is asked
    let other = !pair.owns(12) && pair.read(&mut two, 12) == 6;
    right && stepped && other && two[1] == 0
}

#[test]
fn devices(rt: HostRuntime) {
    assert!(rt; none_answers());
    assert!(rt; one_answers());
    assert!(rt; two_answer());
}

#[test]
fn laws_of_devices() {
    the_first_device_drives();
    none_adds_nothing();
}
