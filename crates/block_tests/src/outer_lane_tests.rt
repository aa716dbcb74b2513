//! Worked cycles.

use crate::counter::Counter;
use lane_look::{Ask, Lane, Look, Mark, Marks, NoDevice, Turn};
use outer_lane::{Outer, SeenOutputs, World};
use pin_script::{Script, read_script};
use rp_base::map::Block;
use std::test::Fail;

/// A look that answers each question with 0.
#[derive(Drop)]
struct Zeros;

impl Look for Zeros {
    ghost answers = { λ old ask answer new. Unit {0} };

    fn ask(&mut self, _ask: Ask) -> u128 {
        0
    }
}

/// SIO drives pin 0 and the script pin 3; two cycles later the chip sees them.
fn are_seen(script: &Script) -> bool {
    let world = World {
        script,
        device: &NoDevice,
        limit: 9,
    };
    let mut outer = Outer::new(&NoDevice);
    let mut marks = Marks::new();
    outer.set_sio([1, 1]);
    outer.effect(Block::IoBank0, 4, Some(5));
    let seen = outer.begin(&world, 1, &mut Zeros);
    outer.finish(&world, &seen, [Turn::Nothing; 2], &mut marks);
    let first = outer.pads() == 9 && outer.input() == 0;
    outer.finish(&world, &seen, [Turn::Nothing; 2], &mut marks);
    outer.finish(&world, &seen, [Turn::Nothing; 2], &mut marks);
    first
        && outer.input() == 9
        && outer.read(&world, &seen, Block::IoBank0, 0) == Some(0x000a_3300)
        && outer.read(&world, &seen, Block::PadsBank0, 4) == Some(0x56)
        && marks.count() == 3
}

#[test]
fn pads(rt: HostRuntime) -> Result<(), Fail> {
    let script = read_script(rt.alloc(), b"1 3 1\n")?;
    assert!(rt; are_seen(&script));
    Ok(())
}

/// A timer that is held reads 0, ignores writes, and comes out of reset without them; INTF drives its lines.
fn is_held(outer: &mut Outer, script: &Script) -> bool {
    let world = World {
        script,
        device: &NoDevice,
        limit: 9,
    };
    let seen = SeenOutputs {
        cycle: 0,
        pio0: [0, 0],
        pio1: [0, 0],
    };
    outer.effect(Block::Timer, 0x3c, Some(5));
    let driven = outer.lines(1) == 5;
    outer.reset(0x0020_0000);
    outer.effect(Block::Timer, 0x3c, Some(5));
    let held = outer.read(&world, &seen, Block::Timer, 0x3c) == Some(0);
    outer.reset(0);
    driven && held && outer.lines(1) == 0 && outer.read(&world, &seen, Block::Resets, 0).is_none()
}

/// A copy has the lines of what it was copied from.
fn is_copied(outer: &Outer) -> bool {
    let mut other = Outer::new(&NoDevice);
    other.effect(Block::Timer, 0x3c, Some(7));
    other.copy_from(outer);
    other.lines(0) == 0
}

#[test]
fn holds(rt: HostRuntime) -> Result<(), Fail> {
    let script = read_script(rt.alloc(), b"")?;
    let mut outer = Outer::new(&NoDevice);
    assert!(rt; is_held(&mut outer, &script) && is_copied(&outer));
    Ok(())
}

/// One cycle, and its mark.
fn cycle(outer: &mut Outer, world: &World<'_, Counter>, number: u64) -> Mark {
    let mut marks = Marks::new();
    let seen = outer.begin(world, number, &mut Zeros);
    outer.finish(world, &seen, [Turn::Nothing; 2], &mut marks);
    marks.entry(0)
}

/// The first cycles, in which the device's word, which rises by 8, drives pins 3 and 4, and the PWM function pin 2.
fn drives(outer: &mut Outer, world: &World<'_, Counter>) -> bool {
    for (number, pads) in [(0, 0x0c), (1, 0x0c), (2, 0x14), (3, 0x1c)] {
        if cycle(outer, world, number).pads != pads {
            return false;
        }
    }
    outer.lines(0) == 0x14
}

/// The device's word, and what a write leaves.
fn owns(outer: &mut Outer, world: &World<'_, Counter>) -> bool {
    let before = outer.owned_word(world, 0x4006_0000) == Some(32);
    outer.device_effect(world, 0x4006_0000, Some(7));
    before
        && outer.owned_word(world, 0x4006_0000) == Some(7)
        && outer.owned_word(world, 0x4006_0004).is_none()
}

/// The last of these cycles in which UART0 has sent the byte 41, or 0.
fn sent(outer: &mut Outer, world: &World<'_, Counter>) -> u64 {
    let mut sent = 0;
    for number in 4..200 {
        if cycle(outer, world, number).uart[0] == Some(0x41) {
            sent = number;
        }
    }
    sent
}

/// A script frees pin 3 for the device; the device's word, lines and PWM; and a byte of UART0 after the ten bits of its frame.
fn runs(script: &Script) -> (bool, u64) {
    let world = World {
        script,
        device: &Counter,
        limit: 300,
    };
    let mut outer = Outer::new(&Counter);
    outer.effect(Block::IoBank0, 0x14, Some(4));
    outer.effect(Block::Uart0, 0x24, Some(1));
    outer.effect(Block::Uart0, 0x2c, Some(0x70));
    outer.effect(Block::Uart0, 0x30, Some(0x301));
    outer.effect(Block::Uart0, 0, Some(0x41));
    let right = drives(&mut outer, &world) && owns(&mut outer, &world);
    let sent = sent(&mut outer, &world);
    let allowed = !outer.allows(Block::IoBank0, 0x1004, None)
        && outer.allows(Block::PadsBank0, 4, None);
    (right && allowed, sent)
}

#[test]
fn device_and_byte(rt: HostRuntime) -> Result<(), Fail> {
    let script = read_script(rt.alloc(), b"0 3 1\n2 3 z\n")?;
    let (right, sent) = runs(&script);
    assert!(rt; right && sent == 160, "{sent}");
    Ok(())
}
