//! What the two probes show of changes that were counted by hand.

use arrayvec::ArrayVec;
use board_parts::aimed::{Aimed, hear_all};
use board_parts::change::PinChange;
use board_parts::edge_counter::EdgeCounter;
use board_parts::laws::{
    a_loop_shows_its_first_pin, eight_clocks_fill_the_register, hears_in_turn, hears_its_own_pin,
    no_parts_add_nothing, pressed_in_the_second_half, the_earlier_part_drives,
};
use board_parts::part::{Drive, Part};
use board_parts::probe::Probe;
use board_parts::shift::Shift;
use board_parts::ws2812::Ws2812;
use std::test::Fail;

/// Aims a probe, lets it hear the changes of its pin, and compares what it shows.
fn shows<P: Probe>(probe: &mut P, changes: &[(u64, bool)], want: &[u8]) -> bool {
    let mut text = ArrayVec::<u8, 120>::new();
    probe.aim(0);
    for (cycle, level) in changes {
        probe.edge(*cycle, *level);
    }
    probe.line(&mut text);
    text.as_slice() == want
}

const BLINKS: [(u64, bool); 5] = [(15, true), (17, false), (20, true), (22, false), (25, true)];

#[test]
fn edges_are_counted(rt: HostRuntime) {
    assert!(rt; shows(&mut EdgeCounter::new(), &[], b"edges 0 rises 0"));
    assert!(rt; shows(&mut EdgeCounter::new(), &BLINKS, b"edges 5 rises 3"));
}

/// A strip's state after 24 bits that begin at cycle 100, each of 160 cycles, a 1 high for 112 of them and a 0 for 32.
fn sends(decoder: &mut Ws2812, colour: u32) {
    decoder.aim(3);
    for i in 0..24u32 {
        let rise = 100 + 160 * u64::from(i);
        let long = if colour >> (23 - i) & 1 == 1 { 112 } else { 32 };
        decoder.edge(rise, true);
        decoder.edge(rise + long, false);
    }
}

/// What a probe shows.
fn has_line<P: Probe>(probe: &P, want: &[u8]) -> bool {
    let mut text = ArrayVec::<u8, 120>::new();
    probe.line(&mut text);
    text.as_slice() == want
}

#[test]
fn colours_are_decoded(rt: HostRuntime) {
    let mut decoder = Ws2812::new();
    let none = has_line(&decoder, b"colours 0 last 000000");
    sends(&mut decoder, 0xff8001);
    assert!(rt; none && has_line(&decoder, b"colours 1 last ff8001"));
}

/// A bit that a low level of 6250 cycles drops, then 23 zeros of 74 cycles and a one of 75, 6249 cycles apart.
fn sends_at_bounds(decoder: &mut Ws2812) {
    decoder.aim(0);
    decoder.edge(0, true);
    decoder.edge(100, false);
    let mut cycle: u64 = 100 + 6250;
    for i in 0..24u32 {
        let long = if i == 23 { 75 } else { 74 };
        decoder.edge(cycle, true);
        decoder.edge(cycle.saturating_add(long), false);
        cycle = cycle.saturating_add(long + 6249);
    }
}

#[test]
fn lengths_at_their_bounds(rt: HostRuntime) {
    let mut decoder = Ws2812::new();
    sends_at_bounds(&mut decoder);
    assert!(rt; has_line(&decoder, b"colours 1 last 000001"));
}

const CHANGES: [(u64, u8, bool); 3] = [(3, 7, true), (3, 8, true), (9, 7, false)];

/// The line of a probe.
fn has_aimed_line(probe: &Aimed, want: &[u8]) -> bool {
    let mut line = ArrayVec::<u8, 192>::new();
    probe.line(&mut line);
    line.as_slice() == want
}

#[test]
fn boxed_probes_hear_their_own_pins(rt: HostRuntime) -> Result<(), Fail> {
    let alloc = rt.alloc();
    let counter = Aimed::new(0, 7, Box::new(alloc, EdgeCounter::new())?);
    let decoder = Aimed::new(1, 0, Box::new(alloc, Ws2812::new())?);
    let mut probes = [counter, decoder];
    for (cycle, pin, level) in CHANGES {
        hear_all(&mut probes, &PinChange { cycle, pin, level });
    }
    let counts = has_aimed_line(&probes[0], b"probe 0 pin 7 edges 2 rises 1\n");
    let decodes = has_aimed_line(&probes[1], b"probe 1 pin 0 colours 0 last 000000\n");
    assert!(rt; counts && decodes);
    Ok(())
}

/// The bits of a5, from the highest on.
const BITS: [bool; 8] = [true, false, true, false, false, true, false, true];

/// The clock is pin 1, the data pin 2 and out pin 3.
#[test]
fn a_byte_is_shifted_in(rt: HostRuntime) {
    let mut shift = Shift::new();
    shift.attach(&[1, 2, 3]);
    let mut state = [7; 2];
    shift.start(&mut state);
    for bit in BITS {
        let data = if bit { 4 } else { 0 };
        let _ = shift.step(&mut state, 0, data);
        let _ = shift.step(&mut state, 0, data + 2);
    }
    assert!(rt; state == [0xa5, 1]);
    assert!(rt; shift.step(&mut state, 0, 0) == Drive { mask: 8, level: 8 });
}

#[test]
fn laws() {
    hears_in_turn();
    hears_its_own_pin();
    no_parts_add_nothing();
    the_earlier_part_drives();
    pressed_in_the_second_half();
    eight_clocks_fill_the_register();
    a_loop_shows_its_first_pin();
}
