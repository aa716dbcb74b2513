//! The printed text of each line.

use arrayvec::ArrayVec;
use rp_base::{Master, Why};
use trace_text::event::Event;
use trace_text::line::{event_line, register_line, stop_line};

fn same_stop(why: &Why, cycle: u64, want: &[u8]) -> bool {
    let mut out = ArrayVec::<u8, 192>::new();
    stop_line(why, cycle, &mut out);
    out.as_slice() == want
}

/// Stops, their cycles and their lines.
const STOPS: [(Why, u64, &[u8]); 5] = [
    (Why::Limit, 0, b"stop limit 0\n"),
    (Why::Bkpt(1), 18, b"stop bkpt core1 18\n"),
    (Why::Lockup(0), 1000, b"stop lockup core0 1000\n"),
    (
        Why::Outside(Master::DmaRead, 0x4001_c0de),
        7,
        b"stop outside dma 4001c0de 7\n",
    ),
    (
        Why::Outside(Master::DmaWrite, 0xe000_e010),
        7,
        b"stop outside dma e000e010 7\n",
    ),
];

#[test]
fn each_stop_has_its_line(rt: HostRuntime) {
    for (index, (why, cycle, want)) in STOPS.iter().enumerate() {
        assert!(rt; same_stop(why, *cycle, want), "row {index}");
    }
}

fn same_event(event: &Event, want: &[u8]) -> bool {
    let mut out = ArrayVec::<u8, 192>::new();
    event_line(event, &mut out);
    out.as_slice() == want
}

/// Events and their lines.
const EVENTS: [(Event, &[u8]); 4] = [
    (
        Event::Uart {
            cycle: 10883,
            number: 0,
            byte: 0x48,
        },
        b"10883 uart0 48\n",
    ),
    (
        Event::Uart {
            cycle: 0,
            number: 1,
            byte: 0xaf,
        },
        b"0 uart1 af\n",
    ),
    (
        Event::Pin {
            cycle: 5,
            pin: 3,
            level: true,
        },
        b"5 pin 3 1\n",
    ),
    (
        Event::Pin {
            cycle: 1_000_000_000,
            pin: 29,
            level: false,
        },
        b"1000000000 pin 29 0\n",
    ),
];

#[test]
fn each_event_has_its_line(rt: HostRuntime) {
    for (index, (event, want)) in EVENTS.iter().enumerate() {
        assert!(rt; same_event(event, want), "row {index}");
    }
}

/// The line of a core's registers.
fn same_registers(core: u8, words: Option<[u32; 17]>, want: &[u8]) -> bool {
    let mut out = ArrayVec::<u8, 192>::new();
    register_line(core, words, &mut out);
    out.as_slice() == want
}

const STARTED: &[u8] =
    b"core0 00000000 00000000 00000000 00000000 00000000 00000000 00000000 00000000 00000000 00000000 00000000 00000000 00000000 20042000 ffffffff 00000000 00000000\n";

#[test]
fn registers_are_a_line(rt: HostRuntime) {
    let mut words = [0; 17];
    words[13] = 0x2004_2000;
    words[14] = 0xffff_ffff;
    assert!(rt; same_registers(1, None, b"core1 asleep\n"));
    assert!(rt; same_registers(0, Some(words), STARTED));
}
