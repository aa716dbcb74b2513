//! Words by the offsets of the manual's lists (B3.2, B3.3 and B3.4), and runs of the system timer and of interrupts.

use m0_nvic::Nvic;
use test_deeds::{Bench, byte, first_wrong, half};

/// An exception by its number.
fn exception(number: u32) -> Option<u8> {
    if number == 0 {
        None
    } else {
        Some(byte(number))
    }
}

/// The exceptions of a core.
#[derive(Drop)]
struct Exceptions(Nvic);

impl Bench for Exceptions {
    fn does(&mut self, verb: &str, words: &[u32; 8]) -> bool {
        let [first, second, third, ..] = *words;
        let offset = half(first);
        let nvic = &mut self.0;
        match verb {
            // an offset, what is written there, and what is read then
            "keeps" => nvic.effect(offset, Some(second)) && nvic.read(offset, 0) == Some(third),
            "write" => nvic.effect(offset, Some(second)),
            "refuses" => !nvic.effect(offset, Some(second)),
            "take" => nvic.effect(offset, None),
            "reads" => nvic.read(offset, 0) == Some(second),
            "none" => nvic.read(offset, 0).is_none() && !nvic.effect(offset, None),
            // the end of a cycle, its number, and the lines that are high, which is no event, or one
            "cycle" => !nvic.end_cycle(second, u64::from(first)),
            "event" => nvic.end_cycle(second, u64::from(first)),
            // an exception is entered, or left
            "enter" => {
                nvic.enter(byte(first));
                true
            }
            "leave" => {
                nvic.leave(byte(first));
                true
            }
            // the exception that would be taken next, or 0
            "best" => nvic.best() == exception(first),
            "wakes" => nvic.wakes() == (first == 1),
            // no exception but this one is active, or some
            "alone" => nvic.is_alone(byte(first)),
            "beside" => !nvic.is_alone(byte(first)),
            // the priority of what runs, without PRIMASK and with it
            "priorities" => {
                i64::from(nvic.priority(false)) == i64::from(first)
                    && i64::from(nvic.priority(true)) == i64::from(second)
            }
            _ => false,
        }
    }
}

/// What each word keeps of a write, offsets of no word, and the write that asks for a reset.
const WORDS: &str = "\
    keeps 014 ffffffff ffffff; keeps 018 1234 0; keeps 01c ffffffff 0; keeps 100 80000003 80000003;\
    keeps 180 1 80000002; keeps 200 80000030 80000030; keeps 280 10 80000020;\
    keeps 400 ffffffff c0c0c0c0; keeps 400 4080 4080; keeps 41c 80ffc07f 80c0c040; keeps d00 0 410cc601;\
    keeps d04 94000000 94402000; keeps d04 a000000 80402000; keeps d04 18000000 80402000;\
    keeps d08 200001ff 20000100; keeps d0c 5fa0000 fa050000; keeps d0c 4 fa050000; keeps d10 ffffffff 16;\
    keeps d14 ffffffff 208; keeps d1c ffffffff c0000000; keeps d20 ffffffff c0c00000; keeps d20 40800000 40800000;\
    none 000; none 00c; none 020; none 104; none 402; none 420; none d18; none d24; refuses d0c 5fa0004;";

/// A timer whose reload value of 2 gives a period of 3 cycles. Interrupt 3 has a lower priority than SysTick, then a higher one.
const TIMER: &str = "\
    write 014 2; write 010 7; cycle 0; reads 018 2; cycle 1; reads 018 1; cycle 2; reads 018 0; cycle 3; reads 018 2;\
    cycle 4; reads 018 1; cycle 5; reads 018 0; cycle 6; reads 018 2; best f; reads 010 10007; take 010; reads 010 7;\
    write 100 8; write 400 40000000; cycle a 8; best f; enter f; best 13; wakes 0; leave f; wakes 1; alone 3;\
    enter 13; alone 13; beside 3; priorities 40 0;";

/// Without CLKSOURCE the timer counts at the end of each 125th cycle, once a microsecond.
const SLOW: &str = "\
    write 014 1; write 010 3; cycle 0; reads 018 0; cycle #123; reads 018 0; cycle #124; reads 018 1; cycle #125; reads 018 1;\
    cycle #248; reads 018 1; best 0; cycle #249; best f; reads 010 10003;";

/// With SEVONPEND an interrupt that becomes pending is an event, enabled or not, and one that is pending is none. A line that is
/// held high pends again only once its interrupt is not active any more.
const HELD: &str = "\
    cycle 0 1; write d10 10; cycle 1 1; event 2 3; best 0; write 100 1; best 10; enter 10;\
    cycle 3 1; best 0; cycle 4 1; best 0; leave 10; event 5 1; best 10; enter 10; leave 10; cycle 6 0; best 0;";

#[test]
fn words_and_cycles(rt: HostRuntime) {
    for text in [WORDS, TIMER, SLOW, HELD] {
        assert_eq!(rt; first_wrong(&mut Exceptions(Nvic::new()), text), None);
    }
}
