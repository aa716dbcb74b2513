//! Words as the datasheet gives them (4.6.5), and the latch, two alarms and the pause over a few microseconds.

use rp_timer::Timer;
use test_deeds::{Bench, first_wrong, half};

/// A timer, and its next cycle.
#[derive(Drop)]
struct Running {
    timer: Timer,
    next: u32,
}

impl Bench for Running {
    fn does(&mut self, verb: &str, words: &[u32; 8]) -> bool {
        let offset = half(words[0]);
        let timer = &mut self.timer;
        match verb {
            // an offset, what is written there, and what is read then
            "keeps" => {
                let write = Some(words[1]);
                timer.allows(offset, write)
                    && timer.effect(offset, write)
                    && timer.read(offset) == Some(words[2])
            }
            // an offset, and what is read there, with what it does
            "reads" => timer.effect(offset, None) && timer.read(offset) == Some(words[1]),
            "none" => {
                !timer.allows(offset, None)
                    && !timer.effect(offset, Some(1))
                    && timer.read(offset).is_none()
            }
            // the cycles before this one
            "to" => {
                for cycle in self.next..words[0] {
                    timer.step(u64::from(cycle));
                }
                self.next = words[0];
                true
            }
            "lines" => timer.lines() == words[0],
            _ => false,
        }
    }
}

/// Each word; then alarm 0 has the low word that stands now, and alarm 2 the one of three microseconds later, each 125 cycles.
const TEXT: &str = "\
    none 02; none 11; none 1e; none 44; none 100;\
    keeps 04 fffffffe 0; keeps 00 1 0; keeps 08 ffffffff 0; keeps 0c 0 fffffffe; keeps 24 0 1; keeps 28 0 fffffffe;\
    keeps 10 12345678 12345678; keeps 1c 9abcdef0 9abcdef0; keeps 20 0 9; keeps 20 fffffff1 8;\
    keeps 2c ffffffff ffffffff; keeps 30 fffffffe 0; keeps 34 ffffffff 0;\
    keeps 38 ffffffff f; keeps 3c fffffff2 2; keeps 40 ffffffff 2; keeps 3c 0 0;\
    keeps 10 fffffffe fffffffe; keeps 18 1 1; reads 20 d;\
    to #124; reads 28 fffffffe; to #125; reads 0c ffffffff; to #250; reads 28 0; reads 24 2; reads 08 1;\
    to #374; reads 40 0; to #375; reads 40 4; reads 20 9; keeps 38 b b; reads 40 0;\
    keeps 30 1 1; to #500; reads 28 1; lines 0;";

#[test]
fn words_and_alarms(rt: HostRuntime) {
    let mut running = Running {
        timer: Timer::new(),
        next: 0,
    };
    assert_eq!(rt; first_wrong(&mut running, TEXT), None);
}
