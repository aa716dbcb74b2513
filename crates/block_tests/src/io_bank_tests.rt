//! Words as the datasheet gives them (2.19.6), and a run of the pads.

use io_bank::{IoBank, Outs, uart_outputs};
use test_deeds::{Bench, byte, first_wrong, half};

/// The pads with what their cycles are given.
#[derive(Drop)]
struct Pads {
    bank: IoBank,
    outs: Outs,
    script: [Option<bool>; 30],
}

/// The pads in their reset state, and nothing that drives them.
fn at_rest() -> Pads {
    Pads {
        bank: IoBank::new(),
        outs: Outs {
            sio: [0; 2],
            pio0: [0; 2],
            pio1: [0; 2],
            pwm: [0; 2],
            uart: [0; 2],
        },
        script: [None; 30],
    }
}

/// A pair of flags.
fn flags(words: &[u32; 8]) -> [bool; 2] {
    [words[0] == 1, words[1] == 1]
}

impl Pads {
    /// What concerns the words.
    fn words(&mut self, verb: &str, words: &[u32; 8]) -> bool {
        let offset = half(words[0]);
        match verb {
            // an offset, what is written there, and what is read then
            "keeps" => {
                self.bank.effect(offset, Some(words[1]))
                    && self.bank.read(offset, &self.outs) == Some(words[2])
            }
            "write" => self.bank.effect(offset, Some(words[1])),
            "reads" => self.bank.read(offset, &self.outs) == Some(words[1]),
            "none" => {
                self.bank.read(offset, &self.outs).is_none()
                    && !self.bank.allows(offset, None)
                    && !self.bank.effect(offset, Some(0))
            }
            _ => false,
        }
    }

    /// What is seen of the rest.
    fn shows(&self, verb: &str, words: &[u32; 8]) -> bool {
        let first = words[0];
        match verb {
            "lines" => self.bank.lines() == flags(words),
            // the pin at which a UART receives
            "receives" => self.bank.receives(byte(first)) == Some(byte(words[1])),
            "deaf" => self.bank.receives(byte(first)).is_none(),
            "heard" => {
                let heard = [self.bank.receive_level(0), self.bank.receive_level(1)];
                heard == flags(words)
            }
            "used" => self.bank.uses(byte(first)),
            "unused" => !self.bank.uses(byte(first)),
            "inputs" => self.bank.inputs() == [first, words[1]],
            "pads" => self.bank.pads() == first,
            _ => false,
        }
    }
}

impl Bench for Pads {
    fn does(&mut self, verb: &str, words: &[u32; 8]) -> bool {
        match verb {
            "keeps" | "write" | "reads" | "none" => return self.words(verb, words),
            // RESETS holds the bank and the pads, or lets them go
            "hold" => self.bank.set_held(words[0] == 1, words[1] == 1),
            // SIO's levels and enables
            "sio" => self.outs.sio = [words[0], words[1]],
            // a script drives a pin from now on
            "drive" => {
                if words[0] < 30 {
                    self.script[words[0] as usize] = Some(words[1] == 1);
                }
            }
            // a cycle, and the levels after it; the same with these pins driven, of which these are high
            "step" => return self.bank.step(&self.outs, &self.script) == words[0],
            "sets" => return self.bank.step_by_sets(&self.outs, words[0], words[1]) == words[2],
            _ => return self.shows(verb, words),
        }
        true
    }
}

/// What each word keeps of a write, offsets of no word, and the two holds.
const WORDS: &str = "\
    keeps 0000 ffffffff 0; keeps 0004 ffffffff 3331f; keeps 0004 1f 1f; keeps 00ec 5 5;\
    keeps 00f0 ffffffff 11111111; keeps 0100 ffffffff ffffffff; keeps 010c ffffffff ffffff;\
    keeps 0110 8 8; keeps 0120 ffffffff 11111119; keeps 0134 12345678 12345678; keeps 0144 80000001 80000001;\
    keeps 0154 0 90101011; keeps 1000 deadbeef deadbeef; keeps 1004 ffffff5a 5a; keeps 1004 56 56; keeps 1078 1ff ff;\
    none 002; none 160; none ffc; none 1001; none 107c; none 4000; lines 1 1;\
    hold 1 0; reads ec 0; reads 1078 ff; write ec 5; lines 0 0;\
    hold 0 1; reads ec 1f; reads 1078 0; hold 0 0; reads 1078 56;";

/// Pin 3 is SIO's, pin 1 receives for UART0, pin 5 has its pull-up. Then a script drives pin 5 low, and pin 3, which is driven,
/// and pin 7. The first levels arrive: edges to high of pins 3 and 5. A write does not clear the edges of its own cycle.
const LEVELS: &str = "\
    write 1c 5; write c 2; write 1018 5a; receives 0 1; deaf 1; used 5; used 2; unused 6; unused 7; heard 0 1;\
    sio 8 8; step 28; drive 5 0; drive 3 0; drive 7 1; step 88; inputs 88 0; sets a8 80 88; inputs 88 28;\
    reads f0 11a1a111; reads 18 a3300; write f0 ffffffff; reads f0 11a1a111; step 88;\
    write f0 f000; reads f0 a1d12111; pads 88; lines 0 0;";

#[test]
fn words_and_levels(rt: HostRuntime) {
    assert_eq!(rt; uart_outputs(true, false), [0x1001_1001, 0x1111_1111]);
    for text in [WORDS, LEVELS] {
        assert_eq!(rt; first_wrong(&mut at_rest(), text), None);
    }
}
