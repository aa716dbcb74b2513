//! The two blocks that are devices, as a pair, by their addresses: the registers that start-up code waits for, and a slice of PWM.

use lane_look::{Device, Pair, Wires};
use pwm_block::Pwm;
use startup_blocks::Startup;
use test_deeds::{Bench, first_wrong};

/// The devices, and their words.
#[derive(Drop)]
struct Both {
    pair: Pair<Startup, Pwm>,
    state: [u32; 114],
}

impl Bench for Both {
    fn does(&mut self, verb: &str, words: &[u32; 8]) -> bool {
        match verb {
            "write" => {
                self.pair.write(&mut self.state, words[0], words[1]);
                true
            }
            "reads" => self.pair.read(&mut self.state, words[0]) == words[1],
            // a cycle, and the PWM function of the pins and the interrupt lines in it
            "step" => {
                let wanted = Wires {
                    mask: 0,
                    level: 0,
                    pwm: words[0],
                    irq: words[1],
                };
                self.pair.step(&mut self.state, 0, 0) == wanted
            }
            // an address of the devices, and one of none
            "own" => self.pair.owns(words[0]),
            "other" => !self.pair.owns(words[0]),
            _ => false,
        }
    }
}

/// CLK_REF_SELECTED follows CLK_REF_CTRL, and CLK_SYS_SELECTED CLK_SYS_CTRL. The other clocks have one source, and a write changes
/// nothing. XOSC is stable, the PLLs are locked and their CS keeps bits 8:0, and TICK of WATCHDOG runs where it is enabled. Aliases set,
/// clear and invert bits.
const STARTUP: &str = "\
    reads 40028000 80000001; reads 4005802c 600;\
    write 40008030 0; reads 40008038 1; write 40008030 1; reads 40008038 2; write 40008030 2; reads 40008038 4;\
    write 40008030 3; reads 40008038 8; write 4000803c 0; reads 40008044 1; write 4000803c 1; reads 40008044 2;\
    write 40008008 7; reads 40008008 1; write 40008014 7; reads 40008014 1; write 40008020 7; reads 40008020 1;\
    write 4000802c 7; reads 4000802c 1; write 40008050 7; reads 40008050 1; write 4000805c 7; reads 4000805c 1;\
    write 40008068 7; reads 40008068 1; write 40008074 7; reads 40008074 1;\
    write 40024000 fabaa0; reads 40024004 80001000; write 40024004 5; reads 40024000 fabaa0; write 4002401c 9; reads 4002401c 9;\
    write 40028008 #125; reads 40028000 80000001; write 40028000 ffffffff; reads 40028000 800001ff;\
    write 4002c000 3f; reads 4002c000 8000003f; write 40028004 6; reads 40028008 #125;\
    write 4005802c 20c; reads 4005802c 60c; write 4005802c 0; reads 4005802c 0;\
    write 4002a00c f0; reads 4002800c f0; write 4002b00c 30; reads 4002800c c0; write 4002900c 41; reads 4002800c 81;\
    own 40008000; own 4000807c; own 4000b07c; other 40008080; own 40024008; other 40024010; own 4002800c; other 40028010;\
    own 4002f00c; own 4005802c; other 40058000; other 40058030; step 0 0;";

/// Slice 0 with TOP 3 and a divider of 1.5 counts in its steps 2, 3, 5 and 6, and wraps in the last. An alias sets bit 0 of INTE, so the
/// interrupt line is high; CC of a slice that is off is live at once.
const SLICES: &str = "\
    own 40053fff; other 40054000; other 4004ffff; write 40050010 3; write 40050004 18; write 40050000 1;\
    step 0 0; reads 40050008 0; step 0 0; reads 40050008 1; step 0 0; reads 40050008 2;\
    step 0 0; reads 40050008 2; step 0 0; reads 40050008 3; step 0 0; reads 40050008 0; reads 400500a4 1;\
    write 400520a8 1; write 40050020 10000; step 80008 10;";

#[test]
fn devices(rt: HostRuntime) {
    let mut both = Both {
        pair: Pair {
            first: Startup::new(),
            second: Pwm::new(),
        },
        state: [7; 114],
    };
    assert!(rt; both.pair.words() == 114);
    both.pair.start(&mut both.state);
    assert_eq!(rt; first_wrong(&mut both, STARTUP), None);
    assert_eq!(rt; first_wrong(&mut both, SLICES), None);
}
