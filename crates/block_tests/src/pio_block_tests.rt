//! Registers of a block by the offsets of the datasheet's list (3.7), and cycles of small programs.

ghost use Rattle.std.specs.Prelude.{◌≡◌, ◌+◌, ◌*◌, ◌^◌};

use lane_look::{Ask, Lane, Look, Marks, Turn};
use pio_block::{Inputs, PioBlock};
use rp_base::Reset;
use test_deeds::{Bench, byte, first_wrong, half};

/// The second word of the inputs, and how often they were asked for.
#[derive(Drop)]
struct Levels {
    second: u32,
    asked: u32,
}

impl Look for Levels {
    ghost answers = { λ old ask answer new. answer ≡ old.second * 2 ^ 32 };

    fn ask(&mut self, _ask: Ask) -> u128 {
        self.asked = self.asked.wrapping_add(1);
        u128::from(self.second) * 0x1_0000_0000
    }
}

/// A block, and what it looks at.
#[derive(Drop)]
struct Wired {
    block: PioBlock,
    look: Levels,
}

/// A block in its reset state, whose inputs are low.
fn at_reset() -> Wired {
    Wired {
        block: PioBlock::new(),
        look: Levels {
            second: 0,
            asked: 0,
        },
    }
}

impl Wired {
    /// One cycle.
    fn step(&mut self) {
        let begun = self.block.begin(&(), 0, &mut self.look);
        self.block
            .finish(&(), &begun, [Turn::Nothing; 2], &mut Marks::new());
    }

    /// What concerns the words.
    fn words(&mut self, verb: &str, words: &[u32; 8]) -> bool {
        let offset = half(words[0]);
        let block = &mut self.block;
        match verb {
            // an offset, what is written there, and what is read then
            "keeps" => {
                block.effect(offset, Some(words[1])) && block.read(offset) == Some(words[2])
            }
            "write" => block.effect(offset, Some(words[1])),
            "take" => block.effect(offset, None),
            "reads" => block.read(offset) == Some(words[1]),
            "none" => {
                block.read(offset).is_none()
                    && !block.allows(offset, None)
                    && !block.effect(offset, None)
            }
            // OUT_STICKY and INLINE_OUT_EN are refused
            "refuses" => {
                !block.effect(offset, Some(0x4_0000)) && !block.allows(offset, Some(0x2_0000))
            }
            _ => false,
        }
    }

    /// What is seen of the rest.
    fn shows(&self, verb: &str, words: &[u32; 8]) -> bool {
        let [first, second, third, fourth, fifth, sixth, _, _] = *words;
        match verb {
            "asked" => self.look.asked == first,
            // the free entries and the words of the FIFOs of machine 1, where the others' are 4 and 0
            "pacing" => { self.block.pacing() == [4, byte(first), 4, 4, 0, byte(second), 0, 0] }
            // a machine's PC, X, Y, ISR and OSR
            "has" => {
                first < 4
                    && self.block.registers(first as u8) == [second, third, fourth, fifth, sixth]
            }
            "lines" => self.block.lines() == [first == 1, second == 1],
            "idle" => (self.block.quiet(Inputs { now: 0, second: 0 }) == u64::MAX) == (first == 1),
            _ => false,
        }
    }
}

impl Bench for Wired {
    fn does(&mut self, verb: &str, words: &[u32; 8]) -> bool {
        match verb {
            "keeps" | "write" | "take" | "reads" | "none" | "refuses" => {
                return self.words(verb, words);
            }
            "reset" => self.block.reset(),
            "inputs" => self.look.second = words[0],
            // a cycle, and the levels and enables of the pins after it
            "cycle" => {
                self.step();
                return self.block.outs() == [words[0], words[1]];
            }
            // a machine and an address
            "counter" => {
                if words[0] < 4 && words[1] < 32 {
                    self.block.set_counter(words[0] as u8, words[1] as u8);
                }
            }
            "copy" => {
                let mut copy = PioBlock::new();
                copy.copy_from(&self.block);
                self.block = copy;
            }
            _ => return self.shows(verb, words),
        }
        true
    }
}

/// What each word keeps of a write, FSTAT first and CTRL last; the machines' are from 0c8, 0e0, 0f8 and 110 on.
const WORDS: &str = "\
    keeps 004 ffffffff 0f000f00; keeps 008 ffffffff 0; keeps 00c ffffffff 0; keeps 02c ffffffff 0;\
    keeps 034 1ff 0; keeps 030 f f0; keeps 038 80000001 80000001; keeps 03c ffffffff 0; keeps 040 ffffffff 0;\
    keeps 044 ffffffff 200404; keeps 048 1234e081 0; keeps 0c4 e101 0;\
    keeps 0d8 a042 e081; keeps 0c8 ffffffff ffffff00; keeps 0cc 7f01ffff ff01ff9f; keeps 0e4 fff9ffff 7f01ff9f;\
    keeps 0d0 ffffffff ffff0000; keeps 0d4 ffffffff 0; keeps 124 12345678 12345678;\
    keeps 128 ffffffff 0e0; keeps 12c ffffffff fff; keeps 130 1 1; keeps 134 ffffffff 0e1;\
    keeps 138 3 3; keeps 13c 0 0; keeps 140 ffffffff 0; keeps 000 ff5 5; lines 1 0;";

/// Offsets of no word, bits that are left out, and a reset.
const REFUSED: &str = "\
    none 002; none 0c9; none 144; none 148; none 1000; none fffc;\
    refuses 0cc; refuses 0e4; refuses 0fc; refuses 114; write 110 1000000; reset; reads 110 10000;";

/// Five words into TXF1, which takes four; RXF3, which is empty, is read; pull, in osr, 32 and push from INSTR of machine 1; a join
/// empties.
const FIFOS: &str = "\
    write 014 1; write 014 2; write 014 3; write 014 4; write 014 5; reads 004 0d020f00; reads 008 20000; reads 00c 400;\
    reads 128 0d0; pacing 0 0; take 02c; reads 008 20800; write 008 20000; reads 008 800;\
    write 0f0 80a0; cycle 0 0; write 0f0 40e0; cycle 0 0; write 0f0 8020; cycle 0 0; cycle 0 0; asked 3;\
    has 1 0 0 0 0 1; reads 024 1; reads 00c 1300; take 024; write 0e8 40000000; reads 00c 0; pacing 8 0;";

/// set pindirs, 1; set pins, 1 [1]; set pins, 0 [2]; jmp 0, and its copy goes on.
const BLINK: &str = "\
    write 048 e081; write 04c e101; write 050 e200; write 000 1;\
    cycle 0 1; cycle 1 1; cycle 1 1; cycle 0 1; cycle 0 1; cycle 0 1; cycle 0 1; cycle 0 1; cycle 1 1;\
    copy; cycle 1 1; cycle 0 1;";

/// Two machines at once: of set pins, 3 and set pins, 0 the higher's stays; irq 2 and irq clear 2 leave the flag. Then
/// wait 1 gpio 0 waits in INSTR; and set pins, 31 from pin 28 on, of which pins 30 and 31 show nothing.
const FORCED: &str = "\
    write 0d8 e003; write 0f0 e000; cycle 0 0; write 0d8 c002; write 0f0 c042; cycle 0 0; reads 030 4;\
    counter 2 1f; write 108 2080; cycle 0 0; reads 0fc 8001f000; inputs 1; cycle 0 0; reads 0fc 1f000;\
    has 2 1f 0 0 0 0; idle 1; write 0dc 14000380; write 0d8 e01f; idle 0; cycle 30000001 0; reads 03c 30000001;";

/// pull block stalls on an empty FIFO, and the machine only waits until a word comes.
const STALL: &str = "\
    write 048 80a0; write 000 1; idle 0; cycle 0 0; idle 1; write 010 5; idle 0; cycle 0 0; has 0 1 0 0 0 5; idle 0;";

#[test]
fn words_and_cycles(rt: HostRuntime) {
    for text in [WORDS, REFUSED, FIFOS, BLINK, FORCED, STALL] {
        assert_eq!(rt; first_wrong(&mut at_reset(), text), None);
    }
}
