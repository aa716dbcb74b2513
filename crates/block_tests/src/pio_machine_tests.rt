//! One machine: single instructions, and runs of small programs.

ghost use Rattle.std.specs.Prelude.{◌<◌};

use pio_machine::settings::Settings;
use pio_machine::{Done, Machine1, Memory, Seen, Waiting};
use test_deeds::{Bench, byte, first_wrong, half};

/// A cycle of the machine of that number.
fn tick(machine: &mut Machine1, number: u8, seen: &Seen, done: &mut Done)
    requires { number < 4 }
{
    let settings = Settings::of(machine);
    pio_machine::tick(machine, &settings, number, seen, done);
}

/// A machine, its number, what it sees, and what its last cycle did.
#[derive(Drop)]
struct Alone {
    machine: Machine1,
    number: u8,
    seen: Seen,
    done: Done,
}

/// A machine in its reset state, with no program, where all pins are low.
fn at_reset() -> Alone {
    Alone {
        machine: Machine1::new(),
        number: 0,
        seen: Seen {
            memory: Memory::new(),
            inputs: [0, 0],
            bypass: 0,
            flags: 0,
        },
        done: Done::new(),
    }
}

impl Alone {
    /// A cycle.
    fn cycle(&mut self) {
        self.done = Done::new();
        if self.number < 4 {
            tick(&mut self.machine, self.number, &self.seen, &mut self.done);
        }
    }

    /// A cycle drives pin 0 so, or writes no level of it.
    fn levels(&mut self, mask: u32, level: u32) -> bool {
        self.cycle();
        self.done.level_mask & 1 == mask && self.done.levels & 1 == level
    }

    /// What its registers are set to.
    fn sets(&mut self, verb: &str, words: &[u32; 8]) -> bool {
        let machine = &mut self.machine;
        let first = words[0];
        match verb {
            "enable" => machine.enabled = first == 1,
            "clkdiv" => machine.clkdiv = first,
            "execctrl" => machine.execctrl = first,
            "shiftctrl" => machine.shiftctrl = first,
            "pinctrl" => machine.pinctrl = first,
            "x" => machine.x = first,
            "y" => machine.y = first,
            // a shift register and its count
            "isr" => {
                machine.isr = first;
                machine.isr_count = byte(words[1]);
            }
            "osr" => {
                machine.osr = first;
                machine.osr_count = byte(words[1]);
            }
            "pc" => machine.pc = (first % 32) as u8,
            "word" => machine.waiting = Some(Waiting::forced(half(first))),
            _ => return false,
        }
        true
    }

    /// What is done to the rest of it.
    fn acts(&mut self, verb: &str, words: &[u32; 8]) -> bool {
        let machine = &mut self.machine;
        match verb {
            // a word into the TX FIFO, and four nines into the RX FIFO
            "give" => {
                if machine.tx.level() < 4 {
                    machine.tx.push(words[0]);
                }
            }
            "fill" => {
                for _ in 0..4 {
                    if machine.rx.level() < 4 {
                        machine.rx.push(9);
                    }
                }
            }
            "empty" => machine.rx.clear(),
            // RXSTALL
            "clear" => machine.rx_stall = false,
            "restart" => machine.restart(),
            "copy" => {
                let mut copy = Machine1::new();
                copy.copy_from(machine);
                *machine = copy;
            }
            _ => return false,
        }
        true
    }

    /// What its registers are.
    fn has(&self, verb: &str, words: &[u32; 8]) -> bool {
        let machine = &self.machine;
        let [first, second, third, fourth, fifth, sixth, seventh, _] = *words;
        match verb {
            // PC, X, Y, both shift registers and both counts
            "has" => {
                machine.waiting.is_none()
                    && [u32::from(machine.pc), machine.x, machine.y] == [first, second, third]
                    && [machine.isr, machine.osr] == [fourth, fifth]
                    && u32::from(machine.isr_count) == sixth
                    && u32::from(machine.osr_count) == seventh
            }
            "at" => u32::from(machine.pc) == first,
            "isr=" => machine.isr == first,
            "y=" => machine.y == first,
            "out" => u32::from(machine.osr_count) == first,
            // the word that waits as one that was executed
            "executes" => match machine.waiting {
                Some(waiting) => u32::from(waiting.word) == first && !waiting.forced,
                None => false,
            },
            _ => false,
        }
    }

    /// What else is seen of it.
    fn shows(&self, verb: &str, words: &[u32; 8]) -> bool {
        let machine = &self.machine;
        let done = &self.done;
        let [first, second, third, fourth, ..] = *words;
        match verb {
            // how many words the RX FIFO has, and the first one
            "level" => u32::from(machine.rx.level()) == first && machine.rx.first() == second,
            // RXSTALL, and that the word at PC has shifted
            "stalled" => {
                machine.rx_stall == (first == 1) && machine.progress.shifted == (second == 1)
            }
            // TXSTALL of an empty TX FIFO
            "starved" => machine.tx_stall && machine.tx.level() == 0,
            // the depths of both FIFOs, and that both are full
            "depths" => {
                [u32::from(machine.tx_depth()), u32::from(machine.rx_depth())] == [first, second]
                    && [machine.is_tx_full(), machine.is_rx_full()] == [third == 1; 2]
            }
            // the flags that the last cycle sets and clears
            "irqs" => [u32::from(done.set), u32::from(done.clear)] == [first, second],
            // the mask and the levels, and the mask and the enables
            "pins" => {
                [done.level_mask, done.levels] == [first, second]
                    && [done.enable_mask, done.enables] == [third, fourth]
            }
            _ => false,
        }
    }
}

impl Bench for Alone {
    fn does(&mut self, verb: &str, words: &[u32; 8]) -> bool {
        match verb {
            // the number of the machine
            "number" => self.number = byte(words[0]),
            // a program from address 0 on
            "program" => {
                for k in 0..8 {
                    self.seen.memory.write(k, half(words[usize::from(k)]));
                }
            }
            // the inputs of now and behind the synchronisers, and what passes by those
            "inputs" => {
                self.seen.inputs = [words[0], words[1]];
                self.seen.bypass = words[2];
            }
            "flags" => self.seen.flags = byte(words[0]),
            "cycles" => {
                for _ in 0..words[0] {
                    self.cycle();
                }
            }
            // a cycle that writes no level of pin 0, a low one or a high one
            "keeps" => return self.levels(0, 0),
            "low" => return self.levels(1, 0),
            "high" => return self.levels(1, 1),
            "took" => return self.machine.rx.pull() == Some(words[0]),
            _ => {
                return self.sets(verb, words)
                    || self.acts(verb, words)
                    || self.has(verb, words)
                    || self.shows(verb, words);
            }
        }
        true
    }
}

/// Words written to INSTR of a machine that is not enabled, at address 7 with X 5, Y 0, 8 bits of 12345678 in the ISR and 4
/// bits out of the OSR, which has 9abcdef0; and PC, X, Y, both shift registers and both counts then.
const WORDS: [(u16, &str); 20] = [
    // jmp !x 3; jmp x-- 3; jmp !y 3; jmp y-- 3; jmp x!=y 3; jmp !osre 3
    (0x0023, "has 7 5 0 12345678 9abcdef0 8 4"),
    (0x0043, "has 3 4 0 12345678 9abcdef0 8 4"),
    (0x0063, "has 3 5 0 12345678 9abcdef0 8 4"),
    (0x0083, "has 7 5 ffffffff 12345678 9abcdef0 8 4"),
    (0x00a3, "has 3 5 0 12345678 9abcdef0 8 4"),
    (0x00e3, "has 3 5 0 12345678 9abcdef0 8 4"),
    // in x, 4; in y, 32
    (0x4024, "has 7 5 0 51234567 9abcdef0 c 4"),
    (0x4040, "has 7 5 0 0 9abcdef0 20 4"),
    // out x, 8; out y, 32; out isr, 8; out pc, 6
    (0x6028, "has 7 f0 0 12345678 9abcde 8 c"),
    (0x6040, "has 7 5 9abcdef0 12345678 0 8 20"),
    (0x60c8, "has 7 5 0 f0 9abcde 8 c"),
    (0x60a6, "has 10 5 0 12345678 26af37b 8 a"),
    // pull noblock; pull ifempty block
    (0x8080, "has 7 5 0 12345678 5 8 0"),
    (0x80e0, "has 7 5 0 12345678 9abcdef0 8 4"),
    // mov isr, x; mov x, !x; mov x, ::x; mov pc, x
    (0xa0c1, "has 7 5 0 5 9abcdef0 0 4"),
    (0xa029, "has 7 fffffffa 0 12345678 9abcdef0 8 4"),
    (0xa031, "has 7 a0000000 0 12345678 9abcdef0 8 4"),
    (0xa0a1, "has 5 5 0 12345678 9abcdef0 8 4"),
    // set y, 31; a reserved word
    (0xe05f, "has 7 5 1f 12345678 9abcdef0 8 4"),
    (0x8001, "has 7 5 0 12345678 9abcdef0 8 4"),
];

#[test]
fn single_words(rt: HostRuntime) {
    for (word, text) in WORDS {
        let mut alone = at_reset();
        let start = "pc 7; x 5; isr 12345678 8; osr 9abcdef0 4";
        assert_eq!(rt; first_wrong(&mut alone, start), None);
        alone.machine.waiting = Some(Waiting::forced(word));
        alone.cycle();
        assert_eq!(rt; first_wrong(&mut alone, text), None);
    }
}

/// set pindirs, 1; set pins, 1 [1]; set pins, 0 [2]; jmp 0: not enabled, enabled, and at a divider of 2.5, where two ticks take five
/// cycles.
const BLINKS: &str = "\
    program e081 e101 e200 0; keeps; keeps; keeps; enable 1;\
    keeps; high; keeps; low; keeps; keeps; keeps; keeps; high; keeps; low; keeps; keeps;";

const SLOWER: &str = "\
    program e081 e101 e200 0; enable 1; clkdiv 28000;\
    keeps; keeps; high; keeps; keeps; keeps; keeps; low; keeps; keeps; keeps; keeps; keeps; keeps; keeps; keeps; keeps;\
    keeps; keeps; keeps; high;";

/// The program for WS2812 lamps of the RP2040 Datasheet, 3.6.2, where a bit takes ten cycles: out x, 1 side 0 [2];
/// jmp !x 3 side 1 [1]; jmp 0 side 1 [4]; nop side 0 [4]. It has autopull at 24 bits, to the left.
const LAMPS: &str = "\
    program 6221 1123 1400 a442; enable 1; execctrl 3000; pinctrl 20000000; shiftctrl 30020000;\
    low; low; low; starved; give 80000000; low; out 0;\
    low; keeps; keeps; high; keeps; high; keeps; keeps; keeps; keeps;\
    low; keeps; keeps; high; keeps; low; keeps; keeps; keeps; keeps;\
    low; keeps; keeps; high; keeps;";

/// IN of 32 bits under autopush shifts once, also where it stalls; and PUSH tells a full FIFO: in y, 32; push noblock; set y,
/// 2; jmp 0.
const STALLS: &str = "\
    program 4040 8000 e042 0; enable 1; y 1; shiftctrl d0000; fill; cycles 2; stalled 1 1; isr= 1;\
    y 7; took 9; cycles 1; level 4 9; at 1; clear; cycles 2; stalled 1 0; y= 2;\
    restart; out 20; copy; level 4 9; empty; depths 4 4 0; shiftctrl c0000000; depths 0 0 1; level 0 0;";

/// irq wait 2 rel by machine 3 waits for flag 1, which wait 1 irq 1 clears; the waiting word of mov exec and its side-set: irq wait
/// 2 rel; wait 1 irq 1; mov exec, x; jmp 0.
const FLAGS: &str = "\
    program c032 20c1 a081 0; enable 1; number 3; x e041;\
    cycles 1; irqs 2 0; at 0; flags 2; cycles 1; irqs 0 0; at 0; flags 0; cycles 1; irqs 0 0; at 1; cycles 1; irqs 0 0; at 1;\
    flags 2; cycles 1; irqs 0 2; at 2; flags 0; cycles 1; irqs 0 0; at 3; executes e041; cycles 1; y= 1; at 3;";

/// Pins go on after pin 31 at pin 0: in pins, 3, of which pin 0 is read before its synchroniser; set pins, 5; and out pindirs,
/// 2 with a side-set of one pin, which wins; and a side-set that is optional, and not asked for: jmp 0 with delay 0.
const WRAPPED: &str = "\
    program 4003 e005 6082 0; enable 1; number 1; inputs 1 80000002 1; shiftctrl 0; pinctrl c0f83e0;\
    cycles 1; pins 0 0 0 0; isr= 7; cycles 1; pins 80000003 80000002 0 0;\
    pinctrl 2020001f; execctrl 2001f000; osr c0000000 0; cycles 1; pins 0 0 80000001 80000000;\
    execctrl 6001f000; pinctrl 40000000; cycles 1; pins 0 0 0 0; at 0;";

/// A fetched in y, 32 stalls, and a written jmp 5 leads to in x, 8, which shifts.
const JUMP: &str = "\
    program 4040 0 0 0 0 4028; enable 1; x 7; y 3; shiftctrl 10000; fill; cycles 2; isr= 3;\
    word 5; cycles 2; took 9; cycles 1; took 9; took 9; took 9; took 307;";

/// A written in x, 32 in place of a written in y, 32 that stalls shifts itself.
const NEWER: &str = "\
    program 4040 0 0 0 0 4028; x 7; y 3; shiftctrl 10000; fill; word 4040; cycles 2; isr= 3;\
    word 4020; cycles 2; isr= 7; took 9; cycles 1; took 9; took 9; took 9; took 7;";

/// A written in x, 8 over a fetched in y, 32 that stalls shifts once, and the fetched one does not shift again.
const OVER: &str = "\
    program 4040 0 0 0 0 4028; enable 1; x 7; y 3; shiftctrl 10000; fill; cycles 2; word 4028; cycles 2;\
    took 9; cycles 1; took 9; took 9; took 9; took 307; cycles 1; at 1; isr= 0;";

/// A written irq wait 1 over a fetched irq wait 0 that stalls raises flag 1, and flag 0 is not raised again.
const RAISED: &str = "\
    program c020 0 0 0; enable 1; cycles 1; irqs 1 0; word c021; flags 1; cycles 1; irqs 2 0; flags 3; cycles 1; irqs 0 0;\
    flags 1; cycles 1; irqs 0 0; cycles 1; irqs 0 0; flags 0; cycles 1; irqs 0 0; at 1;";

#[test]
fn programs(rt: HostRuntime) {
    for text in [
        BLINKS, SLOWER, LAMPS, STALLS, FLAGS, WRAPPED, JUMP, NEWER, OVER, RAISED,
    ] {
        assert_eq!(rt; first_wrong(&mut at_reset(), text), None);
    }
}
