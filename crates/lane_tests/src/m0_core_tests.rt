//! Programs worked by hand, over a small memory: their results by the manual, their cycles by its timing table.

use lane_look::{Ask, Lane, Look, Marks, Turn, Want};
use m0_core::Core;
use rp_base::map::{Spot, place};
use rp_base::{Master, Request, Size, Why};
use test_deeds::{Bench, first_wrong};

/// The first 64 words of SRAM and the last 16, and the core's interrupt lines.
#[derive(Drop)]
struct Memory {
    low: [u32; 64],
    high: [u32; 16],
    lines: u32,
}

impl Look for Memory {
    ghost answers = { λ old ask answer new. Unit {0} };

    fn ask(&mut self, ask: Ask) -> u128 {
        match ask {
            Ask::Half(address) => {
                u128::from((self.word(address) >> (16 * (address / 2 % 2))) & 0xffff)
            }
            Ask::Word(address) => u128::from(self.word(address)),
            Ask::Lines => u128::from(self.lines),
            _ => 0,
        }
    }
}

impl Memory {
    /// A memory of zeros.
    fn new() -> Memory {
        Memory {
            low: [0; 64],
            high: [0; 16],
            lines: 0,
        }
    }

    /// The word of an address.
    fn word(&self, address: u32) -> u32 {
        match place(address) {
            Spot::Ram { index, .. } if index < 64 => self.low[index as usize],
            Spot::Ram { index, .. } if index >= 67_568 && index < 67_584 => self.high[index as usize
                - 67_568],
            _ => 0,
        }
    }

    /// Writes a word.
    fn set_word(&mut self, address: u32, value: u32) {
        match place(address) {
            Spot::Ram { index, .. } if index < 64 => self.low[index as usize] = value,
            Spot::Ram { index, .. } if index >= 67_568 && index < 67_584 => self.high[index as usize
                - 67_568] = value,
            _ => {}
        }
    }

    /// Does the write of a request.
    fn write(&mut self, request: &Request) {
        let Some(value) = request.write else {
            return;
        };
        let (mask, shift) = match request.size {
            Size::Byte => (0xff, 8 * (request.address % 4)),
            Size::Half => (0xffff, 16 * (request.address / 2 % 2)),
            Size::Word => (0xffff_ffff, 0),
        };
        let kept = self.word(request.address) & !(mask << shift);
        self.set_word(request.address, kept | (value & mask) << shift);
    }
}

/// One cycle: accesses to SRAM are done at once, all others by `outward`.
fn cycle(core: &mut Core, memory: &mut Memory, outward: Turn) -> Option<Why> {
    let mut marks = Marks::new();
    let begun = core.begin(&(), 0, memory);
    let wants = Core::wants(&begun);
    let turn = match wants[0] {
        Want::Stopped(why) => return Some(why),
        Want::Ram(request) => {
            memory.write(&request);
            Turn::Done(0)
        }
        Want::Outward(_) => outward,
        Want::Signal | Want::Nothing => Turn::Nothing,
    };
    core.finish(&(), &begun, [turn, Turn::Nothing], &mut marks);
    if wants[0] == Want::Signal {
        core.signal();
    }
    None
}

/// A run of at most 100 cycles up to a stop, and how many cycles it has.
fn run(core: &mut Core, memory: &mut Memory) -> (u32, Option<Why>) {
    for count in 0..100 {
        if let Some(why) = cycle(core, memory, Turn::Done(0x1122_3344)) {
            return (count, Some(why));
        }
    }
    (100, None)
}

/// A core over a memory, and how many halfwords of SRAM stand before the next ones of its code.
#[derive(Drop)]
struct Running {
    core: Core,
    memory: Memory,
    at: usize,
}

/// Core 0, which does not run yet.
fn asleep() -> Running {
    Running {
        core: Core::new(0),
        memory: Memory::new(),
        at: 0,
    }
}

impl Running {
    /// Eight more halfwords of code.
    fn push_code(&mut self, words: &[u32; 8]) {
        for half in words {
            let index = self.at / 2;
            if index < 64 {
                self.memory.low[index] |= *half << (16 * (self.at % 2));
                self.at += 1;
            }
        }
    }

    /// So many cycles with no stop, in which accesses outside SRAM wait.
    fn passes(&mut self, count: u32) -> bool {
        for _ in 0..count {
            if cycle(&mut self.core, &mut self.memory, Turn::Wait).is_some() {
                return false;
            }
        }
        true
    }

    /// A run of so many cycles ends so.
    fn ends(&mut self, count: u32, why: Option<Why>) -> bool {
        run(&mut self.core, &mut self.memory) == (count, why)
    }

    /// What a register has, by its number.
    fn has(&self, number: u32, word: u32) -> bool {
        number < 17 && self.core.registers()[number as usize] == word
    }

    /// What is seen.
    fn shows(&self, verb: &str, words: &[u32; 8]) -> bool {
        match verb {
            "has" => self.has(words[0], words[1]),
            "sp" => self.has(13, words[0]),
            "lr" => self.has(14, words[0]),
            "pc" => self.has(15, words[0]),
            "xpsr" => self.has(16, words[0]),
            // an address and its word
            "word" => self.memory.word(words[0]) == words[1],
            _ => false,
        }
    }
}

impl Bench for Running {
    fn does(&mut self, verb: &str, words: &[u32; 8]) -> bool {
        match verb {
            // code from the start of SRAM, and the stack at the end
            "alone" => self.core.start(0, 0x2004_2000, 0x2000_0001),
            // code behind 32 vectors at the start of SRAM, and a stack pointer
            "behind" => {
                self.core.start(0x2000_0000, words[0], 0x2000_0081);
                self.at = 64;
            }
            "vector" => self
                .memory
                .set_word(0x2000_0000 + 4 * (words[0] % 32), words[1]),
            "code" => self.push_code(words),
            // the core's interrupt lines, and its event register
            "lines" => self.memory.lines = words[0],
            "signal" => self.core.signal(),
            // cycles in which accesses outside SRAM wait
            "pass" => return self.passes(words[0]),
            // after so many cycles comes BKPT, a lockup, or an address outside; or no stop comes in 100
            "run" => return self.ends(words[0], Some(Why::Bkpt(0))),
            "locks" => return self.ends(words[0], Some(Why::Lockup(0))),
            "leaves" => return self.ends(words[0], Some(Why::Outside(Master::Core0, words[1]))),
            "waits" => return self.ends(100, None),
            "ends" => return run(&mut self.core, &mut self.memory).1 == Some(Why::Bkpt(0)),
            _ => return self.shows(verb, words),
        }
        true
    }
}

/// Programs that run to their end.
const PROGRAMS: [&str; 10] = [
    // ADCS of two greatest words with a carry.
    "alone; code 2000 43c0 2100 43c9 4288 4148 be00; run 6; has 0 ffffffff; has 1 ffffffff; pc 2000000c; xpsr a1000000;",
    // LSRS by 32 and ASRS by 255.
    "alone; code 2001 07c0 22ff 0001 0800 4111 be00; run 6; has 0 0; has 1 ffffffff; has 2 ff; xpsr a1000000;",
    // BL has three cycles, PUSH of two registers three, POP with PC five.
    "alone; code 2003 f000 f801 be00 b501 bd02; run #12; has 0 3; has 1 3; sp 20042000; lr 20000007; pc 20000006;",
    // BLX and BX have two cycles each.
    "alone; code 4b02 4798 be00 0000 2007 4770 0009 2000; run 7; has 0 7; lr 20000005; pc 20000004;",
    // PUSH and POP of two registers have three cycles each.
    "alone; code 2001 2102 b403 bc0c be00; run 8; has 2 1; has 3 2; sp 20042000;",
    // Words, halfwords and bytes: 11 loads and stores of two cycles each, and two MOVS.
    "alone; code 4806 4907 6001 7842 8843 2503 5744 2502; code 5f46 7041 8081 6807 6840 be00 0080 2000; code 5432 87f6;\
    run #24; has 0 5432; has 1 87f65432; has 2 54; has 3 87f6; has 4 ffffff87; has 6 ffff87f6; has 7 87f63232;",
    // Address 21010004 is word 1 of bank 1, which is word 5 of the striped order.
    "alone; code 4802 4903 6001 4a03 be00 0000 0004 2101; code beef cafe; run 8; has 2 cafebeef;",
    // STM and LDM of three registers have four cycles each, LDM of two with its base in the list three.
    "alone; code 4805 2111 2222 2333 c00e 380c c870 380c; code c881 be00 0000 0000 0040 2000;\
    run #18; has 0 11; has 4 11; has 5 22; has 6 33; has 7 22; xpsr 21000000;",
    // A load from SIO has one cycle.
    "alone; code 27d0 063f 6838 be00; run 3; has 0 11223344;",
    // A byte of an APB register has its lane of the word.
    "alone; code 2740 063f 7878 be00; run 4; has 0 33;",
];

/// What ends a run, and waits.
const STOPS: [&str; 9] = [
    // SEV sets the event register, and WFE clears it: a second WFE waits until it is set again.
    "alone; code bf40 bf20 bf20 be00; waits; pc 20000004; signal; run 1;",
    // WFI waits.
    "alone; code bf30 be00; waits;",
    // An access lasts until it is done.
    "alone; code 2740 063f 6838 be00; pass 9; pc 20000004; run 1;",
    // A fetch outside SRAM: BX to 0.
    "alone; code 2001 4700; leaves 3 0;",
    // Faults and SVC take 16 cycles up to a vector: UDF, SVC, an unaligned word, T clear.
    "alone; code de00; leaves #16 11223344; sp 20041fe0; lr fffffff9; xpsr 3;",
    "alone; code df00; leaves #16 11223344; xpsr b;",
    "alone; code 2001 6800; leaves #17 11223344; sp 20041fe0; lr fffffff9; xpsr 3;",
    "alone; code 4801 4700 0000 0000 0006 2000; leaves #20 11223344; sp 20041fe0; lr fffffff9; xpsr 3;",
    // A word that the private bus does not have.
    "alone; code 4801 6800 0000 0000 e000 e000; leaves 3 e000e000;",
];

/// Handlers of exceptions and interrupts, and faults.
const HANDLERS: [&str; 8] = [
    // SVC, whose handler makes PendSV pending; that one reads ICSR.
    "behind 20042000; vector b 20000089; vector e 2000008d; code 4805 4906 df00 be00 6001 4770 2407 6805;\
    code 4770 0000 0000 0000 ed04 e000 0000 1000;\
    run #70; has 4 7; has 5 e; sp 20042000; lr ffffffff; xpsr 1000000;",
    // A frame of a stack that is no multiple of 8.
    "behind 20041ffc; vector b 20000085; code df00 be00 4770;\
    run #31; sp 20041ffc; pc 20000082; xpsr 1000000; word 20041ff4 1000200; word 20041ff0 20000082;",
    // SysTick each 40 cycles.
    "behind 20042000; vector f 2000008d; code 4804 2127 6041 2107 6001 e7fe 3401 4770; code 0000 0000 e010 e000;\
    pass #63; has 4 0; pass 1; has 4 1; pass #38; has 4 1; pass 1; has 4 2;",
    // A byte that is written to the private bus is written to all lanes of the word, and one that is read has its own.
    "behind 20042000; code 4803 21c5 7041 6802 78c3 be00 0000 0000; code e400 e000; run 9; has 2 c0c0c0c0; has 3 c0;",
    // With PRIMASK an interrupt ends WFI, and is taken after CPSIE.
    "behind 20042000; vector 10 20000091; code 4804 2101 6001 b672 bf30 2201 b662 be00; code 2409 4770 e100 e000;\
    pass #40; has 2 0; pc 20000088; lines 1; pass 1; lines 0; pass 2; has 2 1; has 4 0; run #32; has 4 9; pc 2000008e;",
    // Interrupt 0 comes before interrupt 1, into whose entry it falls.
    "behind 20042000; vector 10 20000099; vector 11 20000093; code 4807 4908 2203 6002 2240 0212 600a bf30;\
    code be00 2401 002e 4770 2505 0027 4770 0000; code e100 e000 e400 e000;\
    pass #40; lines 2; pass 1; lines 0; pass 3; lines 1; pass 1; lines 0; pass 1; ends; has 4 1; has 5 5; has 6 5; has 7 0;\
    sp 20042000;",
    // A return with a value that no entry gives is a HardFault, and PC is that of the BX.
    "behind 20042000; vector 3 20000089; vector b 20000083; code df00 2000 43c0 4700 be00;\
    run #36; sp 20041fc0; lr fffffff1; xpsr 81000003; word 20041fd8 20000086;",
    // A fault inside HardFault.
    "behind 20042000; vector 3 20000083; code de00 de01; locks #16; sp 20041fe0; pc 20000082; xpsr 1000003;",
];

/// Frames on the process stack, frames that a handler changed, and exceptions that end WFE or follow each other.
const FRAMES: [&str; 7] = [
    // MSR PSP, MSR CONTROL and SVC; the handler reads PSP, MSP and LR. The process stack is no multiple of 8.
    "behind 20042000; vector b 20000095; code 4803 f380 8809 2102 f381 8814 df00 be00; code 1fe4 2004 f3ef 8409 f3ef 8508 4676 4770;\
    run #47; has 4 20041fc0; has 5 20042000; has 6 fffffffd; sp 20041fe4; lr ffffffff; pc 2000008e; xpsr 1000000;\
    word 20041fd8 2000008e; word 20041fdc 1000200;",
    // A handler that sets bit 9 of the stacked xPSR returns to a stack that is 4 higher.
    "behind 20041fe0; vector b 20000085; code df00 be00 4a01 9207 4770 0000 0200 0100;\
    run #35; sp 20041fe4; pc 20000082; xpsr 1000000;",
    // SVC, whose handler writes the exception number 5 into the frame of Thread mode: a HardFault at the end of the return.
    "behind 20042000; vector 3 2000008b; vector b 20000085; code df00 be00 2005 9007 4770 be01;\
    run #49; sp 20041fe0; lr fffffff1; pc 2000008a; xpsr 1000003; word 20041ff8 20000082; word 20041ffc 5;",
    // The same inside HardFault locks the core up in the last cycle of the return.
    "behind 20042000; vector 3 20000085; code de00 be00 2005 9007 4770; locks #33; sp 20041fe0; pc 20000088; xpsr 1000003;",
    // With PRIMASK an interrupt ends WFE, and is taken after CPSIE. Its entry and return set the event register, so that the
    // second WFE goes on at once.
    "behind 20042000; vector 10 20000093; code 4805 2101 6001 b672 bf20 2201 b662 bf20; code be00 2409 4770 0000 e100 e000;\
    pass #40; has 2 0; pc 20000088; lines 1; pass 1; lines 0; pass 2; has 2 1; has 4 0; run #34; has 4 9; pc 20000090;",
    // SCR.SEVONPEND is set, and interrupt 0 is not enabled: once it is pending, WFE goes on.
    "behind 20042000; code 4802 2110 6001 bf20 be00 0000 ed10 e000; pass #40; pc 20000086; lines 1; pass 1; run 1;",
    // Interrupt 0 is enabled, and its handler adds 1 to R4: an entry of 15 cycles, ADDS, BX of 2 and a return of 13. While the line
    // is high the next entry follows the return at once.
    "behind 20042000; vector 10 20000089; code 4802 2101 6001 e7fe 3401 4770 e100 e000;\
    pass 9; lines 1; pass #17; has 4 0; pass 1; has 4 1; pass #30; has 4 1; pass 1; has 4 2; lines 0; pass #80; has 4 2;\
    sp 20042000; xpsr 1000000;",
];

#[test]
fn programs(rt: HostRuntime) {
    for text in PROGRAMS {
        assert_eq!(rt; first_wrong(&mut asleep(), text), None, "{text}");
    }
    for text in STOPS {
        assert_eq!(rt; first_wrong(&mut asleep(), text), None, "{text}");
    }
}

#[test]
fn exceptions(rt: HostRuntime) {
    for text in HANDLERS {
        assert_eq!(rt; first_wrong(&mut asleep(), text), None, "{text}");
    }
    for text in FRAMES {
        assert_eq!(rt; first_wrong(&mut asleep(), text), None, "{text}");
    }
}

// A fetch outside SRAM: the second halfword of BL behind the end.
#[test]
fn the_end_of_sram(rt: HostRuntime) {
    let mut core = Core::new(1);
    core.start(0, 0x2004_2000, 0x2004_1fff);
    let mut memory = Memory::new();
    memory.set_word(0x2004_1ffc, 0xf000_0000);
    let stop = Why::Outside(Master::Core1, 0x2004_2000);
    assert!(rt; run(&mut core, &mut memory) == (0, Some(stop)));
}

// A core that was not started is asleep, and a copy goes on as the core does.
#[test]
fn a_copy_goes_on(rt: HostRuntime) {
    let mut started = Core::new(0);
    started.start(0, 0x2004_2000, 0x2000_0001);
    let mut core = Core::new(1);
    assert!(rt; core.is_asleep() && !core.has_offer());
    core.set_offer(true);
    core.copy_from(&started);
    assert!(rt; !core.is_asleep() && !core.has_offer());
    let mut memory = Memory::new();
    memory.set_word(0x2000_0000, 0xbf00);
    assert!(rt; cycle(&mut core, &mut memory, Turn::Wait).is_none());
    assert!(rt; core.registers()[15] == 0x2000_0002);
}
