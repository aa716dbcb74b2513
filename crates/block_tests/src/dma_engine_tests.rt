//! Copies worked by hand over a small memory: cycle by cycle, what the engine reads and what it writes.

use dma_engine::{BegunTransfer, Dma};
use lane_look::{Ask, Lane, Look, Marks, Turn, Want};
use rp_base::map::{Spot, place, port};
use rp_base::{Master, Request, Reset, Size, Why};
use test_deeds::{Bench, byte, first_wrong, half};

/// The first 128 words of SRAM, and the counts by which channels are paced.
#[derive(Drop)]
struct Memory {
    words: [u32; 128],
    counts: u128,
}

impl Look for Memory {
    ghost answers = { λ old ask answer new. Unit {0} };

    fn ask(&mut self, ask: Ask) -> u128 {
        match ask {
            Ask::Word(address) => u128::from(self.word(address)),
            Ask::Pacing => self.counts,
            _ => 0,
        }
    }
}

impl Memory {
    /// Words from the start of SRAM.
    fn with_words(words: &[u32]) -> Memory {
        let mut memory = Memory {
            words: [0; 128],
            counts: 0,
        };
        for (k, word) in words.iter().enumerate() {
            if k < 128 {
                memory.words[k] = *word;
            }
        }
        memory
    }

    /// The word of an address.
    fn word(&self, address: u32) -> u32 {
        match place(address) {
            Spot::Ram { index, .. } if index < 128 => self.words[index as usize],
            _ => 0,
        }
    }

    /// Does the write of a request.
    fn write(&mut self, request: &Request) {
        let Some(value) = request.write else {
            return;
        };
        let (mask, shift) = match request.size {
            Size::Byte => (0xff, 8 * (request.address % 4)),
            Size::Half => (0xffff, 16 * (request.address / 2 % 2)),
            Size::Word => (0xffff_ffff, 0),
        };
        let kept = self.word(request.address) & !(mask << shift);
        match place(request.address) {
            Spot::Ram { index, .. } if index < 128 => {
                self.words[index as usize] = kept | (value & mask) << shift;
            }
            _ => {}
        }
    }
}

/// The address of an access; 0 where there is none, and 1 at a stop.
fn address(want: Want) -> u32 {
    match want {
        Want::Ram(request) | Want::Outward(request) => request.address,
        Want::Stopped(_) => 1,
        Want::Signal | Want::Nothing => 0,
    }
}

/// One cycle in which a master before the engine takes a port, 8 where none does. An access outside SRAM is done at once
/// and reads `outside`. The addresses of the read and of the write, done or not.
fn cycle(dma: &mut Dma, memory: &mut Memory, taken: u8, outside: u32) -> (u32, u32) {
    let mut marks = Marks::new();
    let begun = dma.begin(&(), 0, memory);
    let wants = Dma::wants(&begun);
    let mut turns = [Turn::Nothing, Turn::Nothing];
    let mut used = [taken, 8];
    for k in 0..2 {
        if let Want::Ram(request) | Want::Outward(request) = wants[k] {
            let port = port(&place(request.address)).unwrap_or(6);
            if used[0] == port || used[1] == port {
                turns[k] = Turn::Wait;
            } else {
                turns[k] = Turn::Done(outside);
                memory.write(&request);
                used[1] = port;
            }
        }
    }
    dma.finish(&(), &begun, turns, &mut marks);
    (address(wants[0]), address(wants[1]))
}

/// An engine over a memory.
#[derive(Drop)]
struct Copier {
    dma: Dma,
    memory: Memory,
}

/// An engine in its reset state over a memory that begins with these words.
fn over(words: &[u32]) -> Copier {
    Copier {
        dma: Dma::new(),
        memory: Memory::with_words(words),
    }
}

/// The first address of SRAM.
const SRAM: u32 = 0x2000_0000;

/// The address of a text: below 1000 it counts from the start of SRAM, where 0 stands for no access.
fn spot(address: u32) -> u32 {
    if address != 0 && address < 0x1000 {
        SRAM + address
    } else {
        address
    }
}

impl Copier {
    /// Gives a channel its four registers in order.
    fn start(&mut self, words: &[u32; 8]) {
        let registers = [SRAM + words[1] % 0x1000, spot(words[2]), words[3], words[4]];
        for k in 0..4 {
            if words[0] < 12 {
                let offset = 0x40 * words[0] as u16 + 4 * k;
                self.dma.effect(offset, Some(registers[usize::from(k)]));
            }
        }
    }

    /// A cycle in which a master before the engine takes a port, and an access outside SRAM reads `outside`, reads and writes at
    /// these addresses.
    fn has(&mut self, taken: u32, outside: u32, read: u32, write: u32) -> bool {
        let found = cycle(&mut self.dma, &mut self.memory, byte(taken), outside);
        found == (spot(read), spot(write))
    }

    /// What is seen.
    fn shows(&self, verb: &str, words: &[u32; 8]) -> bool {
        let offset = half(words[0]);
        match verb {
            "reads" => self.dma.read(offset) == Some(words[1]),
            // an offset of READ_ADDR or WRITE_ADDR, and what is there
            "points" => self.dma.read(offset) == Some(SRAM + words[1] % 0x1000),
            "none" => self.dma.read(offset).is_none() && !self.dma.allows(offset, Some(0)),
            // an address and its word
            "word" => self.memory.word(spot(words[0])) == words[1],
            "lines" => self.dma.lines() == [words[0] == 1, words[1] == 1],
            "idle" => self.dma.quiet(&BegunTransfer::nothing()) == u64::MAX,
            // what a copy reads at an offset
            "twin" => {
                let mut twin = Dma::new();
                twin.copy_from(&self.dma);
                twin.read(offset) == Some(words[1])
            }
            _ => false,
        }
    }
}

impl Bench for Copier {
    fn does(&mut self, verb: &str, words: &[u32; 8]) -> bool {
        match verb {
            // a channel, and its READ_ADDR, WRITE_ADDR, TRANS_COUNT and CTRL_TRIG
            "start" => self.start(words),
            "write" => return self.dma.effect(half(words[0]), Some(words[1])),
            "reset" => self.dma.reset(),
            // the counts by which channels are paced: of a transmitter and of a receiver
            "counts" => self.memory.counts = u128::from(words[0])
                + u128::from(words[1]) * 0x100_0000,
            // a cycle, and the addresses of its read and of its write
            "cycle" => return self.has(8, 0, words[0], words[1]),
            // the same where a master before the engine takes a port
            "taken" => return self.has(words[0], 0, words[1], words[2]),
            // the same where an access outside SRAM reads this
            "outside" => return self.has(8, words[0], words[1], words[2]),
            // a cycle, and the address of its read
            "fetch" => return cycle(&mut self.dma, &mut self.memory, 8, 0).0 == spot(words[0]),
            // any cycles
            "pass" => {
                for _ in 0..words[0] {
                    cycle(&mut self.dma, &mut self.memory, 8, 0);
                }
            }
            _ => return self.shows(verb, words),
        }
        true
    }
}

/// The first channel is chosen in the cycle after the trigger, and read from the next one on. The second read and the first write
/// meet on bank 0. The sequence ends one cycle after its last write.
const CLASH: &str = "\
    start 0 1c 80 2 1f8039; reads 00c 11f8039; cycle 0 0; cycle 1c 0; cycle 20 80; cycle 0 80; cycle 0 84; cycle 0 0;\
    word 80 11223344; word 84 55667788; points 000 24; points 004 88; reads 00c 1f8039; reads 400 1;";

/// A core takes the bank of the second write.
const TAKEN: &str = "\
    start 0 1c 84 2 1f8039; reads 00c 11f8039; cycle 0 0; cycle 1c 0; cycle 20 84; taken 2 0 88; cycle 0 88; cycle 0 0;\
    word 84 11223344; word 88 55667788; points 000 24; points 004 8c; reads 00c 1f8039; reads 400 1;";

/// What is written, and what is read then, at the same offset or an alias of it: a count that was written is not loaded yet, but at
/// the trigger of the enabled channel. Then CHAN_ABORT, N_CHANNELS, offsets of no word, and the reset state.
const WORDS: &str = "\
    write 000 20000001; reads 014 20000001; write 014 20000002; reads 03c 20000002; write 018 20000006; reads 034 20000006;\
    write 008 9; reads 01c 0; write 010 fffffffe; reads 00c 7ffffe; write 00c 8; reads 020 8; write 020 5; reads 030 5;\
    write 01c 7; reads 024 7; write 404 ffff0fff; reads 404 fff; write 408 6; reads 40c 6; write 418 800; reads 41c 800;\
    write 42c 10003; reads 42c 10003; write 444 1; reads 024 0; write 448 ffffffff; reads 448 c;\
    none 001; none 300; none 410; none 434; none 44c; lines 1 1; twin 404 fff;\
    reset; reads 404 0; idle; cycle 0 0; idle;";

/// A byte; a halfword and a word, their bytes in reverse order; size 3, which acts as a word; and a ring of eight bytes for the
/// reads, and for the writes.
const COPIES: [&str; 6] = [
    "start 0 1 42 1 1f8031; pass a; points 000 2; points 004 43; word 40 220000;",
    "start 0 3 40 1 5f8035; pass a; points 000 5; points 004 42; word 40 3344;",
    "start 0 4 41 1 5f8039; pass a; points 000 8; points 004 45; word 40 55667788;",
    "start 0 4 40 1 1f803d; pass a; points 000 8; points 004 44; word 40 88776655;",
    "start 0 4 40 3 1f80d9; pass a; points 000 0; points 004 40; word 40 88776655;",
    "start 0 0 44 3 1f84e9; pass a; points 000 0; points 004 40; word 40 44332211;",
];

/// Channel 3 waits for channel 0, which is chained to it, and is quiet: the fourth cycle after the read is that of channel 3. A 0
/// in a trigger word raises the interrupt of a quiet channel, and starts nothing.
const CHAINED: &str = "\
    start 3 c 80 1 3f9808; write 0d0 3f9809; start 0 0 84 1 1f9809;\
    cycle 0 0; cycle 20000000 0; cycle 0 84; cycle 0 0; cycle 0 0; cycle c 0; cycle 0 80; cycle 0 0;\
    reads 400 1; write 0dc 0; reads 400 9; reads 0cc 3f9809; write 40c 1; reads 400 8;\
    write 430 9; reads 00c 11f9809; reads 0cc 13f9809;";

/// Channels 1, 2 and 3, each chained to itself; channel 2 has a high priority. At its abort channel 3 has two transfers in flight:
/// the one that is chosen now and one whose write waits.
const ABORTED: &str = "\
    start 1 4 80 2 1f8809; start 2 8 90 2 1f900b; start 3 c a0 9 1f9809;\
    fetch 0; fetch 8; fetch 8; fetch c; fetch 4; fetch c; fetch 4; fetch c;\
    write 444 8; reads 0c8 0; cycle c a0; cycle 0 a0; cycle 0 0; reads 0cc 1f9809; reads 400 6;";

/// A transmitter with two free entries, which fill, and one of which is free again in the seventh cycle.
const TRANSMITTER: &str = "\
    start 0 0 50200010 9 19; counts 2; cycle 0 0; cycle 20000000 0; cycle 4 50200010; counts 1; cycle 0 50200010;\
    counts 0; cycle 0 0; cycle 0 0; counts 1; cycle 0 0; cycle 8 0; cycle 0 50200010;";

/// A receiver with one word, read once while it stands there.
const RECEIVER: &str = "\
    counts 0 1; write 000 50200020; write 004 20000080; write 008 9; write 00c 20029;\
    outside abcd 0 0; outside abcd 50200020 0; counts 0; outside abcd 0 80; word 80 abcd;";

/// TIMER3 gives one credit in three cycles, at the end of cycles 2, 5 and 8: each read follows two cycles later.
const PACED: &str = "\
    start 0 0 80 9 1f0009; write 42c 10003; fetch 0; fetch 0; fetch 0; fetch 0; fetch 20000000;\
    fetch 0; fetch 0; fetch 20000000; fetch 0; fetch 0; fetch 20000000; fetch 0;";

#[test]
fn cycles(rt: HostRuntime) {
    let words = [0, 2, 3, 4, 0, 0, 0, 0x1122_3344, 0x5566_7788];
    for text in [
        CLASH,
        TAKEN,
        WORDS,
        CHAINED,
        ABORTED,
        TRANSMITTER,
        RECEIVER,
        PACED,
    ] {
        assert_eq!(rt; first_wrong(&mut over(&words), text), None);
    }
    for text in COPIES {
        assert_eq!(rt;
            first_wrong(&mut over(&[0x4433_2211, 0x8877_6655]), text),
            None
        );
    }
}

/// What the engine wants in the cycle of this number after the start of a copy of one word.
fn wants(read: u32, write: u32, number: u32) -> [Want; 2] {
    let mut copier = over(&[7]);
    for (offset, word) in [(0x0, read), (0x4, write), (0x8, 1), (0xc, 0x001f_8009)] {
        copier.dma.effect(offset, Some(word));
    }
    for _ in 0..number {
        cycle(&mut copier.dma, &mut copier.memory, 8, 0);
    }
    Dma::wants(&copier.dma.begin(&(), 0, &mut copier.memory))
}

/// A read outside is a stop, at the word of its address, and a write goes outward.
#[test]
fn outside(rt: HostRuntime) {
    for read in [0xd000_0000, 0xe000_e012, 0x1000_0000] {
        let stop = Want::Stopped(Why::Outside(Master::DmaRead, read & !3));
        assert!(rt; wants(read, SRAM + 0x80, 1)[0] == stop, "{read:x}");
    }
    for address in [0x4009_9000, 0x5000_0400] {
        let request = Request {
            address,
            size: Size::Word,
            write: Some(7),
        };
        assert!(rt;
            wants(SRAM, address, 2)[1] == Want::Outward(request),
            "{address:x}"
        );
    }
}
