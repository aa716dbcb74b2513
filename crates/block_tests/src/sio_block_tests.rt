//! Words as the datasheet gives them (2.3.1.7), the handshake that starts core 1, and what two cores do in one cycle.

use sio_block::{Launch, Sio};
use test_deeds::{Bench, first_wrong, half};

/// The block as it was when the cycle began, as it is now, and what the launcher gave last.
#[derive(Drop)]
struct Cores {
    start: Sio,
    now: Sio,
    given: Option<Launch>,
}

/// The block in its reset state.
fn at_reset() -> Cores {
    Cores {
        start: Sio::new(),
        now: Sio::new(),
        given: None,
    }
}

impl Cores {
    /// What a core reads where the levels at the pins are 12345678.
    fn word(&self, core: u32, offset: u32) -> Option<u32> {
        if core < 2 {
            self.now.read(core as u8, half(offset), 0x1234_5678)
        } else {
            None
        }
    }

    /// An access of a core.
    fn access(&mut self, core: u32, offset: u32, write: Option<u32>) {
        if core < 2 {
            let found = self.start.finds(core as u8, half(offset), write);
            self.now
                .effect_where(found, core as u8, half(offset), write);
        }
    }

    /// The end of a cycle.
    fn end_cycle(&mut self) {
        self.now.end_cycle();
        self.start.copy_from(&self.now);
    }

    /// A core writes FIFO_WR.
    fn push(&mut self, core: u32, word: u32) {
        self.access(core, 0x054, Some(word));
        self.end_cycle();
    }

    /// A core reads this from FIFO_RD.
    fn pulls(&mut self, core: u32, word: u32) -> bool {
        let right = self.word(core, 0x058) == Some(word);
        self.access(core, 0x058, None);
        self.end_cycle();
        right
    }

    /// Core 0 sends a word, which the launcher takes in the cycle after, and the answer comes in the next one.
    fn sends(&mut self, word: u32, answer: u32) -> bool {
        let early = self.start.offers();
        self.push(0, word);
        if early || !self.start.offers() {
            return false;
        }
        self.given = self.now.launcher();
        self.end_cycle();
        let lines = self.now.line(0) && !self.now.line(1);
        lines && self.pulls(0, answer)
    }

    /// Core 1 writes two operands in two cycles, and eight cycles later it has a quotient and a remainder, which its read of the
    /// quotient takes.
    fn divides(&mut self, words: &[u32; 8]) -> bool {
        self.access(1, words[0], Some(words[1]));
        self.end_cycle();
        self.access(1, words[2], Some(words[3]));
        for _ in 0..8 {
            self.end_cycle();
        }
        let right = self.word(0, 0x078) == Some(1)
            && self.word(1, 0x078) == Some(3)
            && self.word(1, 0x074) == Some(words[5])
            && self.word(1, 0x070) == Some(words[4]);
        self.access(1, 0x070, None);
        right && self.word(1, 0x078) == Some(1)
    }
}

impl Bench for Cores {
    fn does(&mut self, verb: &str, words: &[u32; 8]) -> bool {
        match verb {
            // a core, an offset and a word
            "write" => self.access(words[0], words[1], Some(words[2])),
            "take" => self.access(words[0], words[1], None),
            "reads" => return self.word(words[0], words[1]) == Some(words[2]),
            "none" => return self.word(words[0], words[1]).is_none(),
            "push" => self.push(words[0], words[1]),
            "pulls" => return self.pulls(words[0], words[1]),
            "cycles" => {
                for _ in 0..words[0] {
                    self.end_cycle();
                }
            }
            // a word that core 0 sends, and the answer
            "sends" => return self.sends(words[0], words[1]) && self.given.is_none(),
            "last" => return self.sends(words[0], words[0]) && self.given.is_some(),
            // two offsets and operands, the quotient and the remainder
            "divides" => return self.divides(words),
            "lines" => return self.now.line(0) == (words[0] == 1)
                && self.now.line(1) == (words[1] == 1),
            "outs" => return self.now.outs() == [words[0], words[1]],
            "copy" => {
                let mut copy = Sio::new();
                copy.copy_from(&self.now);
                self.now = copy;
            }
            _ => return false,
        }
        true
    }
}

/// CPUID, GPIO_IN, OUT and its aliases, OE and its aliases; offsets of no word; and a copy.
const WORDS: &str = "\
    write 0 000 ffffffff; reads 0 000 0; reads 1 000 1; write 0 004 ffffffff; reads 0 004 12345678;\
    write 0 010 ffffffff; reads 0 010 3fffffff;\
    write 0 018 0ffffff0; reads 0 018 0; reads 1 010 3000000f;\
    write 0 01c f0000003; reads 0 01c 0; reads 1 010 c;\
    write 0 014 80000010; reads 0 014 0; reads 1 010 1c;\
    write 0 024 40000003; reads 0 024 0; reads 1 020 3;\
    write 0 02c 6; reads 0 02c 0; reads 1 020 5;\
    write 0 028 4; reads 0 028 0; reads 1 020 1;\
    write 0 020 300; reads 0 020 300; outs 1c 300;\
    none 0 008; none 0 00c; none 0 011; none 0 030; none 0 04c; none 0 07c; none 0 080; none 0 0fc; none 0 102; none 0 180;\
    copy; outs 1c 300;";

/// DIV_UDIVIDEND and DIV_UDIVISOR, DIV_SDIVIDEND and DIV_SDIVISOR, and one of each.
const DIVISIONS: &str = "\
    divides 060 #100 064 7 #14 2;\
    divides 060 ffffffff 064 10 fffffff f;\
    divides 060 9 064 0 ffffffff 9;\
    divides 068 #100 06c fffffff9 fffffff2 2;\
    divides 068 ffffff9c 06c 7 fffffff2 fffffffe;\
    divides 068 ffffff9c 06c fffffff9 e fffffffe;\
    divides 068 9 06c 0 ffffffff 9;\
    divides 068 fffffff7 06c 0 1 fffffff7;\
    divides 068 80000000 06c ffffffff 80000000 0;\
    divides 060 ffffff9c 06c 7 fffffff2 fffffffe;\
    divides 068 ffffff9c 064 7 24924916 2;\
    divides 06c 7 060 ffffff9c 24924916 2;";

/// A division that has not ended has no results, and a write of a result ends it.
const ENDED: &str = "\
    write 0 060 1e; write 0 064 7; cycles 1; reads 0 078 2; reads 0 070 0; cycles 6; reads 0 078 2; reads 0 070 0;\
    write 0 074 5; cycles 1; reads 0 078 3; reads 0 070 0; reads 0 074 5;";

/// A third word of 7 is wrong, and the launcher begins again.
const LAUNCH: &str = "sends 0 0; sends 0 0; sends 7 fffffff8;\
    sends 0 0; sends 0 0; sends 1 1; sends 1 1; sends 20041000 20041000; last 20000021;";

/// A word that comes in the cycle of a read is not seen by it, nor is the room that a read makes seen by a write.
const MAILBOXES: &str = "\
    reads 0 050 2; write 0 054 a; take 1 058; cycles 1; reads 1 050 b; write 1 050 8; reads 1 050 3;\
    push 0 b; push 0 c; push 0 d; push 0 e; push 0 f; push 0 10; push 0 11; reads 0 050 0;\
    write 0 054 12; take 1 058; cycles 1; reads 0 050 6;\
    pulls 1 b; pulls 1 c; pulls 1 d; pulls 1 e; pulls 1 f; pulls 1 10; pulls 1 11; reads 1 058 0; lines 1 0;";

/// Core 1 reads SPINLOCK5 as 0 in the cycle in which core 0 frees it, so it has not taken it. Core 0 sets bit 0 of OUT, which
/// core 1 inverts in the same cycle.
const LOCKS: &str = "\
    reads 0 114 20; take 0 114; reads 1 114 0; take 1 114; cycles 1; reads 1 05c 20;\
    write 0 114 0; take 1 114; cycles 1; reads 0 05c 0;\
    write 0 014 1; write 1 01c 1; cycles 1; reads 0 010 0;";

#[test]
fn words_and_cycles(rt: HostRuntime) {
    for text in [WORDS, DIVISIONS, ENDED, MAILBOXES, LOCKS] {
        assert_eq!(rt; first_wrong(&mut at_reset(), text), None);
    }
}

/// The vector table, stack pointer and entry that core 0 has sent.
#[test]
fn launched(rt: HostRuntime) {
    let mut cores = at_reset();
    assert_eq!(rt; first_wrong(&mut cores, LAUNCH), None);
    let launch = Launch {
        vtor: 1,
        sp: 0x2004_1000,
        entry: 0x2000_0021,
    };
    assert!(rt; cores.given == Some(launch));
}
