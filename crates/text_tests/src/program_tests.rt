//! Whole sources: the words that each gives, and the first fault of those that have one.

use pio_asm::listing::programs_in;
use pio_asm::place_program;
use pio_parse::PioFault;
use std::alloc::Global;

pub(crate) fn fault_in(alloc: Global, text: &[u8]) -> Option<PioFault> {
    match programs_in(alloc, text) {
        Ok(_) => None,
        Err(fault) => Some(fault),
    }
}

fn fault_of(alloc: Global, text: &str) -> Option<PioFault> {
    fault_in(alloc, text.as_bytes())
}

// Whether a source has one program, with these words and these addresses of its wrap.
pub(crate) fn has_words(alloc: Global, text: &[u8], words: &[u16], target: u8, wrap: u8) -> bool {
    match programs_in(alloc, text) {
        Ok(programs) => match programs.as_slice() {
            [program] => {
                program.words.as_slice() == words
                    && program.target == target
                    && program.wrap == wrap
            }
            _ => false,
        },
        Err(_) => false,
    }
}

// Programs with the words that the table of instructions gives, and the addresses of their wrap.
#[test]
fn words_of_programs(rt: HostRuntime) {
    let table: [(&str, &[u16], u8, u8); 6] = [
        (
            ".program ws2812\n.side_set 1\n.define public T1 2\n.define public T2 5\n.define public T3 3\n.wrap_target\nbitloop:\nout x, 1 side 0 [T3 - 1]\njmp !x do_zero side 1 [T1 - 1]\njmp bitloop side 1 [T2 - 1]\ndo_zero:\nnop side 0 [T2 - 1]\n.wrap\n",
            &[0x6221, 0x1123, 0x1400, 0xa442],
            0,
            3,
        ),
        (
            ".program uart_rx\nstart:\nwait 0 pin 0\nset x, 7 [10]\nbitloop:\nin pins, 1\njmp x-- bitloop [6]\njmp pin good_stop\nirq 4 rel\nwait 1 pin 0\njmp start\ngood_stop:\npush\n",
            &[
                0x2020, 0xea27, 0x4001, 0x0642, 0x00c8, 0xc014, 0x20a0, 0x0000, 0x8020,
            ],
            0,
            8,
        ),
        (
            ".program i2c\n.side_set 1 opt pindirs\nno_ack:\njmp y-- entry\nirq wait 0 rel\nbyte:\nset x, 7\nbit:\nout pindirs, 1 [7]\nnop side 1 [2]\nwait 1 pin, 1 [4]\nin pins, 1 [7]\njmp x-- bit side 0 [7]\nout pindirs, 1 [7]\nnop side 1 [7]\nwait 1 pin, 1 [7]\njmp pin no_ack side 0 [2]\npublic entry:\n.wrap_target\nout x, 6\nout y, 1\njmp !x byte\nout null, 32\nrun:\nout exec, 16\njmp x-- run\n.wrap\n",
            &[
                0x008c, 0xc030, 0xe027, 0x6781, 0xba42, 0x24a1, 0x4701, 0x1743, 0x6781, 0xbf42,
                0x27a1, 0x12c0, 0x6026, 0x6041, 0x0022, 0x6060, 0x60f0, 0x0050,
            ],
            12,
            17,
        ),
        (
            ".program manchester_rx\nzero:\nwait 0 pin 0\nin y, 1 [8]\njmp pin zero\n.wrap_target\none:\nwait 1 pin 0\nin x, 1 [8]\njmp pin zero\n.wrap\n",
            &[0x2020, 0x4841, 0x00c0, 0x20a0, 0x4821, 0x00c0],
            3,
            5,
        ),
        (
            ".define two 2\n.program values\n.word two * 3 + 1\n.word ::(0x7fff0000 + 1) + 0xffff\nl: .word l\nmov isr ~osr\nmov exec, ::null\nirq wait 7\nwait irq 2 rel\nout pc 32\n",
            &[7, 1, 2, 0xa0cf, 0xa093, 0xc027, 0x20d2, 0x60a0],
            0,
            7,
        ),
        (
            ".program sides\n.side_set 2 opt pindirs\nnop [3] side 1\nnop\n.word 65535\n",
            &[0xb742, 0xa042, 0xffff],
            0,
            2,
        ),
    ];
    for (text, words, target, wrap) in table {
        assert!(rt;
            has_words(rt.alloc(), text.as_bytes(), words, target, wrap),
            "{text}"
        );
    }
}

// Sources with the first fault of each.
#[test]
fn faults_of_programs(rt: HostRuntime) {
    let table = [
        (".program p\n", PioFault::Wrap(1)),
        (
            ".program p\n.side_set 1\nnop side 0 [16]\n",
            PioFault::Delay(3),
        ),
        (".program p\njmp there\n", PioFault::Unknown(2)),
        (".program p\nset pins, 32\n", PioFault::Range(2)),
        (".program p\nnop\n.program p\nnop\n", PioFault::Twice(3)),
        (".program p\na: nop\na: nop\n", PioFault::Twice(3)),
        (
            ".define a 1\n.program p\n.define a 2\nnop\n",
            PioFault::Twice(3),
        ),
        (
            ".program p\n.define a b\n.define b 1\nnop\n",
            PioFault::Unknown(2),
        ),
        (
            ".program p\njmp b\n.define b 0xffffffff + 1\n",
            PioFault::Range(3),
        ),
        (".program p\nnop\n.side_set 1\n", PioFault::Side(3)),
        (".program p\n.side_set 5 opt\nnop\n", PioFault::Side(2)),
        (".program p\n.side_set 1\nnop\n", PioFault::Side(3)),
        (".program p\nnop side 0\n", PioFault::Side(2)),
        (".program p\n.origin 32\nnop\n", PioFault::Origin(2)),
        (".program p\n.origin 31\nnop\nnop\n", PioFault::Origin(2)),
        (".program p\nnop\n.wrap_target\n", PioFault::Wrap(3)),
        (".program p\n.wrap\nnop\n", PioFault::Wrap(2)),
        (".program p\nin x, 0\n", PioFault::Range(2)),
        (".program p\n.word -1\n", PioFault::Range(2)),
        (".program p\nnop [0 - 1]\n", PioFault::Delay(2)),
        (
            ".define a 1\n.define a b\n.program p\n",
            PioFault::Unknown(2),
        ),
    ];
    for (text, fault) in table {
        assert!(rt; fault_of(rt.alloc(), text) == Some(fault), "{text}");
    }
}

fn address_of(alloc: Global, text: &str, used: u32) -> Option<Result<u8, PioFault>> {
    match programs_in(alloc, text.as_bytes()) {
        Ok(programs) => match programs.as_slice() {
            [program] => Some(place_program(used, program)),
            _ => None,
        },
        Err(_) => None,
    }
}

#[test]
fn addresses_of_programs(rt: HostRuntime) {
    let table = [
        (".program p\nnop\n", 0xffffffff, Err(PioFault::NoRoom(1))),
        (".program p\nnop\nnop\n", 0b1011, Ok(4)),
        (".program p\n.origin 3\nnop\n", 0b0111, Ok(3)),
        (
            ".program p\n.origin 3\nnop\nnop\n",
            0b10000,
            Err(PioFault::NoRoom(2)),
        ),
    ];
    for (text, used, want) in table {
        assert!(rt; address_of(rt.alloc(), text, used) == Some(want), "{text}");
    }
}
