//! The calls that several tests go by.

use crate::case::{Case, HUNDRED, Held, NOTHING};

/// MOVS, ADDS and BKPT.
pub const FIVE: [u16; 3] = [0x2005, 0x3007, 0xbe00];

/// A branch to itself.
pub const IDLE: [u16; 1] = [0xe7fe];

/// A run of three instructions.
pub const THREE: Case = Case {
    words: &["run", "a.uf2", "--cycles", "10"],
    image: Held::Code(&FIVE),
    text: b"stop bkpt core0 2\ncore0 0000000c * 20042000 ffffffff 20000004 01000000\ncore1 asleep\n",
    ..NOTHING
};

/// Core 0 starts core 1, and then writes the fourth of its instructions, which core 1 fetches three cycles later.
pub const WRITES_CODE: Case = Case {
    words: &["run", "a.uf2", "--cycles", "100", "--stats"],
    image: Held::Code(&[
        0x27d0, 0x063f, 0x6578, 0x6578, 0x2001, 0x6578, 0x6578, 0x4803, 0x6578, 0x4806, 0x6578,
        0x7147, 0xe7fe, 0x0000, 0x1000, 0x2004, 0x2101, 0x2102, 0x2103, 0x2104, 0xbe00, 0x0000,
        0x0021, 0x2000,
    ]),
    text: b"stop bkpt core1 18\n\
        core0 20000021 00000000 00000000 00000000 00000000 00000000 00000000 d0000000 * \
        20042000 ffffffff 20000018 01000000\n\
        core1 * 20041000 ffffffff 20000028 41000000\n\
        windows 15 cycles 8\n",
    ..HUNDRED
};

/// Machine 0 of PIO0 sets pin 0 high and low, and a probe counts its edges.
pub const BLINKS: Case = Case {
    words: &[
        "run",
        "a.uf2",
        "--cycles",
        "24",
        "--probe",
        "0=0",
        "--pio",
        "0:0:b.pio",
    ],
    image: Held::Code(&[
        0x4803, 0x2106, 0x6001, 0x4803, 0x2301, 0x6003, 0xe7fe, 0, 0x4004, 0x4001, 0, 0x5020,
    ]),
    files: &[(
        "b.pio",
        b".program blink\nset pindirs, 1\n.wrap_target\nset pins, 1 [1]\nset pins, 0 [2]\n.wrap\n",
    )],
    text: b"15 pin 0 1\n17 pin 0 0\n20 pin 0 1\n22 pin 0 0\nstop limit 24\n\
        core0 50200000 00000006 00000000 00000001 * 20042000 ffffffff 2000000c 01000000\ncore1 asleep\n\
        probe 0 pin 0 edges 4 rises 2\n",
    ..NOTHING
};

/// A session over LDR of the address 20000100, a store to it, and a branch to itself.
pub const STORES_ONCE: Case = Case {
    words: &["debug", "a.uf2", "--cycles", "10000"],
    image: Held::Code(&[0x4801, 0x6000, 0xe7fe, 0x0000, 0x0100, 0x2000]),
    input: b"goto 5000\nback 1\nregs\nlastwrite 20000100\ngoto 4096\nback\nback 5000\n\
        lastwrite 20000100\ngoto 20000\njump\n",
    text: b"at 5000\nat 4999\n\
        core0 20000100 * 20042000 ffffffff 20000004 01000000\ncore1 asleep\n\
        lastwrite 20000100 3\nat 4096\nat 4095\nat start\n\
        lastwrite 20000100 none\nstop limit 10000\nbad command\n",
    ..NOTHING
};

/// The program for a strip of lights.
pub const WS2812: &[u8] =
    b".program ws2812\n.side_set 1\n.define public T1 2\n.define public T2 5\n.define public T3 3\n\
    .wrap_target\nbitloop:\nout x, 1 side 0 [T3 - 1]\njmp !x do_zero side 1 [T1 - 1]\n\
    jmp bitloop side 1 [T2 - 1]\ndo_zero:\nnop side 0 [T2 - 1]\n.wrap\n";

/// A copy of two words by the DMA engine, whose second read and first write meet on a bank.
pub const COPIES_TWO: Held = Held::Code(&[
    0xa502, 0x2050, 0x0600, 0xcd1e, 0xc01e, 0xe7fe, 0x001c, 0x2000, 0x0100, 0x2000, 0x0002, 0x0000,
    0x8039, 0x001f, 0x3344, 0x1122, 0x7788, 0x5566,
]);

/// A copy of three words by the DMA engine, in which all reads and writes are on one bank.
pub const COPIES_THREE: Held = Held::Code(&[
    0xa502, 0x2050, 0x0600, 0xcd1e, 0xc01e, 0xe7fe, 0x0000, 0x2100, 0x0040, 0x2100, 0x0003, 0x0000,
    0x8039, 0x001f, 0x3344, 0x1122, 0x7788, 0x5566,
]);
