//! Programs of the whole machine: pads, scripts, UARTs, DMA, PIO, devices, probes and parts, with their whole texts.

use crate::case::{Case, HUNDRED, Held, NOTHING, first_wrong, gives, gives_text};
use crate::rows::{BLINKS, COPIES_THREE, COPIES_TWO, FIVE, IDLE, WS2812};
use crate::sample_files::{Block, ONLY, repeated};
use std::alloc::{AllocError, Global};
use std::sync::Wait;
use std::test::Fail;
use std::thread::Threads;

const SCRIPTS: [Case; 3] = [
    Case {
        words: &["run", "a.uf2", "--script", "s", "--cycles", "20"],
        image: Held::Code(&IDLE),
        files: &[("s", b"5 3 1\n9 3 z\n")],
        text: b"5 pin 3 1\n9 pin 3 0\nstop limit 20\n\
            core0 * 20042000 ffffffff 20000000 01000000\ncore1 asleep\n",
        ..NOTHING
    },
    // A pull-up keeps the pin high once it is free.
    Case {
        words: &["run", "a.uf2", "--script", "s", "--cycles", "20"],
        image: Held::Code(&[0x4801, 0x215a, 0x6001, 0xe7fe, 0xc010, 0x4001]),
        files: &[("s", b"5 3 1\n9 3 z\n")],
        text: b"5 pin 3 1\nstop limit 20\n\
            core0 4001c010 0000005a * 20042000 ffffffff 20000006 01000000\ncore1 asleep\n",
        ..NOTHING
    },
    // A byte that is sent to a pin, in frames of ten bits.
    Case {
        words: &["run", "a.uf2", "--cycles", "200", "--script", "s"],
        image: Held::Code(&IDLE),
        files: &[("s", b"version 2\n0 3 1\nsend 10 3 65 41\n")],
        text: b"0 pin 3 1\n10 pin 3 0\n27 pin 3 1\n43 pin 3 0\n124 pin 3 1\n140 pin 3 0\n157 pin 3 1\n\
            stop limit 200\ncore0 * 20042000 ffffffff 20000000 01000000\ncore1 asleep\n",
        ..NOTHING
    },
];

#[test]
fn scripts_drive_pins(rt: HostRuntime) -> Result<(), Fail> {
    assert_eq!(rt; first_wrong(&rt, rt.alloc(), &SCRIPTS)?, None);
    Ok(())
}

/// Scripts, and what is said of them.
const FAULTS: [(&[u8], &[u8]); 6] = [
    (b"5 3 1\n4 3 0\n", b"error script 4 Order 2\n"),
    (b"1 30 0\n", b"error script 3 Pin 1\n"),
    (b"version 3\n", b"error script 7 Version 1\n"),
    (b"version 2\nsend 10 3 65 4\n", b"error script 9 Bytes 2\n"),
    (
        b"version 2\nsend 10 3 63 41\n",
        b"error script 8 Divisor 2\n",
    ),
    (b"send 10 3 65 41\n", b"error script 1 Form 1\n"),
];

/// A run with such a script.
const FAULTY: Case = Case {
    words: &["run", "a.uf2", "--cycles", "20", "--script", "s"],
    image: Held::Code(&IDLE),
    status: 6,
    ..NOTHING
};

/// A run with a program.
const PLACES: Case = Case {
    words: &["run", "a.uf2", "--cycles", "10"],
    image: Held::Code(&FIVE),
    files: &[("b", b".program b\nnop\n")],
    ..NOTHING
};

/// The first script of which something else is said.
fn wrong_fault<R: Threads + Wait + Sync>(
    rt: &R,
    alloc: Global,
) -> Result<Option<usize>, AllocError> {
    for (index, (script, text)) in FAULTS.iter().enumerate() {
        let files = [("s", *script)];
        if !gives_text(rt, alloc, &FAULTY, &[], &files, text)? {
            return Ok(Some(index));
        }
    }
    Ok(None)
}

/// Whether a run of the longest program and another one, by this list of programs, gives this status and this text.
fn lists<R: Threads + Wait + Sync>(
    rt: &R,
    alloc: Global,
    list: &str,
    status: u8,
    text: &[u8],
) -> Result<bool, AllocError> {
    let long = repeated(alloc, b".program a\n", b"nop\n", 32)?;
    let case = Case { status, ..PLACES };
    gives_text(rt, alloc, &case, &["--pio", list], &[("a", &long)], text)
}

/// Lists of programs that are refused.
const LISTS: [&str; 6] = ["", "0:0", "2:0:a", "0:4:a", "0:0:a,", "0:0:a,0:0:b"];

/// The script of a run is not there.
const NO_SCRIPT: Case = Case {
    status: 3,
    text: b"error file s\n",
    ..FAULTY
};

#[test]
fn faults_of_scripts_and_programs(rt: HostRuntime) -> Result<(), Fail> {
    assert_eq!(rt; wrong_fault(&rt, rt.alloc())?, None);
    assert!(rt; gives(&rt, rt.alloc(), &NO_SCRIPT)?);
    let full = b"error pio 12 NoRoom 1\n";
    assert!(rt; lists(&rt, rt.alloc(), "0:0:a,0:1:b", 5, full)?);
    for list in LISTS {
        assert!(rt;
            lists(&rt, rt.alloc(), list, 2, b"error words\n")?,
            "{list}"
        );
    }
    Ok(())
}

const PROGRAMS: [Case; 3] = [
    BLINKS,
    // Core 0 writes the words of the program.
    Case {
        words: &["run", "a.uf2", "--cycles", "36"],
        image: Held::Code(&[
            0x4805, 0x2106, 0x6001, 0x4805, 0xa406, 0xcc0e, 0xc00e, 0x2101, 0x4803, 0x6001, 0xe7fe,
            0, 0x4004, 0x4001, 0x0048, 0x5020, 0, 0x5020, 0xe081, 0, 0xe101, 0, 0xe200, 0,
        ]),
        text: b"26 pin 0 1\n28 pin 0 0\n33 pin 0 1\n35 pin 0 0\nstop limit 36\n\
            core0 50200000 00000001 0000e101 0000e200 20000030 * 20042000 ffffffff 20000014 01000000\n\
            core1 asleep\n",
        ..NOTHING
    },
    // What a machine sets on pins 30 and 31 is not shown: the chip has pins 0 to 29. So it ends no window.
    Case {
        words: &[
            "run",
            "a.uf2",
            "--cycles",
            "60",
            "--pio",
            "0:0:p.pio",
            "--stats",
        ],
        image: Held::Code(&[
            0x4804, 0x2106, 0x6001, 0x4804, 0x4a04, 0x6002, 0x4804, 0x2101, 0x6001, 0xe7fe, 0x4004,
            0x4001, 0x00dc, 0x5020, 0x7800, 0x4000, 0x0000, 0x5020,
        ]),
        files: &[(
            "p.pio",
            b".program p\n.side_set 2\nnop side 0\nnop side 1\n",
        )],
        text: b"stop limit 60\n\
            core0 50200000 00000001 40007800 * 20042000 ffffffff 20000012 01000000\ncore1 asleep\n\
            windows 7 cycles 54\n",
        ..NOTHING
    },
];

#[test]
fn programs_of_pio(rt: HostRuntime) -> Result<(), Fail> {
    assert_eq!(rt; first_wrong(&rt, rt.alloc(), &PROGRAMS)?, None);
    Ok(())
}

/// Appends the line of pin 0.
fn pin(cycle: u64, level: &[u8], text: &mut Vec<u8>) -> Result<(), AllocError> {
    text.extend_from_slice(itoa::Buffer::new().format(cycle).as_bytes())?;
    text.extend_from_slice(b" pin 0 ")?;
    text.extend_from_slice(level)
}

/// The lines of pin 0, of the cores and of the probes.
fn led_text(alloc: Global) -> Result<Vec<u8>, AllocError> {
    let mut text = Vec::new(alloc);
    for bit in 0..24u64 {
        pin(100 + 160 * bit, b"1\n", &mut text)?;
        let one = bit < 9 || bit == 23;
        pin(if one { 212 } else { 132 } + 160 * bit, b"0\n", &mut text)?;
    }
    text.extend_from_slice(
        b"stop limit 4200\n\
        core0 50000010 20000044 50200000 00000001 00000019 00000001 00000006 * \
        20042000 ffffffff 2000001c 21000000\ncore1 asleep\n\
        probe 0 pin 1 edges 0 rises 0\nprobe 1 pin 0 colours 1 last ff8001\n",
    )?;
    Ok(text)
}

/// The code that sets up the DMA engine and the machine.
const LED: [u16; 36] = [
    0xa507, 0xcd1f, 0x2606, 0x6006, 0x600a, 0x608b, 0x610c, 0xcd1e, 0x2050, 0x0600, 0xc01e, 0x2501,
    0x3a10, 0x6015, 0xe7fe, 0, 0x4004, 0x4001, 0x00c8, 0x5020, 0, 0x0010, 0x0020, 0x3002, 0xe081,
    0, 0x0044, 0x2000, 0x0010, 0x5020, 1, 0, 0x0019, 0, 0x0100, 0xff80,
];

/// A run that feeds it.
const LIGHTS: Case = Case {
    words: &[
        "run",
        "a.uf2",
        "--pio",
        "0:0:ws2812.pio",
        "--cycles",
        "4200",
        "--probe",
        "1=0,0=1",
    ],
    image: Held::Code(&LED),
    files: &[("ws2812.pio", WS2812)],
    ..NOTHING
};

/// A colour of 24 bits, which the DMA engine feeds to a PIO machine.
#[test]
fn a_led_gets_its_colour(rt: HostRuntime) -> Result<(), Fail> {
    let text = led_text(rt.alloc())?;
    for workers in ["0", "8"] {
        let words = ["--workers", workers];
        assert!(rt; gives_text(&rt, rt.alloc(), &LIGHTS, &words, &[], &text)?);
    }
    Ok(())
}

const PRINTS: Case = Case {
    words: &["run", "a.uf2", "--cycles", "60000"],
    image: Held::Code(&[
        0x4809, 0x2143, 0x6241, 0x2134, 0x6281, 0x2170, 0x62c1, 0x4907, 0x6301, 0x2148, 0x6001,
        0x2165, 0x6001, 0x216c, 0x6001, 0x6001, 0x216f, 0x6001, 0xe7fe, 0, 0x4000, 0x4003, 0x0301,
        0,
    ]),
    text: b"10883 uart0 48\n21733 uart0 65\n32583 uart0 6c\n43433 uart0 6c\n54283 uart0 6f\n\
        stop limit 60000\ncore0 40034000 0000006f * 20042000 ffffffff 20000024 01000000\ncore1 asleep\n",
    ..NOTHING
};

#[test]
fn a_uart_prints(rt: HostRuntime) -> Result<(), Fail> {
    assert!(rt; gives(&rt, rt.alloc(), &PRINTS)?);
    Ok(())
}

const COPIES: [Case; 4] = [
    Case {
        image: Held::Code(&[
            0xa504, 0x2050, 0x0600, 0xcd1e, 0xc01e, 0xbf00, 0xbf00, 0xbf00, 0x6856, 0xbe00, 0x0024,
            0x2000, 0x0100, 0x2000, 2, 0, 0x8039, 0x001f, 0x3344, 0x1122, 0x7788, 0x5566,
        ]),
        text: b"stop bkpt core0 18\n\
            core0 50000010 20000024 20000100 00000002 001f8039 20000024 55667788 * \
            20042000 ffffffff 20000012 01000000\ncore1 asleep\n",
        ..HUNDRED
    },
    // Core 0 and the second write meet on bank 1: the write goes first, since the bank's last master was the DMA read.
    Case {
        image: Held::Code(&[
            0xa504, 0x2050, 0x0600, 0xcd1e, 0xc01e, 0xbf00, 0xbf00, 0x6856, 0xbf00, 0xbe00, 0x0024,
            0x2000, 0x0100, 0x2000, 2, 0, 0x8039, 0x001f, 0x3344, 0x1122, 0x7788, 0x5566,
        ]),
        text: b"stop bkpt core0 19\n\
            core0 50000010 20000024 20000100 00000002 001f8039 20000024 55667788 * \
            20042000 ffffffff 20000012 01000000\ncore1 asleep\n",
        ..HUNDRED
    },
    // Windows begin at 0, 9 to 13, 15 and 16.
    Case {
        words: &["run", "a.uf2", "--cycles", "100", "--stats"],
        image: COPIES_TWO,
        text: b"stop limit 100\n\
            core0 50000010 2000001c 20000100 00000002 001f8039 2000001c * \
            20042000 ffffffff 2000000a 01000000\ncore1 asleep\nwindows 8 cycles 95\n",
        ..NOTHING
    },
    // Windows begin at 17 and 18 too, where a read and a write meet on the bank.
    Case {
        words: &["run", "a.uf2", "--cycles", "100", "--stats"],
        image: COPIES_THREE,
        text: b"stop limit 100\n\
            core0 50000010 21000000 21000040 00000003 001f8039 2000001c * \
            20042000 ffffffff 2000000a 01000000\ncore1 asleep\nwindows 10 cycles 94\n",
        ..NOTHING
    },
];

#[test]
fn dma_copies_words(rt: HostRuntime) -> Result<(), Fail> {
    assert_eq!(rt; first_wrong(&rt, rt.alloc(), &COPIES)?, None);
    Ok(())
}

const DEVICES: [Case; 2] = [
    // Slice 0 of PWM on pin 0.
    Case {
        words: &["run", "a.uf2", "--cycles", "38"],
        workers: &["0", "8"],
        image: Held::Code(&[
            0x4804, 0x2104, 0x6001, 0x4804, 0x2103, 0x6101, 0x2101, 0x60c1, 0x6001, 0xe7fe, 0x4004,
            0x4001, 0x0000, 0x4005,
        ]),
        text: b"22 pin 0 1\n28 pin 0 0\n31 pin 0 1\n32 pin 0 0\n35 pin 0 1\n36 pin 0 0\nstop limit 38\n\
            core0 40050000 00000001 * 20042000 ffffffff 20000012 01000000\ncore1 asleep\n",
        ..NOTHING
    },
    // CS of PLL_SYS, which is locked at once.
    Case {
        words: &["run", "a.uf2", "--cycles", "10"],
        image: Held::Code(&[0x4801, 0x6801, 0xbe00, 0x0000, 0x8000, 0x4002]),
        text: b"stop bkpt core0 6\n\
            core0 40028000 80000001 * 20042000 ffffffff 20000004 01000000\ncore1 asleep\n",
        ..NOTHING
    },
];

#[test]
fn devices_of_a_run(rt: HostRuntime) -> Result<(), Fail> {
    assert_eq!(rt; first_wrong(&rt, rt.alloc(), &DEVICES)?, None);
    Ok(())
}

const PARTS: [Case; 3] = [
    // The level of pin 3 comes to pin 4 a cycle later.
    Case {
        words: &[
            "run", "a.uf2", "--cycles", "20", "--part", "2=3+4", "--script", "s",
        ],
        workers: &["0", "8"],
        image: Held::Code(&IDLE),
        files: &[("s", b"5 3 1\n9 3 z\n")],
        text: b"5 pin 3 1\n6 pin 4 1\n9 pin 3 0\n10 pin 4 0\nstop limit 20\n\
            core0 * 20042000 ffffffff 20000000 01000000\ncore1 asleep\n",
        ..NOTHING
    },
    // A button at pin 2, which is pulled up.
    Case {
        words: &["run", "a.uf2", "--cycles", "120000", "--part", "0=2"],
        workers: &["0", "8"],
        image: Held::Code(&[0x4801, 0x215a, 0x6001, 0xe7fe, 0xc00c, 0x4001]),
        text: b"8 pin 2 1\n50000 pin 2 0\n100000 pin 2 1\nstop limit 120000\n\
            core0 4001c00c 0000005a * 20042000 ffffffff 20000006 01000000\ncore1 asleep\n",
        ..NOTHING
    },
    // A button has one pin.
    Case {
        words: &["run", "a.uf2", "--cycles", "120000", "--part", "0=2+3"],
        image: Held::Code(&IDLE),
        status: 2,
        text: b"error words\n",
        ..NOTHING
    },
];

#[test]
fn parts_drive_pins(rt: HostRuntime) -> Result<(), Fail> {
    assert_eq!(rt; first_wrong(&rt, rt.alloc(), &PARTS)?, None);
    Ok(())
}

/// memcpy of the table copies a word.
const COPIES_WORD: Case = Case {
    words: &["run", "a.uf2", "--cycles", "100", "--table"],
    workers: &["0", "2"],
    image: Held::Code(&[
        0x4c03, 0x6864, 0x4803, 0xa104, 0x2204, 0x47a0, 0xbe00, 0, 0, 0x2004, 0x0100, 0x2000,
        0x3344, 0x1122,
    ]),
    text: b"stop bkpt core0 47\n\
        core0 20000100 20000018 ffffffff 00000044 20040015 * 20042000 2000000d 2000000c 81000000\n\
        core1 asleep\n",
    ..NOTHING
};

const TABLES: [Case; 4] = [
    COPIES_WORD,
    Case {
        words: &["debug", "a.uf2", "--cycles", "100", "--table"],
        workers: &[],
        input: b"end\nmem 20000100\nmem 20040000 2\n",
        text: b"stop bkpt core0 47\nmem 20000100 11223344\nmem 20040000 20040009 20040015\n",
        ..COPIES_WORD
    },
    // Where the table is to stand there is a block.
    Case {
        image: Held::Blocks(&[Block {
            target: 0x2004_0010,
            code: &[0xbe00],
            ..ONLY
        }]),
        status: 12,
        text: b"error start 1 Taken 20040010\n",
        ..COPIES_WORD
    },
    // Without the table the block is run.
    Case {
        words: &["run", "a.uf2", "--cycles", "100"],
        image: Held::Blocks(&[Block {
            target: 0x2004_0010,
            code: &[0xbe00],
            ..ONLY
        }]),
        text: b"stop bkpt core0 0\ncore0 * 20042000 ffffffff 20040010 01000000\ncore1 asleep\n",
        ..COPIES_WORD
    },
];

#[test]
fn a_table_of_routines(rt: HostRuntime) -> Result<(), Fail> {
    assert_eq!(rt; first_wrong(&rt, rt.alloc(), &TABLES)?, None);
    Ok(())
}
