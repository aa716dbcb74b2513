//! Runs of one core, with their whole texts, and what is refused.

use crate::case::{Case, HUNDRED, Held, NOTHING, first_wrong, gives, gives_text};
use crate::rows::THREE;
use crate::sample_files::{Block, ONLY, RP2040, image, repeated};
use std::alloc::{AllocError, Global};
use std::sync::Wait;
use std::test::Fail;
use std::thread::Threads;

/// Runs that end in each way: at BKPT, at the limit, and at an access outside.
const ENDS: [Case; 4] = [
    THREE,
    Case {
        words: &["run", "a.uf2", "--cycles", "1"],
        text: b"stop limit 1\ncore0 00000005 * 20042000 ffffffff 20000002 01000000\ncore1 asleep\n",
        ..THREE
    },
    // SVC where VTOR is 0.
    Case {
        words: &["run", "a.uf2", "--cycles", "11"],
        image: Held::Code(&[0xdf00]),
        text: b"stop outside core0 0000002c 10\ncore0 * 20042000 ffffffff 20000002 01000000\ncore1 asleep\n",
        ..NOTHING
    },
    // A load outside the machine: the first cycle of the access stops.
    Case {
        image: Held::Code(&[0x2001, 0x0780, 0x6800]),
        text: b"stop outside core0 40000000 3\n\
            core0 40000000 * 20042000 ffffffff 20000004 01000000\ncore1 asleep\n",
        ..HUNDRED
    },
];

const INSTRUCTIONS: [Case; 6] = [
    // ADCS of two greatest words with a carry.
    Case {
        image: Held::Code(&[0x2000, 0x43c0, 0x2100, 0x43c9, 0x4288, 0x4148, 0xbe00]),
        text: b"stop bkpt core0 6\n\
            core0 ffffffff ffffffff * 20042000 ffffffff 2000000c a1000000\ncore1 asleep\n",
        ..HUNDRED
    },
    // LSRS by 32 and ASRS by 255.
    Case {
        image: Held::Code(&[0x2001, 0x07c0, 0x22ff, 0x0001, 0x0800, 0x4111, 0xbe00]),
        text: b"stop bkpt core0 6\n\
            core0 00000000 ffffffff 000000ff * 20042000 ffffffff 2000000c a1000000\ncore1 asleep\n",
        ..HUNDRED
    },
    // BL has three cycles, PUSH of two registers three, POP with PC five.
    Case {
        image: Held::Code(&[0x2003, 0xf000, 0xf801, 0xbe00, 0xb501, 0xbd02]),
        text: b"stop bkpt core0 12\n\
            core0 00000003 00000003 * 20042000 20000007 20000006 01000000\ncore1 asleep\n",
        ..HUNDRED
    },
    // Narrow stores and loads: LDR, LDR, STRB, STRH, LDR, LDRB, LDRH, each of two cycles.
    Case {
        image: Held::Code(&[
            0x4803, 0x4904, 0x7041, 0x8041, 0x6802, 0x7843, 0x8844, 0xbe00, 0x0014, 0x2000, 0x3210,
            0x7654,
        ]),
        text: b"stop bkpt core0 14\n\
            core0 20000014 76543210 32101010 00000010 00003210 * 20042000 ffffffff 2000000e 01000000\n\
            core1 asleep\n",
        ..HUNDRED
    },
    // STM and LDM of two registers, each of three cycles, and the same words in the view that has one bank after another.
    Case {
        image: Held::Code(&[
            0x2101, 0x2202, 0x4802, 0xc006, 0x4802, 0x6803, 0xc830, 0xbe00, 0x0040, 0x2000, 0x0010,
            0x2100,
        ]),
        text: b"stop bkpt core0 14\n\
            core0 21000018 00000001 00000002 00000001 00000001 * 20042000 ffffffff 2000000e 01000000\n\
            core1 asleep\n",
        ..HUNDRED
    },
    // SEV sets the event register for the first WFE alone, and the second waits.
    Case {
        image: Held::Code(&[0xbf40, 0xbf20, 0xbf20, 0xbe00]),
        text: b"stop limit 100\ncore0 * 20042000 ffffffff 20000004 01000000\ncore1 asleep\n",
        ..HUNDRED
    },
];

#[test]
fn instructions_and_their_cycles(rt: HostRuntime) -> Result<(), Fail> {
    assert_eq!(rt; first_wrong(&rt, rt.alloc(), &ENDS)?, None);
    assert_eq!(rt; first_wrong(&rt, rt.alloc(), &INSTRUCTIONS)?, None);
    Ok(())
}

/// A block of another family.
const OTHER: Block = Block {
    number: 7,
    count: 1,
    target: 0x1000_0000,
    family: 7,
    code: &[0],
};

const EXCEPTIONS: [Case; 3] = [
    // SVC, whose handler at 20000014 returns. The block with its vector comes first.
    Case {
        image: Held::Blocks(&[
            Block {
                number: 1,
                count: 2,
                target: 0x2000_012c,
                family: RP2040,
                code: &[0x0015, 0x2000],
            },
            OTHER,
            Block {
                count: 2,
                code: &[
                    0x4802, 0x4903, 0x6001, 0xdf05, 0xbe00, 0, 0xed08, 0xe000, 0x0100, 0x2000,
                    0x2407, 0x4770,
                ],
                ..ONLY
            },
        ]),
        text: b"stop bkpt core0 38\n\
            core0 e000ed08 20000100 00000000 00000000 00000007 * 20042000 ffffffff 20000008 01000000\n\
            core1 asleep\n",
        ..HUNDRED
    },
    // A load at an odd address inside HardFault.
    Case {
        image: Held::Blocks(&[
            Block {
                number: 1,
                count: 2,
                target: 0x2000_010c,
                family: RP2040,
                code: &[0x0015, 0x2000],
            },
            Block {
                count: 2,
                code: &[
                    0x4802, 0x4903, 0x6001, 0xde00, 0xbe00, 0, 0xed08, 0xe000, 0x0100, 0x2000,
                    0x2301, 0x681b,
                ],
                ..ONLY
            },
        ]),
        text: b"stop lockup core0 23\n\
            core0 e000ed08 20000100 00000000 00000001 * 20041fe0 fffffff9 20000016 01000003\n\
            core1 asleep\n",
        ..HUNDRED
    },
    // A return to another handler, where no other exception is active: HardFault, whose handler is at 20000002.
    Case {
        image: Held::Code(&[
            0xe006, 0xbe00, 0, 0, 0, 0, 0x0003, 0x2000, 0x4807, 0x2101, 0x0749, 0x6001, 0xdf00,
            0xbe00, 0x240e, 0x43e4, 0x4720, 0, 0, 0, 0, 0, 0x001d, 0x2000, 0xed08, 0xe000,
        ]),
        text: b"stop bkpt core0 44\n\
            core0 e000ed08 20000000 00000000 00000000 fffffff1 * 20041fc0 fffffff1 20000002 81000003\n\
            core1 asleep\n",
        ..HUNDRED
    },
];

/// SVC with the lowest priority, whose handler at 20000022 makes PendSV pending. Its handler at 20000030 returns to
/// the thread, by the value whose complement is given.
fn nested(complement: u16) -> [u16; 32] {
    [
        0xe006,
        0xbe00,
        0,
        0,
        0,
        0,
        0x0003,
        0x2000,
        0x480a,
        0x2101,
        0x0749,
        0x6001,
        0x2203,
        0x0792,
        0x6142,
        0xdf00,
        0xbe00,
        0x2301,
        0x071b,
        0x3804,
        0x6003,
        0xbe01,
        0x0023,
        0x2000,
        0x2400 | complement,
        0x43e4,
        0x4720,
        0xbe02,
        0x0031,
        0x2000,
        0xed08,
        0xe000,
    ]
}

/// The complements, and the text of each.
const NESTED: [(u16, &[u8]); 2] = [
    (
        6,
        b"stop bkpt core0 68\n\
        core0 e000ed04 20000000 c0000000 10000000 fffffff9 * 20041fa0 fffffff1 20000002 a1000003\n\
        core1 asleep\n",
    ),
    (
        2,
        b"stop bkpt core0 68\n\
        core0 e000ed04 20000000 c0000000 10000000 fffffffd * 20041fa0 fffffff1 20000002 a1000003\n\
        core1 asleep\n",
    ),
];

/// Whether the code with this complement gives this text.
fn returns<R: Threads + Wait + Sync>(
    rt: &R,
    alloc: Global,
    complement: u16,
    text: &[u8],
) -> Result<bool, AllocError> {
    let file = image(alloc, &nested(complement))?;
    gives_text(rt, alloc, &HUNDRED, &[], &[("a.uf2", &file)], text)
}

#[test]
fn exceptions_and_their_returns(rt: HostRuntime) -> Result<(), Fail> {
    assert_eq!(rt; first_wrong(&rt, rt.alloc(), &EXCEPTIONS)?, None);
    for (complement, text) in NESTED {
        assert!(rt; returns(&rt, rt.alloc(), complement, text)?, "{complement}");
    }
    Ok(())
}

/// Words, and the status and the text that they give.
type Said = (&'static [&'static str], u8, &'static [u8]);

/// The first words that give another status or text.
fn wrong_words<R: Threads + Wait + Sync>(
    rt: &R,
    alloc: Global,
    rows: &[Said],
) -> Result<Option<usize>, AllocError> {
    for (index, (words, status, text)) in rows.iter().enumerate() {
        let case = Case {
            words,
            status: *status,
            text,
            ..THREE
        };
        if !gives(rt, alloc, &case)? {
            return Ok(Some(index));
        }
    }
    Ok(None)
}

const LISTINGS: [Said; 6] = [
    (
        &["dis", "622111231400a442", "--side", "1"],
        0,
        b".program code\n.side_set 1\nout x, 1 side 0 [2]\njmp !x 3 side 1 [1]\njmp 0 side 1 [4]\nnop side 0 [4]\n",
    ),
    (
        &["dis", "a042", "--opt", "1", "--side", "5"],
        2,
        b"error words\n",
    ),
    (&["dis", "a042a"], 2, b"error words\n"),
    (&["dis", "a04g"], 2, b"error words\n"),
    (
        &["dis", "a042", "--opt", "1"],
        0,
        b".program code\n.side_set 0 opt\nnop\n",
    ),
    (
        &["dis", "a042", "--opt", "1", "--opt", "1"],
        2,
        b"error words\n",
    ),
];

/// So many words, each of them NOP.
fn digits(alloc: Global, count: usize) -> Result<String, AllocError> {
    let mut digits = String::new(alloc);
    for _ in 0..count {
        digits.push_str("A042")?;
    }
    Ok(digits)
}

/// The command that is given its words.
const DIS: Case = Case {
    words: &["dis"],
    ..NOTHING
};

/// Whether so many words give this status and this text.
fn lists<R: Threads + Wait + Sync>(
    rt: &R,
    alloc: Global,
    count: usize,
    status: u8,
    text: &[u8],
) -> Result<bool, AllocError> {
    let digits = digits(alloc, count)?;
    let case = Case { status, ..DIS };
    gives_text(rt, alloc, &case, &[digits.as_str()], &[], text)
}

#[test]
fn words_are_disassembled(rt: HostRuntime) -> Result<(), Fail> {
    let alloc = rt.alloc();
    assert_eq!(rt; wrong_words(&rt, alloc, &LISTINGS)?, None);
    // The most words, and one more.
    let most = repeated(alloc, b".program code\n", b"nop\n", 32)?;
    assert!(rt; lists(&rt, alloc, 32, 0, &most)?);
    assert!(rt; lists(&rt, alloc, 33, 2, b"error words\n")?);
    Ok(())
}

const REFUSED: [Said; 12] = [
    (&[], 2, b"error words\n"),
    (&["run", "a.uf2", "--cycles", "0"], 2, b"error words\n"),
    (
        &["run", "a.uf2", "--cycles", "10", "--workers", "9"],
        2,
        b"error words\n",
    ),
    (
        &["run", "a.uf2", "--cycles", "10", "--workers", "256"],
        2,
        b"error words\n",
    ),
    (
        &["run", "a.uf2", "--cycles", "10", "--workers", "-1"],
        2,
        b"error words\n",
    ),
    (
        &["run", "a.uf2", "--cycles", "10", "--workers", "01"],
        2,
        b"error words\n",
    ),
    (
        &["run", "a.uf2", "--cycles", "10", "--probe", "2=0"],
        2,
        b"error words\n",
    ),
    (
        &["gen", "18446744073709551616", "--cycles", "1"],
        2,
        b"error words\n",
    ),
    (&["gen", "01", "--cycles", "1"], 2, b"error words\n"),
    (&["gen", "1"], 2, b"error words\n"),
    (
        &["run", "b.uf2", "--cycles", "10"],
        3,
        b"error file b.uf2\n",
    ),
    (
        &["debug", "b.uf2", "--cycles", "10"],
        3,
        b"error file b.uf2\n",
    ),
];

/// Lengths of files of zeros, and the status and the text that each gives.
const ZEROS: [(usize, u8, &[u8]); 5] = [
    (16_777_217, 3, b"error large a.uf2 16777217\n"),
    (0, 4, b"error image 1 Empty\n"),
    (511, 4, b"error image 2 Ragged 511\n"),
    (513, 4, b"error image 2 Ragged 513\n"),
    (512, 4, b"error image 3 Magic 0\n"),
];

/// Whether so many zeros give this status and this text.
fn are_refused<R: Threads + Wait + Sync>(
    rt: &R,
    alloc: Global,
    len: usize,
    status: u8,
    text: &[u8],
) -> Result<bool, AllocError> {
    let zeros = vec![in alloc; 0; len]?;
    let case = Case { status, ..THREE };
    gives_text(rt, alloc, &case, &[], &[("a.uf2", &zeros)], text)
}

/// The first length that gives another status or text.
fn wrong_length<R: Threads + Wait + Sync>(
    rt: &R,
    alloc: Global,
) -> Result<Option<usize>, AllocError> {
    for (len, status, text) in ZEROS {
        if !are_refused(rt, alloc, len, status, text)? {
            return Ok(Some(len));
        }
    }
    Ok(None)
}

#[test]
fn a_refusal_is_one_line(rt: HostRuntime) -> Result<(), Fail> {
    assert_eq!(rt; wrong_words(&rt, rt.alloc(), &REFUSED)?, None);
    assert_eq!(rt; wrong_length(&rt, rt.alloc())?, None);
    Ok(())
}
