//! Sources of every kind, large ones too, with the first fault of each.

use crate::damaged_tests::with_lines;
use crate::program_tests::{fault_in, has_words};
use pio_parse::{PioFault, parse};
use std::alloc::{AllocError, Global};

fn grammar_fault_of(alloc: Global, text: &str) -> Option<PioFault> {
    match parse(alloc, text.as_bytes()) {
        Ok(_) => None,
        Err(fault) => Some(fault),
    }
}

// Sources with the fault that each has, and sources without one.
#[test]
fn faults_of_sources(rt: HostRuntime) {
    let syntax = |line: u64, column: u64| Some(PioFault::Syntax(line, column));
    let char = |line: u64, column: u64| Some(PioFault::Char(line, column));
    let table = [
        ("", syntax(1, 1)),
        ("; x\n", syntax(1, 5)),
        (".define a 1", syntax(1, 12)),
        (".program p\n/* x", char(2, 1)),
        (".program p\nset pins, ?\n", char(2, 11)),
        (".program p\nset pins, \r\n", syntax(2, 12)),
        ("nop\n.program p\n", syntax(1, 1)),
        (".program p\nfoo bar\n", syntax(2, 5)),
        (".program p\njmp x - - 3\n", syntax(2, 9)),
        (".program p\n.word 12ab\n", syntax(2, 7)),
        (".program p\n.word ((1)\n", syntax(2, 11)),
        (
            ".pio_version 0\n.lang_opt python ??? %\n.define a 1\n.program p\n",
            None,
        ),
        (".program p\n% c-sdk {\n ?? \n%} nop ?\n", char(4, 8)),
        (".program p\n% {\n%}\n", char(2, 1)),
        (".program p\nin pc, 3\n", syntax(2, 4)),
        (".program p\nwait 1 side 0\n", syntax(2, 8)),
    ];
    for (text, want) in table {
        let found = grammar_fault_of(rt.alloc(), text);
        assert!(rt; found == want, "{text}");
    }
}

// Sources of a megabyte.
#[test]
fn large_sources(rt: HostRuntime) -> Result<(), AllocError> {
    let alloc = rt.alloc();
    let open = with_lines(alloc, b".program p\n.word ", b"(", 1_000_000, b"")?;
    assert!(rt; fault_in(alloc, &open) == Some(PioFault::Syntax(2, 1_000_007)));
    let close = with_lines(alloc, b"1", b")", 500_000, b"\n")?;
    let nested = with_lines(alloc, b".program p\n.word ", b"(", 500_000, &close)?;
    assert!(rt; has_words(alloc, &nested, &[1], 0, 0));
    let signs = with_lines(alloc, b".program p\n.word 7 ", b"-", 1_000_000, b"1\n")?;
    assert!(rt; has_words(alloc, &signs, &[8], 0, 0));
    let jump = with_lines(alloc, b": jmp ", b"a", 1_000_000, b"\n")?;
    let label = with_lines(alloc, b".program p\nnop\n", b"a", 1_000_000, &jump)?;
    assert!(rt; has_words(alloc, &label, &[0xa042, 1], 0, 1));
    Ok(())
}

// 100,000 programs, named by five letters each.
#[test]
fn many_programs(rt: HostRuntime) -> Result<(), AllocError> {
    let mut text = Vec::new(rt.alloc());
    for index in 0..100000u32 {
        text.extend_from_slice(b".program p")?;
        for unit in [10000u32, 1000, 100, 10, 1] {
            text.push(b'a' + (index / unit % 10) as u8)?;
        }
        text.extend_from_slice(b"\nnop\n")?;
    }
    assert!(rt; fault_in(rt.alloc(), text.as_slice()) == None);
    text.extend_from_slice(b".program paaaaa\nnop\n")?;
    assert!(rt; fault_in(rt.alloc(), text.as_slice()) == Some(PioFault::Twice(200001)));
    Ok(())
}

fn fault_of_byte(byte: u8) -> Option<PioFault> {
    match byte {
        b'\t' | b'\n' | b'\r' | b' ' | b';' => None,
        b'[' => Some(PioFault::Syntax(2, 6)),
        b'!' | b'(' | b')' | b'*' | b'+' | b',' | b'-' | b'.' | b':' | b']' | b'_' | b'~' => {
            Some(PioFault::Syntax(2, 5))
        }
        b'0'..=b'9' | b'A'..=b'Z' | b'a'..=b'z' => Some(PioFault::Syntax(2, 5)),
        _ => Some(PioFault::Char(2, 5)),
    }
}

// Each byte after an instruction, at the end of a file.
#[test]
fn each_byte(rt: HostRuntime) -> Result<(), AllocError> {
    for byte in 0..=255u8 {
        let text = with_lines(rt.alloc(), b".program p\nnop ", &[byte], 1, b"")?;
        assert!(rt;
            fault_in(rt.alloc(), &text) == fault_of_byte(byte),
            "{byte}"
        );
    }
    Ok(())
}
