//! Each fault, as the smallest source that has it and as the last line of a long one; which fault comes first; and long lines and many
//! names.

use crate::outcome::Wanted::{Fault, Words};
use crate::outcome::{Row, assembled, bytes_in, bytes_of, first_wrong};
use std::alloc::{AllocError, Global};
use std::test::Fail;
use thumb_asm::ThumbFault;
use thumb_asm::ThumbFault::{
    Align, Char, Nothing, Range, Register, Syntax, TooLong, Twice, Unknown,
};

const SMALLEST: [Row; 9] = [
    ("?", Fault(Char(1))),
    ("nop nop", Fault(Syntax(1))),
    ("b there", Fault(Unknown(1))),
    ("a:\na:", Fault(Twice(2))),
    ("movs r0, #256", Fault(Range(1))),
    ("adds r0, r8, r1", Fault(Register(1))),
    (".space 1\nnop", Fault(Align(2))),
    ("", Fault(Nothing(0))),
    ("; \x7f\n\na:\n", Fault(Nothing(0))),
];

/// The first Char comes, else the first Syntax, else the first line with another one, and of these the least number.
const FIRST: [Row; 10] = [
    ("nop nop\nb there\n?", Fault(Char(3))),
    ("b there\nnop nop", Fault(Syntax(2))),
    ("b there\na: nop\na: nop", Fault(Unknown(1))),
    ("movs r0, #256\nb there", Fault(Range(1))),
    ("a: nop\na: b there", Fault(Unknown(2))),
    ("a: nop\na: movs r0, #256", Fault(Twice(2))),
    ("movs r8, #256", Fault(Range(1))),
    (".space 1\nmovs r8, #0", Fault(Register(2))),
    (".space 1\nb there", Fault(Unknown(2))),
    ("nop ; ?\n\tnop\r\n ; nop nop\nnop?", Fault(Char(4))),
];

#[test]
fn the_first_fault(rt: HostRuntime) -> Result<(), Fail> {
    assert_eq!(rt; first_wrong(rt.alloc(), &SMALLEST)?, None);
    assert_eq!(rt; first_wrong(rt.alloc(), &FIRST)?, None);
    Ok(())
}

/// Lines that fit no form.
const NO_FORM: &str = "\
    MOVS r0, #1\n\
    movs R0, #1\n\
    movs r0, 1\n\
    movs r0 #1\n\
    movs r0, #- 1\n\
    movs r0, #0x12345678901\n\
    movs r0, #12345678901\n\
    movs r0, #0X1\n\
    a: b: nop\n\
    r0: nop\n\
    nop: nop\n\
    1a: nop\n\
    sub r0, #4\n\
    add r0, #4\n\
    add r0, r1, #4\n\
    movs r0, r1\n\
    ldr r0, [r1]\n\
    a: .word a-4\n\
    . word 1\n\
    .byte 1\n\
    .align 2\n\
    foo bar\n\
    there\
";

/// Lines that do.
const FORMS: [Row; 7] = [
    ("lsl: nop", Words(0, &[0xbf00])),
    ("i: cpsie i", Words(0, &[0xb662])),
    ("a: .word a+-4", Words(0, &[0xfffc, 0x1fff])),
    ("push { r0 , r1 - r3 }", Words(0, &[0xb40f])),
    ("push {r0-r3}\r\n", Words(0, &[0xb40f])),
    ("movs\tr0,#0x1F", Words(0, &[0x201f])),
    ("r16: b r16", Words(0, &[0xe7fe])),
];

#[test]
fn lines_and_their_forms(rt: HostRuntime) -> Result<(), Fail> {
    for line in NO_FORM.split('\n') {
        let fault = fault_of(rt.alloc(), line.as_bytes());
        assert!(rt; fault == Some(Syntax(1)), "{line}");
    }
    assert_eq!(rt; first_wrong(rt.alloc(), &FORMS)?, None);
    Ok(())
}

/// Some bytes, and behind them others so many times, and then the last ones.
pub fn with_run(
    alloc: Global,
    head: &[u8],
    middle: &[u8],
    count: usize,
    tail: &[u8],
) -> Result<Vec<u8>, AllocError> {
    let mut text = Vec::from_slice(alloc, head)?;
    for _ in 0..count {
        text.extend_from_slice(middle)?;
    }
    text.extend_from_slice(tail)?;
    Ok(text)
}

/// The fault of a text.
pub fn fault_of(alloc: Global, text: &[u8]) -> Option<ThumbFault> {
    assembled(alloc, text).err()
}

/// The last lines of a source of 5000 lines before them, and the fault.
const LAST: [(&[u8], ThumbFault); 7] = [
    (b"?", Char(5_001)),
    (b"nop nop", Syntax(5_001)),
    (b"b there", Unknown(5_001)),
    (b"a:", Twice(5_001)),
    (b"b a", Range(5_001)),
    (b"mov r0, r1\npush {pc}", Register(5_002)),
    (b".space 1\nnop", Align(5_002)),
];

#[test]
fn the_last_line_of_a_long_source(rt: HostRuntime) -> Result<(), Fail> {
    let alloc = rt.alloc();
    for (tail, fault) in LAST {
        let text = with_run(alloc, b"a: nop\n", b"nop\n", 4_999, tail)?;
        assert!(rt; fault_of(alloc, &text) == Some(fault), "{fault}");
    }
    let empty = with_run(alloc, b"", b"; \xff\n", 20_000, b"")?;
    assert!(rt; fault_of(alloc, &empty) == Some(Nothing(0)));
    Ok(())
}

/// SRAM has 270,336 bytes.
#[test]
fn the_end_of_sram(rt: HostRuntime) -> Result<(), Fail> {
    let alloc = rt.alloc();
    let full = with_run(alloc, b"", b".space 4096\n", 66, b"")?;
    assert!(rt; assembled(alloc, &full).is_ok());
    let more = with_run(alloc, &full, b"a:\n", 1, b".space 1")?;
    assert!(rt; fault_of(alloc, &more) == Some(TooLong(68)));
    let over = with_run(alloc, b"nop\n", b".space 4096\n", 66, b"nop")?;
    assert!(rt; fault_of(alloc, &over) == Some(TooLong(67)));
    Ok(())
}

/// Lines of one megabyte: spaces, a name that nothing defines, and digits that are no number.
#[test]
fn long_lines(rt: HostRuntime) -> Result<(), Fail> {
    let alloc = rt.alloc();
    let spaces = with_run(alloc, b"nop", b" ", 1_048_573, b"")?;
    let image = assembled(alloc, &spaces)?;
    assert!(rt; bytes_of(alloc, &image)?.as_slice() == bytes_in(alloc, &[0xbf00])?.as_slice());
    let word = with_run(alloc, b"b ", b"a", 1_048_574, b"")?;
    assert!(rt; fault_of(alloc, &word) == Some(Unknown(1)));
    let digits = with_run(alloc, b".word ", b"0", 1_048_570, b"")?;
    assert!(rt; fault_of(alloc, &digits) == Some(Syntax(1)));
    Ok(())
}

/// 3000 lines, each of which has a name of five letters and a branch to it.
fn names(alloc: Global) -> Result<Vec<u8>, AllocError> {
    let mut text = Vec::new(alloc);
    for index in 0..3000u32 {
        let mut name = Vec::new(alloc);
        for unit in [10_000u32, 1000, 100, 10, 1] {
            name.push(b'a' + (index / unit % 10) as u8)?;
        }
        text.extend_from_slice(&name)?;
        text.extend_from_slice(b": b ")?;
        text.extend_from_slice(&name)?;
        text.push(b'\n')?;
    }
    Ok(text)
}

/// A name that is defined 100,000 times.
#[test]
fn one_name_again_and_again(rt: HostRuntime) -> Result<(), Fail> {
    let again = with_run(rt.alloc(), b"", b"a:\n", 100_000, b"")?;
    assert!(rt; fault_of(rt.alloc(), &again) == Some(Twice(2)));
    Ok(())
}

#[test]
fn many_names(rt: HostRuntime) -> Result<(), Fail> {
    let alloc = rt.alloc();
    let wanted = with_run(alloc, b"", b"\xfe\xe7", 3000, b"")?;
    let image = assembled(alloc, &names(alloc)?)?;
    assert!(rt; bytes_of(alloc, &image)?.as_slice() == wanted.as_slice());
    Ok(())
}
