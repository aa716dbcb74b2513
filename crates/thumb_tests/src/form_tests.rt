//! Each form at its ends and one step beyond.

use crate::fault_tests::{fault_of, with_run};
use crate::form_rows::{
    ARITHMETIC, DIRECTIVES, DISTANCES, EXTENSIONS, LISTS, NUMBERS, OFFSETS, REGISTERS,
};
use crate::outcome::{first_wrong, first_wrong_line, gives};
use std::alloc::{AllocError, Global};
use std::test::Fail;
use thumb_asm::ThumbFault::{Range, TooLong};

#[test]
fn forms_of_directives(rt: HostRuntime) -> Result<(), Fail> {
    assert_eq!(rt; first_wrong(rt.alloc(), &DIRECTIVES)?, None);
    Ok(())
}

#[test]
fn forms_with_a_number(rt: HostRuntime) -> Result<(), Fail> {
    assert_eq!(rt; first_wrong_line(rt.alloc(), NUMBERS)?, None);
    Ok(())
}

#[test]
fn forms_of_arithmetic(rt: HostRuntime) -> Result<(), Fail> {
    assert_eq!(rt; first_wrong_line(rt.alloc(), ARITHMETIC)?, None);
    Ok(())
}

#[test]
fn forms_of_extensions(rt: HostRuntime) -> Result<(), Fail> {
    assert_eq!(rt; first_wrong_line(rt.alloc(), EXTENSIONS)?, None);
    Ok(())
}

#[test]
fn forms_of_registers(rt: HostRuntime) -> Result<(), Fail> {
    assert_eq!(rt; first_wrong_line(rt.alloc(), REGISTERS)?, None);
    Ok(())
}

#[test]
fn forms_with_an_offset(rt: HostRuntime) -> Result<(), Fail> {
    assert_eq!(rt; first_wrong_line(rt.alloc(), OFFSETS)?, None);
    Ok(())
}

#[test]
fn forms_with_a_list(rt: HostRuntime) -> Result<(), Fail> {
    assert_eq!(rt; first_wrong_line(rt.alloc(), LISTS)?, None);
    Ok(())
}

#[test]
fn forms_with_a_name(rt: HostRuntime) -> Result<(), Fail> {
    assert_eq!(rt; first_wrong(rt.alloc(), &DISTANCES)?, None);
    Ok(())
}

/// The conditional branches, with their first halfword.
const CONDITIONS: [(&[u8], u16); 14] = [
    (b"beq a\n", 0xd000),
    (b"bne a\n", 0xd100),
    (b"bcs a\n", 0xd200),
    (b"bcc a\n", 0xd300),
    (b"bmi a\n", 0xd400),
    (b"bpl a\n", 0xd500),
    (b"bvs a\n", 0xd600),
    (b"bvc a\n", 0xd700),
    (b"bhi a\n", 0xd800),
    (b"bls a\n", 0xd900),
    (b"bge a\n", 0xda00),
    (b"blt a\n", 0xdb00),
    (b"bgt a\n", 0xdc00),
    (b"ble a\n", 0xdd00),
];

/// A conditional branch reaches 256 bytes back.
fn reaches_back(alloc: Global, branch: &[u8], word: u16) -> Result<bool, AllocError> {
    let near = with_run(alloc, b"a: .space 252\n", branch, 1, b"")?;
    let far = with_run(alloc, b"a: .space 254\n", branch, 1, b"")?;
    Ok(gives(alloc, &near, 252, &[word | 0x80])? && fault_of(alloc, &far) == Some(Range(2)))
}

/// A conditional branch reaches 254 bytes ahead.
fn reaches_ahead(alloc: Global, branch: &[u8], word: u16) -> Result<bool, AllocError> {
    let near = with_run(alloc, b"", branch, 1, b".space 256\na: nop")?;
    let far = with_run(alloc, b"", branch, 1, b".space 258\na: nop")?;
    Ok(gives(alloc, &near, 0, &[word | 0x7f])? && fault_of(alloc, &far) == Some(Range(1)))
}

#[test]
fn forms_with_a_condition(rt: HostRuntime) -> Result<(), Fail> {
    for (branch, word) in CONDITIONS {
        assert!(rt; reaches_back(rt.alloc(), branch, word)?);
        assert!(rt; reaches_ahead(rt.alloc(), branch, word)?);
    }
    Ok(())
}

/// A call reaches 2^24 - 2 bytes ahead, which is past SRAM: the first line past it is the fault, unless the call is out of range.
#[test]
fn the_farthest_call(rt: HostRuntime) -> Result<(), Fail> {
    let alloc = rt.alloc();
    let near = with_run(alloc, b"bl a\n", b".space 4096\n", 4095, b".space 4094\na:")?;
    assert!(rt; fault_of(alloc, &near) == Some(TooLong(67)));
    let far = with_run(alloc, b"bl a\n", b".space 4096\n", 4096, b"a:")?;
    assert!(rt; fault_of(alloc, &far) == Some(Range(1)));
    Ok(())
}
