//! Damaged texts: each fault of a PIO source and of a script, in the smallest file that has it and as the last thing in a long one.

use crate::pieces::joined;
use crate::program_tests::fault_in;
use pin_script::{ScriptFault, read_script};
use pio_parse::PioFault;
use std::alloc::{AllocError, Global};
use std::test::Fail;

/// Some bytes, others so many times, and the last ones.
pub(crate) fn with_lines(
    alloc: Global,
    head: &[u8],
    line: &[u8],
    count: usize,
    tail: &[u8],
) -> Result<Vec<u8>, AllocError> {
    let mut lines = Vec::new(alloc);
    for _ in 0..count {
        lines.extend_from_slice(line)?;
    }
    joined(alloc, head, &lines, tail)
}

/// What stands last in a PIO source, and its fault where it stands on line 3, and where on line 100,003.
const SOURCES: [(&[u8], PioFault, PioFault); 11] = [
    (b"?", PioFault::Char(3, 1), PioFault::Char(100_003, 1)),
    (
        b"/* nop\n",
        PioFault::Char(3, 1),
        PioFault::Char(100_003, 1),
    ),
    (
        b"nop nop\n",
        PioFault::Syntax(3, 5),
        PioFault::Syntax(100_003, 5),
    ),
    (
        b"jmp there\n",
        PioFault::Unknown(3),
        PioFault::Unknown(100_003),
    ),
    (
        b".program p\nnop\n",
        PioFault::Twice(3),
        PioFault::Twice(100_003),
    ),
    (
        b"set pins, 32\n",
        PioFault::Range(3),
        PioFault::Range(100_003),
    ),
    (b"nop [32]\n", PioFault::Delay(3), PioFault::Delay(100_003)),
    (b"nop side 0\n", PioFault::Side(3), PioFault::Side(100_003)),
    (
        b"nop\nnop\nnop\nnop\nnop\nnop\nnop\nnop\nnop\nnop\nnop\nnop\nnop\nnop\nnop\nnop\n\
        nop\nnop\nnop\nnop\nnop\nnop\nnop\nnop\nnop\nnop\nnop\nnop\nnop\nnop\nnop\nnop\n",
        PioFault::TooLong(34),
        PioFault::TooLong(100_034),
    ),
    (b".program q\n", PioFault::Wrap(3), PioFault::Wrap(100_003)),
    (
        b".origin 32\n",
        PioFault::Origin(3),
        PioFault::Origin(100_003),
    ),
];

#[test]
fn the_end_of_a_source(rt: HostRuntime) -> Result<(), Fail> {
    let alloc = rt.alloc();
    for (index, (tail, near, far)) in SOURCES.iter().enumerate() {
        let short = with_lines(alloc, b".program p\nnop\n", b"\n", 0, tail)?;
        assert!(rt; fault_in(alloc, &short) == Some(*near), "row {index}");
        let long = with_lines(alloc, b".program p\nnop\n", b"\n", 100_000, tail)?;
        assert!(rt; fault_in(alloc, &long) == Some(*far), "row {index}");
    }
    Ok(())
}

/// The fault of a script, where it is short enough to be asked.
fn script_fault(alloc: Global, text: &[u8]) -> Option<ScriptFault> {
    if text.len() > 4_194_304 {
        return None;
    }
    read_script(alloc, text).err()
}

/// What stands last in a script, and its fault on line 2, and on line 90,002.
const SCRIPTS: [(&[u8], ScriptFault, ScriptFault); 7] = [
    (b"x", ScriptFault::Form(2), ScriptFault::Form(90_002)),
    (
        b"10000000000 1 1",
        ScriptFault::Number(2),
        ScriptFault::Number(90_002),
    ),
    (b"5 30 1", ScriptFault::Pin(2), ScriptFault::Pin(90_002)),
    (b"4 3 0", ScriptFault::Order(2), ScriptFault::Order(90_002)),
    (
        b"send 5 3 63 41",
        ScriptFault::Divisor(2),
        ScriptFault::Divisor(90_002),
    ),
    (
        b"send 5 3 64 4",
        ScriptFault::Bytes(2),
        ScriptFault::Bytes(90_002),
    ),
    (
        b"version 2",
        ScriptFault::Form(2),
        ScriptFault::Form(90_002),
    ),
];

#[test]
fn the_end_of_a_script(rt: HostRuntime) -> Result<(), Fail> {
    let alloc = rt.alloc();
    for (index, (tail, near, far)) in SCRIPTS.iter().enumerate() {
        let short = with_lines(alloc, b"version 2\n", b"", 0, tail)?;
        let near = match near {
            // A cycle is too small only behind another one.
            ScriptFault::Order(_) => None,
            _ => Some(*near),
        };
        assert!(rt; script_fault(alloc, &short) == near, "row {index}");
        let long = with_lines(alloc, b"version 2\n", b"5 3 1\n", 90_000, tail)?;
        assert!(rt; script_fault(alloc, &long) == Some(*far), "row {index}");
    }
    let versions = with_lines(alloc, b"", b"# x\n", 90_000, b"version 3")?;
    assert!(rt; script_fault(alloc, &versions) == Some(ScriptFault::Version(90_001)));
    let line = with_lines(alloc, b"", b"1", 1_000_000, b"")?;
    assert!(rt; script_fault(alloc, &line) == Some(ScriptFault::Form(1)));
    let sent = with_lines(alloc, b"version 2\n", b"5 3 1\n", 99_991, b"send 5 3 64 41")?;
    assert!(rt; script_fault(alloc, &sent) == Some(ScriptFault::TooMany(99_993)));
    Ok(())
}
