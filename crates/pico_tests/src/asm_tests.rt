//! Worked sources: the listing or the refusal of each, with its status.

use crate::case::{Case, NOTHING, first_wrong, found, gives, gives_text};
use crate::rows::{FIVE, THREE, WS2812};
use crate::sample_files::{image, repeated};
use std::alloc::{AllocError, Global};
use std::sync::Wait;
use std::test::Fail;
use std::thread::Threads;

/// The words of a source that comes with each row.
const ASM: Case = Case {
    words: &["asm", "a.pio"],
    ..NOTHING
};

/// Whether the source gives this status and this text.
fn lists<R: Threads + Wait + Sync>(
    rt: &R,
    alloc: Global,
    source: &[u8],
    status: u8,
    text: &[u8],
) -> Result<bool, AllocError> {
    let case = Case { status, ..ASM };
    gives_text(rt, alloc, &case, &[], &[("a.pio", source)], text)
}

/// Sources, and the text of each.
type Row = (&'static [u8], &'static [u8]);

/// The first source that gives another status or text.
fn wrong_row<R: Threads + Wait + Sync>(
    rt: &R,
    alloc: Global,
    rows: &[Row],
    status: u8,
) -> Result<Option<usize>, AllocError> {
    for (index, (source, text)) in rows.iter().enumerate() {
        if !lists(rt, alloc, source, status, text)? {
            return Ok(Some(index));
        }
    }
    Ok(None)
}

const LISTED: [Row; 3] = [
    (
        WS2812,
        b"program ws2812 4 origin - wrap 0 3 side 1 opt 0 pindirs 0\n6221\n1123\n1400\na442\n",
    ),
    // The text that `dis` writes for these words.
    (
        b".program code\n.side_set 1\nout x, 1 side 0 [2]\njmp !x 3 side 1 [1]\njmp 0 side 1 [4]\nnop side 0 [4]\n",
        b"program code 4 origin - wrap 0 3 side 1 opt 0 pindirs 0\n6221\n1123\n1400\na442\n",
    ),
    // Two programs, CRLF, and no LF at the end.
    (
        b".program a\r\n.origin 4\r\n.side_set 1 opt pindirs\r\nnop\r\n.wrap_target\r\nnop side 1\r\n.wrap\r\n\
        .word 0xbeef\r\n.program b\r\nnop",
        b"program a 3 origin 4 wrap 1 1 side 1 opt 1 pindirs 1\na042\nb842\nbeef\n\
        program b 1 origin - wrap 0 0 side 0 opt 0 pindirs 0\na042\n",
    ),
];

/// The most instructions that a program has.
fn lists_the_most<R: Threads + Wait + Sync>(rt: &R, alloc: Global) -> Result<bool, AllocError> {
    let source = repeated(alloc, b".program p\n", b"nop\n", 32)?;
    let first = b"program p 32 origin - wrap 0 31 side 0 opt 0 pindirs 0\n";
    let text = repeated(alloc, first, b"a042\n", 32)?;
    lists(rt, alloc, &source, 0, &text)
}

/// The longest source.
fn lists_the_longest<R: Threads + Wait + Sync>(rt: &R, alloc: Global) -> Result<bool, AllocError> {
    let source = repeated(alloc, b".program p\nnop\n", b"\n", 1_048_561)?;
    let text = b"program p 1 origin - wrap 0 0 side 0 opt 0 pindirs 0\na042\n";
    lists(rt, alloc, &source, 0, text)
}

#[test]
fn programs_are_listed(rt: HostRuntime) -> Result<(), Fail> {
    assert_eq!(rt; wrong_row(&rt, rt.alloc(), &LISTED, 0)?, None);
    assert!(rt; lists_the_most(&rt, rt.alloc())?);
    assert!(rt; lists_the_longest(&rt, rt.alloc())?);
    Ok(())
}

const FAULTS: [Row; 12] = [
    (b"", b"error pio 2 Syntax 1 1\n"),
    (b"\x7fELF\x00\xff\n", b"error pio 1 Char 1 1\n"),
    (b".program p\nnop nop\n", b"error pio 2 Syntax 2 5\n"),
    (
        b".program p\n.side_set 1\nnop side 0 [16]\n",
        b"error pio 7 Delay 3\n",
    ),
    (b".program p\njmp there\n", b"error pio 4 Unknown 2\n"),
    (b".program p\nset pins, 32\n", b"error pio 6 Range 2\n"),
    (b".program p\nset pins, ?\n", b"error pio 1 Char 2 11\n"),
    (b".program p\n/* nop\n", b"error pio 1 Char 2 1\n"),
    (b".program p\na:\na: nop\n", b"error pio 5 Twice 3\n"),
    (b".program p\nnop side 0\n", b"error pio 8 Side 2\n"),
    (b".program p\n", b"error pio 10 Wrap 1\n"),
    (b".program p\n.origin 32\nnop\n", b"error pio 11 Origin 2\n"),
];

/// A program of one instruction too many.
fn is_too_long<R: Threads + Wait + Sync>(rt: &R, alloc: Global) -> Result<bool, AllocError> {
    let source = repeated(alloc, b".program p\n", b"nop\n", 33)?;
    lists(rt, alloc, &source, 5, b"error pio 9 TooLong 34\n")
}

#[test]
fn the_first_fault_is_one_line(rt: HostRuntime) -> Result<(), Fail> {
    assert!(rt; is_too_long(&rt, rt.alloc())?);
    assert_eq!(rt; wrong_row(&rt, rt.alloc(), &FAULTS, 5)?, None);
    Ok(())
}

/// A source that is too large.
fn is_large<R: Threads + Wait + Sync>(rt: &R, alloc: Global) -> Result<bool, AllocError> {
    let source = repeated(alloc, b"\n", b"\n", 1_048_576)?;
    lists(rt, alloc, &source, 3, b"error large a.pio 1048577\n")
}

const UNREAD: [Case; 4] = [
    Case {
        words: &["asm", "b.pio"],
        status: 3,
        text: b"error file b.pio\n",
        ..NOTHING
    },
    Case {
        words: &["asm"],
        status: 2,
        text: b"error words\n",
        ..NOTHING
    },
    Case {
        words: &["asm", "-a.pio"],
        status: 2,
        text: b"error words\n",
        ..NOTHING
    },
    Case {
        words: &["asm", "a.pio", "--cycles"],
        status: 2,
        text: b"error words\n",
        ..NOTHING
    },
];

#[test]
fn a_source_that_is_not_read(rt: HostRuntime) -> Result<(), Fail> {
    assert!(rt; is_large(&rt, rt.alloc())?);
    assert_eq!(rt; first_wrong(&rt, rt.alloc(), &UNREAD)?, None);
    Ok(())
}

/// The third line of a listing is not put.
const CUT: Case = Case {
    words: &["asm", "a.pio"],
    files: &[("a.pio", WS2812)],
    failing_put: Some(2),
    status: 7,
    text: b"program ws2812 4 origin - wrap 0 3 side 1 opt 0 pindirs 0\n6221\n",
    ..NOTHING
};

#[test]
fn a_failing_sink_ends_the_listing(rt: HostRuntime) -> Result<(), Fail> {
    assert!(rt; gives(&rt, rt.alloc(), &CUT)?);
    assert_eq!(rt; found(&rt, rt.alloc(), &CUT, &[])?.puts, 3);
    Ok(())
}

/// Three instructions.
const ADDS: Case = Case {
    words: &["thumb", "a.s"],
    files: &[("a.s", b"start: movs r0, #5\nadds r0, #7\nbkpt #0\n")],
    ..NOTHING
};

/// The file of a Thumb source is one block, and it is run.
#[test]
fn a_thumb_source_is_run(rt: HostRuntime) -> Result<(), Fail> {
    let alloc = rt.alloc();
    let found = found(&rt, alloc, &ADDS, &[])?;
    assert!(rt; found.status == 0 && found.text.as_slice() == image(alloc, &FIVE)?.as_slice());
    let files = [("a.uf2", found.text.as_slice())];
    assert!(rt; gives_text(&rt, alloc, &THREE, &[], &files, THREE.text)?);
    Ok(())
}

/// Sources with a fault, and the text of each.
const MISTAKES: [Row; 5] = [
    (b"movs r0, #256", b"error thumb 6 Range 1\n"),
    (b"b there", b"error thumb 4 Unknown 1\n"),
    (b"adds r0, r8, r1", b"error thumb 7 Register 1\n"),
    (b"", b"error thumb 10 Nothing 0\n"),
    (b"\x7fELF\x00\xff\n", b"error thumb 1 Char 1\n"),
];

/// Whether `thumb` says this of a source.
fn is_told<R: Threads + Wait + Sync>(
    rt: &R,
    alloc: Global,
    source: &[u8],
    status: u8,
    text: &[u8],
) -> Result<bool, AllocError> {
    let case = Case { status, ..ADDS };
    gives_text(rt, alloc, &case, &[], &[("a.s", source)], text)
}

#[test]
fn a_fault_of_a_thumb_source(rt: HostRuntime) -> Result<(), Fail> {
    for (index, (source, text)) in MISTAKES.iter().enumerate() {
        assert!(rt; is_told(&rt, rt.alloc(), source, 11, text)?, "row {index}");
    }
    let large = repeated(rt.alloc(), b"\n", b"\n", 1_048_576)?;
    assert!(rt; is_told(&rt, rt.alloc(), &large, 3, b"error large a.s 1048577\n")?);
    Ok(())
}
