//! Worked values.

use pin_script::laws::the_greatest_pair_acts;
use pin_script::{Cursor, Drives, Level, Script, ScriptFault, read_script};
use std::alloc::Global;
use std::test::Fail;

/// Scripts, and the fault of each.
const FAULTS: [(&[u8], ScriptFault); 47] = [
    (b"5 3 1\n4 3 0\n", ScriptFault::Order(2)),
    (b"1 30 0", ScriptFault::Pin(1)),
    (b"10000000000 1 1", ScriptFault::Number(1)),
    (b"1 2 3", ScriptFault::Form(1)),
    (b"1 2", ScriptFault::Form(1)),
    (b"1 2 1 1", ScriptFault::Form(1)),
    (b"1  2 1", ScriptFault::Form(1)),
    (b" 1 2 1", ScriptFault::Form(1)),
    (b"1 2 1 ", ScriptFault::Form(1)),
    (b"1 2 01", ScriptFault::Form(1)),
    (b"1\t2 1", ScriptFault::Form(1)),
    (b"1 2 1\r", ScriptFault::Form(1)),
    (b"\r", ScriptFault::Form(1)),
    (b"1 2 1\r\r\n", ScriptFault::Form(1)),
    (b" # no comment", ScriptFault::Form(1)),
    (b"x 99 2", ScriptFault::Form(1)),
    (b"x 99 z", ScriptFault::Number(1)),
    (b"1 +1 z", ScriptFault::Number(1)),
    (b"1 001 z", ScriptFault::Number(1)),
    (b"1 -1 z", ScriptFault::Number(1)),
    (b"00000000001 1 z", ScriptFault::Number(1)),
    (b"9 1 0\n# x\n\n8 99 1", ScriptFault::Pin(4)),
    (b"9 1 0\r\n\r\n8 29 1", ScriptFault::Order(3)),
    (b"8 29 1\n9 1 0\n8 1 1", ScriptFault::Order(3)),
    (b"8 29 1\nx\n7 1 1", ScriptFault::Form(2)),
    (b"version 3", ScriptFault::Version(1)),
    (b"#\n\nversion 0000000000\nx", ScriptFault::Version(3)),
    (b"version 02", ScriptFault::Form(1)),
    (b"version 00000000003", ScriptFault::Form(1)),
    (b"version x", ScriptFault::Form(1)),
    (b"1 1 1\nversion 3", ScriptFault::Form(2)),
    (b"version 2\nversion 3", ScriptFault::Form(2)),
    (b"send 10 3 65 41", ScriptFault::Form(1)),
    (b"version 2\r\nsend 10 3 65 4", ScriptFault::Bytes(2)),
    (b"version 2\nsend 10 3 63 41", ScriptFault::Divisor(2)),
    (b"version 2\nsend 10 3 4194304 4", ScriptFault::Divisor(2)),
    (b"version 2\nsend 10 30 63 41", ScriptFault::Pin(2)),
    (b"version 2\nsend 10 3 00000065 41", ScriptFault::Number(2)),
    (b"version 2\nsend 10 30 x 41", ScriptFault::Number(2)),
    (b"version 2\nsend 10 3 65 4g", ScriptFault::Bytes(2)),
    (b"version 2\nsend 10 3 65 ", ScriptFault::Form(2)),
    (b"version 2\nsend 10 3 65", ScriptFault::Form(2)),
    (b"version 2\nSend 10 3 65 41", ScriptFault::Form(2)),
    (b"version 2\nsend 10 3 65 41 41", ScriptFault::Form(2)),
    (b"version 2\nsend 10 3 65 41\n9 2 1", ScriptFault::Order(3)),
    (b"version 2\n11 2 1\nsend 10 3 65 41", ScriptFault::Order(3)),
    (b"version 2\n11 2 1\nsend 10 3 65 4", ScriptFault::Bytes(3)),
];

/// The first of these scripts whose fault is another one.
fn first_wrong(alloc: Global, cases: &[(&[u8], ScriptFault)]) -> Option<usize> {
    for (row, (bytes, fault)) in cases.iter().enumerate() {
        if bytes.len() > 100 || read_script(alloc, bytes).err() != Some(*fault) {
            return Some(row);
        }
    }
    None
}

#[test]
fn faults(rt: HostRuntime) {
    assert_eq!(rt; first_wrong(rt.alloc(), &FAULTS), None);
}

/// The cycle, the pin and the level of an entry.
type Line = (u64, u8, Level);

/// The script has these entries, in this order.
fn has(script: &Script, lines: &[Line]) -> bool {
    let entries = script.as_slice();
    if entries.len() != lines.len() {
        return false;
    }
    for (entry, line) in entries.iter().zip(lines) {
        if entry.cycle != line.0 || entry.pin != line.1 || entry.level != line.2 {
            return false;
        }
    }
    true
}

/// The entries of the file below.
const ENTRIES: [Line; 4] = [
    (5, 3, Level::High),
    (9, 3, Level::Free),
    (9, 29, Level::Low),
    (9_999_999_999, 0, Level::High),
];

#[test]
fn entries(rt: HostRuntime) -> Result<(), Fail> {
    let script = read_script(
        rt.alloc(),
        b"# pins\n\n05 03 1\r\n9 3 z\n9 29 0\n9999999999 0 1",
    )?;
    assert!(rt; has(&script, &ENTRIES));
    let script = read_script(rt.alloc(), b"\n#\n\r\n")?;
    assert!(rt; has(&script, &[]));
    Ok(())
}

/// Bits of a line that sends 41 to pin 3 from cycle 10 on at divisor 65, and the levels of pin 4 between.
const SENDS: [Line; 12] = [
    (10, 3, Level::Low),
    (27, 3, Level::High),
    (27, 4, Level::High),
    (28, 3, Level::Free),
    (43, 3, Level::Low),
    (59, 3, Level::Low),
    (75, 3, Level::Low),
    (92, 3, Level::Low),
    (108, 3, Level::Low),
    (124, 3, Level::High),
    (140, 3, Level::Low),
    (157, 3, Level::High),
];

#[test]
fn sends(rt: HostRuntime) -> Result<(), Fail> {
    let script = read_script(rt.alloc(), b"version 2\nsend 10 3 65 41\n27 4 1\n28 3 z")?;
    assert!(rt; has(&script, &SENDS));
    let script = read_script(rt.alloc(), b"")?;
    assert!(rt; has(&script, &[]));
    Ok(())
}

/// Cycles, and what the script below drives in each.
const DRIVES: [(u64, u32, u32); 8] = [
    (0, 0x10, 0),
    (4, 0x10, 0),
    (5, 0x18, 0x08),
    (8, 0x18, 0x08),
    (9, 0x2000_0010, 0x10),
    (1_000_000, 0x2000_0010, 0x10),
    (5, 0x18, 0x08),
    (9, 0x2000_0010, 0x10),
];

/// The script drives the pins so.
fn follows(cursor: &mut Cursor, script: &Script, cases: &[(u64, u32, u32)]) -> bool {
    for (cycle, driven, high) in cases {
        let drives = cursor.drives(script, *cycle);
        if drives.driven != *driven || drives.high != *high {
            return false;
        }
    }
    true
}

#[test]
fn levels(rt: HostRuntime) -> Result<(), Fail> {
    let script = read_script(rt.alloc(), b"0 4 0\n5 3 1\n9 3 0\n9 3 z\n9 29 0\n9 4 1")?;
    let mut cursor = Cursor::new();
    assert!(rt; follows(&mut cursor, &script, &DRIVES));
    let empty = Script::new(rt.alloc());
    assert!(rt; cursor.drives(&empty, 7) == Drives::NONE);
    the_greatest_pair_acts();
    Ok(())
}

/// How many entries a script of so many lines gives, or its fault.
fn read_lines(alloc: Global, lines: u32) -> Result<usize, ScriptFault> {
    let mut bytes = Vec::new(alloc);
    for _ in 0..lines {
        bytes.extend_from_slice(b"1 2 0\n")?;
    }
    if bytes.len() > 1_000_000 {
        return Ok(0);
    }
    Ok(read_script(alloc, &bytes)?.as_slice().len())
}

#[test]
fn too_many(rt: HostRuntime) {
    assert!(rt; read_lines(rt.alloc(), 100_000) == Ok(100_000));
    assert!(rt; read_lines(rt.alloc(), 100_001) == Err(ScriptFault::TooMany(100_001)));
}
