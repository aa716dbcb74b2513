//! Worked values.

use ram_banks::{Ram, WORDS};
use std::alloc::AllocError;

/// Lanes, value and word before, and the word after.
const WRITES: [(u8, u32, u32, u32); 8] = [
    (0xf, 0x1234_5678, 0xaabb_ccdd, 0x1234_5678),
    (0x1, 0x1234_5678, 0xaabb_ccdd, 0xaabb_cc78),
    (0x2, 0x1234_5678, 0xaabb_ccdd, 0xaabb_56dd),
    (0x4, 0x1234_5678, 0xaabb_ccdd, 0xaa34_ccdd),
    (0x8, 0x1234_5678, 0xaabb_ccdd, 0x12bb_ccdd),
    (0x3, 0x1234_5678, 0xaabb_ccdd, 0xaabb_5678),
    (0xc, 0x1234_5678, 0xaabb_ccdd, 0x1234_ccdd),
    (0xf0, 0x1234_5678, 0xaabb_ccdd, 0xaabb_ccdd),
];

#[test]
fn lanes(rt: HostRuntime) -> Result<(), AllocError> {
    let mut ram = Ram::new(rt.alloc())?;
    assert_eq!(rt; ram.read(0), 0);
    assert_eq!(rt; ram.read(67583), 0);
    for (lanes, value, before, after) in WRITES {
        ram.write(67583, 0xf, before);
        ram.write(67583, lanes, value);
        assert_eq!(rt; ram.read(67583), after);
        assert_eq!(rt; ram.read(67582), 0);
    }
    Ok(())
}

#[test]
fn words(rt: HostRuntime) -> Result<(), AllocError> {
    let alloc = rt.alloc();
    let mut words = vec![in alloc; 0; WORDS]?;
    words[5] = 0x0102_0304;
    let booted = Ram::from_words(words);
    let mut ram = Ram::new(alloc)?;
    ram.copy_from(&booted);
    assert_eq!(rt; ram.read(4), 0);
    assert_eq!(rt; ram.read(5), 0x0102_0304);
    Ok(())
}
