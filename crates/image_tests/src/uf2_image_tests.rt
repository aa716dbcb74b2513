//! Whole files, and what each gives.

use crate::uf2_file::{Fields, MAGIC, RP2040, file_of, plain, push_block, skipped, with_magic};
use std::alloc::{AllocError, Global};
use std::test::Fail;
use uf2_image::fault::ImageFault;
use uf2_image::parts::{Image, Part};
use uf2_image::read_image;

const NONE: (u32, usize, u8) = (0, 0, 0);

/// What a file gives, where it is short enough to be asked.
pub(crate) fn read(alloc: Global, file: &[u8]) -> Result<Image, ImageFault> {
    if file.len() > 16_777_216 {
        return Err(ImageFault::Memory);
    }
    read_image(alloc, file)
}

/// Lengths of files of zeros, and the fault of each.
const LENGTHS: [(usize, ImageFault); 3] = [
    (0, ImageFault::Empty),
    (511, ImageFault::Ragged(511)),
    (513, ImageFault::Ragged(513)),
];

/// The fault of a file of so many zeros.
fn fault_of_zeros(alloc: Global, len: usize) -> Option<ImageFault> {
    match vec![in alloc; 0u8; len] {
        Ok(file) => read(alloc, &file).err(),
        Err(_) => Some(ImageFault::Memory),
    }
}

#[test]
fn lengths(rt: HostRuntime) {
    for (len, want) in LENGTHS {
        assert!(rt; fault_of_zeros(rt.alloc(), len) == Some(want), "at {len}");
    }
}

/// The fault of a file of these blocks.
fn fault_of(alloc: Global, blocks: [Fields; 3]) -> Result<Option<ImageFault>, AllocError> {
    Ok(read(alloc, &file_of(alloc, blocks)?).err())
}

#[test]
fn faults_of_fields(rt: HostRuntime) -> Result<(), Fail> {
    let alloc = rt.alloc();
    let skip = skipped(0x2000, 7);
    let cases = [
        // Magic words.
        (
            [with_magic(0, MAGIC.1, MAGIC.2), skip, skip],
            ImageFault::Magic(0),
        ),
        (
            [
                plain(0, 1, 0x2000_0000, 4),
                with_magic(MAGIC.0, 0, MAGIC.2),
                skip,
            ],
            ImageFault::Magic(1),
        ),
        (
            [skip, skip, with_magic(MAGIC.0, MAGIC.1, 0)],
            ImageFault::Magic(2),
        ),
        // Sizes and numbers.
        (
            [plain(0, 1, 0x2000_0000, 0), skip, skip],
            ImageFault::Payload(0, 0),
        ),
        (
            [skip, plain(0, 1, 0x2000_0000, 477), skip],
            ImageFault::Payload(1, 477),
        ),
        (
            [plain(0, 0, 0x2000_0000, 4), skip, skip],
            ImageFault::Count(0),
        ),
        (
            [
                plain(0, 2, 0x2000_0000, 4),
                skip,
                plain(1, 3, 0x2000_0004, 4),
            ],
            ImageFault::Count(2),
        ),
        (
            [plain(1, 1, 0x2000_0000, 4), skip, skip],
            ImageFault::Number(0),
        ),
        (
            [
                plain(0, 3, 0x2000_0000, 4),
                plain(1, 3, 0x2000_0100, 4),
                plain(1, 3, 0x2000_0200, 4),
            ],
            ImageFault::Repeat(2),
        ),
    ];
    for (blocks, want) in cases {
        assert!(rt; fault_of(alloc, blocks)? == Some(want));
    }
    Ok(())
}

#[test]
fn faults_of_addresses(rt: HostRuntime) -> Result<(), Fail> {
    let alloc = rt.alloc();
    let skip = skipped(0x2000, 7);
    let cases = [
        // Addresses.
        (
            [plain(0, 9, 0x1000_0000, 256), skip, skip],
            ImageFault::Flash(0, 0x1000_0000),
        ),
        (
            [plain(0, 9, 0x0FFF_FFFF, 2), skip, skip],
            ImageFault::Flash(0, 0x0FFF_FFFF),
        ),
        (
            [skip, plain(0, 9, 0x13FF_FFFF, 1), skip],
            ImageFault::Flash(1, 0x13FF_FFFF),
        ),
        (
            [plain(0, 9, 0x1400_0000, 4), skip, skip],
            ImageFault::Address(0, 0x1400_0000),
        ),
        (
            [plain(0, 9, 0x0FFF_FF00, 256), skip, skip],
            ImageFault::Address(0, 0x0FFF_FF00),
        ),
        (
            [plain(0, 9, 0x1FFF_FFFF, 2), skip, skip],
            ImageFault::Address(0, 0x1FFF_FFFF),
        ),
        (
            [plain(0, 9, 0x2004_1F01, 256), skip, skip],
            ImageFault::Address(0, 0x2004_1F01),
        ),
        (
            [plain(0, 9, 0xFFFF_FFFF, 476), skip, skip],
            ImageFault::Address(0, 0xFFFF_FFFF),
        ),
        // Overlaps, which come before what the whole lacks.
        (
            [
                plain(0, 2, 0x2000_0000, 256),
                plain(1, 2, 0x2000_00FF, 256),
                skip,
            ],
            ImageFault::Overlap(1),
        ),
        (
            [
                plain(0, 2, 0x2000_00FF, 256),
                plain(1, 2, 0x2000_0000, 256),
                skip,
            ],
            ImageFault::Overlap(1),
        ),
        (
            [
                plain(0, 3, 0x2000_0000, 256),
                skip,
                plain(2, 3, 0x2000_0080, 4),
            ],
            ImageFault::Overlap(2),
        ),
        // What the whole lacks.
        (
            [
                plain(0, 3, 0x2000_0000, 4),
                plain(2, 3, 0x2000_0100, 4),
                skip,
            ],
            ImageFault::Missing(1),
        ),
        (
            [
                plain(2, 3, 0x2000_0000, 4),
                skip,
                plain(1, 3, 0x2000_0100, 4),
            ],
            ImageFault::Missing(0),
        ),
        (
            [skip, skipped(0x1, 0), skipped(0x3000, RP2040)],
            ImageFault::Nothing,
        ),
    ];
    for (blocks, want) in cases {
        assert!(rt; fault_of(alloc, blocks)? == Some(want));
    }
    Ok(())
}

/// Whether a part has this address, this size and this byte throughout.
fn is_part(part: &Part, want: &(u32, usize, u8)) -> bool {
    let bytes = part.bytes.as_slice();
    for byte in bytes {
        if *byte != want.2 {
            return false;
        }
    }
    part.address == want.0 && bytes.len() == want.1
}

/// The parts of an image are these, each an address, a size and a block number; `NONE` stands for no part.
fn has_parts(image: &Image, want: &[(u32, usize, u8)]) -> bool {
    let parts = image.parts.as_slice();
    if parts.len() > want.len() {
        return false;
    }
    for (index, row) in want.iter().enumerate() {
        let right = match parts.get(index) {
            Some(part) => is_part(part, row),
            None => row.1 == 0,
        };
        if !right {
            return false;
        }
    }
    true
}

/// A file of these blocks gives an image with this entry and these parts.
fn gives(
    alloc: Global,
    blocks: [Fields; 3],
    entry: u32,
    parts: &[(u32, usize, u8)],
) -> Result<bool, AllocError> {
    match read(alloc, &file_of(alloc, blocks)?) {
        Ok(image) => Ok(image.entry == entry && has_parts(&image, parts)),
        Err(_) => Ok(false),
    }
}

#[test]
fn images(rt: HostRuntime) -> Result<(), Fail> {
    let alloc = rt.alloc();
    let skip = skipped(0x2000, 7);
    let no_family = Fields {
        flags: 0x0,
        family: 7,
        ..plain(1, 2, 0x2000_0006, 6)
    };
    let cases = [
        (
            [plain(0, 1, 0x2000_0000, 6), skip, skip],
            0x2000_0000,
            [(0x2000_0000, 6, 0), NONE, NONE],
        ),
        (
            [skip, plain(0, 1, 0x2004_1F00, 256), skip],
            0x2004_1F00,
            [(0x2004_1F00, 256, 0), NONE, NONE],
        ),
        (
            [
                plain(2, 3, 0x2000_0200, 256),
                plain(0, 3, 0x2000_0000, 256),
                plain(1, 3, 0x2000_0100, 256),
            ],
            0x2000_0000,
            [
                (0x2000_0000, 256, 0),
                (0x2000_0100, 256, 1),
                (0x2000_0200, 256, 2),
            ],
        ),
        (
            [
                plain(1, 2, 0x2000_0300, 1),
                skipped(0x1, 7),
                plain(0, 2, 0x2000_0101, 476),
            ],
            0x2000_0100,
            [(0x2000_0101, 476, 0), (0x2000_0300, 1, 1), NONE],
        ),
        (
            [
                plain(0, 2, 0x2000_0000, 6),
                skipped(0x3000, RP2040),
                no_family,
            ],
            0x2000_0000,
            [(0x2000_0000, 6, 0), (0x2000_0006, 6, 1), NONE],
        ),
    ];
    for (blocks, entry, parts) in cases {
        assert!(rt; gives(alloc, blocks, entry, &parts)?, "{entry:x}");
    }
    Ok(())
}

/// The largest file: its blocks come in another order than their addresses.
fn largest(alloc: Global) -> Result<Vec<u8>, AllocError> {
    let mut file = Vec::with_capacity(alloc, 16_777_216)?;
    for number in 0..32_768u32 {
        let index = number.wrapping_mul(4097) % 32_768;
        push_block(&mut file, plain(number, 32_768, 0x2000_0000 + 8 * index, 8))?;
    }
    Ok(file)
}

/// The parts lie one behind another, each of eight bytes.
fn are_in_order(image: &Image) -> bool {
    let mut address = 0x2000_0000u32;
    for part in image.parts.as_slice() {
        if part.address != address {
            return false;
        }
        address = address.wrapping_add(8);
    }
    image.entry == 0x2000_0000 && image.parts.as_slice().len() == 32_768
}

#[test]
fn largest_file(rt: HostRuntime) -> Result<(), Fail> {
    let file = largest(rt.alloc())?;
    let right = match read(rt.alloc(), &file) {
        Ok(image) => are_in_order(&image),
        Err(_) => false,
    };
    assert!(rt; right);
    Ok(())
}
