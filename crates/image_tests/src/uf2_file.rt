//! Files of UF2 blocks, for tests.

use crate::little_endian::push_word;
use std::alloc::{AllocError, Global};

/// The fields of a block. Each byte of its payload is the low byte of its number, and each other byte is 238.
#[derive(Clone, Copy)]
pub struct Fields {
    /// The words at 0, 4 and 508.
    pub magic: (u32, u32, u32),
    /// The word at 8.
    pub flags: u32,
    /// The word at 12.
    pub target: u32,
    /// The word at 16.
    pub size: u32,
    /// The word at 20.
    pub number: u32,
    /// The word at 24.
    pub count: u32,
    /// The word at 28.
    pub family: u32,
}

/// The magic words of UF2.
pub const MAGIC: (u32, u32, u32) = (0x0A32_4655, 0x9E5D_5157, 0x0AB1_6F30);

/// The family of the RP2040.
pub const RP2040: u32 = 0xE48B_FF56;

/// A block for the RP2040.
pub fn plain(number: u32, count: u32, target: u32, size: u32) -> Fields {
    Fields {
        magic: MAGIC,
        flags: 0x2000,
        target,
        size,
        number,
        count,
        family: RP2040,
    }
}

/// A block that is skipped, whose other fields are all wrong.
pub fn skipped(flags: u32, family: u32) -> Fields {
    Fields {
        magic: MAGIC,
        flags,
        target: 0x1000_0000,
        size: 0,
        number: 9,
        count: 0,
        family,
    }
}

/// A block with these magic words.
pub fn with_magic(first: u32, second: u32, last: u32) -> Fields {
    Fields {
        magic: (first, second, last),
        ..plain(0, 1, 0x2000_0000, 4)
    }
}

/// Appends a block to a file.
pub fn push_block(file: &mut Vec<u8>, fields: Fields) -> Result<(), AllocError> {
    let header = [
        fields.magic.0,
        fields.magic.1,
        fields.flags,
        fields.target,
        fields.size,
        fields.number,
        fields.count,
        fields.family,
    ];
    for word in header {
        push_word(file, word)?;
    }
    let fill = (fields.number & 0xff) as u8;
    for index in 0..476u32 {
        file.push(if index < fields.size { fill } else { 238 })?;
    }
    push_word(file, fields.magic.2)
}

/// A file of three blocks.
pub fn file_of(alloc: Global, blocks: [Fields; 3]) -> Result<Vec<u8>, AllocError> {
    let mut file = Vec::new(alloc);
    for fields in blocks {
        push_block(&mut file, fields)?;
    }
    Ok(file)
}
