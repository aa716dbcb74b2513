//! What tests hand in: files of small programs, the words of a command line, and texts in short.

use std::alloc::{AllocError, Global};

/// A block of a UF2 file.
#[derive(Clone, Copy)]
pub struct Block {
    /// Its number, of so many.
    pub number: u32,
    /// How many blocks there are.
    pub count: u32,
    /// Where its payload is loaded.
    pub target: u32,
    /// Its family.
    pub family: u32,
    /// Its payload, by halfwords.
    pub code: &'static [u16],
}

/// The family of the RP2040.
pub const RP2040: u32 = 0xe48b_ff56;

/// Block 0 of 1, for 20000000.
pub const ONLY: Block = Block {
    number: 0,
    count: 1,
    target: 0x2000_0000,
    family: RP2040,
    code: &[],
};

/// The bytes of a block with this code.
fn bytes_of(alloc: Global, block: &Block, code: &[u16]) -> Result<Vec<u8>, AllocError> {
    let mut bytes = Vec::new(alloc);
    let size = u32::try_from(code.len()).unwrap_or(0).wrapping_mul(2);
    for word in [
        0x0a32_4655,
        0x9e5d_5157,
        0x2000,
        block.target,
        size,
        block.number,
        block.count,
        block.family,
    ] {
        bytes.extend_from_slice(&u32::to_le_bytes(word))?;
    }
    for half in code {
        bytes.extend_from_slice(&half.to_le_bytes())?;
    }
    for _ in bytes.len()..508 {
        bytes.push(0)?;
    }
    bytes.extend_from_slice(&u32::to_le_bytes(0x0ab1_6f30))?;
    Ok(bytes)
}

/// The file of some blocks.
pub fn blocks(alloc: Global, blocks: &[Block]) -> Result<Vec<u8>, AllocError> {
    let mut bytes = Vec::new(alloc);
    for block in blocks {
        bytes.extend_from_slice(&bytes_of(alloc, block, block.code)?)?;
    }
    Ok(bytes)
}

/// The file of a program that is loaded at 20000000.
pub fn image(alloc: Global, code: &[u16]) -> Result<Vec<u8>, AllocError> {
    bytes_of(alloc, &ONLY, code)
}

/// The words of a command line.
pub fn texts(alloc: Global, words: &[&str]) -> Result<Vec<String>, AllocError> {
    let mut owned = Vec::new(alloc);
    for word in words {
        owned.push(String::from_str(alloc, word)?)?;
    }
    Ok(owned)
}

/// Appends the words that stand for a `*` behind so many spaces of its line: zeros up to R12.
fn push_zeros(spaces: usize, text: &mut Vec<u8>) -> Result<(), AllocError> {
    text.extend_from_slice(b"00000000")?;
    for _ in spaces..13 {
        text.extend_from_slice(b" 00000000")?;
    }
    Ok(())
}

/// A text of which all is written out: a `*` in a line of registers stands for those from there to R12, which are 0.
pub fn in_full(alloc: Global, short: &[u8]) -> Result<Vec<u8>, AllocError> {
    let mut text = Vec::new(alloc);
    let mut spaces = 0usize;
    for byte in short {
        match byte {
            b'*' => push_zeros(spaces, &mut text)?,
            _ => text.push(*byte)?,
        }
        spaces = match byte {
            b'\n' => 0,
            b' ' => spaces.saturating_add(1),
            _ => spaces,
        };
    }
    Ok(text)
}

/// The first so many lines of a text.
pub fn first_lines(text: &[u8], count: usize) -> &[u8] {
    let mut lines = 0usize;
    for (index, byte) in text.iter().enumerate() {
        if lines == count {
            let (front, _) = text.split_at(index.min(text.len()));
            return front;
        }
        if *byte == b'\n' {
            lines = lines.saturating_add(1);
        }
    }
    text
}

/// A text, and behind it another one so many times.
pub fn repeated(
    alloc: Global,
    first: &[u8],
    next: &[u8],
    count: usize,
) -> Result<Vec<u8>, AllocError> {
    let mut text = Vec::from_slice(alloc, first)?;
    for _ in 0..count {
        text.extend_from_slice(next)?;
    }
    Ok(text)
}
