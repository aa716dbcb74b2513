//! The words of SRAM that an image leaves.

ghost use Rattle.std.specs.Prelude.{◌≡◌, ◌+◌, ◌*◌, ◌≤◌, length, vec_len, IfOk};
ghost use Rattle.uf2_image.specs.Uf2.{LieFrom};
ghost use Rattle.rp_machine.specs.Loading.{with_part, bytes_with, word_at, words_in, zeros, loaded_sram};

use byteorder::{ByteOrder, LittleEndian};
use ram_banks::WORDS;
use std::alloc::{AllocError, Global};
use uf2_image::Part;

/// How many bytes SRAM has.
const BYTES: usize = 270_336;

/// The first address of SRAM.
const FIRST: u32 = 0x2000_0000;

/// So many bytes of 0.
#[tactic(auto, unfolding(crate::specs::Loading::zeros))]
fn empty_bytes(alloc: Global, count: usize) -> Result<Vec<u8>, AllocError>
    ensures value { IfOk result (λ bytes. bytes.items ≡ zeros count) }
    ensures size { IfOk result (λ bytes. vec_len bytes ≡ count) }
{
    vec![in alloc; 0; count]
}

/// Puts a part's bytes at their addresses.
fn put_part(bytes: &mut Vec<u8>, part: &Part)
    requires size { vec_len bytes.old ≡ BYTES }
    requires low { FIRST ≤ part.now.address }
    requires high { part.now.address + length part.now.bytes ≤ 0x20042000 }
    ensures value { bytes.new.items ≡ with_part bytes.old.items part.now }
    ensures size { vec_len bytes.new ≡ BYTES }
{
    let at = (part.address - FIRST) as usize;
    let loaded = part.bytes.as_slice();
    let end = at + loaded.len();
    bytes[at..end].copy_from_slice(loaded);
}

/// The bytes that the parts of an image leave.
fn bytes_of(alloc: Global, parts: &[Part]) -> Result<Vec<u8>, AllocError>
    requires { LieFrom FIRST parts.now }
    ensures value { IfOk result (λ bytes. bytes.items ≡ bytes_with parts.now) }
    ensures size { IfOk result (λ bytes. vec_len bytes ≡ BYTES) }
{
    let mut bytes = empty_bytes(alloc, BYTES)?;
    for part in parts {
        put_part(&mut bytes, part);
    }
    Ok(bytes)
}

/// The word of an index.
fn word_of(bytes: &[u8], index: usize) -> u32
    requires { 4 * index + 4 ≤ length bytes.now }
    ensures { result ≡ word_at bytes.now index }
{
    let (_, from_here) = bytes.split_at(4 * index);
    LittleEndian::read_u32(from_here)
}

/// The first words of some bytes.
#[tactic(auto, unfolding(crate::specs::Loading::words_in))]
fn first_words(alloc: Global, bytes: &[u8], count: usize) -> Result<Vec<u32>, AllocError>
    requires { 4 * count ≤ length bytes.now }
    ensures value { IfOk result (λ words. words.items ≡ words_in count bytes.now) }
    ensures size { IfOk result (λ words. vec_len words ≡ count) }
{
    let mut words = Vec::with_capacity(alloc, count)?;
    for index in 0..count {
        words.push(word_of(bytes, index))?;
    }
    Ok(words)
}

/// The words that the parts of an image leave.
#[tactic(auto, unfolding(crate::specs::Loading::loaded_sram))]
pub(crate) fn words_of(alloc: Global, parts: &[Part]) -> Result<Vec<u32>, AllocError>
    requires { LieFrom FIRST parts.now }
    ensures value { IfOk result (λ words. words.items ≡ loaded_sram parts.now) }
    ensures size { IfOk result (λ words. vec_len words ≡ WORDS) }
{
    let bytes = bytes_of(alloc, parts)?;
    first_words(alloc, &bytes, WORDS)
}
