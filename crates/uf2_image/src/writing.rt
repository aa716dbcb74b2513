//! The UF2 file of an image (Microsoft, "USB Flashing Format (UF2)", sections File format, Flags and Family ID).

ghost use Rattle.std.specs.Prelude.{◌≡◌, ◌++◌, ◌∷◌, [], IfOk, OnOk, Ok};
ghost use Rattle.uf2_image.specs.Uf2.{image_of};
ghost use Rattle.uf2_image.specs.Writing.{block_of, file_of, words, IsSized, IsWritable};

use crate::blocks::{LARGEST_PAYLOAD, RP2040_FAMILY};
use crate::parts::{Image, Part};
use byteorder::{ByteOrder, LittleEndian};
use std::alloc::{AllocError, Global};

/// The flag of a block that says that its last word before the payload is a family.
const HAS_FAMILY: u32 = 0x2000;

/// The eight words before the payload of a part.
#[tactic(auto, unfolding(crate::specs::Writing::words))]
fn head_of(count: u32, number: u32, address: u32, size: u32) -> [u8; 32]
    ensures { result ≡ words (0x0A324655 ∷ 0x9E5D5157 ∷ 0x2000 ∷ address ∷ size ∷ number ∷ count
        ∷ 0xE48BFF56 ∷ []) }
{
    let fields = [
        0x0A32_4655,
        0x9E5D_5157,
        HAS_FAMILY,
        address,
        size,
        number,
        count,
        RP2040_FAMILY,
    ];
    let mut head = [0; 32];
    LittleEndian::write_u32_into(&fields, &mut head);
    head
}

/// The last word of a block.
#[tactic(auto, unfolding(crate::specs::Writing::words))]
fn end() -> [u8; 4]
    ensures { result ≡ words (0x0AB16F30 ∷ []) }
{
    0x0AB1_6F30_u32.to_le_bytes()
}

/// Appends the block of a part, as it stands in a file of so many blocks.
fn push_block(bytes: &mut Vec<u8>, count: u32, number: u32, part: &Part) -> Result<(), AllocError>
    requires { IsSized part.now }
    ensures { OnOk result (bytes.new.items ≡ bytes.old.items ++ block_of count number part.now) }
{
    let payload = part.bytes.as_slice();
    let size = payload.len();
    let head = head_of(count, number, part.address, size as u32);
    bytes.extend_from_slice(&head)?;
    bytes.extend_from_slice(payload)?;
    bytes.resize(bytes.len() + LARGEST_PAYLOAD as usize - size, 0)?;
    let last = end();
    bytes.extend_from_slice(&last)?;
    Ok(())
}

/// The UF2 file of an image: a block of 512 bytes for each part, in order of address.
///
/// The image is one that `read_image` can give: 1 to 32,768 parts of 1 to 476 bytes each, which ascend in SRAM without overlap,
/// and the entry at the first of these bytes, with bit 0 cleared.
///
/// # Errors
///
/// `AllocError` comes where memory runs out.
#[tactic(auto, using(crate::proofs::Written::part_all, crate::proofs::Written::what_is_written_is_read))]
pub fn write_image(alloc: Global, image: &Image) -> Result<Vec<u8>, AllocError>
    requires { IsWritable image.now }
    ensures value { IfOk result (λ bytes. bytes.items ≡ file_of image.now) }
    // It is a file of that image.
    ensures read { image_of (file_of image.now) ≡ Ok image.now }
{
    let parts = image.parts.as_slice();
    let count = parts.len() as u32;
    let mut bytes = Vec::new(alloc);
    let mut number = 0;
    for part in parts {
        push_block(&mut bytes, count, number, part)?;
        number += 1;
    }
    Ok(bytes)
}
