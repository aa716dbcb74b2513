//! The image of some bytes.

ghost use Rattle.std.specs.Prelude.{◌≡◌, ◌≢◌, ◌≤◌, ◌<◌, length, Ok, Err, IfOk, MatchResult};
ghost use Rattle.uf2_image.specs.Writing.{IsWritable};
ghost use Rattle.thumb_asm.specs.Source.{image_or_nothing, image_with, part_at, part_bytes, parts_of};

use crate::fault::ThumbFault;
use std::alloc::{AllocError, Global};
use thumb_parse::{Span, name_text};
use uf2_image::{Image, Part, PartBytes, PartList};

/// How many bytes a part has, but for the last.
const PART_SIZE: usize = 256;

/// Where code begins.
const START: u32 = 0x2000_0000;

/// The bytes of part `index`.
fn part_bytes(bytes: &[u8], index: usize) -> &[u8]
    requires { index ≤ 4096 }
    ensures { result.now ≡ part_bytes bytes.now index }
{
    let span = Span {
        start: PART_SIZE * index,
        count: PART_SIZE,
    };
    name_text(bytes, span)
}

/// Part `index` of some bytes.
fn part_at(alloc: Global, bytes: &[u8], index: usize) -> Result<Part, AllocError>
    requires { index ≤ 4096 }
    ensures { IfOk result (λ part. part ≡ part_at bytes.now index) }
{
    let mut copied = Vec::new(alloc);
    copied.extend_from_slice(part_bytes(bytes, index))?;
    Ok(Part {
        address: START + 256 * index as u32,
        bytes: PartBytes::from_vec(copied),
    })
}

/// The parts of some bytes.
#[tactic(auto, unfolding(crate::specs::Source::parts_of))]
fn parts_of(alloc: Global, bytes: &[u8]) -> Result<PartList, AllocError>
    requires { length bytes.now ≤ 1048576 }
    ensures { IfOk result (λ parts. parts ≡ parts_of bytes.now) }
{
    let mut parts = Vec::new(alloc);
    for index in 0..(bytes.len() + 255) / PART_SIZE {
        parts.push(part_at(alloc, bytes, index)?)?;
    }
    Ok(PartList::from_vec(parts))
}

/// The image of some bytes from the start of SRAM on.
#[tactic(auto, using(crate::proofs::Parts::writable))]
fn image_of(alloc: Global, bytes: &[u8]) -> Result<Image, AllocError>
    requires some { 0 < length bytes.now }
    requires short { length bytes.now ≤ 0x42000 }
    ensures image { IfOk result (λ image. image ≡ image_with bytes.now) }
    ensures writable { IfOk result IsWritable }
{
    Ok(Image {
        parts: parts_of(alloc, bytes)?,
        entry: START,
    })
}

/// The image of some bytes from the start of SRAM on, if there are any.
pub(crate) fn image_or_nothing(alloc: Global, bytes: Vec<u8>) -> Result<Image, ThumbFault>
    requires { length bytes.items ≤ 0x42000 }
    ensures image { MatchResult result (λ image. image_or_nothing bytes.items ≡ Ok image)
        (λ fault. fault ≢ ThumbFault.Memory → image_or_nothing bytes.items ≡ Err fault) }
    ensures writable { IfOk result IsWritable }
{
    let bytes = bytes.as_slice();
    if bytes.is_empty() {
        return Err(ThumbFault::Nothing(0));
    }
    let image = image_of(alloc, bytes)?;
    Ok(image)
}
