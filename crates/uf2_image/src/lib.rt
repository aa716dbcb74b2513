//! UF2 images (Microsoft, "USB Flashing Format (UF2)"): what a file loads into the SRAM of an RP2040.
//!
//! `read_image` gives the image of a file, or the first fault of the file; `write_image` the file of an image;
//! `numbered::generated` the image of a number.
#![tactic(auto)]

ghost use Rattle.std.specs.Prelude.{◌≡◌, ◌≢◌, ◌≤◌, length, MatchResult, IfOk};
ghost use Rattle.uf2_image.specs.Uf2.{image_of, FitsSram};

mod blocks;
pub mod fault;
pub mod laws;
pub mod numbered;
mod order;
pub mod parts;
mod reading;
mod writing;

use blocks::BLOCK_SIZE;
pub use fault::ImageFault;
use order::image_of_blocks;
pub use parts::{Image, Part, PartBytes, PartList};
use reading::read_blocks;
use std::alloc::Global;
pub use writing::write_image;

/// The image of a UF2 file of at most 16 MiB.
///
/// # Errors
///
/// The first fault of the file: first its length, then block for block, then what the whole lacks. `Memory` comes
/// where memory runs out.
#[tactic(auto, using(crate::proofs::Files::image_empty, crate::proofs::Files::image_ragged))]
pub fn read_image(alloc: Global, bytes: &[u8]) -> Result<Image, ImageFault>
    requires { length bytes.now ≤ 16777216 }
    // The answer is the definition's, unless memory ran out.
    ensures image { MatchResult result (λ image. image_of bytes.now ≡ Ok image)
        (λ fault. fault ≢ ImageFault.Memory → image_of bytes.now ≡ Err fault) }
    // What holds of every image, for callers that place one.
    ensures fits { IfOk result FitsSram }
{
    if bytes.is_empty() {
        return Err(ImageFault::Empty);
    }
    if bytes.len() % BLOCK_SIZE != 0 {
        return Err(ImageFault::Ragged(bytes.len() as u64));
    }
    let kept = read_blocks(alloc, bytes)?;
    image_of_blocks(alloc, &kept)
}
