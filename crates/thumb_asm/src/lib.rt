//! Thumb sources: an assembler for ARMv6-M (ARMv6-M Architecture Reference Manual, A6.7).
//!
//! A source is a list of lines `[name:] [item]`, where `;` begins a comment. `assemble_thumb` gives the image of its bytes, from the
//! start of SRAM on, or the first fault.
#![tactic(auto)]

ghost use Rattle.std.specs.Prelude.{◌≡◌, ◌≢◌, ◌≤◌, length, MatchResult, IfOk, None, Ok, Err};
ghost use Rattle.std.specs.Str.Lines.{lines};
ghost use Rattle.uf2_image.specs.Writing.{IsWritable};
ghost use Rattle.source_text.specs.Lines.{first_that};
ghost use Rattle.thumb_asm.specs.Lines.{has_other_char};
ghost use Rattle.thumb_asm.specs.Source.{image_of_source};

pub mod fault;
mod image;
pub mod laws;
mod lines;
mod placed;
mod source;

pub use fault::ThumbFault;
use image::image_or_nothing;
use lines::first_other_char;
use source::{find_names, read_bytes};
use std::alloc::Global;
use uf2_image::Image;

/// The image of a source without characters that may not stand on their lines.
fn assemble_lines(alloc: Global, text: &[u8]) -> Result<Image, ThumbFault>
    requires short { length text.now ≤ 1048576 }
    requires allowed { first_that has_other_char 1 (lines text.now) ≡ None }
    ensures image { MatchResult result (λ image. image_of_source text.now ≡ Ok image)
        (λ fault. fault ≢ ThumbFault.Memory → image_of_source text.now ≡ Err fault) }
    ensures writable { IfOk result IsWritable }
{
    let names = find_names(alloc, text)?;
    let bytes = read_bytes(alloc, &names, text)?;
    image_or_nothing(alloc, bytes)
}

/// The image of a source of at most 1 MiB: its bytes from 20000000 on, in parts of 256 bytes, with the entry 20000000.
///
/// # Errors
///
/// The first fault: the first character that may not stand on its line, or else the first line that has no form, or else the first line
/// with another fault, where the least number counts, or else that there are no bytes. `Memory` comes where memory runs out.
#[tactic(auto, using(crate::proofs::Whole::char_fault))]
pub fn assemble_thumb(alloc: Global, text: &[u8]) -> Result<Image, ThumbFault>
    requires { length text.now ≤ 1048576 }
    // The answer is the definition's, unless memory ran out.
    ensures image { MatchResult result (λ image. image_of_source text.now ≡ Ok image)
        (λ fault. fault ≢ ThumbFault.Memory → image_of_source text.now ≡ Err fault) }
    // What holds of every image, for callers that write one.
    ensures writable { IfOk result IsWritable }
{
    match first_other_char(text) {
        Some(number) => Err(ThumbFault::Char(number)),
        None => assemble_lines(alloc, text),
    }
}
