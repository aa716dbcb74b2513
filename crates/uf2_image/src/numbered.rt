//! Programs that are generated from a number: an image of 32,768 bytes at the start of SRAM that runs for ever.

ghost use Rattle.std.specs.Prelude.{◌≡◌, ◌≤◌, ◌/◌, ◌%◌, ◌++◌, IfOk};
ghost use Rattle.uf2_image.specs.Uf2.{FitsSram};
ghost use Rattle.uf2_image.specs.Code.{with_value, with_register, instruction, code_from, program_of, image_of_number};

use crate::{Image, Part, PartBytes, PartList};
use rand_core::utils::NextWord;
use rand_pcg::Lcg64Xsh32;
use std::alloc::{AllocError, Global};

/// How many instructions stand before the BL.
const COUNT: u32 = 16382;

/// The address of the first byte, which is the entry too.
const START: u32 = 0x2000_0000;

/// An instruction with a register and eight bits of value.
fn with_value(row: u16, word: u32) -> u16
    requires { row ≤ 0x3800 }
    ensures { result ≡ with_value row (word / 8 % 8) (word / 512 % 256) }
{
    row + (word / 8 % 8 * 256 + word / 512 % 256) as u16
}

/// An instruction with two registers.
fn with_register(row: u16, word: u32) -> u16
    requires { row ≤ 0x4340 }
    ensures { result ≡ with_register row (word / 8 % 8) (word / 64 % 8) }
{
    row + (word / 64 % 8 * 8 + word / 8 % 8) as u16
}

/// The instruction of a word.
#[tactic(auto, unfolding(crate::specs::Code::instruction))]
fn instruction_of(word: u32) -> u16
    ensures { result ≡ instruction word }
{
    match word % 8 {
        0 => with_value(0x2000, word),
        1 => with_value(0x3000, word),
        2 => with_register(0x4040, word),
        3 => with_register(0x4140, word),
        4 => with_register(0x4080, word),
        5 => with_register(0x41c0, word),
        6 => with_register(0x4340, word),
        _ => with_value(0x3800, word),
    }
}

/// Appends the instructions of the next words of a generator on stream 1.
fn push_code(count: u32, random: &mut Lcg64Xsh32, bytes: &mut Vec<u8>) -> Result<(), AllocError>
    requires { random.old.increment ≡ 3 }
    ensures { IfOk result (λ done. bytes.new.items ≡ bytes.old.items
        ++ code_from count random.old.state) }
{
    let mut left = count;
    while left > 0 {
        let [low, high] = instruction_of(random.next_word()).to_le_bytes();
        bytes.push(low)?;
        bytes.push(high)?;
        left -= 1;
    }
    Ok(())
}

/// The image of the program of a number: 32,768 bytes at 20000000. `AllocError` comes where memory runs out.
#[tactic(auto, unfolding(crate::specs::Code::program_of))]
pub fn generated(alloc: Global, number: u64) -> Result<Image, AllocError>
    ensures image { IfOk result (λ image. image ≡ image_of_number number) }
    // What holds of every image, for callers that load one.
    ensures fits { IfOk result FitsSram }
{
    let mut random = Lcg64Xsh32::new(number, 1);
    let mut bytes = Vec::new(alloc);
    push_code(COUNT, &mut random, &mut bytes)?;
    bytes.extend_from_slice(&[0xf8, 0xf7, 0x00, 0xf8])?;
    let mut parts = Vec::new(alloc);
    parts.push(Part {
        address: START,
        bytes: PartBytes::from_vec(bytes),
    })?;
    Ok(Image {
        parts: PartList::from_vec(parts),
        entry: START,
    })
}
