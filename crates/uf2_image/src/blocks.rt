//! One block of a UF2 file, and its fields.

ghost use Rattle.std.specs.Prelude.{◌≡◌, ◌≤◌, ◌<◌, not, length, IfOk, IfErr};
ghost use Rattle.uf2_image.specs.Uf2.{any_address, count_of, family_of, flags_of, has_flag, has_magic, is_flash, is_kept, is_sram, number_of, part_of, payload_of, size_of, target_of, word};
ghost use Rattle.std.specs.Bool.{OnFalse};
ghost use Rattle.uf2_image.specs.Reading.{HasPayload, LiesInSram};

use crate::fault::ImageFault;
use crate::parts::{Part, PartBytes};
use byteorder::{ByteOrder, LittleEndian};
use std::alloc::Global;
use std::marker::Model;

/// The bytes of a block.
pub const BLOCK_SIZE: usize = 512;
/// The most bytes that a block's payload has.
pub const LARGEST_PAYLOAD: u32 = 476;
/// The first address of SRAM.
pub const SRAM_START: u32 = 0x2000_0000;
/// The first address behind SRAM.
pub const SRAM_END: u32 = 0x2004_2000;

/// The offset of the payload in a block.
const PAYLOAD_START: usize = 32;
/// The first address of flash.
const FLASH_START: u32 = 0x1000_0000;
/// The first address behind flash.
const FLASH_END: u32 = 0x1400_0000;
/// The family of the RP2040.
pub const RP2040_FAMILY: u32 = 0xE48B_FF56;

/// One block of 512 bytes, which contracts see as a list of bytes.
#[derive(Drop)]
pub struct Uf2Block<'a> {
    bytes: &'a [u8],
}

impl<'a> Model for Uf2Block<'a> {
    ghost use Rattle.std.specs.Prelude.{ℕ, List, length, ◌≡◌};

    ghost Value = { List ℕ };

    ghost view = { λ block. block.bytes.now };

    ghost invariant = { λ block. length block.bytes.now ≡ 512 };
}

impl<'a> Uf2Block<'a> {
    /// A block of these bytes.
    pub fn new(bytes: &'a [u8]) -> Uf2Block<'a>
        requires { length bytes.now ≡ 512 }
        ensures { result ≡ bytes.now }
    {
        Uf2Block { bytes }
    }

    /// The word at an index, counted in words.
    #[tactic(auto, unfolding(crate::specs::Uf2::word))]
    fn word(&self, index: usize) -> u32
        requires { index < 128 }
        ensures value { result ≡ word self.now index }
        ensures long { length self.now ≡ 512 }
    {
        LittleEndian::read_u32(&self.bytes[4 * index..])
    }

    /// The address of the payload's first byte.
    pub fn target(&self) -> u32
        ensures { result ≡ target_of self.now }
    {
        self.word(3)
    }

    /// The payload's size in bytes, as the block gives it.
    pub fn size(&self) -> u32
        ensures value { result ≡ size_of self.now }
        ensures long { length self.now ≡ 512 }
    {
        self.word(4)
    }

    /// The block's number.
    pub fn number(&self) -> u32
        ensures { result ≡ number_of self.now }
    {
        self.word(5)
    }

    /// The number of blocks, as the block gives it.
    pub fn count(&self) -> u32
        ensures { result ≡ count_of self.now }
    {
        self.word(6)
    }

    /// Whether the three magic words are right.
    #[tactic(auto, unfolding(crate::specs::Uf2::has_magic))]
    pub fn has_magic(&self) -> bool
        ensures { result ≡ has_magic self.now }
    {
        self.word(0) == 0x0A32_4655 && self.word(1) == 0x9E5D_5157 && self.word(127) == 0x0AB1_6F30
    }

    /// Whether one of these flags is set.
    fn has_flag(&self, mask: u32) -> bool
        ensures { result ≡ has_flag self.now mask }
    {
        self.word(2) & mask != 0
    }

    /// Whether the block is for the main memory of an RP2040.
    #[tactic(auto, unfolding(crate::specs::Uf2::is_kept))]
    pub fn is_kept(&self) -> bool
        ensures { result ≡ is_kept self.now }
    {
        !self.has_flag(0x1)
            && !self.has_flag(0x1000)
            && (!self.has_flag(0x2000) || self.word(7) == RP2040_FAMILY)
    }

    /// The payload.
    pub fn payload(&self) -> &'a [u8]
        requires { HasPayload self.now }
        ensures value { result.now ≡ payload_of self.now }
        ensures long { length result.now ≡ size_of self.now }
    {
        &self.bytes[PAYLOAD_START..PAYLOAD_START + self.size() as usize]
    }

    /// What the block loads.
    pub fn part(&self, alloc: Global) -> Result<Part, ImageFault>
        requires { HasPayload self.now }
        ensures part { IfOk result (λ part. part ≡ part_of self.now) }
        ensures memory { IfErr result (λ fault. fault ≡ ImageFault.Memory) }
    {
        let bytes = self.payload().to_vec(alloc)?;
        Ok(Part {
            address: self.target(),
            bytes: PartBytes::from_vec(bytes),
        })
    }

    /// Whether a byte of the payload lies in flash.
    #[tactic(auto, using(crate::proofs::Ranges::any_in_flash))]
    pub fn is_in_flash(&self) -> bool
        requires { HasPayload self.now }
        ensures { result ≡ any_address is_flash self.now }
    {
        let start = u64::from(self.target());
        let end = start + u64::from(self.size());
        start < u64::from(FLASH_END) && u64::from(FLASH_START) < end
    }

    /// Whether a byte of the payload lies outside SRAM.
    #[tactic(auto, using(crate::proofs::Ranges::any_outside_sram))]
    pub fn is_outside_sram(&self) -> bool
        requires { HasPayload self.now }
        ensures value { result ≡ any_address (λ address. not (is_sram address)) self.now }
        ensures inside { OnFalse result (LiesInSram self.now) }
    {
        let start = u64::from(self.target());
        let end = start + u64::from(self.size());
        start < u64::from(SRAM_START) || u64::from(SRAM_END) < end
    }
}
