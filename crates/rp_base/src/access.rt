//! What an access has of the word that holds its address, and who names it.

ghost use Rattle.std.specs.Prelude.{◌≡◌};
ghost use Rattle.rp_base.specs.Access.{lanes_of, lanes_at, replicated, word_written, master_of};

use crate::{Master, Request, Size};

/// What an access of that size at an address reads of the word that holds it.
pub fn lanes(size: Size, address: u32, word: u32) -> u32
    ensures { result ≡ lanes_of size address word }
{
    match size {
        Size::Byte => (word >> (8 * (address % 4))) & 0xff,
        Size::Half => (word >> (16 * (address / 2 % 2))) & 0xffff,
        Size::Word => word,
    }
}

/// The byte lanes of an access of that size at an address, lane k as bit k.
pub fn lanes_at(size: Size, address: u32) -> u8
    ensures { result ≡ lanes_at size address }
{
    match size {
        Size::Byte => 1 << (address % 4),
        Size::Half if address / 2 % 2 == 0 => 3,
        Size::Half => 12,
        Size::Word => 15,
    }
}

/// A narrow value on all lanes of its word (RP2040 Datasheet, 2.1.4).
pub fn replicated(size: Size, value: u32) -> u32
    ensures { result ≡ replicated size value }
{
    match size {
        Size::Byte => (value & 0xff) * 0x0101_0101,
        Size::Half => (value & 0xffff) * 0x0001_0001,
        Size::Word => value,
    }
}

/// The word that a request writes, its value on all lanes; None for a read.
pub fn word_written(request: &Request) -> Option<u32>
    ensures { result ≡ word_written request.now.size request.now.write }
{
    match request.write {
        Some(value) => Some(replicated(request.size, value)),
        None => None,
    }
}

/// The master that core 0 or core 1 is; each number but 0 is that of core 1.
pub fn master_of(core: u8) -> Master
    ensures { result ≡ master_of core }
{
    if core == 0 {
        Master::Core0
    } else {
        Master::Core1
    }
}
