//! The words of a line, and the numbers and addresses that they stand for.

ghost use Rattle.std.specs.Prelude.{◌≡◌, ◌<◌, ◌+◌, ◌*◌, true, IfSome};
ghost use Rattle.std.specs.Str.{bytes_eq};
ghost use Rattle.reverse_debug.specs.Command.{number_of, address_of, is_ram, are_words};
ghost use Rattle.rp_base.specs.Map.{place_of};

use rp_base::map::{Spot, place};

/// Two words are the same.
pub(crate) fn is(word: &[u8], name: &[u8]) -> bool
    ensures { result ≡ bytes_eq word.now name.now }
{
    word == name
}

/// The number of 1 to 10 decimal digits.
pub(crate) fn number_of(word: &[u8]) -> Option<u64>
    ensures value { result ≡ number_of word.now }
    ensures bound { IfSome result (λ n. n < 10_000_000_000) }
{
    source_text::number_of(10, 10, word)
}

/// The address of 8 hexadecimal digits.
pub(crate) fn address_of(word: &[u8]) -> Option<u32>
    ensures { result ≡ address_of word.now }
{
    if word.len() != 8 {
        return None;
    }
    Some(source_text::number_of(16, 8, word)? as u32)
}

/// An address is in SRAM.
fn is_ram(address: u32) -> bool
    ensures value { result ≡ is_ram (place_of address) }
    ensures low { result ≡ true → address < 0x2200_0000 }
{
    match place(address) {
        Spot::Ram { .. } => true,
        Spot::Reg { .. } | Spot::Sio { .. } | Spot::Ppb { .. } | Spot::Outside => false,
    }
}

/// All of 1 to 16 words from an address on are words of SRAM, and the address is a multiple of 4.
#[tactic(auto, using(crate::proofs::Reading::words_on), unfolding(crate::specs::Command::are_words))]
pub(crate) fn are_words(address: u32, count: u64) -> bool
    ensures value { result ≡ are_words address count }
    ensures low { result ≡ true → address + 4 * count < 0x2200_0004 }
{
    if count < 1 || count > 16 || address % 4 != 0 {
        return false;
    }
    let mut next = address;
    let mut left = count;
    'words: while left > 0 {
        if !is_ram(next) {
            return false;
        }
        next += 4;
        left -= 1;
    }
    true
}
