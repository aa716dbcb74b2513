//! The words of a line that are no numbers: levels and bytes.

ghost use Rattle.std.specs.Prelude.{◌≡◌, ◌<◌, ◌+◌, ◌*◌, length};
ghost use Rattle.std.specs.Char.{is_ascii_hexdigit};
ghost use Rattle.std.specs.List.{list_all};
ghost use Rattle.pin_script.specs.Words.{level_named, are_bytes, byte_at};

use crate::entry::Level;
use source_text::number_of;

/// The level that a word names.
pub(crate) fn level_named(word: &[u8]) -> Option<Level>
    ensures { result ≡ level_named word.now }
{
    match word {
        [b'0'] => Some(Level::Low),
        [b'1'] => Some(Level::High),
        [b'z'] => Some(Level::Free),
        _ => None,
    }
}

/// A word is hexadecimal digits, two for each of at most 256 bytes.
pub(crate) fn are_bytes(word: &[u8]) -> bool
    ensures { result ≡ are_bytes word.now }
{
    word.len() % 2 == 0 && word.len() <= 512 && are_digits(word)
}

/// A word is hexadecimal digits.
fn are_digits(word: &[u8]) -> bool
    ensures { result ≡ list_all is_ascii_hexdigit word.now }
{
    word.iter().all(|byte| byte.is_ascii_hexdigit())
}

/// Byte number `index` of a word of hexadecimal digits.
pub(crate) fn byte_at(word: &[u8], index: usize) -> u32
    requires { 2 * index + 1 < length word.now }
    ensures { result ≡ byte_at word.now index }
{
    number_of(16, 2, &word[2 * index..][..2]).unwrap_or(0) as u32
}
