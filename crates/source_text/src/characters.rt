//! The characters of words.

ghost use Rattle.std.specs.Prelude.{◌≡◌, ◌<◌, IfSome, if◌then◌else◌, None, Some};
ghost use Rattle.std.specs.Char.{digit_value, is_digit};
ghost use Rattle.source_text.specs.Characters.{is_word_char};

/// Whether a byte goes on with a word that has begun: an ASCII letter, a digit or `_`.
pub fn is_word_byte(byte: u8) -> bool
    ensures { result ≡ is_word_char byte }
{
    matches!(byte, b'a'..=b'z' | b'A'..=b'Z' | b'0'..=b'9' | b'_')
}

/// The value of a hexadecimal digit of either case.
pub(crate) fn digit(byte: u8) -> Option<u64>
    ensures value { result ≡ (if is_digit byte 16 then Some (digit_value byte) else None) }
    ensures bound { IfSome result (λ digit. digit < 16) }
{
    match byte {
        b'0'..=b'9' => Some((byte - b'0') as u64),
        b'a'..=b'f' => Some((byte - b'a' + 10) as u64),
        b'A'..=b'F' => Some((byte - b'A' + 10) as u64),
        _ => None,
    }
}
