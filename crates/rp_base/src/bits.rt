//! Bits and bytes of 32-bit words. What each function gives is defined in `specs/Word.antt` on whole numbers.

ghost use Rattle.std.specs.Prelude.{◌≡◌, ◌<◌};
ghost use Rattle.rp_base.specs.Word.{has_bit, bit_number, byte_of, joined};

/// Bit `bit` of a word is set, 0 the lowest.
pub fn has_bit(word: u32, bit: u32) -> bool
    requires { bit < 32 }
    ensures { result ≡ has_bit word bit }
{
    (word >> bit) & 1 == 1
}

/// A bit or a flag as a number.
pub fn bit_number(on: bool) -> u32
    ensures { result ≡ bit_number on }
{
    if on { 1 } else { 0 }
}

/// Byte `k` of a word, 0 the lowest.
pub fn byte(word: u32, k: u32) -> u32
    requires { k < 4 }
    ensures { result ≡ byte_of word k }
{
    (word >> (8 * k)) & 0xff
}

/// The word of four bytes, from the highest.
pub fn join(first: u32, second: u32, third: u32, last: u32) -> u32
    requires first { first < 256 }
    requires second { second < 256 }
    requires third { third < 256 }
    requires last { last < 256 }
    ensures { result ≡ joined first second third last }
{
    first * 0x100_0000 + second * 0x1_0000 + third * 0x100 + last
}
