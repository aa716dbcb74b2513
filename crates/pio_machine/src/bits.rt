//! The shifts of the two shift registers.

ghost use Rattle.std.specs.Prelude.{◌≡◌, ◌≤◌, ◌-◌, ◌*◌, ◌/◌, ◌%◌, ◌^◌};
ghost use Rattle.pio_machine.specs.Bits.{taken, remaining, entered, counted};

/// The word whose low bits are set, `count` of them.
pub(crate) fn low_mask(count: u8) -> u32
    requires { count ≤ 32 }
    ensures { result ≡ 2 ^ count - 1 }
{
    ((1u64 << count) - 1) as u32
}

/// The low bits of a word, `count` of them.
#[tactic(auto, using(std::proofs::lemmas::Nat::and_mask))]
pub(crate) fn low_bits(word: u32, count: u8) -> u32
    requires { count ≤ 32 }
    ensures { result ≡ word % 2 ^ count }
{
    word & low_mask(count)
}

fn shifted_left(word: u32, count: u8) -> u32
    requires { count ≤ 32 }
    ensures { result ≡ word * 2 ^ count % 2 ^ 32 }
{
    if count < 32 { word << count } else { 0 }
}

fn shifted_right(word: u32, count: u8) -> u32
    requires { count ≤ 32 }
    ensures { result ≡ word / 2 ^ count }
{
    (u64::from(word) >> count) as u32
}

/// The bits that leave a word at its bottom or at its top.
pub(crate) fn taken(right: bool, count: u8, word: u32) -> u32
    requires { count ≤ 32 }
    ensures { result ≡ taken right count word }
{
    if right {
        low_bits(word, count)
    } else {
        shifted_right(word, 32 - count)
    }
}

/// What stays of a word that bits have left at its bottom or at its top.
pub(crate) fn remaining(right: bool, count: u8, word: u32) -> u32
    requires { count ≤ 32 }
    ensures { result ≡ remaining right count word }
{
    if right {
        shifted_right(word, count)
    } else {
        shifted_left(word, count)
    }
}

/// A word after the low bits of a value have entered it at its top or at its bottom.
pub(crate) fn entered(right: bool, count: u8, value: u32, word: u32) -> u32
    requires { count ≤ 32 }
    ensures { result ≡ entered right count value word }
{
    if right {
        shifted_right(word, count).wrapping_add(shifted_left(value, 32 - count))
    } else {
        shifted_left(word, count).wrapping_add(low_bits(value, count))
    }
}

/// A shift count, which stops at 32.
pub(crate) fn counted(before: u8, count: u8) -> u8
    ensures { result ≡ counted before count }
{
    (u32::from(before) + u32::from(count)).min(32) as u8
}
