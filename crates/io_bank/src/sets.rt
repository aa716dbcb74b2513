//! Sets of pins, and words, bit by bit.

ghost use Rattle.std.specs.Prelude.{◌≡◌, ◌==◌, ◌+◌, ◌*◌, ◌/◌, ◌%◌, ◌^◌, ◌<◌, false, slice_index, is_some, unwrap_or};
ghost use Rattle.rp_base.specs.Word.{bit_number};
ghost use Rattle.io_bank.specs.Pins.{bits_below, pins_where, overridden};
ghost use Rattle.io_bank.specs.Levels.{by_list};

/// All pins.
pub(crate) const PINS: u32 = 0x3fff_ffff;

/// A number with one more bit at its top.
#[tactic(auto, using(crate::proofs::Bits::with_top_bit))]
pub(crate) fn with_bit(set: u32, bit: u32, on: bool) -> u32
    requires bit { bit < 32 }
    requires room { set < 2 ^ bit }
    ensures { result ≡ set + bit_number on * 2 ^ bit }
{
    if on { set | (1 << bit) } else { set }
}

/// A signal under an override.
pub(crate) fn overridden(way: u32, signal: bool) -> bool
    ensures { result ≡ overridden way signal }
{
    match way {
        0 => signal,
        1 => !signal,
        _ => way == 3,
    }
}

/// The pins whose word has this value in the bits from bit `low` on, of which there are so many that `size` is the number
/// of their values.
#[tactic(auto, using(crate::proofs::Bits::bits))]
pub(crate) fn pins_with(words: &[u32; 30], low: u32, size: u32, value: u32) -> u32
    requires low_in { low < 32 }
    requires some { 0 < size }
    ensures { result ≡ pins_where (λ pin. slice_index words.now pin / 2 ^ low % size == value) }
{
    let mut pins = 0;
    for pin in 0..30 {
        let on = (words[pin as usize] >> low) % size == value;
        pins = with_bit(pins, pin, on);
    }
    pins
}

/// The pins that are driven from outside.
#[tactic(auto, using(crate::proofs::Bits::bits))]
pub(crate) fn driven_by(levels: &[Option<bool>; 30]) -> u32
    ensures { result ≡ pins_where (λ pin. is_some (by_list levels.now pin)) }
{
    let mut pins = 0;
    for pin in 0..30 {
        pins = with_bit(pins, pin, levels[pin as usize].is_some());
    }
    pins
}

/// The pins that are driven high from outside.
#[tactic(auto, using(crate::proofs::Bits::bits))]
pub(crate) fn high_by(levels: &[Option<bool>; 30]) -> u32
    ensures { result ≡ pins_where (λ pin. unwrap_or (by_list levels.now pin) false) }
{
    let mut pins = 0;
    for pin in 0..30 {
        pins = with_bit(pins, pin, levels[pin as usize].unwrap_or(false));
    }
    pins
}
