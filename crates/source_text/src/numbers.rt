//! Numbers by their digits.

ghost use Rattle.std.specs.Prelude.{◌≡◌, ◌≤◌, ◌<◌, ◌^◌, min, IfSome};
ghost use Rattle.std.specs.Option.{option_map};
ghost use Rattle.source_text.specs.Numbers.{digits_value, number_of};

use crate::characters::digit;

/// More than any number of 10 digits.
const MOST: u64 = 0x100_0000_0000;

/// The number of digits to a base from 1 to 16, or `most` where it is larger.
#[tactic(auto, using(crate::proofs::Capped::from_front, crate::proofs::Capped::at_end))]
pub fn value_of_digits(base: u64, most: u64, digits: &[u8]) -> Option<u64>
    requires positive { 1 ≤ base }
    requires base { base ≤ 16 }
    requires most { most < 2 ^ 59 }
    ensures { result ≡ option_map (min most) (digits_value base digits.now) }
{
    let mut value: u64 = 0;
    for byte in digits {
        let next = digit(*byte)?;
        if next >= base {
            return None;
        }
        value = (value * base + next).min(most);
    }
    Some(value)
}

/// The number of 1 to so many digits, at most 10, to a base from 1 to 16.
#[tactic(auto, using(crate::proofs::Capped::few_digits, crate::proofs::Capped::digits_below))]
pub fn number_of(base: u64, most: usize, digits: &[u8]) -> Option<u64>
    requires positive { 1 ≤ base }
    requires base { base ≤ 16 }
    requires most { most ≤ 10 }
    ensures value { result ≡ number_of base most digits.now }
    ensures bound { IfSome result (λ n. n < base ^ most) }
{
    if digits.is_empty() || digits.len() > most {
        return None;
    }
    value_of_digits(base, MOST, digits)
}
