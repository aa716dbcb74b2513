//! The encodings of ARMv6-M: which instruction a pair of halfwords is (ARMv6-M Architecture Reference Manual, A5).
#![tactic(auto)]

mod long;
mod short;

ghost use Rattle.std.specs.Prelude.{◌≡◌, ℕ, false};
ghost use Rattle.thumb_rows.specs.Rows.{ExactlyOneFits, begins_long, operation_of};

use rp_base::op::Op;

/// The instruction of a pair of halfwords; a 16-bit instruction is the first alone, whatever the second is.
#[inline(always)]
pub fn decode(first: u16, second: u16) -> Op
    ensures value { result ≡ operation_of first second }
    ensures short { begins_long first ≡ false → (other : ℕ) → result ≡ operation_of first other }
{
    if is_long(first) {
        long::decode_long(first, second)
    } else {
        short::decode_short(first)
    }
}

/// Whether an instruction that begins with this halfword has a second one (A5.1).
#[inline(always)]
pub fn is_long(first: u16) -> bool
    ensures { result ≡ begins_long first }
{
    first >= 0xE800
}

/// The law of the table of encodings: for every pair of halfwords exactly one row fits, where Undefined is the row of
/// all the rest.
pub fn exactly_one_row_fits()
    ensures { ExactlyOneFits }
{}
