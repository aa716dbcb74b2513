//! The arithmetic of the Armv6-M data processing instructions on 32-bit words: sums with carry, shifts, extensions and
//! products. What each function gives is defined in `specs/` on unbounded numbers.
#![tactic(auto)]

ghost use Rattle.std.specs.Prelude.{◌≡◌, ◌==◌, ◌^◌, ◌<◌, ◌*◌, ◌/◌, ◌%◌, ◌-◌};
ghost use Rattle.m0_alu.specs.Sum.{add_with_carry};
ghost use Rattle.m0_alu.specs.Shift.{shifted, shifted_left, shifted_right, shifted_right_signed, rotated, rotated_right};
ghost use Rattle.m0_alu.specs.Extend.{extended, signed_half, signed_byte};
ghost use Rattle.m0_alu.specs.Product.{product_of};

use rp_base::bits::{byte, join};

/// The four shifts of the manual (ARMv6-M Architecture Reference Manual, A6.4.2).
#[derive(Clone, Copy, PartialEq, Eq)]
pub enum ShiftKind {
    /// Logical shift left.
    Lsl,
    /// Logical shift right.
    Lsr,
    /// Arithmetic shift right, which keeps the sign.
    Asr,
    /// Rotation to the right.
    Ror,
}

/// The operations that extend a part of a word or reverse its bytes (ARMv6-M Architecture Reference Manual, A4.4.5).
#[derive(Clone, Copy, PartialEq, Eq)]
pub enum ExtendKind {
    /// The low halfword as a signed number.
    Sxth,
    /// The low byte as a signed number.
    Sxtb,
    /// The low halfword.
    Uxth,
    /// The low byte.
    Uxtb,
    /// The four bytes in reverse order.
    Rev,
    /// The bytes of each halfword in reverse order.
    Rev16,
    /// The two low bytes in reverse order, as a signed number.
    Revsh,
}

/// The sum of two words and a carry: the word, its carry and its signed overflow (ARMv6-M Architecture Reference
/// Manual, A2.2.1, AddWithCarry). A difference x - y is the sum of x, `!y` and `true`.
pub fn add_carry(x: u32, y: u32, carry: bool) -> (u32, bool, bool)
    ensures { result ≡ add_with_carry x y carry }
{
    let part = x.wrapping_add(y);
    let sum = if carry { part.wrapping_add(1) } else { part };
    let carried = if carry { sum <= x } else { sum < x };
    let same_sign = (x < SIGN) == (y < SIGN);
    let turned = (x < SIGN) != (sum < SIGN);
    (sum, carried, same_sign && turned)
}

/// Shifts `x` by `amount` places, 0 to 255: the word, and the last bit that was shifted out. A shift by 0 keeps `x`
/// and `carry` (ARMv6-M Architecture Reference Manual, A6.4.2, Shift_C).
pub fn shift(kind: ShiftKind, x: u32, amount: u8, carry: bool) -> (u32, bool)
    ensures { result ≡ shifted kind x amount carry }
{
    if amount == 0 {
        return (x, carry);
    }
    match kind {
        ShiftKind::Lsl => shift_left(x, amount),
        ShiftKind::Lsr => shift_right(x, amount),
        ShiftKind::Asr => shift_right_signed(x, amount),
        ShiftKind::Ror => rotate_right(x, amount),
    }
}

/// Extends a part of `x` to a word, or reverses its bytes.
pub fn extend(kind: ExtendKind, x: u32) -> u32
    ensures { result ≡ extended kind x }
{
    match kind {
        ExtendKind::Sxth => sign_extend_half(x & 0xffff),
        ExtendKind::Sxtb => sign_extend_byte(x & 0xff),
        ExtendKind::Uxth => x & 0xffff,
        ExtendKind::Uxtb => x & 0xff,
        ExtendKind::Rev => join(byte(x, 0), byte(x, 1), byte(x, 2), byte(x, 3)),
        ExtendKind::Rev16 => join(byte(x, 2), byte(x, 3), byte(x, 0), byte(x, 1)),
        ExtendKind::Revsh => sign_extend_half(byte(x, 0) * 0x100 + byte(x, 1)),
    }
}

/// The low word of the product (ARMv6-M Architecture Reference Manual, A6.7.44, MUL).
pub fn multiply(x: u32, y: u32) -> u32
    ensures { result ≡ product_of x y }
{
    x.wrapping_mul(y)
}

/// The least word whose sign bit is set.
const SIGN: u32 = 0x8000_0000;

/// LSL_C for an amount above 0.
fn shift_left(x: u32, amount: u8) -> (u32, bool)
    requires { 0 < amount }
    ensures { result ≡ shifted_left x amount }
{
    if amount < 32 {
        (x << amount, (x >> (32 - amount)) & 1 == 1)
    } else {
        (0, amount == 32 && x & 1 == 1)
    }
}

/// LSR_C for an amount above 0.
fn shift_right(x: u32, amount: u8) -> (u32, bool)
    requires { 0 < amount }
    ensures { result ≡ shifted_right x amount }
{
    if amount < 32 {
        (x >> amount, (x >> (amount - 1)) & 1 == 1)
    } else {
        (0, amount == 32 && x >= SIGN)
    }
}

/// ASR_C for an amount above 0: a negative number is shifted as its complement.
fn shift_right_signed(x: u32, amount: u8) -> (u32, bool)
    requires { 0 < amount }
    ensures { result ≡ shifted_right_signed x amount }
{
    if x < SIGN {
        shift_right(x, amount)
    } else {
        let (rest, carry) = shift_right(!x, amount);
        (!rest, !carry)
    }
}

/// ROR_C for an amount above 0.
fn rotate_right(x: u32, amount: u8) -> (u32, bool)
    requires { 0 < amount }
    ensures { result ≡ rotated_right x amount }
{
    let word = rotate(x, amount % 32);
    (word, word >= SIGN)
}

/// A rotation by fewer than 32 places.
fn rotate(x: u32, count: u8) -> u32
    requires { count < 32 }
    ensures { result ≡ rotated x count }
{
    if count == 0 {
        x
    } else {
        (x << (32 - count)) | (x >> count)
    }
}

/// A halfword as a signed number.
fn sign_extend_half(half: u32) -> u32
    requires { half < 2 ^ 16 }
    ensures { result ≡ signed_half half }
{
    if half < 0x8000 {
        half
    } else {
        half + 0xffff_0000
    }
}

/// A byte as a signed number.
fn sign_extend_byte(byte: u32) -> u32
    requires { byte < 2 ^ 8 }
    ensures { result ≡ signed_byte byte }
{
    if byte < 0x80 {
        byte
    } else {
        byte + 0xffff_ff00
    }
}
