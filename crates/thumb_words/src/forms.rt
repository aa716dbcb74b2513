//! The forms of the encodings: operands of so many bits, each in its place.

ghost use Rattle.std.specs.Prelude.{◌≡◌, ◌≤◌, ◌==◌, ◌&&◌, ◌||◌, ◌+◌, ◌*◌, ◌/◌, ◌%◌, ◌<◌, nat_lt, not, true, false, Some, None};
ghost use Rattle.rp_base.specs.Word.{bit_number};
ghost use Rattle.thumb_words.specs.Codes.{coded};

use crate::halfwords::Code;

/// A 16-bit instruction without operands.
pub fn fixed(first: u16) -> Option<Code>
    ensures { result ≡ Some (record { first = first; second = None }) }
{
    Some(Code {
        first,
        second: None,
    })
}

/// Five, three and three bits.
pub fn long_number(base: u16, i: u8, n: u8, d: u8) -> Option<Code>
    requires { base ≤ 0x8800 }
    ensures { result ≡ coded (nat_lt i 32 && (nat_lt n 8 && (nat_lt d 8 && true)))
        (record { first = base + (i * 64 + (n * 8 + (d * 1 + 0))); second = None }) }
{
    if i < 32 && n < 8 && d < 8 {
        fixed(base + (u16::from(i) << 6) + (u16::from(n) << 3) + u16::from(d))
    } else {
        None
    }
}

/// Three times three bits.
pub fn three_registers(base: u16, m: u8, n: u8, d: u8) -> Option<Code>
    requires { base ≤ 0x8800 }
    ensures { result ≡ coded (nat_lt m 8 && (nat_lt n 8 && (nat_lt d 8 && true)))
        (record { first = base + (m * 64 + (n * 8 + (d * 1 + 0))); second = None }) }
{
    if m < 8 && n < 8 && d < 8 {
        fixed(base + (u16::from(m) << 6) + (u16::from(n) << 3) + u16::from(d))
    } else {
        None
    }
}

/// Three bits, and eight.
pub fn register_and_byte(base: u16, d: u8, i: u8) -> Option<Code>
    requires { base ≤ 0xC800 }
    ensures { result ≡ coded (nat_lt d 8 && (nat_lt i 256 && true))
        (record { first = base + (d * 256 + (i * 1 + 0)); second = None }) }
{
    if d < 8 {
        fixed(base + (u16::from(d) << 8) + u16::from(i))
    } else {
        None
    }
}

/// Twice three bits.
pub fn two_registers(base: u16, m: u8, d: u8) -> Option<Code>
    requires { base ≤ 0xC800 }
    ensures { result ≡ coded (nat_lt m 8 && (nat_lt d 8 && true))
        (record { first = base + (m * 8 + (d * 1 + 0)); second = None }) }
{
    if m < 8 && d < 8 {
        fixed(base + (u16::from(m) << 3) + u16::from(d))
    } else {
        None
    }
}

/// Two registers of four bits, of which the first has its bit 3 apart.
pub fn any_registers(base: u16, d: u8, m: u8) -> Option<Code>
    requires { base ≤ 0x4600 }
    ensures { result ≡ coded (nat_lt (d / 8) 2 && (nat_lt m 16 && (nat_lt (d % 8) 8 && true)))
        (record { first = base + (d / 8 * 128 + (m * 8 + (d % 8 * 1 + 0))); second = None }) }
{
    if d < 16 && m < 16 {
        fixed(base + (u16::from(d >> 3) << 7) + (u16::from(m) << 3) + u16::from(d % 8))
    } else {
        None
    }
}

/// A register of four bits, before three bits that are 0.
pub fn any_register(base: u16, m: u8) -> Option<Code>
    requires { base ≤ 0x4780 }
    ensures { result ≡ coded (nat_lt m 16 && (nat_lt 0 8 && true))
        (record { first = base + (m * 8 + (0 * 1 + 0)); second = None }) }
{
    if m < 16 {
        fixed(base + (u16::from(m) << 3))
    } else {
        None
    }
}

/// Seven bits.
pub fn seven_bits(base: u16, i: u8) -> Option<Code>
    requires { base ≤ 0xB080 }
    ensures { result ≡ coded (nat_lt i 128 && true)
        (record { first = base + (i * 1 + 0); second = None }) }
{
    if i < 128 {
        fixed(base + u16::from(i))
    } else {
        None
    }
}

/// Eight bits.
pub fn byte(base: u16, i: u8) -> Option<Code>
    requires { base ≤ 0xDF00 }
    ensures { result ≡ coded (nat_lt i 256 && true)
        (record { first = base + (i * 1 + 0); second = None }) }
{
    fixed(base + u16::from(i))
}

/// Eleven bits.
pub fn eleven_bits(base: u16, i: u16) -> Option<Code>
    requires { base ≤ 0xE000 }
    ensures { result ≡ coded (nat_lt i 2048 && true)
        (record { first = base + (i * 1 + 0); second = None }) }
{
    if i < 2048 { fixed(base + i) } else { None }
}

/// A number, and eight bits.
fn above_byte(base: u16, n: u16, low: u8) -> u16
    requires { base + n * 256 < 0xFF00 }
    ensures { result ≡ base + (n * 256 + (low * 1 + 0)) }
{
    base + (n << 8) + u16::from(low)
}

/// A list of registers on the stack that is not empty.
pub fn stack_list(base: u16, r: bool, l: u8) -> Option<Code>
    requires { base ≤ 0xBC00 }
    ensures { result ≡ coded (r || not (l == 0))
        (record { first = base + (bit_number r * 256 + (l * 1 + 0)); second = None }) }
{
    if r || l != 0 {
        fixed(above_byte(base, u16::from(r), l))
    } else {
        None
    }
}

/// Three bits, and a list of registers that is not empty.
pub fn register_and_list(base: u16, n: u8, l: u8) -> Option<Code>
    requires { base ≤ 0xC800 }
    ensures { result ≡ coded (nat_lt n 8 && not (l == 0))
        (record { first = base + (n * 256 + (l * 1 + 0)); second = None }) }
{
    if n < 8 && l != 0 {
        fixed(above_byte(base, u16::from(n), l))
    } else {
        None
    }
}

/// A condition below 14, and eight bits.
pub fn condition(c: u8, i: u8) -> Option<Code>
    ensures { result ≡ coded (nat_lt c 14)
        (record { first = 0xD000 + (c * 256 + (i * 1 + 0)); second = None }) }
{
    if c < 14 {
        fixed(above_byte(0xD000, u16::from(c), i))
    } else {
        None
    }
}

/// A 32-bit instruction.
fn long(first: u16, second: u16) -> Option<Code>
    ensures { result ≡ Some (record { first = first; second = Some second }) }
{
    Some(Code {
        first,
        second: Some(second),
    })
}

/// BL.
pub fn branch_with_link(s: bool, i: u32, j: u8) -> Option<Code>
    ensures { result ≡ coded
        ((nat_lt (bit_number s) 2 && (nat_lt (i / 2048) 1024 && true))
        && (nat_lt (j / 2) 2 && (nat_lt (j % 2) 2 && (nat_lt (i % 2048) 2048 && true))))
        (record {
          first = 0xF000 + (bit_number s * 1024 + (i / 2048 * 1 + 0));
          second = Some (0xD000 + (j / 2 * 8192 + (j % 2 * 2048 + (i % 2048 * 1 + 0))));
        }) }
{
    if i < 0x20_0000 && j < 4 {
        let first = 0xF000 + (u16::from(s) << 10) + (i >> 11) as u16;
        let second = 0xD000
            + (u16::from(j >> 1) << 13)
            + (u16::from(j % 2) << 11)
            + (i % 2048) as u16;
        long(first, second)
    } else {
        None
    }
}

/// Whether a register is none but R0 to R12 and LR.
fn is_general(register: u8) -> bool
    ensures { result ≡ (nat_lt register 16 && not (register == 13 || register == 15)) }
{
    register < 16 && register != 13 && register != 15
}

/// MSR, which has no encoding from SP and from PC.
pub fn write_special(n: u8, s: u8) -> Option<Code>
    ensures { result ≡ coded (nat_lt n 16 && not (n == 13 || n == 15))
        (record { first = 0xF380 + (n * 1 + 0); second = Some (0x8800 + (s * 1 + 0)) }) }
{
    if is_general(n) {
        long(0xF380 + u16::from(n), 0x8800 + u16::from(s))
    } else {
        None
    }
}

/// MRS, which has no encoding to SP and to PC.
pub fn read_special(d: u8, s: u8) -> Option<Code>
    ensures { result ≡ coded (nat_lt d 16 && not (d == 13 || d == 15))
        (record { first = 0xF3EF; second = Some (0x8000 + (d * 256 + (s * 1 + 0))) }) }
{
    if is_general(d) {
        long(0xF3EF, above_byte(0x8000, u16::from(d), s))
    } else {
        None
    }
}

/// DSB, DMB and ISB.
pub fn barrier(second: u16) -> Option<Code>
    ensures { result ≡ Some (record { first = 0xF3BF; second = Some second }) }
{
    long(0xF3BF, second)
}
