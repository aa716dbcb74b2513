//! What an item is at an address: its size, its bytes and its faults.

ghost use Rattle.std.specs.Prelude.{◌≡◌, ◌≤◌, ◌<◌, ◌^◌, ◌++◌, length, replicate, OnOk};
ghost use Rattle.thumb_asm.specs.Placed.{aligned_pc, bytes_at, call_by, code_bytes, halfwords, has_no_code, is_marked, is_ahead, is_misaligned, is_near, is_out_of_range, is_word, is_wrong_register, name_of, op_at, op_bytes, padding, size_at, words_ahead, word_bytes, half_bytes, word_value};

use rp_base::op::Op;
use std::alloc::AllocError;
use thumb_parse::{Item, Number, Span};
use thumb_words::{Code, encode};

/// How many bytes an operation has.
#[tactic(auto, unfolding(crate::specs::Placed::op_bytes))]
fn op_size(op: Op) -> u64
    ensures value { result ≡ length (op_bytes op) }
    ensures bound { result ≤ 4 }
{
    match encode(&op) {
        None => 0,
        Some(code) => match code.second {
            None => 2,
            Some(_) => 4,
        },
    }
}

/// How many zeros bring an address to a multiple of 4.
fn padding(address: u64) -> u64
    ensures value { result ≡ padding address }
    ensures bound { result ≤ 3 }
{
    (4 - address % 4) % 4
}

/// How many bytes an item has at an address.
pub(crate) fn size_at(address: u64, item: Item) -> u64
    ensures value { result ≡ size_at address item }
    ensures bound { result ≤ 65535 }
{
    match item {
        Item::Empty => 0,
        Item::Instruction(op) => op_size(op),
        Item::OutOfRange(size) | Item::WrongRegister(size) => u64::from(size),
        Item::Literal(..) | Item::Address(..) | Item::Branch(_) | Item::BranchIf(..) => 2,
        Item::Call(_) | Item::Word(_) | Item::WordAt(..) => 4,
        Item::Half(_) => 2,
        Item::Space(count) => u64::from(count),
        Item::Align => padding(address),
    }
}

/// PC at a multiple of 4.
fn aligned_pc(address: u64) -> u64
    requires { address < 2 ^ 40 }
    ensures { result ≡ aligned_pc address }
{
    (address + 4) / 4 * 4
}

/// Whether a literal or an address is 0 to 1020 ahead.
fn is_ahead(address: u64, target: u64) -> bool
    requires { address < 2 ^ 40 }
    ensures { result ≡ is_ahead address target }
{
    let pc = aligned_pc(address);
    pc <= target && target <= pc + 1020
}

fn words_ahead(address: u64, target: u64) -> u8
    requires { address < 2 ^ 40 }
    ensures { result ≡ words_ahead address target }
{
    (target.saturating_sub(aligned_pc(address)) / 4 % 256) as u8
}

/// Whether a branch at an even address reaches its target by halfwords.
fn is_near(back: u64, ahead: u64, address: u64, target: u64) -> bool
    requires address { address < 2 ^ 40 }
    requires back { back < 2 ^ 40 }
    requires ahead { ahead < 2 ^ 40 }
    ensures { result ≡ is_near back ahead address target }
{
    address % 2 == 0
        && target % 2 == 0
        && u128::from(address + 4) <= u128::from(target) + u128::from(back)
        && target <= address + 4 + ahead
}

/// The distance of a branch in halfwords, modulo so many of them.
fn halfwords(modulus: u64, address: u64, target: u64) -> u64
    requires some { 0 < modulus }
    requires modulus { modulus < 2 ^ 40 }
    requires address { address < 2 ^ 40 }
    ensures { result ≡ halfwords modulus address target }
{
    let sum = u128::from(target) + u128::from(modulus * 2);
    (sum.saturating_sub(u128::from(address + 4)) / 2 % u128::from(modulus)) as u64
}

/// Whether a number of `.word name+k` is from -2^31 to 2^32 - 1.
fn is_word(target: u64, number: Number) -> bool
    ensures { result ≡ is_word target number }
{
    let up = u128::from(target) + u128::from(number.up);
    let down = u128::from(number.down);
    up <= 0xFFFF_FFFF + down && down <= up + 0x8000_0000
}

/// The value of `.word name+k`, modulo 2^32.
fn word_value(target: u64, number: Number) -> u32
    ensures { result ≡ word_value target number }
{
    let up = u128::from(target) + u128::from(number.up) + 0x1_0000_0000;
    (up.saturating_sub(u128::from(number.down)) % 0x1_0000_0000) as u32
}

/// BL by its distance in halfwords modulo 2^24.
fn call_by(distance: u64) -> Op
    requires { distance < 0x100_0000 }
    ensures { result ≡ call_by distance }
{
    let i = (distance % 0x20_0000) as u32;
    let top = (distance / 0x20_0000 % 4) as u8;
    if distance < 0x80_0000 {
        Op::Bl {
            s: false,
            i,
            j: 3 - top,
        }
    } else {
        Op::Bl { s: true, i, j: top }
    }
}

/// The operation of an item at an address, where its name is defined at another.
fn op_at(address: u64, target: u64, item: Item) -> Option<Op>
    requires { address < 2 ^ 40 }
    ensures { result ≡ op_at address target item }
{
    match item {
        Item::Instruction(op) => Some(op),
        Item::Literal(t, _) => Some(Op::LdrLit {
            t,
            i: words_ahead(address, target),
        }),
        Item::Address(d, _) => Some(Op::Adr {
            d,
            i: words_ahead(address, target),
        }),
        Item::Branch(_) => Some(Op::B {
            i: halfwords(2048, address, target) as u16,
        }),
        Item::Call(_) => Some(call_by(halfwords(0x100_0000, address, target))),
        Item::BranchIf(c, _) => Some(Op::BCond {
            c,
            i: halfwords(256, address, target) as u8,
        }),
        _ => None,
    }
}

fn push_half(half: u16, bytes: &mut Vec<u8>) -> Result<(), AllocError>
    ensures { OnOk result (bytes.new.items ≡ bytes.old.items ++ half_bytes half) }
{
    bytes.extend_from_slice(&half.to_le_bytes())
}

fn push_word(word: u32, bytes: &mut Vec<u8>) -> Result<(), AllocError>
    ensures { OnOk result (bytes.new.items ≡ bytes.old.items ++ word_bytes word) }
{
    bytes.extend_from_slice(&word.to_le_bytes())
}

fn push_zeros(count: u16, bytes: &mut Vec<u8>) -> Result<(), AllocError>
    ensures { OnOk result (bytes.new.items ≡ bytes.old.items ++ replicate count 0) }
{
    bytes.resize(bytes.len() + count as usize, 0)
}

#[tactic(auto, unfolding(crate::specs::Placed::op_bytes))]
fn push_op(op: Op, bytes: &mut Vec<u8>) -> Result<(), AllocError>
    ensures { OnOk result (bytes.new.items ≡ bytes.old.items ++ op_bytes op) }
{
    match encode(&op) {
        None => Ok(()),
        Some(code) => push_code(code, bytes),
    }
}

fn push_code(code: Code, bytes: &mut Vec<u8>) -> Result<(), AllocError>
    ensures { OnOk result (bytes.new.items ≡ bytes.old.items ++ code_bytes code) }
{
    push_half(code.first, bytes)?;
    match code.second {
        None => Ok(()),
        Some(second) => push_half(second, bytes),
    }
}

/// Appends the bytes of an item at an address, where its name is defined at another.
pub(crate) fn push_item(
    address: u64,
    target: u64,
    item: Item,
    bytes: &mut Vec<u8>,
) -> Result<(), AllocError>
    requires { address < 2 ^ 40 }
    ensures { OnOk result (bytes.new.items ≡ bytes.old.items ++ bytes_at address target item) }
{
    match item {
        Item::Word(k) => push_word(k, bytes),
        Item::WordAt(_, k) => push_word(word_value(target, k), bytes),
        Item::Half(k) => push_half(k, bytes),
        Item::Space(count) => push_zeros(count, bytes),
        Item::Align => push_zeros(padding(address) as u16, bytes),
        _ => match op_at(address, target, item) {
            Some(op) => push_op(op, bytes),
            None => Ok(()),
        },
    }
}

/// The name that an item has.
pub(crate) fn name_of(item: Item) -> Option<Span>
    ensures { result ≡ name_of item }
{
    match item {
        Item::Literal(_, name)
        | Item::Address(_, name)
        | Item::Branch(name)
        | Item::Call(name)
        | Item::BranchIf(_, name)
        | Item::WordAt(name, _) => Some(name),
        _ => None,
    }
}

/// Whether a number or a distance is out of its range.
pub(crate) fn is_out_of_range(address: u64, target: u64, item: Item) -> bool
    requires { address < 2 ^ 40 }
    ensures { result ≡ is_out_of_range address target item }
{
    match item {
        Item::OutOfRange(_) => true,
        Item::Literal(..) | Item::Address(..) => !is_ahead(address, target),
        Item::Branch(_) => !is_near(2048, 2046, address, target),
        Item::Call(_) => !is_near(0x100_0000, 0xFF_FFFE, address, target),
        Item::BranchIf(..) => !is_near(256, 254, address, target),
        Item::WordAt(_, k) => !is_word(target, k),
        _ => false,
    }
}

/// Whether a form found a register or a list that it cannot hold.
fn is_marked(item: Item) -> bool
    ensures { result ≡ is_marked item }
{
    match item {
        Item::WrongRegister(_) => true,
        _ => false,
    }
}

/// Whether an operation has no encoding.
fn has_no_code(op: Option<Op>) -> bool
    ensures { result ≡ has_no_code op }
{
    match op {
        Some(op) => encode(&op).is_none(),
        None => false,
    }
}

/// Whether a register or a list does not fit its form.
pub(crate) fn is_wrong_register(address: u64, target: u64, item: Item) -> bool
    requires { address < 2 ^ 40 }
    ensures { result ≡ is_wrong_register address target item }
{
    is_marked(item) || has_no_code(op_at(address, target, item))
}

/// Whether an item, or the literal or address that it names, stands at no multiple that it needs.
pub(crate) fn is_misaligned(address: u64, target: u64, item: Item) -> bool
    ensures { result ≡ is_misaligned address target item }
{
    match item {
        Item::Instruction(_) | Item::Half(_) => address % 2 != 0,
        Item::Literal(..) | Item::Address(..) => address % 2 != 0 || target % 4 != 0,
        Item::Word(_) | Item::WordAt(..) => address % 4 != 0,
        _ => false,
    }
}
