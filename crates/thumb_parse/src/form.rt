//! The forms of items: the numbers that they take and the registers that they can hold.

ghost use Rattle.std.specs.Prelude.{◌≡◌, ◌≤◌, ◌<◌, ◌&&◌, true, IfSome};
ghost use Rattle.thumb_parse.specs.FormOps.{low_op};
ghost use Rattle.thumb_parse.specs.descent.Forms.{adjust_stack, bare_item, compare, for_interrupts, form_of, immediate_register, index_immediate, index_register, register_and_list, register_immediate, register_name, registers_immediate, read_special, shift_left, shift_right, short, small_number, with_byte, from_stack, three_registers, two_registers, with_immediate, with_list, with_name, with_number, with_register, with_sum, write_back};
ghost use Rattle.thumb_parse.specs.Forms.{condition_of, field, holds_list, is_listed, is_low, is_special_register, judged, name_text, word, half, space, unit_of, units};

use crate::form_ops::{
    adjust_op, alone_op, branch_op, byte_op, index_op, low_op, number_op, offset_op, shift_op,
    small_op, stack_op, three_op,
};
use crate::item::Item;
use crate::mnemonic::Mnemonic;
use crate::operands::{Operands, RegisterList, register_bit};
use crate::token::{Number, Span};
use rp_base::op::Op;

/// The register SP.
const STACK_POINTER: u8 = 13;

/// The register PC.
const PROGRAM_COUNTER: u8 = 15;

/// How many units a number is, where it is a whole count of them from `least` to `most`.
fn units(unit: u64, least: u64, most: u64, number: Number) -> Option<u8>
    requires unit { 0 < unit }
    requires most { most ≤ 255 }
    ensures { result ≡ units unit least most number }
{
    if number.down != 0 || number.up % unit != 0 {
        return None;
    }
    let count = number.up / unit;
    if least <= count && count <= most {
        Some(count as u8)
    } else {
        None
    }
}

/// The number of a field, where it has one.
fn field(number: Option<u8>) -> u8
    ensures { result ≡ field number }
{
    number.unwrap_or(0)
}

fn is_low(register: u8) -> bool
    ensures { result ≡ is_low register }
{
    register < 8
}

/// MSR and MRS hold every register but SP and PC.
fn is_special_register(register: u8) -> bool
    ensures { result ≡ is_special_register register }
{
    register != STACK_POINTER && register != PROGRAM_COUNTER
}

/// An instruction of so many bytes, whose number may be out of range and whose registers it may not hold.
fn judged(size: u8, ranged: bool, held: bool, op: Op) -> Item
    ensures { result ≡ judged size ranged held op }
{
    if !ranged {
        Item::OutOfRange(size)
    } else if held {
        Item::Instruction(op)
    } else {
        Item::WrongRegister(size)
    }
}

/// An instruction of two bytes, whose number may be out of range and whose registers it may not hold, if a form has it.
fn short(ranged: bool, held: bool, op: Option<Op>) -> Option<Item>
    ensures { result ≡ short ranged held op }
{
    match op {
        Some(op) => Some(judged(2, ranged, held, op)),
        None => None,
    }
}

/// `nop` and the like, `.align`.
fn bare_item(mnemonic: Mnemonic) -> Option<Item>
    ensures { result ≡ bare_item mnemonic }
{
    match mnemonic {
        Mnemonic::Align => Some(Item::Align),
        _ => match alone_op(mnemonic) {
            Some(op) => Some(Item::Instruction(op)),
            None => None,
        },
    }
}

fn word(number: Number) -> Item
    ensures { result ≡ word number }
{
    if number.up > 0xFFFF_FFFF || number.down > 0x8000_0000 {
        return Item::OutOfRange(4);
    }
    Item::Word(((number.up + 0x1_0000_0000 - number.down) % 0x1_0000_0000) as u32)
}

fn half(number: Number) -> Item
    ensures { result ≡ half number }
{
    if number.up > 0xFFFF || number.down > 0x8000 {
        return Item::OutOfRange(2);
    }
    Item::Half(((number.up + 0x1_0000 - number.down) % 0x1_0000) as u16)
}

fn space(number: Number) -> Item
    ensures { result ≡ space number }
{
    if 0 < number.up && number.up <= 4096 {
        Item::Space(number.up as u16)
    } else {
        Item::OutOfRange(0)
    }
}

/// `.word k`, `.half k` and `.space k`.
fn with_number(mnemonic: Mnemonic, number: Number) -> Option<Item>
    ensures { result ≡ with_number mnemonic number }
{
    match mnemonic {
        Mnemonic::Word => Some(word(number)),
        Mnemonic::Half => Some(half(number)),
        Mnemonic::Space => Some(space(number)),
        _ => None,
    }
}

/// The condition of a branch (A7.3).
fn condition_of(mnemonic: Mnemonic) -> Option<u8>
    ensures { result ≡ condition_of mnemonic }
{
    match mnemonic {
        Mnemonic::Beq => Some(0),
        Mnemonic::Bne => Some(1),
        Mnemonic::Bcs => Some(2),
        Mnemonic::Bcc => Some(3),
        Mnemonic::Bmi => Some(4),
        Mnemonic::Bpl => Some(5),
        Mnemonic::Bvs => Some(6),
        Mnemonic::Bvc => Some(7),
        Mnemonic::Bhi => Some(8),
        Mnemonic::Bls => Some(9),
        Mnemonic::Bge => Some(10),
        Mnemonic::Blt => Some(11),
        Mnemonic::Bgt => Some(12),
        Mnemonic::Ble => Some(13),
        _ => None,
    }
}

/// The text of a name of a line.
pub fn name_text(line: &[u8], name: Span) -> &[u8]
    ensures { result.now ≡ name_text line.now name }
{
    let rest = &line[name.start.min(line.len())..];
    &rest[..name.count.min(rest.len())]
}

/// `cpsie i` and `cpsid i`.
fn for_interrupts(line: &[u8], name: Span, op: Op) -> Option<Item>
    ensures { result ≡ for_interrupts line.now name op }
{
    if name_text(line, name) == b"i".as_slice() {
        Some(Item::Instruction(op))
    } else {
        None
    }
}

/// `b`, `bl` and the conditional branches, `.word name`, `cpsie i`.
fn with_name(line: &[u8], mnemonic: Mnemonic, name: Span) -> Option<Item>
    ensures { result ≡ with_name line.now mnemonic name }
{
    match mnemonic {
        Mnemonic::B => Some(Item::Branch(name)),
        Mnemonic::Bl => Some(Item::Call(name)),
        Mnemonic::Word => Some(Item::WordAt(name, Number { up: 0, down: 0 })),
        Mnemonic::Cpsie => for_interrupts(line, name, Op::Cpsie),
        Mnemonic::Cpsid => for_interrupts(line, name, Op::Cpsid),
        _ => match condition_of(mnemonic) {
            Some(condition) => Some(Item::BranchIf(condition, name)),
            None => None,
        },
    }
}

/// `.word name+k`.
fn with_sum(mnemonic: Mnemonic, name: Span, number: Number) -> Option<Item>
    ensures { result ≡ with_sum mnemonic name number }
{
    match mnemonic {
        Mnemonic::Word => Some(Item::WordAt(name, number)),
        _ => None,
    }
}

/// `bkpt`, `udf` and `svc`.
fn with_immediate(mnemonic: Mnemonic, number: Number) -> Option<Item>
    ensures { result ≡ with_immediate mnemonic number }
{
    let byte = units(1, 0, 255, number);
    short(byte.is_some(), true, number_op(mnemonic, field(byte)))
}

/// `msr #k, m`.
fn immediate_register(mnemonic: Mnemonic, number: Number, m: u8) -> Option<Item>
    ensures { result ≡ immediate_register mnemonic number m }
{
    let byte = units(1, 0, 255, number);
    match mnemonic {
        Mnemonic::Msr => Some(judged(
            4,
            byte.is_some(),
            is_special_register(m),
            Op::Msr {
                n: m,
                s: field(byte),
            },
        )),
        _ => None,
    }
}

/// `bx` and `blx`.
fn with_register(mnemonic: Mnemonic, m: u8) -> Option<Item>
    ensures { result ≡ with_register mnemonic m }
{
    branch_op(mnemonic, m).map(Item::Instruction)
}

/// `cmp` of two low registers, or of any.
fn compare(d: u8, m: u8) -> Op
    ensures { result ≡ compare d m }
{
    if is_low(d) && is_low(m) {
        Op::Cmp { m, d }
    } else {
        Op::CmpHigh { d, m }
    }
}

/// The instructions on two low registers.
fn low_pair(mnemonic: Mnemonic, d: u8, m: u8) -> Option<Item>
    ensures { result ≡ short true (is_low d && is_low m) (low_op mnemonic m d) }
{
    short(true, is_low(d) && is_low(m), low_op(mnemonic, m, d))
}

/// `add`, `cmp` and `mov` of any registers; the other instructions on two registers.
fn two_registers(mnemonic: Mnemonic, d: u8, m: u8) -> Option<Item>
    ensures { result ≡ two_registers mnemonic d m }
{
    match mnemonic {
        Mnemonic::Cmp => Some(Item::Instruction(compare(d, m))),
        Mnemonic::Add => Some(Item::Instruction(Op::AddHigh { d, m })),
        Mnemonic::Mov => Some(Item::Instruction(Op::MovHigh { d, m })),
        _ => low_pair(mnemonic, d, m),
    }
}

/// `adds` and `subs`.
fn three_registers(mnemonic: Mnemonic, d: u8, n: u8, m: u8) -> Option<Item>
    ensures { result ≡ three_registers mnemonic d n m }
{
    short(
        true,
        is_low(d) && is_low(n) && is_low(m),
        three_op(mnemonic, m, n, d),
    )
}

/// `add sp, #k` and `sub sp, #k`.
fn adjust_stack(mnemonic: Mnemonic, d: u8, number: Number) -> Option<Item>
    ensures { result ≡ adjust_stack mnemonic d number }
{
    if d == STACK_POINTER {
        let words = units(4, 0, 127, number);
        short(words.is_some(), true, adjust_op(mnemonic, field(words)))
    } else {
        None
    }
}

/// `mrs d, #k`.
fn read_special(d: u8, number: Number) -> Item
    ensures { result ≡ read_special d number }
{
    let byte = units(1, 0, 255, number);
    judged(
        4,
        byte.is_some(),
        is_special_register(d),
        Op::Mrs { d, s: field(byte) },
    )
}

/// `movs`, `cmp`, `adds` and `subs` with a byte.
fn with_byte(mnemonic: Mnemonic, d: u8, number: Number) -> Option<Item>
    ensures { result ≡ with_byte mnemonic d number }
{
    let byte = units(1, 0, 255, number);
    short(byte.is_some(), is_low(d), byte_op(mnemonic, d, field(byte)))
}

/// `mrs d, #k`, `add sp, #k`, `sub sp, #k`; `movs`, `cmp`, `adds` and `subs` with a byte.
fn register_immediate(mnemonic: Mnemonic, d: u8, number: Number) -> Option<Item>
    ensures { result ≡ register_immediate mnemonic d number }
{
    match mnemonic {
        Mnemonic::Mrs => Some(read_special(d, number)),
        Mnemonic::Add | Mnemonic::Sub => adjust_stack(mnemonic, d, number),
        _ => with_byte(mnemonic, d, number),
    }
}

/// `lsls` by 0 to 31.
fn shift_left(d: u8, m: u8, number: Number) -> Item
    ensures { result ≡ shift_left d m number }
{
    let count = units(1, 0, 31, number);
    let op = Op::LslImm {
        i: field(count),
        m,
        d,
    };
    judged(2, count.is_some(), is_low(d) && is_low(m), op)
}

/// `lsrs` and `asrs` by 1 to 32, where 0 stands for 32.
fn shift_right(mnemonic: Mnemonic, d: u8, m: u8, number: Number) -> Option<Item>
    ensures { result ≡ shift_right mnemonic d m number }
{
    let count = units(1, 1, 32, number);
    short(
        count.is_some(),
        is_low(d) && is_low(m),
        shift_op(mnemonic, field(count) % 32, m, d),
    )
}

/// `add d, sp, #k`.
fn from_stack(d: u8, n: u8, number: Number) -> Option<Item>
    ensures { result ≡ from_stack d n number }
{
    if n == STACK_POINTER {
        let words = units(4, 0, 255, number);
        let op = Op::AddSp { d, i: field(words) };
        Some(judged(2, words.is_some(), is_low(d), op))
    } else {
        None
    }
}

/// `adds` and `subs` with a number of three bits.
fn small_number(mnemonic: Mnemonic, d: u8, n: u8, number: Number) -> Option<Item>
    ensures { result ≡ small_number mnemonic d n number }
{
    let small = units(1, 0, 7, number);
    let op = small_op(mnemonic, field(small), n, d);
    short(small.is_some(), is_low(d) && is_low(n), op)
}

/// The shifts by a number, `add d, sp, #k`, `adds` and `subs` with a number of three bits.
fn registers_immediate(mnemonic: Mnemonic, d: u8, n: u8, number: Number) -> Option<Item>
    ensures { result ≡ registers_immediate mnemonic d n number }
{
    match mnemonic {
        Mnemonic::Lsls => Some(shift_left(d, n, number)),
        Mnemonic::Lsrs | Mnemonic::Asrs => shift_right(mnemonic, d, n, number),
        Mnemonic::Add => from_stack(d, n, number),
        _ => small_number(mnemonic, d, n, number),
    }
}

/// `ldr t, name` and `adr d, name`.
fn register_name(mnemonic: Mnemonic, register: u8, name: Span) -> Option<Item>
    ensures { result ≡ register_name mnemonic register name }
{
    match mnemonic {
        Mnemonic::Ldr => Some(Item::Literal(register, name)),
        Mnemonic::Adr => Some(Item::Address(register, name)),
        _ => None,
    }
}

/// Loads and stores `t, [n, m]`.
fn index_register(mnemonic: Mnemonic, t: u8, n: u8, m: u8) -> Option<Item>
    ensures { result ≡ index_register mnemonic t n m }
{
    short(
        true,
        is_low(t) && is_low(n) && is_low(m),
        index_op(mnemonic, m, n, t),
    )
}

/// The bytes of a unit of a load or store.
fn unit_of(mnemonic: Mnemonic) -> u64
    ensures value { result ≡ unit_of mnemonic }
    ensures some { 0 < result }
{
    match mnemonic {
        Mnemonic::Str | Mnemonic::Ldr => 4,
        Mnemonic::Strh | Mnemonic::Ldrh => 2,
        _ => 1,
    }
}

/// Loads and stores `t, [n, #k]`; `str` and `ldr` `t, [sp, #k]`.
fn index_immediate(mnemonic: Mnemonic, t: u8, n: u8, number: Number) -> Option<Item>
    ensures { result ≡ index_immediate mnemonic t n number }
{
    let unit = unit_of(mnemonic);
    if n == STACK_POINTER && unit == 4 {
        let words = units(4, 0, 255, number);
        short(
            words.is_some(),
            is_low(t),
            stack_op(mnemonic, t, field(words)),
        )
    } else {
        let count = units(unit, 0, 31, number);
        let op = offset_op(mnemonic, field(count), n, t);
        short(count.is_some(), is_low(t) && is_low(n), op)
    }
}

/// A list that ascends, of low registers and perhaps the one of this bit of the upper eight.
fn holds_list(list: RegisterList, last: u16) -> bool
    ensures { result ≡ holds_list list.ascends list.mask last }
{
    list.ascends && (list.mask / 256 == 0 || list.mask / 256 == last)
}

/// `push` and `pop`.
fn with_list(mnemonic: Mnemonic, list: RegisterList) -> Option<Item>
    ensures { result ≡ with_list mnemonic list }
{
    let l = (list.mask % 256) as u8;
    match mnemonic {
        Mnemonic::Push => {
            let r = list.mask / 256 == 0x40;
            Some(judged(2, true, holds_list(list, 0x40), Op::Push { r, l }))
        }
        Mnemonic::Pop => {
            let r = list.mask / 256 == 0x80;
            Some(judged(2, true, holds_list(list, 0x80), Op::Pop { r, l }))
        }
        _ => None,
    }
}

fn is_listed(n: u8, list: RegisterList) -> bool
    ensures { result ≡ is_listed n list.mask }
{
    list.mask & register_bit(n) != 0
}

/// `stm n!, {list}` and `ldm n!, {list}`.
fn write_back(mnemonic: Mnemonic, n: u8, list: RegisterList) -> Option<Item>
    ensures { result ≡ write_back mnemonic n list }
{
    let held = is_low(n) && holds_list(list, 0);
    let l = (list.mask % 256) as u8;
    match mnemonic {
        Mnemonic::Stm => Some(judged(2, true, held, Op::Stm { n, l })),
        Mnemonic::Ldm => {
            let held = held && !is_listed(n, list);
            Some(judged(2, true, held, Op::Ldm { n, l }))
        }
        _ => None,
    }
}

/// `ldm n, {list}`.
fn register_and_list(mnemonic: Mnemonic, n: u8, list: RegisterList) -> Option<Item>
    ensures { result ≡ register_and_list mnemonic n list }
{
    let held = is_low(n) && holds_list(list, 0) && is_listed(n, list);
    let l = (list.mask % 256) as u8;
    match mnemonic {
        Mnemonic::Ldm => Some(judged(2, true, held, Op::Ldm { n, l })),
        _ => None,
    }
}

/// The item of a mnemonic and its operands on this line.
#[tactic(auto, unfolding(crate::specs::descent::Forms::form_of))]
pub(crate) fn form_of(line: &[u8], mnemonic: Mnemonic, operands: Operands) -> Option<Item>
    ensures { result ≡ form_of line.now mnemonic operands }
{
    match operands {
        Operands::Empty => bare_item(mnemonic),
        Operands::Number(k) => with_number(mnemonic, k),
        Operands::Name(name) => with_name(line, mnemonic, name),
        Operands::NamePlus(name, k) => with_sum(mnemonic, name, k),
        Operands::Immediate(k) => with_immediate(mnemonic, k),
        Operands::ImmediateRegister(k, m) => immediate_register(mnemonic, k, m),
        Operands::Register(m) => with_register(mnemonic, m),
        Operands::TwoRegisters(d, m) => two_registers(mnemonic, d, m),
        Operands::ThreeRegisters(d, n, m) => three_registers(mnemonic, d, n, m),
        Operands::RegisterImmediate(d, k) => register_immediate(mnemonic, d, k),
        Operands::RegistersImmediate(d, n, k) => registers_immediate(mnemonic, d, n, k),
        Operands::RegisterName(r, name) => register_name(mnemonic, r, name),
        Operands::IndexRegister(t, n, m) => index_register(mnemonic, t, n, m),
        Operands::IndexImmediate(t, n, k) => index_immediate(mnemonic, t, n, k),
        Operands::List(list) => with_list(mnemonic, list),
        Operands::WriteBack(n, list) => write_back(mnemonic, n, list),
        Operands::RegisterAndList(n, list) => register_and_list(mnemonic, n, list),
    }
}
